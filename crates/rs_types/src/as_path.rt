//! AS_PATH: segments of AS numbers of four octets (RFC 4271, sections 4.3 and 5.1.2; RFC 6793).
//!
//! An empty AS_PATH is accepted (our choice). Segments of confederations are of no known type here, and so a fault.

ghost use Rattle.std.specs.Prelude.{◌≡◌, ◌<◌, ◌==◌, IfOk};
ghost use Rattle.std.specs.List.{list_any};
ghost use Rattle.std.specs.Option.{option_map};
ghost use Rattle.rs_types.specs.AsPath.{segment_of, numbers_of, hops_of, path_length_of, first_as_of, holds_as_in};
ghost use Rattle.rs_types.specs.PathSegments.{segment_at, segments_of};
ghost use Rattle.rs_types.specs.Section.{is_path as is_path_value};
ghost use Rattle.rs_types.specs.Segments.{segment_split_of};
ghost use Rattle.rs_types.specs.Shapes.{segment_in};

use crate::number_list::{NUMBER_LEN, Numbers};
use std::alloc::{AllocError, Global};

// The types of a segment (section 4.3).
const AS_SET: u8 = 1;

const AS_SEQUENCE: u8 = 2;

/// A segment of an AS_PATH in memory of its own: AS numbers of four octets, at least one and at most 255.
#[derive(Debug, Drop)]
pub enum Segment {
    /// An AS_SET: unordered.
    Set(Vec<u32>),
    /// An AS_SEQUENCE: ordered, the AS nearest to the receiver first.
    Sequence(Vec<u32>),
}

/// A segment of an AS_PATH, at its place in the written form of a route's attributes.
#[derive(Clone, Copy, Debug)]
pub enum SegmentView<'a> {
    /// An AS_SET: unordered.
    Set(Numbers<'a>),
    /// An AS_SEQUENCE: ordered, the AS nearest to the receiver first.
    Sequence(Numbers<'a>),
}

/// The segments of an AS_PATH: an iterator over them, in order, that takes no memory.
#[derive(Clone, Copy, Debug)]
pub struct Segments<'a> {
    pub(crate) octets: &'a [u8],
}

impl<'a> Iterator for Segments<'a> {
    ghost use Rattle.std.specs.Iterator.{YieldsFirstBy, item_count};
    ghost use Rattle.rs_types.specs.Shapes.{segment_in, segments_in};

    type Item = SegmentView<'a>;

    ghost next_gives = { YieldsFirstBy segment_in segments_in };

    ghost remaining = { item_count segments_in };

    fn next(&mut self) -> Option<SegmentView<'a>> {
        let front = split_segment(self.octets)?;
        self.octets = front.1;
        Some(front.0)
    }
}

impl SegmentView<'_> {
    /// A copy of the segment in memory of its own.
    pub fn to_segment(&self, alloc: Global) -> Result<Segment, AllocError>
        ensures { IfOk result (λ segment. segment_of segment ≡ segment_in self.now) }
    {
        match self {
            SegmentView::Set(numbers) => Ok(Segment::Set(numbers.to_vec(alloc)?)),
            SegmentView::Sequence(numbers) => Ok(Segment::Sequence(numbers.to_vec(alloc)?)),
        }
    }

    // How many AS numbers it counts (RFC 4271, section 9.1.2.2, a).
    fn hops(self) -> u32
        requires { hops_of (segment_in self) < 65536 }
        ensures { result ≡ hops_of (segment_in self.entry) }
    {
        match self {
            SegmentView::Set(_) => 1,
            SegmentView::Sequence(numbers) => numbers.len() as u32,
        }
    }

    // Whether an AS number stands in the segment.
    fn holds(self, asn: u32) -> bool
        ensures { result ≡ list_any (λ number. number == asn) (numbers_of (segment_in self.entry)) }
    {
        match self {
            SegmentView::Set(numbers) => numbers.contains(asn),
            SegmentView::Sequence(numbers) => numbers.contains(asn),
        }
    }
}

// The first segment of an AS_PATH and the octets behind it, or None if the octets begin with no segment.
#[tactic(auto, unfolding(crate::specs::PathSegments::segment_at))]
fn split_segment(octets: &[u8]) -> Option<(SegmentView<'_>, &[u8])>
    ensures { option_map segment_split_of result ≡ segment_at octets.now }
{
    match octets {
        [kind, count, behind @ ..] => {
            let count = usize::from(*count);
            if count == 0 || behind.len() < NUMBER_LEN * count {
                return None;
            }
            let numbers = Numbers {
                count,
                octets: behind,
            };
            let rest = &behind[NUMBER_LEN * count..];
            match *kind {
                AS_SET => Some((SegmentView::Set(numbers), rest)),
                AS_SEQUENCE => Some((SegmentView::Sequence(numbers), rest)),
                _ => None,
            }
        }
        _ => None,
    }
}

/// Whether the octets are segments, one after another, and nothing else.
pub(crate) fn is_path(value: &[u8]) -> bool
    ensures { result ≡ is_path_value value.now }
{
    let mut rest = value;
    while let Some(front) = split_segment(rest) {
        rest = front.1;
    }
    rest.is_empty()
}

/// How many AS numbers a path has, an AS_SET counting 1 (RFC 4271, section 9.1.2.2, a).
pub(crate) fn path_length(value: &[u8]) -> u32
    requires { path_length_of (segments_of value.now).0 < 65536 }
    ensures value { result ≡ path_length_of (segments_of value.now).0 }
    ensures bound { result < 65536 }
{
    let mut hops = 0;
    let mut rest = value;
    while let Some(front) = split_segment(rest) {
        hops += front.0.hops();
        rest = front.1;
    }
    hops
}

/// The first AS number of a path that begins with an AS_SEQUENCE.
pub(crate) fn first_as(value: &[u8]) -> Option<u32>
    ensures { result ≡ first_as_of (segments_of value.now).0 }
{
    match split_segment(value)?.0 {
        SegmentView::Set(_) => None,
        SegmentView::Sequence(numbers) => {
            let mut rest = numbers;
            rest.next()
        }
    }
}

/// Whether an AS number stands in a path, in a segment of either kind.
pub(crate) fn holds_as(value: &[u8], asn: u32) -> bool
    ensures { result ≡ holds_as_in (segments_of value.now).0 asn }
{
    let mut rest = value;
    while let Some(front) = split_segment(rest) {
        if front.0.holds(asn) {
            return true;
        }
        rest = front.1;
    }
    false
}
