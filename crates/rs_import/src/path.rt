//! What import policy asks of an AS_PATH: its origin AS (RFC 6811, section 2), its first AS and all of its AS numbers.

ghost use Rattle.std.specs.Prelude.{◌≡◌, None, Some, find, map};
ghost use Rattle.std.specs.List.{list_any};
ghost use Rattle.rs_types.specs.AsPath.{first_as_of, numbers_of};
ghost use Rattle.rs_types.specs.Shapes.{numbers_in, segment_in};
ghost use Rattle.rs_import.specs.AsRanges.{is_in_ranges};
ghost use Rattle.rs_import.specs.Import.{holds_one_of, refused_as_of};
ghost use Rattle.rs_import.specs.Rpki.{last_or, origin_of, origin_of_segment};

use crate::as_set::AsSet;
use rs_types::{Attributes, Numbers, SegmentView};

/// The origin AS of a route: the rightmost AS number of the final segment of its AS_PATH, if that is an AS_SEQUENCE.
/// None, which stands for NONE, if it is an AS_SET. Of an empty AS_PATH it is the server's own AS. It takes no memory.
pub fn origin_as(attributes: &Attributes, own_as: u32) -> Option<u32>
    ensures { result ≡ origin_of own_as attributes.now.path }
{
    let mut origin = Some(own_as);
    let mut segments = attributes.path();
    while let Some(segment) = segments.next() {
        origin = origin_of_segment(segment);
    }
    origin
}

// The origin AS that a final segment gives.
fn origin_of_segment(segment: SegmentView<'_>) -> Option<u32>
    ensures { result ≡ origin_of_segment (segment_in segment.entry) }
{
    match segment {
        SegmentView::Set(_) => None,
        SegmentView::Sequence(numbers) => last_number(numbers),
    }
}

// The last of some AS numbers.
fn last_number(numbers: Numbers<'_>) -> Option<u32>
    ensures { result ≡ last_or None (map (λ number. Some number) (numbers_in numbers.entry)) }
{
    let mut last = None;
    let mut rest = numbers;
    while let Some(number) = rest.next() {
        last = Some(number);
    }
    last
}

/// The first AS number of a route's AS_PATH, if that begins with an AS_SEQUENCE. It takes no memory.
pub fn first_as(attributes: &Attributes) -> Option<u32>
    ensures { result ≡ first_as_of attributes.now.path }
{
    let mut segments = attributes.path();
    match segments.next() {
        Some(SegmentView::Sequence(numbers)) => {
            let mut numbers = numbers;
            numbers.next()
        }
        _ => None,
    }
}

// Whether some AS number of a route's AS_PATH is in a set.
pub(crate) fn holds_one_of(attributes: &Attributes, set: &AsSet) -> bool
    ensures { result ≡ holds_one_of set.now attributes.now.path }
{
    let mut segments = attributes.path();
    while let Some(segment) = segments.next() {
        if segment_holds(segment, set) {
            return true;
        }
    }
    false
}

/// The first AS number of a route's AS_PATH that is in a set, its segments in order. It takes no memory.
pub fn refused_as(attributes: &Attributes, set: &AsSet) -> Option<u32>
    ensures { result ≡ refused_as_of set.now attributes.now.path }
{
    let mut segments = attributes.path();
    while let Some(segment) = segments.next() {
        let found = first_in_segment(segment, set);
        if found.is_some() {
            return found;
        }
    }
    None
}

// The first AS number of a segment that is in a set.
fn first_in_segment(segment: SegmentView<'_>, set: &AsSet) -> Option<u32>
    ensures { result ≡ find (λ asn. is_in_ranges set.now asn) (numbers_of (segment_in segment.entry)) }
{
    match segment {
        SegmentView::Set(numbers) => first_held(numbers, set),
        SegmentView::Sequence(numbers) => first_held(numbers, set),
    }
}

// The first of some numbers that is in a set.
fn first_held(numbers: Numbers<'_>, set: &AsSet) -> Option<u32>
    ensures { result ≡ find (λ asn. is_in_ranges set.now asn) (numbers_in numbers.entry) }
{
    let mut rest = numbers;
    while let Some(number) = rest.next() {
        if set.holds(number) {
            return Some(number);
        }
    }
    None
}

// Whether some AS number of a segment is in a set.
fn segment_holds(segment: SegmentView<'_>, set: &AsSet) -> bool
    ensures { result ≡ list_any (λ asn. is_in_ranges set.now asn) (numbers_of (segment_in segment.entry)) }
{
    match segment {
        SegmentView::Set(numbers) => some_held(numbers, set),
        SegmentView::Sequence(numbers) => some_held(numbers, set),
    }
}

// Whether some number is in a set.
fn some_held(numbers: Numbers<'_>, set: &AsSet) -> bool
    ensures { result ≡ list_any (λ asn. is_in_ranges set.now asn) (numbers_in numbers.entry) }
{
    let mut rest = numbers;
    while let Some(number) = rest.next() {
        if set.holds(number) {
            return true;
        }
    }
    false
}
