//! The places of the attributes of a section, by their types (RFC 4271, section 5).
//!
//! One pass finds them, once for each message. A section without fault has at most one attribute of each type.

ghost use Rattle.std.specs.Prelude.{◌≡◌, ◌<◌, ◌≤◌, length, None, replicate};
ghost use Rattle.rs_update.specs.Found.{AreFound, stands, has_mandatory};
ghost use Rattle.rs_types.specs.Section.{section_fault};

use crate::section::TYPES;
use rs_types::{AS_PATH, NEXT_HOP, ORIGIN, split_item};

/// A place behind the end of each section.
pub(crate) const NOWHERE: u16 = u16::MAX;

/// The places at which the attributes of a section begin, by their types.
#[derive(Clone, Copy)]
pub(crate) struct Found<'t> {
    /// A place for each type; `NOWHERE` if no attribute has the type.
    pub(crate) places: &'t [u16; TYPES],
    /// No attribute has this type or a higher one.
    pub(crate) end: usize,
}

impl Found<'_> {
    /// Whether an attribute of a type was found.
    pub(crate) fn stands(&self, kind: u8) -> bool
        ensures { result ≡ stands self.now kind }
    {
        self.places[usize::from(kind)] != NOWHERE
    }

    /// Whether ORIGIN, AS_PATH and NEXT_HOP were found.
    pub(crate) fn has_mandatory(&self) -> bool
        ensures { result ≡ has_mandatory self.now }
    {
        self.stands(ORIGIN) && self.stands(AS_PATH) && self.stands(NEXT_HOP)
    }
}

// The end of the types, after one more type was found.
fn end_with(end: usize, kind: u8) -> usize
    ensures before { end ≤ result }
    ensures behind { kind < result }
    ensures fits { end ≤ 256 → result ≤ 256 }
{
    let next = usize::from(kind) + 1;
    if next > end { next } else { end }
}

/// Finds the attributes of a section: fills in the place of each type, and answers the end of the types.
pub(crate) fn find_items(section: &[u8], places: &mut [u16; TYPES]) -> usize
    requires faultless { section_fault section.now ≡ None }
    requires short { length section.now ≤ 4073 }
    requires nowhere { places.old ≡ replicate 256 65535 }
    ensures { AreFound places.new result section.now }
{
    let mut end = 0;
    let mut rest = section;
    while let Some(front) = split_item(rest) {
        let kind = usize::from(front.0.kind);
        places[kind] = (section.len() - rest.len()) as u16;
        end = end_with(end, front.0.kind);
        rest = front.1;
    }
    end
}
