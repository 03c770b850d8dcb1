//! The attributes of a route, out of a section that is without fault (RFC 4271, section 5; RFC 1997; RFC 6793).
//!
//! All attributes of a route are made at once, from their written form.

ghost use Rattle.std.specs.Prelude.{◌≡◌, ◌≤◌, length, None, IfOk};
ghost use Rattle.rs_types.specs.Gathered.{attributes_of};
ghost use Rattle.rs_types.specs.Section.{items_of, section_fault};
ghost use Rattle.rs_update.specs.Found.{Finds};

use crate::found::{Found, NOWHERE, find_items};
use crate::section::TYPES;
use crate::spelling::spell;
use rs_types::Attributes;
use std::alloc::{AllocError, Global};

/// The attributes that a section without fault gives a route; `found` has their places. None if ORIGIN, AS_PATH or
/// NEXT_HOP is missing; then no memory is taken.
pub(crate) fn gather(
    alloc: Global,
    section: &[u8],
    found: &Found<'_>,
) -> Result<Option<Attributes>, AllocError>
    requires faultless { section_fault section.now ≡ None }
    requires short { length section.now ≤ 4073 }
    requires are_found { Finds found.now section.now }
    ensures { IfOk result (λ attributes. attributes ≡ attributes_of (items_of section.now)) }
{
    if !found.has_mandatory() {
        return Ok(None);
    }
    let spelling = spell(alloc, section, found)?;
    Ok(Some(Attributes::of_written(spelling)))
}

/// Finds the attributes of a section without fault, and gathers those that the section gives a route.
pub(crate) fn find_and_gather(
    alloc: Global,
    section: &[u8],
) -> Result<Option<Attributes>, AllocError>
    requires faultless { section_fault section.now ≡ None }
    requires short { length section.now ≤ 4073 }
    ensures { IfOk result (λ attributes. attributes ≡ attributes_of (items_of section.now)) }
{
    let mut places = [NOWHERE; TYPES];
    let end = find_items(section, &mut places);
    gather(
        alloc,
        section,
        &Found {
            places: &places,
            end,
        },
    )
}
