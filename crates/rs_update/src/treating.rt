//! A section of path attributes by RFC 7606: what it asks for, and what is left of it without the attributes
//! that are discarded (sections 3 and 7).

ghost use Rattle.std.specs.Prelude.{◌≡◌, ◌≤◌, IfOk, length, slice_index_or, false, if◌then◌else◌, None};
ghost use Rattle.rs_types.specs.AttributeType.{type_of};
ghost use Rattle.rs_update.specs.Handling.{handling_again, handling_of_own, strongest_in, kept_of, kept_section};
ghost use Rattle.rs_types.specs.Items.{item_of};
ghost use Rattle.rs_types.specs.Section.{items_of, own_fault_of, section_fault};

use crate::handling::{handling_again, handling_of, is_keep, stronger};
use crate::section::{TYPES, own_fault};
use rs_types::{AttributeType, Handling, Item, UpdateFault, split_item};
use std::alloc::{AllocError, Global};

/// The strongest handling that a section asks for. It reads each octet once and takes no memory.
pub(crate) fn section_handling(section: &[u8]) -> Handling
    ensures { result ≡ strongest_in section.now }
{
    let mut seen = [false; TYPES];
    let mut strongest = Handling::Keep;
    let mut rest = section;
    while let Some(split) = split_item(rest) {
        strongest = stronger(strongest, item_handling(&seen, &split.0));
        seen[usize::from(split.0.kind)] = true;
        rest = split.1;
    }
    if rest.is_empty() {
        return strongest;
    }
    stronger(
        strongest,
        Handling::SessionReset(UpdateFault::MalformedAttributeList),
    )
}

// The handling that one attribute asks for; `seen` says which types stood earlier.
fn item_handling(seen: &[bool; TYPES], item: &Item) -> Handling
    ensures { result ≡ (if slice_index_or seen.now item.now.kind false then handling_again (type_of item.now.kind)
        else handling_of_own (type_of item.now.kind) (own_fault_of (item_of item.now))) }
{
    let kind = AttributeType::of(item.kind);
    if seen[usize::from(item.kind)] {
        return handling_again(kind);
    }
    handling_of(kind, own_fault(kind, item.flags, item.value))
}

/// The section without the attributes that are discarded, as it was received otherwise.
pub(crate) fn keep_attributes(alloc: Global, section: &[u8]) -> Result<Vec<u8>, AllocError>
    ensures value { IfOk result (λ kept. kept.items ≡ kept_section section.now) }
    ensures items { IfOk result (λ kept. items_of kept.items ≡ kept_of (items_of section.now)) }
    ensures faultless { IfOk result (λ kept. section_fault kept.items ≡ None) }
    ensures bound { IfOk result (λ kept. length kept.items ≤ length section.now) }
{
    let mut kept = Vec::with_capacity(alloc, section.len())?;
    let mut seen = [false; TYPES];
    let mut rest = section;
    while let Some(split) = split_item(rest) {
        if is_keep(item_handling(&seen, &split.0)) {
            kept.extend_from_slice(&rest[..rest.len() - split.1.len()])?;
        }
        seen[usize::from(split.0.kind)] = true;
        rest = split.1;
    }
    Ok(kept)
}
