//! The first fault of a section of path attributes (RFC 4271, section 6.3).
//!
//! The standard leaves the order of the tests open. We test attributes front to back. For each one we test whether it
//! passes the section's end, and then whether its type stood earlier, whatever the type. Then come the class, the
//! flags, the length and the value.

ghost use Rattle.std.specs.Prelude.{◌≡◌, Some, None, if◌then◌else◌, slice_index_or, false, replicate};
ghost use Rattle.rs_types.specs.declared.fault.UpdateFault.TheVariants.{MalformedAttributeList};
ghost use Rattle.rs_types.specs.FirstFault.{first_fault};
ghost use Rattle.rs_update.specs.Concerns.{AreTypesOf};
ghost use Rattle.rs_types.specs.Items.{item_of};
ghost use Rattle.rs_types.specs.Section.{section_fault as section_fault_of, own_fault_of, tests_of, items_of};

use rs_types::{AttributeType, Flags, Item, UpdateFault, split_item};

// The numbers that a type can have.
pub(crate) const TYPES: usize = 256;

/// The first fault of a section, or None if it has none. It reads each octet once and takes no memory.
pub(crate) fn section_fault(section: &[u8]) -> Option<UpdateFault>
    ensures { result ≡ section_fault_of section.now }
{
    let mut seen = [false; TYPES];
    find_fault(section, &mut seen)
}

/// The first fault of a section. If there is none, `seen` says afterwards which types the section has.
pub(crate) fn find_fault(section: &[u8], seen: &mut [bool; TYPES]) -> Option<UpdateFault>
    requires { seen.old ≡ replicate 256 false }
    ensures fault { result ≡ section_fault_of section.now }
    ensures types { result ≡ None → AreTypesOf seen.new (items_of section.now) }
{
    let mut rest = section;
    while let Some(split) = split_item(rest) {
        if let Some(fault) = item_fault(seen, &split.0) {
            return Some(fault);
        }
        seen[usize::from(split.0.kind)] = true;
        rest = split.1;
    }
    if rest.is_empty() {
        return None;
    }
    Some(UpdateFault::MalformedAttributeList)
}

// The fault of one attribute; `seen` says which types stood earlier. This function is inlined into the loop over a
// section. As a call it would build a whole row of the table of types for each attribute.
#[inline(always)]
fn item_fault(seen: &[bool; TYPES], item: &Item) -> Option<UpdateFault>
    ensures { result ≡ (if slice_index_or seen.now item.now.kind false then Some MalformedAttributeList
        else own_fault_of (item_of item.now)) }
{
    if seen[usize::from(item.kind)] {
        return Some(UpdateFault::MalformedAttributeList);
    }
    own_fault(AttributeType::of(item.kind), item.flags, item.value)
}

// The fault that an attribute's own tests find: class, flags, length, value. This function is inlined into its
// callers' loops too.
#[inline(always)]
pub(crate) fn own_fault(kind: AttributeType, flags: Flags, value: &[u8]) -> Option<UpdateFault>
    ensures { result ≡ first_fault (tests_of kind flags.octet value.now) }
{
    if kind.is_unrecognized() && !flags.is_optional() {
        return Some(UpdateFault::UnrecognizedWellKnown);
    }
    let row = kind.row();
    if !row.flags.suits(flags) {
        return Some(UpdateFault::AttributeFlags);
    }
    if !row.lengths.admit(value.len()) {
        return Some(UpdateFault::AttributeLength);
    }
    row.value.fault(value)
}
