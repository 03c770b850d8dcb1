//! The written form of a route's attributes (RFC 4271, section 4.3).

ghost use Rattle.std.specs.Prelude.{◌≡◌, ◌+◌, ◌≤◌, ◌<◌, ◌++◌, None, true, false, if◌then◌else◌, length, IfOk, OnOk};
ghost use Rattle.std.specs.Prelude.{OnErr, IsOk, vec_len, vec_capacity, option_and_then};
ghost use Rattle.std.specs.Option.{ForSome, option_map};
ghost use Rattle.rs_types.specs.declared.attribute_type.WantedFlags.TheVariants.{Optional};
ghost use Rattle.rs_types.specs.AttributeType.{is_extended};
ghost use Rattle.rs_update.specs.Found.{Finds, IsPlain, IsSpellable, kept_by, kept_of, spelled_kept, spelled_section};
ghost use Rattle.rs_types.specs.Items.{item_of};
ghost use Rattle.rs_types.specs.Section.{items_of, section_fault};
ghost use Rattle.rs_types.specs.Spelling.{written, written_flags, spelled_item};

use crate::found::Found;
use byteorder::{BigEndian, ByteOrder};
use rs_types::{AttributeType, Attributes, Item, WantedFlags, item_from};
use std::alloc::{AllocError, Global};

// The most octets of a value whose length takes one octet.
const MOST_SHORT: usize = 255;

// The flags of an attribute as it is written, without Extended Length: the low four bits are 0.
const WELL_KNOWN: u8 = 0x40;

const OPTIONAL_NON_TRANSITIVE: u8 = 0x80;

const OPTIONAL_TRANSITIVE: u8 = 0xC0;

const OPTIONAL_TRANSITIVE_PARTIAL: u8 = 0xE0;

// Added if the length takes two octets.
const EXTENDED_LENGTH: u8 = 0x10;

/// Appends the written form of `attributes` to `out`, at most 4,073 octets. If memory is refused, `out` is
/// unchanged. If the capacity of `out` has room, the call takes no memory and succeeds.
pub fn write_attributes(attributes: &Attributes, out: &mut Vec<u8>) -> Result<(), AllocError>
    ensures ok { OnOk result (out.new.items ≡ out.old.items ++ written attributes.now) }
    ensures bound { length (written attributes.now) ≤ 4073 }
    ensures err { OnErr result (out.new.items ≡ out.old.items) }
    ensures succeeds { vec_len out.old + length (written attributes.now) ≤ vec_capacity out.old → IsOk result }
    ensures room { vec_capacity out.old ≤ vec_capacity out.new }
{
    out.extend_from_slice(attributes.spelling())
}

/// The written form of a section: its attributes in ascending type, each as it is kept. It takes memory once.
pub(crate) fn spell(alloc: Global, section: &[u8], found: &Found<'_>) -> Result<Vec<u8>, AllocError>
    requires faultless { section_fault section.now ≡ None }
    requires are_found { Finds found.now section.now }
    ensures { IfOk result (λ spelling. spelling.items ≡ spelled_section (items_of section.now)) }
{
    let mut out = Vec::with_capacity(alloc, section.len())?;
    for kind in 0..found.end {
        push_kept(&mut out, item_from(section, found.places[kind]))?;
    }
    Ok(out)
}

// Appends an attribute as it is written, if there is one and its type is not dropped. Its flags are those of its
// type. An unrecognized attribute that is passed on has its Partial bit set (RFC 4271, section 5).
fn push_kept(out: &mut Vec<u8>, item: Option<Item<'_>>) -> Result<(), AllocError>
    requires { ForSome item IsSpellable }
    ensures { OnOk result (out.new.items
        ≡ out.old.items ++ spelled_kept (option_and_then kept_of (option_map item_of item.entry))) }
{
    let Some(item) = item else {
        return Ok(());
    };
    match AttributeType::of(item.kind).row().flags {
        WantedFlags::WellKnown => push_item(out, WELL_KNOWN, item.kind, item.value),
        WantedFlags::OptionalNonTransitive => push_item(
            out,
            OPTIONAL_NON_TRANSITIVE,
            item.kind,
            item.value,
        ),
        WantedFlags::OptionalTransitive => push_item(
            out,
            optional_transitive(item.flags.is_partial()),
            item.kind,
            item.value,
        ),
        WantedFlags::Optional => push_passed_on(out, item),
        WantedFlags::Any => Ok(()),
    }
}

// Appends an unrecognized attribute if it is passed on.
fn push_passed_on(out: &mut Vec<u8>, item: Item<'_>) -> Result<(), AllocError>
    requires { IsSpellable item }
    ensures { OnOk result (out.new.items ≡ out.old.items ++ spelled_kept (kept_by Optional (item_of item.entry))) }
{
    if !item.flags.is_transitive() {
        return Ok(());
    }
    push_item(out, OPTIONAL_TRANSITIVE_PARTIAL, item.kind, item.value)
}

// The flags of an optional transitive attribute, with the Partial bit as it was received.
fn optional_transitive(partial: bool) -> u8
    ensures value { result ≡ (if partial then 0xE0 else 0xC0) }
    ensures plain { IsPlain result }
{
    if partial {
        OPTIONAL_TRANSITIVE_PARTIAL
    } else {
        OPTIONAL_TRANSITIVE
    }
}

// Appends an attribute. Extended Length is set exactly if the value is longer than 255 octets.
fn push_item(out: &mut Vec<u8>, flags: u8, kind: u8, value: &[u8]) -> Result<(), AllocError>
    requires plain { IsPlain flags }
    requires short { length value.now < 65536 }
    ensures { OnOk result (out.new.items
        ≡ out.old.items ++ spelled_item
        (record { flags = written_flags flags value.now; kind = kind; value = value.now })) }
{
    if value.len() > MOST_SHORT {
        push_long(out, flags + EXTENDED_LENGTH, kind, value)
    } else {
        push_short(out, flags, kind, value)
    }
}

// Appends an attribute with a length of two octets.
fn push_long(out: &mut Vec<u8>, flags: u8, kind: u8, value: &[u8]) -> Result<(), AllocError>
    requires extended { is_extended flags ≡ true }
    requires short { length value.now < 65536 }
    ensures { OnOk result (out.new.items
        ≡ out.old.items ++ spelled_item (record { flags = flags; kind = kind; value = value.now })) }
{
    let mut head = [flags, kind, 0, 0];
    BigEndian::write_u16(&mut head[2..], value.len() as u16);
    out.extend_from_slice(&head)?;
    out.extend_from_slice(value)
}

// Appends an attribute with a length of one octet.
fn push_short(out: &mut Vec<u8>, flags: u8, kind: u8, value: &[u8]) -> Result<(), AllocError>
    requires extended { is_extended flags ≡ false }
    requires short { length value.now < 256 }
    ensures { OnOk result (out.new.items
        ≡ out.old.items ++ spelled_item (record { flags = flags; kind = kind; value = value.now })) }
{
    out.extend_from_slice(&[flags, kind, value.len() as u8])?;
    out.extend_from_slice(value)
}
