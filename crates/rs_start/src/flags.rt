//! The flags of path attributes in a table.
//!
//! An entry has its path attributes as in an UPDATE (RFC 6396, section 4.3.4). BIRD 2 writes NEXT_HOP and LOCAL_PREF
//! there with flags 0.
//! Our choice: flags of a recognized type aren't judged. The session has the right ones (RFC 4271, section 4.3).

ghost use Rattle.std.specs.Prelude.{◌≡◌, ◌<◌, ◌++◌, true, false, length, IfOk, IsTrue, OnOk};
ghost use Rattle.rs_start.specs.RightFlags.{asked_of, mended, right_flags, with_right_flags};
ghost use Rattle.rs_types.specs.AttributeType.{is_extended};
ghost use Rattle.rs_types.specs.Items.{item_of};
ghost use Rattle.rs_types.specs.Section.{FitsItsLength};
ghost use Rattle.rs_types.specs.Spelling.{spelled_item};

use byteorder::{BigEndian, ByteOrder};
use rs_types::{AttributeType, Flags, Item, WantedFlags, split_item};
use std::alloc::{AllocError, Global};

// The flags of an attribute as it is sent, without Extended Length.
const WELL_KNOWN: u8 = 0x40;

const OPTIONAL_NON_TRANSITIVE: u8 = 0x80;

const OPTIONAL_TRANSITIVE: u8 = 0xC0;

const OPTIONAL_TRANSITIVE_PARTIAL: u8 = 0xE0;

// Added where the length takes two octets.
const EXTENDED_LENGTH: u8 = 0x10;

/// A section of path attributes with the flags that their types ask for. Fails where memory is refused.
pub(crate) fn mended(alloc: Global, section: &[u8]) -> Result<Vec<u8>, AllocError>
    ensures { IfOk result (λ out. out.items ≡ mended section.now) }
{
    let mut out = Vec::with_capacity(alloc, section.len())?;
    let mut rest = section;
    while let Some(split) = split_item(rest) {
        push_mended(&mut out, split.0)?;
        rest = split.1;
    }
    out.extend_from_slice(rest)?;
    Ok(out)
}

/// Whether all attributes of a section have the flags that their types ask for. It takes no memory.
pub(crate) fn has_right_flags(section: &[u8]) -> bool
    ensures { IsTrue result → mended section.now ≡ section.now }
{
    let mut rest = section;
    while let Some(split) = split_item(rest) {
        if !is_right(split.0) {
            return false;
        }
        rest = split.1;
    }
    true
}

// Whether an attribute has the flags that its type asks for.
fn is_right(item: Item<'_>) -> bool
    ensures { IsTrue result → with_right_flags (item_of item.entry) ≡ item_of item.entry }
{
    let wanted = asked_of(AttributeType::of(item.kind));
    right_flags(wanted, item.flags) == item.flags.octet
}

// Appends an attribute with the flags that its type asks for.
fn push_mended(out: &mut Vec<u8>, item: Item<'_>) -> Result<(), AllocError>
    requires { FitsItsLength (item_of item) }
    ensures { OnOk result (out.new.items ≡ out.old.items ++ spelled_item (with_right_flags (item_of item.entry))) }
{
    let wanted = asked_of(AttributeType::of(item.kind));
    push_item(out, right_flags(wanted, item.flags), item.kind, item.value)
}

// What a type asks of the flags. A route server drops LOCAL_PREF, whatever its flags: but it is well-known.
fn asked_of(kind: AttributeType) -> WantedFlags
    ensures { result ≡ asked_of kind }
{
    match kind {
        AttributeType::LocalPref => WantedFlags::WellKnown,
        kind => kind.row().flags,
    }
}

// The flags of an attribute as it is sent, if such flags are wanted of it.
fn right_flags(wanted: WantedFlags, flags: Flags) -> u8
    ensures value { result ≡ right_flags wanted flags.octet }
    ensures extended { is_extended result ≡ is_extended flags.octet }
{
    let extended = if flags.is_extended() {
        EXTENDED_LENGTH
    } else {
        0
    };
    match wanted {
        WantedFlags::WellKnown => WELL_KNOWN + extended,
        WantedFlags::OptionalNonTransitive => OPTIONAL_NON_TRANSITIVE + extended,
        WantedFlags::OptionalTransitive if flags.is_partial() => {
            OPTIONAL_TRANSITIVE_PARTIAL + extended
        }
        WantedFlags::OptionalTransitive => OPTIONAL_TRANSITIVE + extended,
        WantedFlags::Optional | WantedFlags::Any => flags.octet,
    }
}

// Appends an attribute with these flags.
fn push_item(out: &mut Vec<u8>, flags: u8, kind: u8, value: &[u8]) -> Result<(), AllocError>
    requires { FitsItsLength (record { flags = flags; kind = kind; value = value.now }) }
    ensures { OnOk result (out.new.items
        ≡ out.old.items ++ spelled_item (record { flags = flags; kind = kind; value = value.now })) }
{
    let octets = Flags { octet: flags };
    if octets.is_extended() {
        push_long(out, flags, kind, value)
    } else {
        push_short(out, flags, kind, value)
    }
}

// Appends an attribute with a length of two octets.
fn push_long(out: &mut Vec<u8>, flags: u8, kind: u8, value: &[u8]) -> Result<(), AllocError>
    requires extended { is_extended flags ≡ true }
    requires short { length value.now < 65536 }
    ensures { OnOk result (out.new.items
        ≡ out.old.items ++ spelled_item (record { flags = flags; kind = kind; value = value.now })) }
{
    let mut head = [flags, kind, 0, 0];
    BigEndian::write_u16(&mut head[2..], value.len() as u16);
    out.extend_from_slice(&head)?;
    out.extend_from_slice(value)
}

// Appends an attribute with a length of one octet.
fn push_short(out: &mut Vec<u8>, flags: u8, kind: u8, value: &[u8]) -> Result<(), AllocError>
    requires extended { is_extended flags ≡ false }
    requires short { length value.now < 256 }
    ensures { OnOk result (out.new.items
        ≡ out.old.items ++ spelled_item (record { flags = flags; kind = kind; value = value.now })) }
{
    out.extend_from_slice(&[flags, kind, value.len() as u8])?;
    out.extend_from_slice(value)
}
