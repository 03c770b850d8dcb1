//! One attribute of a section: its flags, its type and its value (RFC 4271, section 4.3).
//!
//! The Extended Length bit may be set for a value of any length.

ghost use Rattle.std.specs.Prelude.{◌≡◌, ◌≤◌, length};
ghost use Rattle.std.specs.Option.{option_map};
ghost use Rattle.rs_types.specs.AttributesView.{item_from as item_from_spec};
ghost use Rattle.rs_types.specs.Gathered.{look, is_passed_on as is_passed_on_item};
ghost use Rattle.rs_types.specs.Section.{item_at, items_of, item_with, long_item_at, short_item_at};
ghost use Rattle.rs_types.specs.Items.{item_of, split_of};

use crate::attribute_type::AttributeType;
use crate::flags::Flags;
use byteorder::{BigEndian, ByteOrder};

/// An attribute at its place in a message.
#[derive(Clone, Copy)]
pub struct Item<'a> {
    /// The flags as received.
    pub flags: Flags,
    /// The number of the type.
    pub kind: u8,
    /// The octets of the value.
    pub value: &'a [u8],
}

/// Takes the first attribute off a section: the attribute and the octets behind it, or None if the section begins
/// with no attribute.
#[tactic(auto, unfolding(crate::specs::Section::item_at))]
pub fn split_item(section: &[u8]) -> Option<(Item<'_>, &[u8])>
    ensures { option_map split_of result ≡ item_at section.now }
{
    match section {
        [octet, kind, lengthened @ ..] => {
            let flags = Flags { octet: *octet };
            if flags.is_extended() {
                split_long(flags, *kind, lengthened)
            } else {
                split_short(flags, *kind, lengthened)
            }
        }
        _ => None,
    }
}

// The attribute whose value stands behind a length of two octets.
fn split_long(flags: Flags, kind: u8, octets: &[u8]) -> Option<(Item<'_>, &[u8])>
    ensures { option_map split_of result ≡ long_item_at flags.octet kind octets.now }
{
    match octets {
        [_, _, behind @ ..] => split_value(
            flags,
            kind,
            usize::from(BigEndian::read_u16(octets)),
            behind,
        ),
        _ => None,
    }
}

// The attribute whose value stands behind a length of one octet.
fn split_short(flags: Flags, kind: u8, octets: &[u8]) -> Option<(Item<'_>, &[u8])>
    ensures { option_map split_of result ≡ short_item_at flags.octet kind octets.now }
{
    match octets {
        [count, behind @ ..] => split_value(flags, kind, usize::from(*count), behind),
        _ => None,
    }
}

// The attribute whose value is the first `count` octets, if there are so many.
fn split_value(flags: Flags, kind: u8, count: usize, octets: &[u8]) -> Option<(Item<'_>, &[u8])>
    ensures { option_map split_of result ≡ item_with flags.octet kind count octets.now }
{
    if octets.len() < count {
        return None;
    }
    let (value, behind) = octets.split_at(count);
    Some((Item { flags, kind, value }, behind))
}

/// Whether an attribute is passed on without being recognized (RFC 4271, section 5).
pub(crate) fn is_passed_on(item: Item<'_>) -> bool
    ensures { result ≡ is_passed_on_item (item_of item.entry) }
{
    match AttributeType::of(item.kind) {
        AttributeType::Unrecognized => item.flags.is_transitive(),
        _ => false,
    }
}

/// The attribute that begins at a place of a section.
pub fn item_from(section: &[u8], place: u16) -> Option<Item<'_>>
    ensures { option_map item_of result ≡ item_from_spec section.now place }
{
    let place = usize::from(place);
    if section.len() < place {
        return None;
    }
    Some(split_item(&section[place..])?.0)
}

/// The first attribute of a type in a section.
pub(crate) fn find_item(section: &[u8], kind: u8) -> Option<Item<'_>>
    ensures { option_map item_of result ≡ look kind (items_of section.now) }
{
    let mut rest = section;
    while let Some(front) = split_item(rest) {
        if front.0.kind == kind {
            return Some(front.0);
        }
        rest = front.1;
    }
    None
}

/// Where the first attribute of a type begins in a section, or where its attributes end.
pub(crate) fn place_of(section: &[u8], kind: u8) -> u16
    requires { length section.now ≤ 4073 }
    ensures { item_from_spec section.now result ≡ look kind (items_of section.now) }
{
    let mut rest = section;
    while let Some(front) = split_item(rest) {
        if front.0.kind == kind {
            break;
        }
        rest = front.1;
    }
    (section.len() - rest.len()) as u16
}
