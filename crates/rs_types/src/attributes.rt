//! The path attributes that a route keeps (RFC 4271, section 5; RFC 6793; RFC 1997).

ghost use Rattle.std.specs.Prelude.{◌≡◌, ◌<◌, ◌≤◌, length, None, Some, unwrap_or};
ghost use Rattle.std.specs.Option.{option_map};
ghost use Rattle.rs_types.specs.AsPath.{path_length_of, neighbour_of, holds_as_in};
ghost use Rattle.rs_types.specs.AttributesView.{looked_up_in, value_of};
ghost use Rattle.rs_types.specs.Shapes.{numbers_in, segments_in, communities_of, others_in};
ghost use Rattle.rs_types.specs.Community.{has_community_in, has_community_of_in, has_value, has_value_of};
ghost use Rattle.rs_types.specs.Gathered.{look, attributes_of};
ghost use Rattle.rs_types.specs.Section.{items_of, section_fault};
ghost use Rattle.rs_types.specs.Spelling.{written};

use crate::as_path::{Segments, first_as, holds_as, path_length};
use crate::attribute_type::{
    AGGREGATOR, AS_PATH, ATOMIC_AGGREGATE, COMMUNITIES, MULTI_EXIT_DISC, NEXT_HOP, ORIGIN,
};
use crate::item::{find_item, is_passed_on, item_from, place_of, split_item};
use crate::number_list::{NUMBER_LEN, Numbers};
use crate::readers::{med_of, origin_of, read_aggregator};
use crate::values::{Aggregator, Origin};
use byteorder::{BigEndian, ByteOrder};
use std::marker::Model;
use std::mem::size_of;

// The numbers that half a community can hold.
const HALF: u32 = 65536;

/// COMMUNITIES (RFC 1997) at its place in the written form: at least one value of four octets, in the order
/// received.
#[derive(Clone, Copy, Debug)]
pub struct Communities<'a> {
    /// Whether the Partial bit was set when the attribute was received.
    pub partial: bool,
    /// The values: the high half is an AS number, the low half is a number which that AS chose.
    pub values: Numbers<'a>,
}

impl Communities<'_> {
    // Whether the value of the two halves is listed.
    fn holds(self, high: u32, low: u32) -> bool
        ensures { result ≡ has_value (numbers_in self.entry.values) high low }
    {
        high < HALF && low < HALF && self.values.contains(high * HALF + low)
    }

    // Whether a value of this high half is listed.
    fn holds_of(self, high: u32) -> bool
        ensures { result ≡ has_value_of (numbers_in self.entry.values) high }
    {
        let mut rest = self.values;
        while let Some(value) = rest.next() {
            if value / HALF == high {
                return true;
            }
        }
        false
    }
}

/// An optional transitive attribute that this crate doesn't recognize, at its place in the written form. It is
/// passed on (RFC 4271, section 5).
#[derive(Clone, Copy, Debug)]
pub struct Unrecognized<'a> {
    /// The attribute's type.
    pub kind: u8,
    /// The octets of its value.
    pub value: &'a [u8],
}

/// The unrecognized optional transitive attributes of a route: an iterator over them, in ascending type, that
/// takes no memory.
#[derive(Clone, Copy, Debug)]
pub struct Others<'a> {
    octets: &'a [u8],
}

impl<'a> Iterator for Others<'a> {
    ghost use Rattle.std.specs.Iterator.{YieldsFirstBy, item_count};
    ghost use Rattle.rs_types.specs.Shapes.{other_of, others_in};

    type Item = Unrecognized<'a>;

    ghost next_gives = { YieldsFirstBy other_of others_in };

    ghost remaining = { item_count others_in };

    fn next(&mut self) -> Option<Unrecognized<'a>> {
        while let Some(front) = split_item(self.octets) {
            self.octets = front.1;
            if is_passed_on(front.0) {
                return Some(Unrecognized {
                    kind: front.0.kind,
                    value: front.0.value,
                });
            }
        }
        None
    }
}

/// The path attributes of one UPDATE, which the crate `rs_update` reads. They are stored as one block of memory, their
/// written form, and are read from it when they are asked for. Four things are stored beside it, since each decision
/// needs them: ORIGIN, MED, neighbour AS, and where COMMUNITIES begins.
#[derive(Debug, Drop)]
pub struct Attributes {
    spelling: Vec<u8>,
    neighbour: Option<u32>,
    compared_med: u32,
    communities_place: u16,
    origin: Origin,
}

// A run holds one for nearly each route, so they are kept small: with the two counts of an `Arc` they fit a
// block of 64 octets.
const _: () = prove!(size_of::<Attributes>() == 40);

impl Model for Attributes {
    ghost use Rattle.rs_types.specs.PathAttributes.{PathAttributes};

    ghost Value = { PathAttributes };

    ghost use Rattle.rs_types.specs.AttributesView.{view_of, IsWhole};

    ghost view = { view_of };

    ghost invariant = { IsWhole };
}

impl Attributes {
    /// The attributes with this written form, which has to be a section without fault that fits a message.
    pub fn of_written(spelling: Vec<u8>) -> Attributes
        requires faultless { section_fault spelling.items ≡ None }
        requires short { length spelling.items ≤ 4073 }
        requires gives { attributes_of (items_of spelling.items) ≡ Some (looked_up_in spelling.items) }
        requires is_written { spelling.items ≡ written (looked_up_in spelling.items) }
        ensures { result ≡ looked_up_in spelling.items }
    {
        let section = spelling.as_slice();
        // It gives that the length of the path fits.
        path_is_short(section);
        Attributes {
            neighbour: first_as(value_in(section, AS_PATH)),
            compared_med: med_of(find_item(section, MULTI_EXIT_DISC)).unwrap_or(0),
            communities_place: place_of(section, COMMUNITIES),
            origin: origin_of(value_in(section, ORIGIN)),
            spelling,
        }
    }

    /// The origin.
    pub fn origin(&self) -> Origin
        ensures { result ≡ self.now.origin }
    {
        self.origin
    }

    /// The segments of AS_PATH, in order; none if it is empty.
    pub fn path(&self) -> Segments<'_>
        ensures { segments_in result ≡ self.now.path }
    {
        Segments {
            octets: value_in(&self.spelling, AS_PATH),
        }
    }

    /// NEXT_HOP, an IPv4 address in host order.
    pub fn next_hop(&self) -> u32
        ensures { result ≡ self.now.next_hop }
    {
        BigEndian::read_u32(value_in(&self.spelling, NEXT_HOP))
    }

    /// MULTI_EXIT_DISC, or None if it was not received.
    pub fn med(&self) -> Option<u32>
        ensures { result ≡ self.now.med }
    {
        med_of(find_item(&self.spelling, MULTI_EXIT_DISC))
    }

    /// MULTI_EXIT_DISC as the decision process compares it: 0 if none was received (RFC 4271, section
    /// 9.1.2.2, c).
    pub fn compared_med(&self) -> u32
        ensures { result ≡ unwrap_or self.now.med 0 }
    {
        self.compared_med
    }

    /// Whether ATOMIC_AGGREGATE was received.
    pub fn atomic(&self) -> bool
        ensures { result ≡ self.now.atomic }
    {
        find_item(&self.spelling, ATOMIC_AGGREGATE).is_some()
    }

    /// AGGREGATOR, or None if it was not received.
    pub fn aggregator(&self) -> Option<Aggregator>
        ensures { result ≡ self.now.aggregator }
    {
        read_aggregator(find_item(&self.spelling, AGGREGATOR))
    }

    /// COMMUNITIES, or None if it was not received.
    pub fn communities(&self) -> Option<Communities<'_>>
        ensures { option_map communities_of result ≡ self.now.communities }
    {
        let item = item_from(&self.spelling, self.communities_place)?;
        Some(Communities {
            partial: item.flags.is_partial(),
            values: Numbers {
                count: item.value.len() / NUMBER_LEN,
                octets: item.value,
            },
        })
    }

    /// The unrecognized optional transitive attributes, in ascending type.
    pub fn others(&self) -> Others<'_>
        ensures { others_in result ≡ self.now.others }
    {
        Others {
            octets: &self.spelling,
        }
    }

    /// How many AS numbers AS_PATH has, an AS_SET counting 1 (RFC 4271, section 9.1.2.2, a): below 65,536,
    /// since a message is short.
    pub fn path_length(&self) -> u32
        ensures value { result ≡ path_length_of self.now.path }
        ensures bound { result < 65536 }
    {
        path_length(value_in(&self.spelling, AS_PATH))
    }

    /// The neighbour AS: the first AS number if the path begins with an AS_SEQUENCE, else `peer_as`, the sending
    /// peer's AS (our choice).
    pub fn neighbour(&self, peer_as: u32) -> u32
        ensures { result ≡ neighbour_of self.now.path peer_as }
    {
        self.neighbour.unwrap_or(peer_as)
    }

    /// How many octets the written form has, at most 4,073: `write_attributes` appends so many.
    pub fn written_len(&self) -> usize
        ensures value { result ≡ length (written self.now) }
        ensures bound { result ≤ 4073 }
    {
        self.spelling().len()
    }

    /// The written form, at most 4,073 octets: it is a section without fault, and read as these attributes.
    pub fn spelling(&self) -> &[u8]
        ensures value { result.now ≡ written self.now }
        ensures bound { length (written self.now) ≤ 4073 }
        ensures faultless { section_fault (written self.now) ≡ None }
        ensures same { attributes_of (items_of (written self.now)) ≡ Some self.now }
    {
        self.spelling.as_slice()
    }

    /// Whether the AS number `asn` stands in AS_PATH, in a segment of either kind.
    pub fn holds_as(&self, asn: u32) -> bool
        ensures { result ≡ holds_as_in self.now.path asn }
    {
        holds_as(value_in(&self.spelling, AS_PATH), asn)
    }

    /// Whether the community (`high`, `low`) was received: the value `high` * 65,536 + `low`; no route has
    /// one with a half above 65,535.
    pub fn has_community(&self, high: u32, low: u32) -> bool
        ensures { result ≡ has_community_in self.now.communities high low }
    {
        match self.communities() {
            None => false,
            Some(list) => list.holds(high, low),
        }
    }

    /// Whether a community of the AS `high` was received: a value whose high half is its number.
    pub fn has_community_of(&self, high: u32) -> bool
        ensures { result ≡ has_community_of_in self.now.communities high }
    {
        match self.communities() {
            None => false,
            Some(list) => list.holds_of(high),
        }
    }
}

// The value of the attribute of a type in a section, empty if the section has no such attribute.
fn value_in(section: &[u8], kind: u8) -> &[u8]
    ensures { result.now ≡ value_of (look kind (items_of section.now)) }
{
    match find_item(section, kind) {
        None => &[],
        Some(item) => item.value,
    }
}

// A path has fewer AS numbers than its value has octets.
fn path_is_short(section: &[u8])
    requires faultless { section_fault section.now ≡ None }
    requires gives { attributes_of (items_of section.now) ≡ Some (looked_up_in section.now) }
    ensures { path_length_of (looked_up_in section.now).path < 65536 }
{
    let _octets = section;
}
