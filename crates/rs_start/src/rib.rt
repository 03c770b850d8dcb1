//! A record of RIB_IPV4_UNICAST: the routes of one prefix (RFC 6396, sections 4.3.2 and 4.3.4).
//!
//! Our choices: bits of the prefix past its length have no meaning; octets behind the last entry are a fault.

ghost use Rattle.std.specs.Prelude.{◌≡◌, ◌+◌, ◌≤◌, length, drop, take, IfOk, IfSome};
ghost use Rattle.std.specs.Option.{option_map};
ghost use Rattle.byteorder.specs.Endian.{big_number};
ghost use Rattle.rs_start.specs.Table.{behind_prefix, entry_at, rib_prefix};
ghost use Rattle.rs_start.specs.TableView.{entry_of};

use crate::fault::{Broken, PartFault};
use byteorder::{BigEndian, ByteOrder};
use rs_update::Prefix;

/// A route of a prefix that a peer has.
#[derive(Clone, Copy, Debug, PartialEq, Eq, Drop)]
pub struct RibEntry<'a> {
    /// The peer, by its place in the index.
    pub peer: u16,
    /// When the route was announced, in seconds since 1970.
    pub time: u32,
    /// The path attributes, as they stand in the table.
    pub section: &'a [u8],
}

// The routes of a prefix: so many entries, in these octets.
#[derive(Clone, Copy, Debug, Drop)]
pub(crate) struct Rib<'a> {
    pub(crate) prefix: Prefix,
    pub(crate) count: u16,
    pub(crate) entries: &'a [u8],
}

// Where the Prefix Length stands, and the prefix.
const PREFIX_LEN_AT: usize = 4;

const PREFIX_AT: usize = 5;

// How many octets the Entry Count has.
const COUNT_LEN: usize = 2;

// How many octets an entry has before its path attributes, and where the length of these stands.
const SECTION_AT: usize = 8;

const SECTION_LEN_AT: usize = 6;

// Reads the body of the record up to its entries. A fault comes with how many octets of the body stand before it.
pub(crate) fn read_rib(body: &[u8]) -> Result<Rib<'_>, PartFault>
    ensures prefix { IfOk result (λ rib. rib.prefix ≡ rib_prefix body.now) }
    ensures short { IfOk result (λ rib. big_number 1 (drop 4 body.now) ≤ 32) }
    ensures count { IfOk result (λ rib. rib.count ≡ big_number 2 (behind_prefix body.now)) }
    ensures entries { IfOk result (λ rib. rib.entries.now ≡ drop 2 (behind_prefix body.now)) }
{
    if body.len() < PREFIX_AT {
        return Err(PartFault::at(Broken::RibCutShort, body.len()));
    }
    let len = body[PREFIX_LEN_AT];
    let octets = behind(body, PREFIX_AT);
    let prefix_len = usize::from(len).div_ceil(8);
    let Some(prefix) = Prefix::new(address_in(octets, prefix_len), len) else {
        return Err(PartFault::at(Broken::PrefixTooLong, PREFIX_LEN_AT));
    };
    if octets.len() < prefix_len + COUNT_LEN {
        return Err(PartFault::at(Broken::RibCutShort, body.len()));
    }
    let counted = behind(octets, prefix_len);
    Ok(Rib {
        prefix,
        count: BigEndian::read_u16(counted),
        entries: behind(counted, COUNT_LEN),
    })
}

// The octets behind so many.
fn behind(octets: &[u8], count: usize) -> &[u8]
    requires { count ≤ length octets.now }
    ensures { result.now ≡ drop count octets.now }
{
    &octets[count..]
}

// The address whose first octets these are; the others are 0.
fn address_in(octets: &[u8], count: usize) -> u32
    ensures { result ≡ big_number 4 (take count octets.now) }
{
    let mut address = [0; 4];
    let count = count.min(octets.len()).min(4);
    address[..count].copy_from_slice(&octets[..count]);
    BigEndian::read_u32(&address)
}

// The entry at the front of octets, and the octets behind it; none where it is cut short.
#[tactic(auto, unfolding(crate::specs::Table::entry_at))]
pub(crate) fn split_entry(octets: &[u8]) -> Option<(RibEntry<'_>, &[u8])>
    ensures value { option_map (λ split. (entry_of split.0, split.1.now)) result ≡ entry_at octets.now }
    ensures shorter { IfSome result (λ split. length split.1.now ≤ length octets.now) }
{
    if octets.len() < SECTION_AT {
        return None;
    }
    let len = usize::from(BigEndian::read_u16(&octets[SECTION_LEN_AT..]));
    let rest = &octets[SECTION_AT..];
    if rest.len() < len {
        return None;
    }
    let (section, behind) = rest.split_at(len);
    let entry = RibEntry {
        peer: BigEndian::read_u16(octets),
        time: BigEndian::read_u32(&octets[2..]),
        section,
    };
    Some((entry, behind))
}
