//! The RIB_IPV4_UNICAST record of one row (RFC 6396, sections 4.3.2 and 4.3.4).
//!
//! Our choices: each record has one RIB entry, since a client's table has one route for each prefix. The Originated
//! Time is the time at which the sending peer announced the route.

ghost use Rattle.std.specs.Prelude.{◌≡◌, ◌+◌, ◌<◌, ◌≤◌, ◌++◌, length};
ghost use Rattle.rs_mrt.specs.Endian.{big_bytes};
ghost use Rattle.rs_mrt.specs.Record.{header_spelling, record_spelling};
ghost use Rattle.rs_update.specs.Prefix.{octets_for, spelled_prefix};
ghost use Rattle.rs_update.specs.Spelling.{written};
ghost use Rattle.rs_records.specs.Buffer.{HasRoom, Gains};
ghost use Rattle.rs_records.specs.DumpType.{TABLE_DUMP_V2 as the_type};
ghost use Rattle.rs_records.specs.Rib.{RIB_IPV4_UNICAST as the_subtype, rib_entry, rib_record};
ghost use Rattle.rs_records.specs.RibEntryView.{entry_of};

use crate::buffer::{TABLE_DUMP_V2, put};
use byteorder::{BigEndian, ByteOrder};
use rs_mrt::HEADER_LEN;
use rs_update::{Attributes, Prefix, write_attributes};

// The Subtype.
const RIB_IPV4_UNICAST: u16 = 2;

// How many RIB entries a record has.
const ENTRY_COUNT: u16 = 1;

// How many octets the body has beside the prefix's address and the attributes: Sequence Number, Prefix
// Length, Entry Count, Peer Index, Originated Time, Attribute Length.
const FIXED_LEN: usize = 15;

// How many octets stand before the prefix: the header and the Sequence Number.
const FRONT_LEN: usize = 16;

// How many octets stand between the prefix and the attributes: Entry Count, Peer Index, Originated Time, Attribute
// Length.
const MIDDLE_LEN: usize = 10;

/// The most octets that the record can have.
pub const MAX_ROW_LEN: usize = 4104;

/// The route of a prefix, as a RIB entry has it.
#[derive(Clone, Copy)]
pub struct RibEntry<'a> {
    /// The number of the peer that sent it: the Peer Index.
    pub peer: usize,
    /// When it was announced, in seconds since 1970: the Originated Time.
    pub time: u32,
    /// Its path attributes.
    pub attributes: &'a Attributes,
}

/// Appends the record of a prefix and its route, for which there is room. The place of its row among all rows is its
/// Sequence Number.
pub fn spell_row(buffer: &mut Vec<u8>, time: u32, sequence: u32, prefix: Prefix, entry: &RibEntry)
    requires peer_known { entry.now.peer < 65536 }
    requires room { HasRoom buffer.old MAX_ROW_LEN }
    ensures { Gains buffer.old buffer.new (record_spelling (rib_record time sequence prefix (entry_of entry.now))) }
{
    let body_len = FIXED_LEN + octet_count(prefix) + entry.attributes.written_len();
    put_front(buffer, time, body_len as u32, sequence);
    spell_prefix(buffer, prefix);
    spell_entry(buffer, entry);
}

// How many octets of the address the prefix is spelled with: the least number that holds its bits.
fn octet_count(prefix: Prefix) -> usize
    ensures value { result ≡ octets_for prefix.len }
    ensures bound { result ≤ 4 }
{
    usize::from(prefix.len()).div_ceil(8)
}

// Appends what stands before the prefix: the header and the Sequence Number.
fn put_front(buffer: &mut Vec<u8>, time: u32, body_len: u32, sequence: u32)
    requires { HasRoom buffer.old FRONT_LEN }
    ensures { Gains buffer.old buffer.new
        (header_spelling time the_type the_subtype body_len ++ big_bytes 4 sequence) }
{
    put(buffer, &front(time, body_len, sequence));
}

// What stands before the prefix: the header and the Sequence Number. It is made whole, and appended at once, since a
// run appends millions of these.
fn front(time: u32, body_len: u32, sequence: u32) -> [u8; FRONT_LEN]
    ensures { result ≡ header_spelling time the_type the_subtype body_len ++ big_bytes 4 sequence }
{
    let mut front = [0; FRONT_LEN];
    BigEndian::write_u32(&mut front, time);
    BigEndian::write_u16(&mut front[4..], TABLE_DUMP_V2);
    BigEndian::write_u16(&mut front[6..], RIB_IPV4_UNICAST);
    BigEndian::write_u32(&mut front[8..], body_len);
    BigEndian::write_u32(&mut front[HEADER_LEN..], sequence);
    front
}

// Appends the prefix: its length in bits, and the least number of octets that holds them.
fn spell_prefix(buffer: &mut Vec<u8>, prefix: Prefix)
    requires { HasRoom buffer.old 5 }
    ensures { Gains buffer.old buffer.new (spelled_prefix prefix) }
{
    let [first, second, third, fourth] = prefix.address().to_be_bytes();
    let all = [prefix.len(), first, second, third, fourth];
    put(buffer, &all[..1 + octet_count(prefix)]);
}

// Appends the Entry Count and the RIB entry of a route.
fn spell_entry(buffer: &mut Vec<u8>, entry: &RibEntry)
    requires peer_known { entry.now.peer < 65536 }
    requires room { HasRoom buffer.old (MIDDLE_LEN + length (written entry.now.attributes.now)) }
    ensures { Gains buffer.old buffer.new (big_bytes 2 1 ++ rib_entry (entry_of entry.now)) }
{
    let attributes = entry.attributes;
    let len = attributes.written_len() as u16;
    put(buffer, &middle(entry.peer as u16, entry.time, len));
    write_attributes(attributes, buffer).unwrap();
}

// What stands between the prefix and the attributes, made whole.
fn middle(peer: u16, time: u32, attributes_len: u16) -> [u8; MIDDLE_LEN]
    ensures { result ≡ big_bytes 2 1 ++ big_bytes 2 peer ++ big_bytes 4 time ++ big_bytes 2 attributes_len }
{
    let mut middle = [0; MIDDLE_LEN];
    BigEndian::write_u16(&mut middle, ENTRY_COUNT);
    BigEndian::write_u16(&mut middle[2..], peer);
    BigEndian::write_u32(&mut middle[4..], time);
    BigEndian::write_u16(&mut middle[8..], attributes_len);
    middle
}
