//! What a note says of a recorded file that gave no change but the close.
//!
//! Our choices: a compressed file is noted whatever its octets would be as records. Another format is noted only if
//! no record is of a known kind. A file without a record of its peer is noted only if some record is of a known
//! kind and long enough for its fields.

ghost use Rattle.std.specs.Prelude.{◌≡◌};
ghost use Rattle.rs_notes.specs.Hint.{has_bodies, hint_of, is_all, is_known, only_kind, records_of};

use crate::format::Format;
use rs_inventory::{Inventory, Kind, PeerId};
use rs_mrt::HEADER_LEN;

/// What is noted of a recorded file.
#[derive(Clone, Copy, Debug, PartialEq, Eq)]
pub enum Hint {
    /// It isn't uncompressed MRT.
    NotMrt(Format),
    /// No record is of its peer.
    NoRecord {
        /// How many others there are.
        others: u64,
        /// The kind of all records, if a route server reads none of that kind.
        kind: Option<Kind>,
    },
}

// How many octets the fields before a message have in a session with two-octet AS numbers (RFC 6396, section 4.4.2).
const FIELDS_LEN: u64 = 16;

/// What is noted of a peer's recorded file that gave no change but the close. `front` has the first `FRONT_LEN`
/// octets of the file, or all if there are fewer. The answer is none if nothing looks wrong.
pub fn hint_on(held: &Inventory, front: &[u8], peer: PeerId) -> Option<Hint>
    ensures { result ≡ hint_of held.now front.now peer }
{
    if let Some(compression) = held.compression() {
        return Some(Hint::NotMrt(Format::Compressed(compression)));
    }
    if records_of(held, peer) > 0 {
        return None;
    }
    if !is_known(held) {
        return Format::of(front).map(Hint::NotMrt);
    }
    Some(Hint::NoRecord {
        others: held.records(),
        kind: only_kind(held),
    })
}

// How many of the records are the peer's.
fn records_of(held: &Inventory, peer: PeerId) -> u64
    ensures { result ≡ records_of held.now peer }
{
    match held.peers().get(&peer) {
        Some(records) => records.records(),
        None => 0,
    }
}

/// Whether some record is of a known kind.
pub(crate) fn is_known(held: &Inventory) -> bool
    ensures { result ≡ is_known held.now }
{
    !held.peers().is_empty()
        || held.count_of(Kind::TableDumpV2) > 0
        || held.count_of(Kind::AddPath) > 0
        || held.count_of(Kind::Ipv6) > 0
        || (held.count_of(Kind::TwoOctet) > 0 && has_bodies(held))
}

// Whether the records, without their headers, have room for the fields of a session.
fn has_bodies(held: &Inventory) -> bool
    ensures { result ≡ has_bodies held.now }
{
    match held.octets() {
        Some(octets) => held
            .records()
            .saturating_mul(HEADER_LEN as u64)
            .saturating_add(FIELDS_LEN)
            <= octets,
        None => true,
    }
}

// The kind of all records, if a route server reads none of it.
fn only_kind(held: &Inventory) -> Option<Kind>
    ensures { result ≡ only_kind held.now }
{
    if is_all(held, Kind::TableDumpV2) {
        return Some(Kind::TableDumpV2);
    }
    if is_all(held, Kind::TwoOctet) {
        return Some(Kind::TwoOctet);
    }
    if is_all(held, Kind::AddPath) {
        return Some(Kind::AddPath);
    }
    if is_all(held, Kind::Ipv6) {
        return Some(Kind::Ipv6);
    }
    None
}

// Whether all records are of a kind.
fn is_all(held: &Inventory, kind: Kind) -> bool
    ensures { result ≡ is_all held.now kind }
{
    held.count_of(kind) == held.records()
}
