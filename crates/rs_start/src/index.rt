//! The PEER_INDEX_TABLE record: whose routes a table has (RFC 6396, section 4.3.1).
//!
//! Our choices: the View Name is only shown, and octets behind the last peer entry are a fault.

ghost use Rattle.std.specs.Prelude.{◌≡◌, ◌+◌, ◌≤◌, [], length, IfOk, IfSome};
ghost use Rattle.std.specs.Option.{option_map};
ghost use Rattle.rs_start.specs.Table.{IsIndex, Leads, address_len, asn_len, is_as4, is_ipv6, peer_at, peer_of};

use crate::fault::{Broken, PartFault};
use byteorder::{BigEndian, ByteOrder};
use std::alloc::Global;

/// A peer of a table.
#[derive(Clone, Copy, Debug, PartialEq, Eq, Drop)]
pub struct IndexPeer {
    /// The BGP Identifier.
    pub id: u32,
    /// The IPv4 address, in host order; none where the peer has an IPv6 address.
    pub address: Option<u32>,
    /// The AS number.
    pub asn: u32,
}

/// The peers of a table.
#[derive(Drop)]
pub struct Index {
    /// The BGP Identifier of the collector.
    pub collector: u32,
    /// The octets of the View Name; there are none if the table names no view.
    pub view_name: Vec<u8>,
    /// The peers, which entries name by their places, from 0 on.
    pub peers: Vec<IndexPeer>,
}

// Where the fields begin, and how many octets stand before and behind the View Name.
const NAME_LEN_AT: usize = 4;

const NAME_AT: usize = 6;

const COUNT_LEN: usize = 2;

// Reads the body of a PEER_INDEX_TABLE record. A fault comes with how many octets of the body stand before it.
pub(crate) fn read_index(alloc: Global, body: &[u8]) -> Result<Index, PartFault>
    ensures { IfOk result (λ index.
        IsIndex body.now index.collector index.view_name.items index.peers.items) }
{
    if body.len() < NAME_AT {
        return Err(PartFault::at(Broken::IndexCutShort, body.len()));
    }
    let collector = BigEndian::read_u32(body);
    let name_len = usize::from(BigEndian::read_u16(&body[NAME_LEN_AT..]));
    let behind = &body[NAME_AT..];
    if behind.len() < name_len + COUNT_LEN {
        return Err(PartFault::at(Broken::IndexCutShort, body.len()));
    }
    let view_name = Vec::from_slice(alloc, &behind[..name_len])?;
    let counted = &behind[name_len..];
    let count = usize::from(BigEndian::read_u16(counted));
    let entries = &counted[COUNT_LEN..];
    match read_peers(alloc, entries, count) {
        Ok(peers) => Ok(Index {
            collector,
            view_name,
            peers,
        }),
        Err(fault) => Err(fault.behind(body.len() - entries.len())),
    }
}

// Reads so many peer entries, which are all octets.
fn read_peers(alloc: Global, octets: &[u8], count: usize) -> Result<Vec<IndexPeer>, PartFault>
    ensures count { IfOk result (λ peers. length peers.items ≡ count) }
    ensures entries { IfOk result (λ peers. Leads peer_at octets.now peers.items []) }
{
    let mut peers = Vec::new(alloc);
    let mut rest = octets;
    for _place in 0..count {
        let Some(split) = split_peer(rest) else {
            return Err(PartFault::at(
                Broken::IndexCutShort,
                octets.len().saturating_sub(rest.len()),
            ));
        };
        peers.push(split.0)?;
        rest = split.1;
    }
    if !rest.is_empty() {
        return Err(PartFault::at(
            Broken::IndexTooLong,
            octets.len().saturating_sub(rest.len()),
        ));
    }
    Ok(peers)
}

// The peer entry at the front of octets, and the octets behind it; none where it is cut short.
#[tactic(auto, unfolding(crate::specs::Table::peer_at))]
fn split_peer(octets: &[u8]) -> Option<(IndexPeer, &[u8])>
    ensures value { option_map (λ split. (split.0, split.1.now)) result ≡ peer_at octets.now }
    ensures shorter { IfSome result (λ split. length split.1.now ≤ length octets.now) }
{
    let [kind, rest @ ..] = octets else {
        return None;
    };
    let len = 4 + address_len(*kind) + asn_len(*kind);
    if rest.len() < len {
        return None;
    }
    Some((peer_in(*kind, rest), &rest[len..]))
}

// The peer in the fields of an entry behind its Peer Type.
fn peer_in(kind: u8, fields: &[u8]) -> IndexPeer
    requires { 4 + address_len kind + asn_len kind ≤ length fields.now }
    ensures { result ≡ peer_of kind fields.now }
{
    let behind = &fields[4 + address_len(kind)..];
    IndexPeer {
        id: BigEndian::read_u32(fields),
        address: if is_ipv6(kind) {
            None
        } else {
            Some(BigEndian::read_u32(&fields[4..]))
        },
        asn: if is_as4(kind) {
            BigEndian::read_u32(behind)
        } else {
            u32::from(BigEndian::read_u16(behind))
        },
    }
}

// Whether a Peer Type says that the address is IPv6.
fn is_ipv6(kind: u8) -> bool
    ensures { result ≡ is_ipv6 kind }
{
    kind % 2 == 1
}

// Whether it says that the AS number has four octets.
fn is_as4(kind: u8) -> bool
    ensures { result ≡ is_as4 kind }
{
    kind / 2 % 2 == 1
}

// How many octets the address has.
fn address_len(kind: u8) -> usize
    ensures value { result ≡ address_len kind }
    ensures bound { result ≤ 16 }
    ensures least { 4 ≤ result }
{
    if is_ipv6(kind) { 16 } else { 4 }
}

// How many octets the AS number has.
fn asn_len(kind: u8) -> usize
    ensures value { result ≡ asn_len kind }
    ensures bound { result ≤ 4 }
{
    if is_as4(kind) { 4 } else { 2 }
}
