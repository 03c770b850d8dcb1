//! The texts in which rows write what a recorded file holds.

use super::super::said::Said;
use rs_inventory::{Inventory, Kind, PeerId, PeerRecords, read_inventory};
use rs_mrt::{Bounds, MemoryReader, ReadLimits};
use std::alloc::Global;
use std::net::Ipv4Addr;

// Appends what is known of a peer: how many records it has, messages, changes of state, messages at fault, and prefixes
// announced and withdrawn; its BGP Identifiers; when its sessions came up and went down.
fn add_peer(said: &mut Said, peer: &PeerId, of: &PeerRecords) {
    let (address, asn) = (Ipv4Addr::from_bits(peer.address), peer.asn);
    let counts = [
        of.records(),
        of.messages(),
        of.state_changes(),
        of.faulty(),
        of.announced(),
        of.withdrawn(),
    ];
    let (identifiers, sessions) = (of.identifiers(), of.sessions());
    said.add(format_args!(
        "
    {address} {asn} counts {counts:?}
    {address} {asn} identifiers {identifiers:?}
    {address} {asn} sessions {sessions:?}"
    ));
}

// Appends how many records there are of each kind of which there are any.
fn add_kinds(said: &mut Said, held: &Inventory) {
    for kind in Kind::all() {
        let count = held.count_of(kind);
        if count > 0 {
            said.add(format_args!(", {count} {kind:?}"));
        }
    }
}

// Appends how a file begins and ends, and how many peers it has.
fn add_ends(said: &mut Said, held: &Inventory) {
    let (octets, end, recorder) = (held.octets(), held.end(), held.recorder());
    let (first, last, compression) = (held.first(), held.last(), held.compression());
    let peers = held.peers().len();
    said.add(format_args!(
        "
    octets {octets:?} end {end:?}
    times {first:?} {last:?}
    compression {compression:?}
    {recorder:?}
    peers {peers}"
    ));
}

/// Appends, line by line, what a file holds when its reader has these limits.
pub fn add_told(said: &mut Said, alloc: Global, file: &[u8], limits: ReadLimits) {
    let reader = MemoryReader::new(file, limits);
    let Ok(held) = read_inventory(alloc, reader, Bounds::none()) else {
        return said.refuse();
    };
    let records = held.records();
    said.add(format_args!("\n    records {records}"));
    add_kinds(said, &held);
    add_ends(said, &held);
    for (peer, of) in held.peers() {
        add_peer(said, peer, of);
    }
}
