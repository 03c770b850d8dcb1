//! The peers of a table, and which of them get a file.
//!
//! Our choice: sessions are named after the IPv4 addresses of their peers. Of peers at one address, the first gets the
//! file.

use crate::chosen::Chosen;
use rs_start::IndexPeer;
use std::alloc::{AllocError, Global};
use std::collections::BTreeSet;

/// The index of a table, as it is listed.
#[derive(Drop)]
pub(crate) struct Table {
    /// The time of the table, in seconds since 1970.
    pub(crate) time: u32,
    /// Which table of the file it is.
    pub(crate) chosen: Chosen,
    /// The BGP Identifier of the collector.
    pub(crate) collector: u32,
    /// The view that it names, on one line; empty if it names none.
    pub(crate) view: String,
    /// The peers, in the order of the index.
    pub(crate) peers: Vec<Listed>,
}

/// A peer of a table.
#[derive(Clone, Copy, Debug, PartialEq, Eq, Drop)]
pub(crate) struct Listed {
    /// The entry of the index for a peer.
    pub(crate) peer: IndexPeer,
    /// Whether it gets a file.
    pub(crate) part: Part,
}

/// Whether a peer gets a file.
#[derive(Clone, Copy, Debug, PartialEq, Eq, Drop)]
pub(crate) enum Part {
    /// It does, by its address.
    Written(u32),
    /// An earlier peer has its address.
    Repeated(u32),
    /// It has an IPv6 address.
    Ipv6,
    /// It isn't asked for.
    Unasked,
}

/// The peers of an index, in its order. If addresses are asked for, only their peers get files.
pub(crate) fn listed_peers(
    alloc: Global,
    peers: &[IndexPeer],
    asked: &[u32],
) -> Result<Vec<Listed>, AllocError> {
    let mut seen = BTreeSet::new(alloc);
    let mut listed = Vec::with_capacity(alloc, peers.len())?;
    for peer in peers {
        let part = part_of(peer, asked, &seen);
        if let Part::Written(address) = part {
            seen.insert(address)?;
        }
        listed.push(Listed { peer: *peer, part })?;
    }
    Ok(listed)
}

// Whether a peer gets a file, if earlier peers have these addresses.
fn part_of(peer: &IndexPeer, asked: &[u32], seen: &BTreeSet<u32>) -> Part {
    match peer.address {
        Some(address) if !asked.is_empty() && !asked.contains(&address) => Part::Unasked,
        Some(address) if seen.contains(&address) => Part::Repeated(address),
        Some(address) => Part::Written(address),
        None if asked.is_empty() => Part::Ipv6,
        None => Part::Unasked,
    }
}

/// The first address that is asked for and that no peer has.
pub(crate) fn first_unknown(peers: &[IndexPeer], asked: &[u32]) -> Option<u32> {
    for address in asked {
        if !has_address(peers, *address) {
            return Some(*address);
        }
    }
    None
}

// Whether a peer has an address.
fn has_address(peers: &[IndexPeer], address: u32) -> bool {
    for peer in peers {
        if peer.address == Some(address) {
            return true;
        }
    }
    false
}
