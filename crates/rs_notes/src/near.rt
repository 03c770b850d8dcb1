//! A peer of a recorded file that is probably meant by one of which the file has no record: its AS number is the same
//! and its address another one, or the other way round.
//!
//! Our choice: the file must have records of exactly one such peer, and the exchange none of that address and AS number.

use crate::peers::is_stranger;
use rs_inventory::{Inventory, PeerId};
use rs_setup::Setup;

/// A peer of a recorded file that is probably meant.
#[derive(Clone, Copy, Debug, PartialEq, Eq)]
pub(crate) struct Near {
    /// The peer as the records name it.
    pub peer: PeerId,
    /// How many records the file has of it.
    pub records: u64,
    /// Whether it is its address that differs; else it is its AS number.
    pub by_address: bool,
}

/// Which peer of a file is probably meant by a peer of which the file has no record; none if none is, or several are.
pub(crate) fn near_of(setup: &Setup, held: &Inventory, wanted: PeerId) -> Option<Near> {
    let mut found = None;
    for (peer, records) in held.peers() {
        let peer = *peer;
        if records.records() == 0 || !is_near(peer, wanted) || !is_stranger(setup, peer) {
            continue;
        }
        if found.is_some() {
            return None;
        }
        found = Some(Near {
            peer,
            records: records.records(),
            by_address: peer.asn == wanted.asn,
        });
    }
    found
}

// Whether exactly one of address and AS number is equal.
fn is_near(peer: PeerId, wanted: PeerId) -> bool {
    (peer.asn == wanted.asn) != (peer.address == wanted.address)
}
