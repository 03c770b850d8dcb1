//! Two peers of the configuration whose AS numbers are probably swapped: neither has a record in its file, and the files
//! have records of the address of each one with the AS number of the other.
//!
//! Our choice: the exchange must not have a peer of either address and AS number.

use crate::contents::{Contents, contents_of};
use crate::note::swapped_line;
use crate::notes::Notes;
use crate::peers::is_stranger;
use rs_inventory::PeerId;
use rs_setup::Setup;
use std::alloc::Global;

/// Two peers whose AS numbers are probably swapped.
#[derive(Clone, Copy, Debug, PartialEq, Eq, Drop)]
pub(crate) struct Swapped {
    // The numbers of both, and how many records their files have with the address of each and the AS number of the
    // other.
    one: usize,
    other: usize,
    of_one: u64,
    of_other: u64,
}

/// The pairs of peers whose AS numbers are probably swapped.
#[derive(Clone, Copy, Debug, PartialEq, Eq, Drop)]
pub(crate) struct Pairs {
    first: Option<Swapped>,
    more: usize,
}

impl Pairs {
    /// No pair yet.
    pub(crate) fn none() -> Pairs {
        Pairs {
            first: None,
            more: 0,
        }
    }

    /// Takes the peer of a number, of which its file has no record. A pair counts with its first peer. Answers whether
    /// the peer is of a pair.
    pub(crate) fn take(&mut self, setup: &Setup, all: &[Contents<'_>], peer: usize) -> bool {
        let Some(pair) = swapped_with(setup, all, peer) else {
            return false;
        };
        match swapped_with(setup, all, pair.other) {
            Some(back) if back.other == peer => {}
            _ => return false,
        }
        if peer > pair.other {
            return true;
        }
        if self.first.is_none() {
            self.first = Some(pair);
        } else {
            self.more = self.more.saturating_add(1);
        }
        true
    }

    /// Adds the note on the pairs, if there is one: with the records of the first.
    pub(crate) fn add_to(&self, alloc: Global, setup: &Setup, notes: &mut Notes) {
        let Some(pair) = self.first else {
            return;
        };
        let count = setup.plan.count();
        if pair.one < count && pair.other < count {
            let (one, other) = (setup.plan.peer(pair.one), setup.plan.peer(pair.other));
            let crossed = (
                crossed_id(one.peer_id(), other.peer_id()),
                crossed_id(other.peer_id(), one.peer_id()),
            );
            let records = (pair.of_one, pair.of_other);
            let names = (one.name.as_str(), other.name.as_str());
            notes.add(swapped_line(alloc, names, self.more, crossed, records));
        }
    }
}

// The pair of a peer and the first one with which its AS number is swapped, if there is such a one.
fn swapped_with(setup: &Setup, all: &[Contents<'_>], peer: usize) -> Option<Swapped> {
    for other in 0..setup.plan.count() {
        if let Some(pair) = pair_of(setup, all, peer, other) {
            return Some(pair);
        }
    }
    None
}

// The pair of two peers, if their AS numbers are swapped.
fn pair_of(setup: &Setup, all: &[Contents<'_>], one: usize, other: usize) -> Option<Swapped> {
    let of_one = crossed_records(setup, all, one, other)?;
    let of_other = crossed_records(setup, all, other, one)?;
    Some(Swapped {
        one,
        other,
        of_one,
        of_other,
    })
}

// How many records the file of a peer has with its address and the AS number of another peer. None if there is none, if
// the file has records of the peer itself, or if they are of a peer of the exchange.
fn crossed_records(setup: &Setup, all: &[Contents<'_>], peer: usize, other: usize) -> Option<u64> {
    let count = setup.plan.count();
    if peer >= count || other >= count {
        return None;
    }
    let (own, with) = (
        setup.plan.peer(peer).peer_id(),
        setup.plan.peer(other).peer_id(),
    );
    let crossed = crossed_id(own, with);
    let contents = contents_of(all, setup.recording(peer)?)?;
    if !is_stranger(setup, crossed) || records_of(contents, own) > 0 {
        return None;
    }
    let records = records_of(contents, crossed);
    if records == 0 { None } else { Some(records) }
}

// The address of one peer with the AS number of another.
fn crossed_id(one: PeerId, other: PeerId) -> PeerId {
    PeerId {
        address: one.address,
        asn: other.asn,
    }
}

// How many records a file has of a peer.
fn records_of(contents: &Contents<'_>, peer: PeerId) -> u64 {
    match contents.held.peers().get(&peer) {
        Some(records) => records.records(),
        None => 0,
    }
}
