//! Whom a record concerns, found by the address and the AS number that it has (RFC 6396, sections 4.4.3 and 4.4.4).

ghost use Rattle.std.specs.Prelude.{◌≡◌, ◌<◌, ◌++◌, ◌∷◌, [], length, slice_get, IfOk, OnErr, IsTrue, Some, ℕ, if◌then◌else◌};
ghost use Rattle.rs_mrt.specs.Record.{record_of};
ghost use Rattle.rs_share.specs.Own.{is_for};
ghost use Rattle.rs_share.specs.Reach.{IsPlaceIn, key_of, reaches};
ghost use Rattle.rs_types.specs.Peer.{is_of};
ghost use Rattle.rs_types.specs.declared.peer_id.PeerId.{PeerId};

use rs_mrt::{Entry, Record, entry};
use rs_types::PeerId;
use std::alloc::{AllocError, Global};
use std::collections::BTreeMap;
use std::marker::Model;

/// Whom a record concerns.
#[derive(Clone, Copy, Debug, PartialEq, Eq, Drop)]
pub(crate) enum Whom {
    /// No peer that is known here.
    Nobody,
    /// The peer at this place.
    One(usize),
    /// All of them: it ends every session.
    All,
}

/// Peers with different addresses or AS numbers, each with its place.
#[derive(Drop)]
pub(crate) struct Directory {
    peers: Vec<PeerId>,
    // The place of each peer, by its key.
    places: BTreeMap<u64, usize>,
}

impl Model for Directory {
    ghost use Rattle.std.specs.Prelude.{List};
    ghost use Rattle.rs_types.specs.declared.peer_id.PeerId.{PeerId};
    ghost use Rattle.rs_share.specs.Reach.{IsDirectory, place_at};

    ghost Value = { List PeerId };

    ghost view = { λ d. d.peers.items };

    ghost invariant = { λ d. IsDirectory d.peers.items (place_at d.places.entries) };
}

impl Directory {
    /// No peers.
    pub(crate) fn new(alloc: Global) -> Directory
        ensures { result ≡ [] }
    {
        Directory {
            peers: Vec::new(alloc),
            places: BTreeMap::new(alloc),
        }
    }

    /// Adds a peer. Answers whether it is a new one: if another has its address and AS number, nothing changes.
    pub(crate) fn add(&mut self, peer: PeerId) -> Result<bool, AllocError>
        ensures added { IfOk result (λ new. self.new ≡ (if new then self.old ++ peer ∷ [] else self.old)) }
    {
        if self.places.contains_key(&key_of(peer)) {
            return Ok(false);
        }
        self.peers.reserve(1)?;
        let place = self.peers.len();
        if self.places.insert(key_of(peer), place).is_err() {
            return Err(AllocError);
        }
        self.peers.push_reserved(peer);
        Ok(true)
    }

    /// Whom a record concerns.
    pub(crate) fn whom(&self, record: &Record<'_>) -> Whom
        ensures reaches { (place : ℕ) → (peer : PeerId) → slice_get self.now place ≡ Some peer
            → reaches result place ≡ is_for peer (record_of «record».now) }
        ensures place { IsPlaceIn self.now result }
    {
        match entry(record) {
            Ok(Entry::Message { peer_as, peer, .. }) => self.find(peer, peer_as),
            Ok(Entry::State { peer_as, peer, .. }) => self.find(peer, peer_as),
            Ok(Entry::Other) => Whom::Nobody,
            Err(_) => Whom::All,
        }
    }

    // The peer with this address and this AS number.
    fn find(&self, address: u32, asn: u32) -> Whom
        ensures reaches { (place : ℕ) → (peer : PeerId) → slice_get self.now place ≡ Some peer
            → reaches result place ≡ is_of peer asn address }
        ensures place { IsPlaceIn self.now result }
    {
        match self.places.get(&key_of(PeerId { address, asn })) {
            Some(place) => Whom::One(*place),
            None => Whom::Nobody,
        }
    }
}

// A number that no other peer has.
fn key_of(peer: PeerId) -> u64
    ensures { result ≡ key_of peer }
{
    u64::from(peer.address) * 4_294_967_296 + u64::from(peer.asn)
}
