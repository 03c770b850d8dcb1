//! A change in a list: an announcement or a withdrawal of a peer on a prefix, in 24 octets (our choice).

ghost use Rattle.std.specs.Prelude.{◌≡◌, ◌<◌};
ghost use Rattle.std.specs.Option.{is_some, option_map};
ghost use Rattle.rs_table.specs.Gathered.{is_current, logged_cmp, rank_of};

use rs_types::{Attributes, Prefix, a_prefix_covers_itself};
use std::cmp::Ordering;
use std::marker::Model;
use std::mem::size_of;
use std::sync::Arc;

/// A change of a peer on a prefix.
#[derive(Drop)]
pub(crate) struct LoggedChange {
    change: Packed,
}

// The fields of a change. Octets stand first, so that they share the room behind the variant's number. Both variants
// list them: a struct of what both have would begin at the fourth octet, and a change would take 32 octets.
#[derive(Drop)]
enum Packed {
    Announced {
        len: u8,
        peer: u8,
        address: u32,
        time: u32,
        losses: u32,
        attributes: Arc<Attributes>,
    },
    Withdrawn {
        len: u8,
        peer: u8,
        address: u32,
        time: u32,
        losses: u32,
    },
}

const _: () = prove!(size_of::<LoggedChange>() == 24);

impl Model for LoggedChange {
    ghost use Rattle.rs_table.specs.Codes.{logged_code};
    ghost use Rattle.rs_table.specs.Logged.{Logged};

    ghost Value = { Logged };

    ghost coded = { logged_code };

    ghost use Rattle.rs_table.specs.LoggedView.{logged_view, IsLogged};

    ghost view = { logged_view };

    ghost invariant = { IsLogged };
}

impl LoggedChange {
    /// A change at `time` of a peer that had lost so many sessions when it came: an announcement if there are
    /// attributes, else a withdrawal.
    pub(crate) fn new(
        prefix: Prefix,
        time: u32,
        losses: u32,
        peer: u8,
        attributes: Option<Arc<Attributes>>,
    ) -> LoggedChange
        ensures { result ≡ record {
          prefix = prefix;
          time = time;
          losses = losses;
          peer = peer;
          attributes = option_map (λ attributes. attributes.value) attributes;
        } }
    {
        // For the prover: the host bits of its address are clear.
        a_prefix_covers_itself(prefix);
        let address = prefix.address();
        let len = prefix.len();
        let change = match attributes {
            Some(attributes) => Packed::Announced {
                len,
                peer,
                address,
                time,
                losses,
                attributes,
            },
            None => Packed::Withdrawn {
                len,
                peer,
                address,
                time,
                losses,
            },
        };
        LoggedChange { change }
    }

    /// Its prefix.
    pub(crate) fn prefix(&self) -> Prefix
        ensures { result ≡ self.now.prefix }
    {
        // For the prover: the host bits of its address are clear.
        let _ = &self.change;
        let ((address, len), _) = self.key();
        match Prefix::new(address, len) {
            Some(prefix) => prefix,
            None => unreachable!(),
        }
    }

    /// Its peer.
    pub(crate) fn peer(&self) -> u8
        ensures { result ≡ self.now.peer }
    {
        let (_, peer) = self.key();
        peer
    }

    /// Its prefix's address and length, and its peer.
    pub(crate) fn key(&self) -> ((u32, u8), u8)
        ensures { result ≡ ((self.now.prefix.address, self.now.prefix.len), self.now.peer) }
    {
        match &self.change {
            Packed::Announced {
                len,
                peer,
                address,
                ..
            }
            | Packed::Withdrawn {
                len,
                peer,
                address,
                ..
            } => ((*address, *len), *peer),
        }
    }

    /// How it is sorted among others: by the address and the length of its prefix, then by its peer.
    pub(crate) fn compare(&self, other: &LoggedChange) -> Ordering
        ensures { result ≡ logged_cmp self.now other.now }
    {
        self.rank().cmp(&other.rank())
    }

    // What it is sorted by, as one number: one number is compared faster than three.
    fn rank(&self) -> u64
        ensures value { result ≡ rank_of self.now }
        ensures bounds { (self.now.prefix.len < 256) × (self.now.peer < 256) }
    {
        let ((address, len), peer) = self.key();
        (u64::from(address) * 256 + u64::from(len)) * 256 + u64::from(peer)
    }

    /// Whether its peer has lost no session since it came, by how many each peer has lost.
    pub(crate) fn is_current(&self, losses: &[u32]) -> bool
        ensures { result ≡ is_current losses.now self.now }
    {
        let (peer, by_then) = match &self.change {
            Packed::Announced { peer, losses, .. } | Packed::Withdrawn { peer, losses, .. } => {
                (*peer, *losses)
            }
        };
        match losses.get(usize::from(peer)) {
            Some(lost) => *lost == by_then,
            None => false,
        }
    }

    /// Whether it is an announcement.
    pub(crate) fn announces(&self) -> bool
        ensures { result ≡ is_some self.now.attributes }
    {
        matches!(self.change, Packed::Announced { .. })
    }

    /// Whether the written form of an announcement's attributes begins with a zero. To ask reads from both blocks of
    /// memory that attributes have, so that they are at hand soon after.
    pub(crate) fn begins_with_zero(&self) -> bool {
        match &self.change {
            Packed::Announced { attributes, .. } => attributes.spelling().first() == Some(&0),
            Packed::Withdrawn { .. } => false,
        }
    }

    /// Its peer, when it came, and the attributes of an announcement.
    pub(crate) fn into_parts(self) -> (u8, u32, Option<Arc<Attributes>>)
        ensures peer { result.0 ≡ self.peer }
        ensures time { result.1 ≡ self.time }
        ensures attributes { option_map (λ attributes. attributes.value) result.2 ≡ self.attributes }
    {
        match self.change {
            Packed::Announced {
                peer,
                time,
                attributes,
                ..
            } => (peer, time, Some(attributes)),
            Packed::Withdrawn { peer, time, .. } => (peer, time, None),
        }
    }
}
