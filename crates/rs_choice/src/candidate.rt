//! A candidate of the decision process, and the values by which it is compared (RFC 4271, sections 9.1.1 and
//! 9.1.2.2).

ghost use Rattle.std.specs.Prelude.{◌≡◌, ◌<◌, ◌↔◌, IsTrue, length};
ghost use Rattle.rs_choice.specs.Decision.{standing_of_candidate};
ghost use Rattle.rs_choice.specs.Grouping.{GoesBefore};

use crate::exchange::Exchange;
use rs_types::{Attributes, Origin};

/// A route that a client may get: the number of the peer that sent it, and its attributes.
#[derive(Clone, Copy)]
pub struct Candidate<'a> {
    /// The number of the sending peer.
    pub peer: usize,
    /// The route's attributes.
    pub attributes: &'a Attributes,
}

/// The values by which the decision process compares a candidate.
#[derive(Clone, Copy, Debug, PartialEq, Eq)]
pub struct Standing {
    /// The configured preference of the sending peer: more is better.
    pub preference: u32,
    /// AS numbers in AS_PATH, an AS_SET counting 1.
    pub path_length: u32,
    /// ORIGIN: lower is better.
    pub origin: Origin,
    /// The neighbour AS.
    pub neighbour: u32,
    /// MULTI_EXIT_DISC, 0 if it is missing.
    pub med: u32,
    /// The BGP Identifier of the sending peer, in host order: lower is better.
    pub id: u32,
    /// The address of the sending peer, in host order: lower is better.
    pub address: u32,
}

// A candidate by its place in a list, and its standing.
#[derive(Clone, Copy)]
pub(crate) struct Placed {
    pub(crate) place: usize,
    pub(crate) standing: Standing,
}

impl Placed {
    // Whether one candidate goes before another by identifier, address and place.
    pub(crate) fn goes_before(&self, other: &Placed) -> bool
        ensures { IsTrue result ↔ GoesBefore self.now.standing self.now.place other.now.standing other.now.place }
    {
        self.standing.precedes(&other.standing)
            || (self.standing.id == other.standing.id
                && self.standing.address == other.standing.address
                && self.place < other.place)
    }
}

impl Exchange {
    /// The values by which the decision process compares a candidate. It takes no memory.
    pub fn standing(&self, candidate: &Candidate) -> Standing
        requires { candidate.now.peer < length self.now.peers }
        ensures { result ≡ standing_of_candidate self.now candidate.now }
    {
        let sender = self.peer(candidate.peer);
        let attributes = candidate.attributes;
        Standing {
            preference: sender.preference,
            path_length: attributes.path_length(),
            origin: attributes.origin(),
            neighbour: attributes.neighbour(sender.asn),
            med: attributes.compared_med(),
            id: sender.id,
            address: sender.address,
        }
    }
}
