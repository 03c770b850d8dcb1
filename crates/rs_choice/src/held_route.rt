//! Routes as they are stored for decisions. What most decisions ask of a route by itself is found once, when the
//! route comes, and stored beside it.
//!
//! So a decision reads the attributes of two kinds of routes alone. One kind is refused to some client by export
//! policy. The other kind ties in preference, path length and origin, and has a MED or another neighbour AS than
//! its sender.

ghost use Rattle.std.specs.Prelude.{◌≡◌, ◌<◌, ◌↔◌, ◌&&◌, IsTrue, length};
ghost use Rattle.rs_types.specs.AsPath.{path_length_of};
ghost use Rattle.rs_choice.specs.Acceptance.{accepts};
ghost use Rattle.rs_choice.specs.Candidacy.{is_candidate, is_open_candidate, is_plain_candidate, is_taken_in};
ghost use Rattle.rs_choice.specs.Candidacy.{origin_of_candidacy};
ghost use Rattle.rs_choice.specs.Clients.{is_sent_to};
ghost use Rattle.rs_choice.specs.Eligibility.{is_eligible};
ghost use Rattle.rs_choice.specs.Held.{held_standing, sent_of_held, without_med, IsJudged, IsOpen, IsPlain, IsTakenBy};
ghost use Rattle.rs_choice.specs.Comparison.{IsAhead, Outdoes};

use crate::candidacy::Candidacy;
use crate::candidate::Standing;
use crate::exchange::Exchange;
use rs_types::{Attributes, Prefix};
use std::mem::size_of;
use std::sync::Arc;

/// A route of a peer as it is stored for decisions, in 16 octets.
#[derive(Drop)]
pub struct HeldRoute {
    /// The number of the peer that sent it.
    pub peer: u8,
    /// Its ORIGIN, whether import policy takes it in, whether it is eligible, and whether export policy permits it to
    /// every client but its sender. Also whether it is plain: its neighbour AS is its sender's AS, and its MED is 0 or
    /// missing.
    pub candidacy: Candidacy,
    /// AS numbers in AS_PATH, an AS_SET counting 1.
    pub path_length: u16,
    /// When it was announced, in seconds since 1970. No decision looks at it.
    pub time: u32,
    /// Its path attributes.
    pub attributes: Arc<Attributes>,
}

const _: () = prove!(size_of::<HeldRoute>() == 16);

impl Exchange {
    /// A route of the peer of number `peer` on a prefix, announced at `time`, with the values that decisions need.
    /// Import policy is asked here, once for the route. It takes no memory.
    pub fn hold(
        &self,
        peer: usize,
        prefix: Prefix,
        time: u32,
        attributes: Arc<Attributes>,
    ) -> HeldRoute
        requires { peer < length self.now.peers }
        ensures judged { IsJudged self.now result }
        ensures taken { IsTakenBy self.now prefix result }
        ensures peer { result.peer ≡ peer }
        ensures time { result.time ≡ time }
        ensures attributes { result.attributes ≡ attributes }
    {
        // For the prover: there are at most 256 peers, so the number of each is an octet.
        let _peers = self.count();
        let candidacy = self.candidacy(peer, prefix, &attributes);
        let path_length = path_length(&attributes);
        HeldRoute {
            peer: peer as u8,
            candidacy,
            path_length,
            time,
            attributes,
        }
    }

    // What decisions need of a peer's route by itself.
    fn candidacy(&self, peer: usize, prefix: Prefix, attributes: &Attributes) -> Candidacy
        requires { peer < length self.now.peers }
        ensures taken { is_taken_in result ≡ accepts self.now peer prefix attributes.now }
        ensures candidate { is_candidate result ≡ (is_taken_in result && is_eligible self.now peer attributes.now) }
        ensures unrestricted { IsTrue (is_open_candidate result)
            ↔ (IsTrue (is_candidate result) × IsOpen self.now peer attributes.now) }
        ensures origin { IsTrue (is_candidate result) → origin_of_candidacy result ≡ attributes.now.origin }
        ensures plain { IsTrue (is_plain_candidate result)
            ↔ (IsTrue (is_candidate result) × IsPlain self.now peer attributes.now) }
    {
        if !self.accepts(peer, prefix, attributes) {
            return Candidacy::Filtered;
        }
        if !self.eligible(peer, attributes) {
            return Candidacy::Ineligible;
        }
        let plain = self.is_plain(peer, attributes);
        Candidacy::of(self.is_open(peer, attributes), attributes.origin(), plain)
    }

    // Whether the neighbour AS of a route is its sender's AS, and its MED is 0 or missing.
    fn is_plain(&self, peer: usize, attributes: &Attributes) -> bool
        requires { peer < length self.now.peers }
        ensures { IsTrue result ↔ IsPlain self.now peer attributes.now }
    {
        let asn = self.peer(peer).asn;
        attributes.neighbour(asn) == asn && attributes.compared_med() == 0
    }

    // The values by which the decision process compares a stored route. The pointer to attributes is followed only
    // for a route that isn't plain, since attributes are most often far away in memory.
    pub(crate) fn held_standing(&self, held: &HeldRoute) -> Standing
        requires { IsJudged self.now held.now }
        ensures { result ≡ held_standing self.now held.now }
    {
        let sender = self.peer(usize::from(held.peer));
        let standing = self.standing_without_med(held);
        if held.candidacy.is_plain() {
            return Standing {
                neighbour: sender.asn,
                ..standing
            };
        }
        Standing {
            neighbour: held.attributes.neighbour(sender.asn),
            med: held.attributes.compared_med(),
            ..standing
        }
    }

    // The values that all steps but MED compare of a stored route; neighbour AS and MED are 0. No pointer to
    // attributes is followed, since these are most often far away in memory.
    fn standing_without_med(&self, held: &HeldRoute) -> Standing
        requires { held.now.peer < length self.now.peers }
        ensures { result ≡ without_med (held_standing self.now held.now) }
    {
        let sender = self.peer(usize::from(held.peer));
        Standing {
            preference: sender.preference,
            path_length: u32::from(held.path_length),
            origin: held.candidacy.origin(),
            neighbour: 0,
            med: 0,
            id: sender.id,
            address: sender.address,
        }
    }

    // Whether the leader is before a stored route by preference, path length and origin.
    pub(crate) fn leaves_behind(&self, leader: &Standing, one: &HeldRoute) -> bool
        requires { one.now.peer < length self.now.peers }
        ensures { IsTrue result ↔ IsAhead leader.now (held_standing self.now one.now) }
    {
        leader.is_ahead_of(&self.standing_without_med(one))
    }

    // Whether a standing outdoes a stored route: by the six steps, one after another, it removes the route and is
    // not removed itself. Between different neighbour ASes only the first three steps count. Later, a third route of
    // the same AS may remove one of the two by MED. The pointer to attributes is followed only if the first three
    // steps leave both.
    pub(crate) fn is_outdone_by(&self, one: &HeldRoute, best: &Standing) -> bool
        requires { IsJudged self.now one.now }
        ensures { IsTrue result ↔ Outdoes best.now (held_standing self.now one.now) }
    {
        let front = self.standing_without_med(one);
        best.is_ahead_of(&front)
            || (best.is_level_with(&front) && best.outdoes_by_med(&self.held_standing(one)))
    }

    // Whether a client may get a stored route.
    pub(crate) fn permits_held(&self, client: usize, held: &HeldRoute) -> bool
        requires client_known { client < length self.now.peers }
        requires judged { IsJudged self.now held.now }
        ensures { result ≡ is_sent_to self.now client (sent_of_held held.now) }
    {
        let peer = usize::from(held.peer);
        client != peer && (held.candidacy.is_open() || self.permits(client, peer, &held.attributes))
    }
}

// How many AS numbers AS_PATH has, an AS_SET counting 1. A spelling of at most 4,073 octets has room for some
// 1,018 AS numbers.
fn path_length(attributes: &Attributes) -> u16
    ensures { result ≡ path_length_of attributes.now.path }
{
    // For the prover: the spelling has at most 4,073 octets.
    let _spelled = attributes.written_len();
    attributes.path_length() as u16
}
