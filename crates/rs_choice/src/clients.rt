//! Who gets which of the routes on one prefix: a decision for each client, after that client's export policy
//! (RFC 4271, section 9.1; RFC 7947, section 2.3.2.1).
//!
//! What is chosen among all routes that may be candidates is shared. It rests on few of them: on the one that is chosen,
//! and on those that keep out another one of their neighbour AS by its higher MED. A client that may get all
//! of these gets the shared choice. Which other routes are its own or are refused to it does not matter.
//! Each other client has a decision of its own.

ghost use Rattle.std.specs.Prelude.{◌≡◌, ◌<◌, ◌≤◌, ◌↔◌, IfSome, IsTrue, filter, length};
ghost use Rattle.std.specs.List.{All};
ghost use Rattle.std.specs.Option.{option_map};
ghost use Rattle.rs_choice.specs.Candidacy.{is_candidate};
ghost use Rattle.rs_choice.specs.Clients.{best_peer_for, is_sent_to, peer_or_own, AreBest};
ghost use Rattle.rs_choice.specs.Contenders.{AreContenders, Contends, HoldCandidates, IsOutdone};
ghost use Rattle.rs_choice.specs.Decision.{choice, member_at, standing_of};
ghost use Rattle.rs_choice.specs.Entrants.{chosen_of};
ghost use Rattle.rs_choice.specs.Held.{held_standing, sent_of_held, taken_in, AreCandidates, IsJudged};
ghost use Rattle.rs_choice.specs.Sharing.{sents_at, ArePlaces, AreWeighing, IsFirst, IsShared};

use crate::candidate::{Placed, Standing};
use crate::decision::{first_of, group_all};
use crate::entrants::Chosen;
use crate::exchange::Exchange;
use crate::held_route::HeldRoute;
use crate::neighbour_groups::{Group, NeighbourGroups};
use crate::places::Places;
use crate::plan::MAX_PEERS;

// What is decided among all routes that may be candidates.
#[derive(Drop)]
pub(crate) struct Shared {
    // The number of the peer whose route is chosen.
    peer: Option<u8>,
    // The places of the routes on which the choice rests.
    weighing: Places,
}

impl Exchange {
    /// Decides for each client which of the routes on one prefix it gets. `bests` receives for each client the
    /// number of the peer whose route it gets. The number is the client's own if it gets none.
    ///
    /// A client gets the choice among the routes that import policy takes in, that are eligible, and that export policy
    /// permits to it. No client
    /// gets a route of its own. The call takes no memory.
    pub fn choose_for_all(&self, held: &[HeldRoute], bests: &mut [u8])
        requires judged { All (IsJudged self.now) held.now }
        requires bound { length held.now ≤ MAX_PEERS }
        requires count { length bests.old ≡ length self.now.peers }
        ensures count { length bests.new ≡ length self.now.peers }
        ensures best { AreBest self.now (taken_in held.now) bests.new }
    {
        let mut groups = NeighbourGroups::new();
        let fit = fit(held);
        let shared = self.share(held, &fit, &mut groups);
        for client in 0..self.count() {
            bests[client] = self.choose_for(held, &fit, &shared, client, &mut groups);
        }
    }

    // What is decided among all routes that may be candidates. The groups are those of some other decision before and of
    // this one after: so their arrays are filled once for all clients.
    fn share(&self, held: &[HeldRoute], fit: &Places, groups: &mut NeighbourGroups) -> Shared
        requires judged { All (IsJudged self.now) held.now }
        requires places { ArePlaces held.now fit.now }
        requires fit { chosen_of held.now fit.now ≡ filter (λ held. is_candidate held.candidacy) held.now }
        ensures { IsShared self.now held.now result }
    {
        // For the prover: at most 256 routes may be candidates.
        let _count = fit.len();
        let entrants = Chosen {
            plan: self,
            held,
            places: fit,
        };
        group_all(&entrants, groups);
        let first = first_of(&entrants, groups);
        let weighing = weighing(fit, groups, &first);
        let peer = first_peer(held, fit, &first);
        Shared { peer, weighing }
    }

    // The number of the peer whose route a client gets, or its own number if it gets none.
    fn choose_for(
        &self,
        held: &[HeldRoute],
        places: &Places,
        shared: &Shared,
        client: usize,
        groups: &mut NeighbourGroups,
    ) -> u8
        requires judged { All (IsJudged self.now) held.now }
        requires candidates { HoldCandidates self.now client held.now places.now }
        requires shared { IsShared self.now held.now shared.now }
        requires client_known { client < length self.now.peers }
        ensures { result ≡ best_peer_for self.now client (taken_in held.now) }
    {
        // For the prover: there are at most 256 peers, so the number of each is an octet.
        let _peers = self.count();
        if self.are_permitted(held, &shared.weighing, client) {
            return number(shared.peer, client);
        }
        self.choose_alone(held, places, client, groups)
    }

    // The number of the peer whose route a client gets, by a decision of its own.
    fn choose_alone(
        &self,
        held: &[HeldRoute],
        places: &Places,
        client: usize,
        groups: &mut NeighbourGroups,
    ) -> u8
        requires judged { All (IsJudged self.now) held.now }
        requires candidates { HoldCandidates self.now client held.now places.now }
        requires client_known { client < length self.now.peers }
        ensures { result ≡ best_peer_for self.now client (taken_in held.now) }
    {
        // For the prover: there are at most 256 peers, so the number of each is an octet.
        let _peers = self.count();
        let contenders = self.contenders(held, places, client);
        number(self.chosen_peer(held, &contenders, groups), client)
    }

    // The peer whose route is chosen among those at some places.
    fn chosen_peer(
        &self,
        held: &[HeldRoute],
        places: &Places,
        groups: &mut NeighbourGroups,
    ) -> Option<u8>
        requires judged { All (IsJudged self.now) held.now }
        requires places { ArePlaces held.now places.now }
        requires fit { AreCandidates (chosen_of held.now places.now) }
        ensures { result ≡ option_map (λ sent. sent.peer)
            (choice (standing_of self.now) (sents_at held.now places.now)) }
    {
        // For the prover: there are at most 256 places.
        let _count = places.len();
        let entrants = Chosen {
            plan: self,
            held,
            places,
        };
        group_all(&entrants, groups);
        let first = first_of(&entrants, groups);
        first_peer(held, places, &first)
    }

    // Whether all routes at some places are permitted to a client.
    fn are_permitted(&self, held: &[HeldRoute], places: &Places, client: usize) -> bool
        requires judged { All (IsJudged self.now) held.now }
        requires places { ArePlaces held.now places.now }
        requires client_known { client < length self.now.peers }
        ensures { IsTrue result → All (λ sent. IsTrue (is_sent_to self.now client sent))
            (sents_at held.now places.now) }
    {
        for number in 0..places.len() {
            if !self.permits_held(client, &held[places.place(number)]) {
                return false;
            }
        }
        true
    }

    // The places of a client's candidates among the routes at some places. A route that an earlier candidate outdoes
    // may be left out. Such a route is not tested by export policy.
    fn contenders(&self, held: &[HeldRoute], places: &Places, client: usize) -> Places
        requires judged { All (IsJudged self.now) held.now }
        requires candidates { HoldCandidates self.now client held.now places.now }
        requires client_known { client < length self.now.peers }
        ensures { AreContenders self.now client held.now result }
    {
        let mut contenders = Places::new();
        let mut last = None;
        for number in 0..places.len() {
            let place = places.place(number);
            if let Some(standing) = self.contends(client, &held[place], &last) {
                contenders.push(place);
                last = Some(standing);
            }
        }
        contenders
    }

    // The standing of a route that may be a candidate, if the route is permitted to a client and the last candidate doesn't outdo
    // it.
    fn contends(&self, client: usize, one: &HeldRoute, last: &Option<Standing>) -> Option<Standing>
        requires client_known { client < length self.now.peers }
        requires judged { IsJudged self.now one.now }
        requires fit { IsTrue (is_candidate one.now.candidacy) }
        ensures { Contends self.now client (sent_of_held one.now) last.now result }
    {
        if self.is_outdone(one, last) || !self.permits_held(client, one) {
            return None;
        }
        Some(self.held_standing(one))
    }

    // Whether another candidate, if there is one, outdoes a route.
    fn is_outdone(&self, one: &HeldRoute, other: &Option<Standing>) -> bool
        requires { IsJudged self.now one.now }
        ensures { IsTrue result ↔ IsOutdone (held_standing self.now one.now) other.now }
    {
        match other {
            None => false,
            Some(other) => self.is_outdone_by(one, other),
        }
    }
}

// The peer of the first of the routes at some places.
fn first_peer(held: &[HeldRoute], places: &Places, first: &Option<Placed>) -> Option<u8>
    requires places { ArePlaces held.now places.now }
    requires first { IfSome first.now (λ first. first.place < length places.now) }
    ensures { result ≡ option_map (λ held. held.peer)
        (member_at (chosen_of held.now places.now) (option_map (λ first. first.place) first.now)) }
{
    match first {
        None => None,
        Some(first) => Some(held[places.place(first.place)].peer),
    }
}

// The places of the routes that may be candidates.
fn fit(held: &[HeldRoute]) -> Places
    requires { length held.now ≤ MAX_PEERS }
    ensures places { ArePlaces held.now result }
    ensures fit { chosen_of held.now result ≡ filter (λ held. is_candidate held.candidacy) held.now }
{
    let mut fit = Places::new();
    for place in 0..held.len() {
        if held[place].candidacy.is_candidate() {
            fit.push(place);
        }
    }
    fit
}

// The places of the routes on which a choice rests: the chosen one, and those that remove another one of their
// neighbour AS by MED.
fn weighing(fit: &Places, groups: &NeighbourGroups, first: &Option<Placed>) -> Places
    requires { All (λ group. group.place < length fit.now) groups.now }
    ensures { AreWeighing fit.now groups.now first.now result }
{
    let mut weighing = Places::new();
    for number in 0..groups.len() {
        let group = groups.group(number);
        if group.keeps_out || is_first(&group, first) {
            weighing.push(fit.place(usize::from(group.place)));
        }
    }
    weighing
}

// Whether the entrant that stands for a group is the first of all.
fn is_first(group: &Group, first: &Option<Placed>) -> bool
    ensures { IsTrue result ↔ IsFirst group.now first.now }
{
    match first {
        None => false,
        Some(first) => usize::from(group.place) == first.place,
    }
}

// A peer's number, or the client's if there is none.
fn number(peer: Option<u8>, client: usize) -> u8
    requires { client < MAX_PEERS }
    ensures { result ≡ peer_or_own peer client }
{
    match peer {
        None => client as u8,
        Some(peer) => peer,
    }
}
