//! What is kept of one prefix: each peer's route there, and for each client the one that it gets (RFC 7947,
//! section 2.3.2.1).
//!
//! A cell that may change is made whole, with room for a route of every peer, so that no later change of it takes
//! memory. One that can't change has room for its own routes alone.

ghost use Rattle.std.specs.Prelude.{◌≡◌, ◌<◌, ◌≤◌, ◌∷◌, [], true, IfOk, IsTrue, IsFalse, OnOk, length, map};
ghost use Rattle.std.specs.Prelude.{vec_capacity};
ghost use Rattle.std.specs.Option.{is_some, option_map};
ghost use Rattle.rs_choice.specs.Held.{sent_of_held, IsJudged};
ghost use Rattle.rs_table.specs.ByPeer.{place_of, route_at, with_one, with_route, without_one, without_route};
ghost use Rattle.rs_table.specs.ByPeer.{IsAscending, IsRow};
ghost use Rattle.rs_table.specs.Cell.{got_at, got_from, routes_in, stored_best, AreHeld, ArePlacesOf, IsCell};
ghost use Rattle.rs_table.specs.Cell.{IsKeptCell, IsPlaceOf, IsUndecided};
ghost use Rattle.rs_table.specs.RouteView.{sent_route_of};
ghost use Rattle.rs_table.specs.Table.{sent_by};

use crate::route::Route;
use rs_choice::{Exchange, HeldRoute, MAX_PEERS, is_at, place_of_peer};
use smallvec::SmallVec;
use std::alloc::{AllocError, Global};
use std::marker::Model;

// How many clients have their octets in the cell itself: a small exchange takes no block of memory for them. More
// would make each cell larger, and with it the map.
const CLIENTS_INSIDE: usize = 16;

// The place that stands for no route, since there is no route at it. Only if 256 peers have a route is there one at
// each place.
const NO_PLACE: u8 = 255;

// The routes on a prefix, in ascending order of their peers. For each client it has the place, among these routes, of
// the route that the client gets. If the client gets none, there is no route at its place, or it is the client's own.
#[derive(Drop)]
pub(crate) struct Cell {
    held: Vec<HeldRoute>,
    bests: SmallVec<u8, CLIENTS_INSIDE>,
}

impl Model for Cell {
    ghost use Rattle.rs_table.specs.Cell.{cell_code, CellContent};

    ghost Value = { CellContent };

    ghost coded = { cell_code };

    ghost use Rattle.rs_table.specs.CellView.{cell_view, IsKept};

    ghost view = { cell_view };

    ghost invariant = { IsKept };
}

impl Cell {
    // A cell of one route, with room for one of every peer. Refused memory, there is none.
    pub(crate) fn new(alloc: Global, plan: &Exchange, route: HeldRoute) -> Result<Cell, AllocError>
        requires { IsJudged plan.now route }
        ensures routes { IfOk result (λ cell. routes_in cell ≡ sent_of_held route ∷ []) }
        ensures held { IfOk result (λ cell. cell.held ≡ route ∷ []) }
        ensures cell { IfOk result (λ cell. IsKeptCell true plan.now cell) }
    {
        let mut held = Vec::with_capacity(alloc, plan.count())?;
        held.push(route)?;
        Cell::decided(alloc, plan, held)
    }

    // A cell of some routes, which are moved. Unless it keeps room for one of every peer, it has room for these
    // alone. Refused memory, there is none.
    pub(crate) fn of(
        alloc: Global,
        plan: &Exchange,
        routes: &mut Vec<HeldRoute>,
        keeps_room: bool,
    ) -> Result<Cell, AllocError>
        requires held { AreHeld plan.now routes.old.items }
        requires some { 0 < length routes.old.items }
        ensures routes { IfOk result (λ cell. routes_in cell ≡ map sent_of_held routes.old.items) }
        ensures held { IfOk result (λ cell. cell.held ≡ routes.old.items) }
        ensures cell { IfOk result (λ cell. IsKeptCell keeps_room plan.now cell) }
        ensures moved { OnOk result (routes.new.items ≡ []) }
    {
        let room = if keeps_room {
            plan.count()
        } else {
            routes.len()
        };
        let mut held = Vec::with_capacity(alloc, room)?;
        held.append(routes)?;
        Cell::decided(alloc, plan, held)
    }

    // A cell of some routes, and what each client gets of them.
    fn decided(alloc: Global, plan: &Exchange, held: Vec<HeldRoute>) -> Result<Cell, AllocError>
        requires held { AreHeld plan.now held.items }
        requires some { 0 < length held.items }
        ensures routes { IfOk result (λ cell. routes_in cell ≡ map sent_of_held held.items) }
        ensures held { IfOk result (λ cell. cell.held ≡ held.items) }
        ensures cell { IfOk result (λ cell. IsCell plan.now cell) }
        ensures room { IfOk result (λ cell. cell.room ≡ vec_capacity held) }
    {
        let bests = SmallVec::from_elem(alloc, 0, plan.count())?;
        let mut cell = Cell { held, bests };
        cell.decide(plan);
        Ok(cell)
    }

    // Puts a route in the place of any that its peer has, and decides nothing. It takes no memory.
    pub(crate) fn put(&mut self, plan: &Exchange, route: HeldRoute)
        requires judged { IsJudged plan.now route }
        requires cell { IsUndecided plan.now self.old }
        ensures routes { routes_in self.new ≡ with_route (routes_in self.old) (sent_of_held route) }
        ensures held { self.new.held ≡ with_one (λ one. one.peer) self.old.held route }
        ensures cell { IsUndecided plan.now self.new }
    {
        put(&mut self.held, route);
    }

    // Decides for every client, if there is a route. Answers whether there is one.
    pub(crate) fn settle(&mut self, plan: &Exchange) -> bool
        requires { IsUndecided plan.now self.old }
        ensures routes { routes_in self.new ≡ routes_in self.old }
        ensures held { self.new.held ≡ self.old.held }
        ensures some { IsTrue result → IsKeptCell true plan.now self.new }
        ensures none { IsFalse result → routes_in self.new ≡ [] }
    {
        if self.held.is_empty() {
            return false;
        }
        self.decide(plan);
        true
    }

    // Puts a route in the place of any that its peer has. It takes no memory.
    pub(crate) fn announce(&mut self, plan: &Exchange, route: HeldRoute)
        requires judged { IsJudged plan.now route }
        requires cell { IsKeptCell true plan.now self.old }
        ensures routes { routes_in self.new ≡ with_route (routes_in self.old) (sent_of_held route) }
        ensures held { self.new.held ≡ with_one (λ one. one.peer) self.old.held route }
        ensures cell { IsKeptCell true plan.now self.new }
    {
        self.put(plan, route);
        self.decide(plan);
    }

    // Removes a peer's route, if it has one; answers whether a route is left. If the peer has none, nothing is
    // decided.
    pub(crate) fn withdraw(&mut self, plan: &Exchange, peer: usize) -> bool
        requires { IsKeptCell true plan.now self.old }
        ensures routes { routes_in self.new ≡ without_route (routes_in self.old) peer }
        ensures held { self.new.held ≡ without_one (λ one. one.peer) self.old.held peer }
        ensures some { IsTrue result → IsKeptCell true plan.now self.new }
        ensures none { IsFalse result → routes_in self.new ≡ [] }
    {
        if !take_out(&mut self.held, peer) {
            return true;
        }
        self.settle(plan)
    }

    // Decides, for every client, whose route it gets.
    fn decide(&mut self, plan: &Exchange)
        requires held { AreHeld plan.now self.old.held }
        requires some { 0 < length self.old.held }
        requires count { length self.old.bests ≡ length plan.now.peers }
        ensures held { self.new.held ≡ self.old.held }
        ensures room { self.new.room ≡ self.old.room }
        ensures cell { IsCell plan.now self.new }
    {
        // For the prover: there are at most 256 peers, so there are no more routes on a prefix.
        let _peers = plan.count();
        let bests: &mut [u8] = &mut self.bests;
        plan.choose_for_all(&self.held, bests);
        to_places(&self.held, bests);
    }

    // The route of a peer.
    pub(crate) fn route(&self, peer: usize) -> Option<Route<'_>>
        ensures { option_map sent_route_of result ≡ option_map (sent_by peer) (route_at (routes_in self.now) peer) }
    {
        let route = self.held.get(place(&self.held, peer))?;
        if usize::from(route.peer) != peer {
            return None;
        }
        Some(Route {
            peer,
            time: route.time,
            attributes: &route.attributes,
        })
    }

    // Whether a peer has a route.
    pub(crate) fn has_route(&self, peer: usize) -> bool
        ensures { result ≡ is_some (route_at (routes_in self.now) peer) }
    {
        self.route(peer).is_some()
    }

    // The route that a client gets.
    pub(crate) fn best(&self, client: usize) -> Option<Route<'_>>
        ensures { option_map sent_route_of result ≡ stored_best self.now client }
    {
        let place = usize::from(*self.bests.get(client)?);
        let route = self.held.get(place)?;
        let peer = usize::from(route.peer);
        if peer == client {
            return None;
        }
        Some(Route {
            peer,
            time: route.time,
            attributes: &route.attributes,
        })
    }
}

// The peer that was looked for last, and the place of its route.
#[derive(Drop)]
struct Found {
    peer: u8,
    place: u8,
}

// Turns the number of the peer whose route each client gets into the place of that route. Nearly all clients get the
// same route, so the place that was found last is kept.
fn to_places(held: &[HeldRoute], bests: &mut [u8])
    requires row { IsRow 0 MAX_PEERS (map sent_of_held held.now) }
    requires some { 0 < length held.now }
    ensures count { length bests.new ≡ length bests.old }
    ensures places { ArePlacesOf (map sent_of_held held.now) bests.old bests.new }
{
    let mut last = Found {
        peer: held[0].peer,
        place: 0,
    };
    for client in 0..bests.len() {
        bests[client] = place_for(held, client, bests[client], &mut last);
    }
}

// The place of the route that a client gets, by the number of the route's peer. The number is the client's own if it
// gets none.
fn place_for(held: &[HeldRoute], client: usize, peer: u8, last: &mut Found) -> u8
    requires row { IsRow 0 MAX_PEERS (map sent_of_held held.now) }
    requires found { IsPlaceOf (map sent_of_held held.now) last.old.peer last.old.place }
    ensures place { got_at (map sent_of_held held.now) client result
        ≡ got_from (map sent_of_held held.now) client peer }
    ensures found { IsPlaceOf (map sent_of_held held.now) last.new.peer last.new.place }
{
    if peer == last.peer {
        return last.place;
    }
    if usize::from(peer) == client && held.len() <= usize::from(NO_PLACE) {
        return NO_PLACE;
    }
    let place = place_or_none(held, peer);
    *last = Found { peer, place };
    place
}

// The place of a peer's route, or a place without a route if the peer has none.
fn place_or_none(held: &[HeldRoute], peer: u8) -> u8
    requires { IsRow 0 MAX_PEERS (map sent_of_held held.now) }
    ensures { IsPlaceOf (map sent_of_held held.now) peer result }
{
    let number = usize::from(peer);
    let place = place(held, number);
    if !is_at(held, place, number) {
        return NO_PLACE;
    }
    place as u8
}

// Puts a route in the place of any that its peer has, if there is room for all routes.
fn put(held: &mut Vec<HeldRoute>, route: HeldRoute)
    requires ascending { IsAscending held.old.items }
    requires room { length (with_one (λ one. one.peer) held.old.items route) ≤ vec_capacity held.old }
    ensures held { held.new.items ≡ with_one (λ one. one.peer) held.old.items route }
    ensures capacity { vec_capacity held.old ≤ vec_capacity held.new }
{
    let peer = usize::from(route.peer);
    let place = place(held, peer);
    if is_at(held, place, peer) {
        held[place] = route;
        return;
    }
    let _inserted = held.insert(place, route);
}

// Removes a peer's route, if it has one. Answers whether it had.
fn take_out(held: &mut Vec<HeldRoute>, peer: usize) -> bool
    requires { IsAscending held.old.items }
    ensures held { held.new.items ≡ without_one (λ one. one.peer) held.old.items peer }
    ensures same { IsFalse result → held.new.items ≡ held.old.items }
    ensures capacity { vec_capacity held.new ≡ vec_capacity held.old }
{
    let place = place(held, peer);
    if !is_at(held, place, peer) {
        return false;
    }
    let _old = held.remove(place);
    true
}

// How many routes stand before that of a peer, or before the place for one.
fn place(held: &[HeldRoute], peer: usize) -> usize
    requires { IsAscending held.now }
    ensures place { result ≡ place_of (λ one. one.peer) held.now peer }
    ensures within { result ≤ length held.now }
{
    place_of_peer(held, peer)
}
