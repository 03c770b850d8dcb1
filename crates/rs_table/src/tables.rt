//! The tables of an exchange: what each peer has left, and what each client gets of it (RFC 4271, sections
//! 3.2 and 9.1).
//!
//! They are kept by prefix: a cell has the routes of all peers on one prefix, and what each client gets of
//! them, decided anew with each change.

ghost use Rattle.std.specs.Prelude.{◌≡◌, ◌≢◌, ◌<◌, ◌≤◌, ◌⊎◌, ℕ, true, false, IfOk, OnOk, OnErr, None, Some};
ghost use Rattle.std.specs.Prelude.{length, slice_index_or};
ghost use Rattle.std.specs.Option.{option_map};
ghost use Rattle.rs_types.specs.IpPrefix.{IpPrefix};
ghost use Rattle.rs_change.specs.Change.{change_of, is_close};
ghost use Rattle.rs_table.specs.ByPeer.{route_at};
ghost use Rattle.rs_table.specs.Cell.{CellContent, routes_in, stored_best};
ghost use Rattle.rs_table.specs.Cells.{cell_at, AreCells, AreKeptCells};
ghost use Rattle.rs_table.specs.Content.{nothing_held, rib_of};
ghost use Rattle.rs_table.specs.Left.{BecomeBy, IsNewAnnouncement};
ghost use Rattle.rs_table.specs.Listing.{is_held, IsFirstAnnouncement};
ghost use Rattle.rs_table.specs.Merge.{AreParts, IsJoined};
ghost use Rattle.rs_table.specs.RouteView.{sent_route_of};
ghost use Rattle.rs_table.specs.Table.{best_of, route_from, sent_by};
ghost use Rattle.rs_table.specs.TablesView.{ribs_from, AllClosed};

use crate::cell::Cell;
use crate::cells::join;
use crate::counts::{change_and_count, count_all};
use crate::route::Route;
use rs_change::{Body, Word};
use rs_choice::{Exchange, MAX_PEERS};
use rs_types::Prefix;
use std::alloc::{AllocError, Global};
use std::collections::BTreeMap;
use std::marker::Model;
use std::sync::Arc;

/// The tables of an exchange.
///
/// Of each peer they hold the routes that its changes have left, and whether its session closed. They keep
/// the allocator.
#[derive(Drop)]
pub struct Tables {
    plan: Arc<Exchange>,
    // Of each peer, whether its session closed.
    closed: Vec<bool>,
    cells: BTreeMap<Prefix, Cell>,
    // Of each peer, how many routes it has left. They are counted while a session is open.
    counts: Vec<usize>,
}

impl Model for Tables {
    ghost use Rattle.rs_table.specs.Codes.{tables_code};
    ghost use Rattle.rs_table.specs.Content.{TablesContent};

    ghost Value = { TablesContent };

    ghost coded = { tables_code };

    ghost use Rattle.rs_table.specs.TablesView.{tables_view, AreTables};

    ghost view = { tables_view };

    ghost invariant = { AreTables };
}

impl Tables {
    /// The tables of an exchange before any change: no peer has a route, and all sessions are open.
    pub fn new(alloc: Global, plan: Arc<Exchange>) -> Result<Tables, AllocError>
        ensures plan { IfOk result (λ tables. tables.plan ≡ plan.value) }
        ensures empty { IfOk result (λ tables. (peer : ℕ) → rib_of tables peer ≡ nothing_held) }
        ensures count { IfOk result (λ tables. length tables.ribs ≡ length plan.value.peers) }
    {
        let mut closed = Vec::with_capacity(alloc, plan.count())?;
        closed.resize(plan.count(), false)?;
        let mut counts = Vec::with_capacity(alloc, plan.count())?;
        counts.resize(plan.count(), 0)?;
        let cells = BTreeMap::new(alloc);
        Ok(Tables {
            plan,
            closed,
            cells,
            counts,
        })
    }

    /// Whether the session of the peer of number `peer` closed; false if there is no such peer.
    pub fn is_closed(&self, peer: usize) -> bool
        ensures { result ≡ (rib_of self.now peer).closed }
    {
        match self.closed.get(peer) {
            Some(closed) => *closed,
            None => false,
        }
    }

    /// Takes the next change of the peer of number `peer`. An announcement replaces the peer's route on that
    /// prefix, and a withdrawal removes it. A loss of the session removes all of the peer's routes. A close at
    /// the end of the file leaves them, and any other close removes them (our choice).
    ///
    /// Only the first announcement of a prefix takes memory. If that is refused, nothing changed, and the
    /// change is dropped. An announcement of a prefix on which some peer has a route, eligible or not, succeeds.
    pub fn apply(&mut self, peer: usize, word: Word) -> Result<(), AllocError>
        requires known { peer < length self.old.plan.peers }
        requires open { (rib_of self.old peer).closed ≡ false }
        ensures routes { OnOk result (BecomeBy (rib_of self.old peer).routes (change_of word)
            (rib_of self.new peer).routes) }
        ensures closed { OnOk result ((rib_of self.new peer).closed ≡ is_close (change_of word)) }
        ensures err { OnErr result (self.new ≡ self.old) }
        ensures succeeds { OnErr result (IsNewAnnouncement (rib_of self.old peer).routes (change_of word)) }
        ensures first { OnErr result (IsFirstAnnouncement self.old.ribs (change_of word)) }
        ensures others { (other : ℕ) → other ≢ peer → rib_of self.new other ≡ rib_of self.old other }
        ensures plan { self.new.plan ≡ self.old.plan }
        ensures count { length self.new.ribs ≡ length self.old.ribs }
    {
        let closes = closes(&word);
        let alloc = *self.closed.allocator();
        let before = self.counts[peer];
        let count = change_and_count(alloc, &mut self.cells, &self.plan, peer, before, word)?;
        self.counts[peer] = count;
        if closes {
            self.closed[peer] = true;
        }
        Ok(())
    }

    /// How many peers there are: as many as the plan has. The tables have an Adj-RIB-In of each one.
    pub fn count(&self) -> usize
        ensures peers { result ≡ length self.now.plan.peers }
        ensures ribs { result ≡ length self.now.ribs }
        ensures bound { result ≤ MAX_PEERS }
    {
        // For the prover: each peer of the plan is open or closed, so there are as many RIBs as peers.
        let _closed = &self.closed;
        self.plan.count()
    }

    /// The route that the peer of number `client` gets on a prefix. The decision process chooses it among the routes
    /// that other peers have left there. They are the eligible ones that export policy permits to the client. None
    /// if there is no such route or no such peer. It takes no memory.
    pub fn best(&self, client: usize, prefix: Prefix) -> Option<Route<'_>>
        ensures { option_map sent_route_of result ≡ best_of self.now client prefix }
    {
        self.cells.get(&prefix)?.best(client)
    }

    /// The route that the peer of number `peer` has left on a prefix, eligible or not; none if it has
    /// none. It takes no memory.
    pub fn route(&self, peer: usize, prefix: Prefix) -> Option<Route<'_>>
        requires { peer < length self.now.plan.peers }
        ensures { option_map sent_route_of result ≡ route_from self.now prefix peer }
    {
        self.cells.get(&prefix)?.route(peer)
    }

    // The cells. If a prefix has no cell, no peer has left a route on it. Otherwise each client gets the route that
    // the cell says.
    pub(crate) fn cells(&self) -> &BTreeMap<Prefix, Cell>
        ensures bests { (client : ℕ) → (prefix : IpPrefix) → (cell : CellContent)
            → cell_at result.now.entries prefix ≡ Some cell → stored_best cell client ≡ best_of self.now client prefix }
        ensures routes { (peer : ℕ) → (prefix : IpPrefix) → (cell : CellContent) → peer < length self.now.plan.peers
            → cell_at result.now.entries prefix ≡ Some cell
            → option_map (sent_by peer) (route_at (routes_in cell) peer) ≡ route_from self.now prefix peer }
        ensures some { (prefix : IpPrefix) → (cell : CellContent) → cell_at result.now.entries prefix ≡ Some cell
            → is_held self.now.ribs prefix ≡ true }
        ensures none { (prefix : IpPrefix) → cell_at result.now.entries prefix ≡ None
            → is_held self.now.ribs prefix ≡ false }
    {
        &self.cells
    }

    // These tables and others as one. Each cell is moved, and none made anew.
    pub(crate) fn joined_with(self, other: Tables) -> Result<Tables, AllocError>
        requires { AreParts self other }
        ensures { IfOk result (IsJoined self other) }
    {
        let cells = join(self.allocator(), self.cells, other.cells)?;
        Tables::of_cells(self.plan, self.closed, cells)
    }

    // The plan, and of each peer whether its session closed.
    pub(crate) fn into_peers(self) -> (Arc<Exchange>, Vec<bool>)
        ensures plan { result.0.value ≡ self.plan }
        ensures count { length result.1.items ≡ length self.ribs }
        ensures peers { length result.1.items ≡ length self.plan.peers }
        ensures closed { (peer : ℕ) → slice_index_or result.1.items peer false ≡ (rib_of self peer).closed }
    {
        (self.plan, self.closed)
    }

    // Tables of a plan by whose sessions closed and their cells. Refused memory, these are dropped.
    pub(crate) fn of_cells(
        plan: Arc<Exchange>,
        closed: Vec<bool>,
        cells: BTreeMap<Prefix, Cell>,
    ) -> Result<Tables, AllocError>
        requires peers { length closed.items ≡ length plan.value.peers }
        requires cells { AreCells plan.value cells.entries }
        requires room { AllClosed closed.items ⊎ AreKeptCells true plan.value cells.entries }
        ensures { IfOk result (λ tables. tables
            ≡ record { plan = plan.value; ribs = ribs_from cells.entries 0 closed.items }) }
    {
        let counts = count_all(*closed.allocator(), &closed, &cells)?;
        Ok(Tables {
            plan,
            closed,
            cells,
            counts,
        })
    }

    // The allocator.
    pub(crate) fn allocator(&self) -> Global {
        *self.closed.allocator()
    }

    /// The exchange whose tables they are.
    pub fn plan(&self) -> &Exchange
        ensures { result.now ≡ self.now.plan }
    {
        &self.plan
    }
}

// Whether a change closes the session.
pub(crate) fn closes(word: &Word) -> bool
    ensures { result ≡ is_close (change_of word.now) }
{
    matches!(word.body, Body::Close(_))
}
