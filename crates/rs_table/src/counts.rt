//! How many routes each peer has left. A peer that has none loses none: the end of its session costs no pass over the
//! cells (our choice).

ghost use Rattle.std.specs.Prelude.{◌≡◌, ◌<◌, ◌⊎◌, true, IfOk, IsFalse, OnOk, OnErr, length};
ghost use Rattle.std.specs.FinMap.{contains_key, len};
ghost use Rattle.rs_change.specs.Change.{change_of};
ghost use Rattle.rs_table.specs.Cells.{routes_from, AreKeptCells, ChangeTo, IsFirstOn};
ghost use Rattle.rs_table.specs.Counts.{announces, route_count, AreCounts};
ghost use Rattle.rs_table.specs.Left.{after};
ghost use Rattle.rs_table.specs.TablesView.{AllClosed};

use crate::cell::Cell;
use crate::cells::change;
use rs_change::{Body, Reason, Word};
use rs_choice::Exchange;
use rs_types::Prefix;
use std::alloc::{AllocError, Global};
use std::collections::BTreeMap;

// Of each peer, how many routes it has. Nothing is counted if no session is open any more, since no change can
// come there.
pub(crate) fn count_all(
    alloc: Global,
    closed: &[bool],
    cells: &BTreeMap<Prefix, Cell>,
) -> Result<Vec<usize>, AllocError>
    ensures { IfOk result (λ counts. AllClosed closed.now
        ⊎ AreCounts cells.now.entries (length closed.now) counts.items) }
{
    let mut counts = Vec::new(alloc);
    if !is_some_open(closed) {
        return Ok(counts);
    }
    for peer in 0..closed.len() {
        counts.push(count(cells, peer))?;
    }
    Ok(counts)
}

// How many routes a peer has.
fn count(cells: &BTreeMap<Prefix, Cell>, peer: usize) -> usize
    ensures { result ≡ route_count cells.now.entries peer }
{
    cells.values().filter(|cell| cell.has_route(peer)).count()
}

// Whether some session is open, so that changes may come.
pub(crate) fn is_some_open(closed: &[bool]) -> bool
    ensures { IsFalse result → AllClosed closed.now }
{
    closed.iter().any(|closed| !*closed)
}

// Takes a change of a peer that has `count` routes. Answers how many it has then. Refused, nothing changed.
pub(crate) fn change_and_count(
    alloc: Global,
    cells: &mut BTreeMap<Prefix, Cell>,
    plan: &Exchange,
    peer: usize,
    count: usize,
    word: Word,
) -> Result<usize, AllocError>
    requires known { peer < length plan.now.peers }
    requires cells { AreKeptCells true plan.now cells.old.entries }
    requires count { count ≡ route_count cells.old.entries peer }
    ensures routes { OnOk result (ChangeTo peer (change_of word) cells.old.entries cells.new.entries) }
    ensures err { OnErr result (cells.new.entries ≡ cells.old.entries) }
    ensures first { OnErr result (IsFirstOn cells.old.entries (change_of word).body) }
    ensures cells { AreKeptCells true plan.now cells.new.entries }
    ensures count { IfOk result (λ count. count ≡ route_count cells.new.entries peer) }
{
    // Of a peer that has no route, only an announcement changes anything.
    if count == 0 && !announces(&word) {
        return Ok(0);
    }
    let count = count_after(cells, peer, count, &word);
    change(alloc, cells, plan, peer, word)?;
    Ok(count)
}

// How many routes a peer will have after a change, by how many it has.
fn count_after(cells: &BTreeMap<Prefix, Cell>, peer: usize, count: usize, word: &Word) -> usize
    requires { count ≡ route_count cells.now.entries peer }
    ensures { result ≡ len (after (routes_from cells.now.entries peer) (change_of word.now)) }
{
    // For the prover: there are fewer than 2^63 cells, and a peer has at most one route in each.
    let _most = cells.len();
    match &word.body {
        Body::Announce(prefix, _) => {
            if has_route(cells, peer, *prefix) {
                count
            } else {
                count + 1
            }
        }
        Body::Withdraw(prefix) => {
            if has_route(cells, peer, *prefix) {
                count - 1
            } else {
                count
            }
        }
        Body::Down => 0,
        Body::Close(reason) => {
            if *reason == Reason::EndOfFile {
                count
            } else {
                0
            }
        }
    }
}

// Whether a peer has a route on a prefix.
fn has_route(cells: &BTreeMap<Prefix, Cell>, peer: usize, prefix: Prefix) -> bool
    ensures { result ≡ contains_key (routes_from cells.now.entries peer) prefix }
{
    match cells.get(&prefix) {
        Some(cell) => cell.has_route(peer),
        None => false,
    }
}

// Whether a change announces a route.
fn announces(word: &Word) -> bool
    ensures { result ≡ announces (change_of word.now) }
{
    matches!(word.body, Body::Announce(_, _))
}
