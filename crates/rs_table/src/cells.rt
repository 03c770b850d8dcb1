//! The cells of all prefixes, and what a change of a peer makes of them (RFC 4271, section 3.2).

ghost use Rattle.std.specs.Prelude.{◌≡◌, ◌<◌, if◌then◌else◌, true, None, IfOk, OnOk, OnErr, length};
ghost use Rattle.std.specs.BTreeMap.{IsOrdered};
ghost use Rattle.rs_change.specs.Change.{change_of};
ghost use Rattle.rs_types.specs.IpPrefix.{IpPrefix};
ghost use Rattle.rs_types.specs.PrefixOrder.{prefix_cmp, same_prefix};
ghost use Rattle.rs_choice.specs.Held.{sent_of_held, IsJudged, IsTakenBy};
ghost use Rattle.rs_table.specs.ByPeer.{with_route, without_route};
ghost use Rattle.rs_table.specs.Cells.{cell_at, routes_at, AreJoined, AreKeptCells, ChangeTo, IsFirstOn};

use crate::cell::Cell;
use rs_change::{Body, Reason, Word};
use rs_choice::{Exchange, HeldRoute};
use rs_types::Prefix;
use std::alloc::{AllocError, Global};
use std::collections::BTreeMap;

// Takes a change of a peer. Refused, nothing changed.
pub(crate) fn change(
    alloc: Global,
    cells: &mut BTreeMap<Prefix, Cell>,
    plan: &Exchange,
    peer: usize,
    word: Word,
) -> Result<(), AllocError>
    requires known { peer < length plan.now.peers }
    requires cells { AreKeptCells true plan.now cells.old.entries }
    ensures routes { OnOk result (ChangeTo peer (change_of word) cells.old.entries cells.new.entries) }
    ensures err { OnErr result (cells.new.entries ≡ cells.old.entries) }
    ensures first { OnErr result (IsFirstOn cells.old.entries (change_of word).body) }
    ensures cells { AreKeptCells true plan.now cells.new.entries }
{
    let Word { time, body } = word;
    match body {
        Body::Announce(prefix, attributes) => {
            let route = plan.hold(peer, prefix, time, attributes);
            announce(alloc, cells, plan, prefix, route)
        }
        Body::Withdraw(prefix) => {
            withdraw(cells, plan, peer, prefix);
            Ok(())
        }
        Body::Down => {
            withdraw_all(cells, plan, peer);
            Ok(())
        }
        Body::Close(reason) => {
            if reason != Reason::EndOfFile {
                withdraw_all(cells, plan, peer);
            }
            Ok(())
        }
    }
}

// Puts a route into the cell of a prefix, which is made if there is none. Refused, nothing changed.
fn announce(
    alloc: Global,
    cells: &mut BTreeMap<Prefix, Cell>,
    plan: &Exchange,
    prefix: Prefix,
    route: HeldRoute,
) -> Result<(), AllocError>
    requires judged { IsJudged plan.now route }
    requires taken { IsTakenBy plan.now prefix route }
    requires cells { AreKeptCells true plan.now cells.old.entries }
    ensures routes { OnOk result ((q : IpPrefix)
        → routes_at cells.new.entries q
        ≡ (if same_prefix q prefix then with_route (routes_at cells.old.entries q) (sent_of_held route)
        else routes_at cells.old.entries q)) }
    ensures err { OnErr result (cells.new.entries ≡ cells.old.entries) }
    ensures first { OnErr result (cell_at cells.old.entries prefix ≡ None) }
    ensures cells { AreKeptCells true plan.now cells.new.entries }
{
    if let Some(cell) = cells.get_mut(&prefix) {
        cell.announce(plan, route);
        return Ok(());
    }
    let cell = Cell::new(alloc, plan, route)?;
    cells.insert(prefix, cell)?;
    Ok(())
}

// Removes a peer's route on a prefix, if there is one, and the cell with its last route.
fn withdraw(cells: &mut BTreeMap<Prefix, Cell>, plan: &Exchange, peer: usize, prefix: Prefix)
    requires { AreKeptCells true plan.now cells.old.entries }
    ensures routes { (q : IpPrefix) → routes_at cells.new.entries q
        ≡ (if same_prefix q prefix then without_route (routes_at cells.old.entries q) peer
        else routes_at cells.old.entries q) }
    ensures cells { AreKeptCells true plan.now cells.new.entries }
{
    let Some(cell) = cells.get_mut(&prefix) else {
        return;
    };
    if !cell.withdraw(plan, peer) {
        cells.remove(&prefix);
    }
}

// All cells of two maps that have no prefix in common. Each is moved, and none made anew. The map that takes
// them in stays and grows: no third one is built beside the two. Every second cell comes in a second pass: a
// run of cells in ascending order leaves nodes half full behind it, and the second pass fills these.
pub(crate) fn join(
    alloc: Global,
    mut cells: BTreeMap<Prefix, Cell>,
    others: BTreeMap<Prefix, Cell>,
) -> Result<BTreeMap<Prefix, Cell>, AllocError>
    ensures cells { IfOk result (λ joined. AreJoined cells.entries others.entries joined.entries) }
    ensures ordered { IfOk result (λ joined. IsOrdered prefix_cmp joined) }
{
    let mut seconds = Vec::with_capacity(alloc, others.len() / 2)?;
    let mut rest = others.into_iter();
    while let Some((prefix, cell)) = rest.next() {
        cells.insert(prefix, cell)?;
        if let Some(second) = rest.next() {
            seconds.push(second)?;
        }
    }
    cells.extend(seconds)?;
    Ok(cells)
}

// Removes all routes of a peer, and each cell with its last route.
fn withdraw_all(cells: &mut BTreeMap<Prefix, Cell>, plan: &Exchange, peer: usize)
    requires { AreKeptCells true plan.now cells.old.entries }
    ensures routes { (q : IpPrefix) → routes_at cells.new.entries q
        ≡ without_route (routes_at cells.old.entries q) peer }
    ensures cells { AreKeptCells true plan.now cells.new.entries }
{
    cells.retain(|_, cell| cell.withdraw(plan, peer));
}
