//! The cells of what was gathered (RFC 4271, section 9.1): of each prefix the routes that are left become a cell,
//! which is decided once. Lists, and prefixes in them, come in ascending order.

ghost use Rattle.std.specs.Prelude.{◌≡◌, ◌<◌, ◌≢◌, ℕ, [], true, IfOk, OnOk, if◌then◌else◌, length};
ghost use Rattle.std.specs.Option.{is_some};
ghost use Rattle.std.specs.declared.cmp.Ordering.TheVariants.{Less};
ghost use Rattle.rs_types.specs.IpPrefix.{IpPrefix};
ghost use Rattle.rs_types.specs.PrefixOrder.{prefix_cmp};
ghost use Rattle.rs_table.specs.ByPeer.{route_at};
ghost use Rattle.rs_table.specs.Cells.{routes_at, AreKeptCells};
ghost use Rattle.rs_table.specs.Gathered.{AreLogs, entry_route, is_of, left_at, left_in};
ghost use Rattle.rs_table.specs.Logged.{Logged};
ghost use Rattle.rs_table.specs.Making.{routes_so_far, IsBefore, IsMaking, IsNext, StaysAbove};

use crate::cell::Cell;
use crate::cells::join;
use crate::log::{Log, compact};
use crate::logged::LoggedChange;
use crate::read_ahead::ReadAhead;
use rs_choice::{Exchange, HeldRoute};
use rs_types::Prefix;
use std::alloc::{AllocError, Global};
use std::collections::BTreeMap;

// The cells of what lists of changes leave, which keep room for changes to come or have none. Each list is freed
// once its cells are made.
pub(crate) fn settle(
    alloc: Global,
    plan: &Exchange,
    losses: &[u32],
    logs: Vec<Log>,
    keeps_room: bool,
) -> Result<BTreeMap<Prefix, Cell>, AllocError>
    requires logs { AreLogs losses.now logs.items }
    requires count { length losses.now ≡ length plan.now.peers }
    ensures routes { IfOk result (λ cells. (peer : ℕ) → (prefix : IpPrefix)
        → route_at (routes_at cells.entries prefix) peer ≡ left_at losses.now logs.items peer prefix) }
    ensures cells { IfOk result (λ cells. AreKeptCells keeps_room plan.now cells.entries) }
{
    let mut cells = BTreeMap::new(alloc);
    for log in logs {
        let more = cells_of(alloc, plan, losses, log.entries, keeps_room)?;
        cells = join(alloc, cells, more)?;
    }
    Ok(cells)
}

// The cells of what a list leaves.
fn cells_of(
    alloc: Global,
    plan: &Exchange,
    losses: &[u32],
    entries: Vec<LoggedChange>,
    keeps_room: bool,
) -> Result<BTreeMap<Prefix, Cell>, AllocError>
    requires { length losses.now ≡ length plan.now.peers }
    ensures routes { IfOk result (λ cells. (peer : ℕ) → (prefix : IpPrefix)
        → route_at (routes_at cells.entries prefix) peer ≡ left_in losses.now entries.items peer prefix) }
    ensures cells { IfOk result (λ cells. AreKeptCells keeps_room plan.now cells.entries) }
{
    let mut entries = entries;
    compact(&mut entries, losses)?;
    let Some(first) = entries.first() else {
        return Ok(BTreeMap::new(alloc));
    };
    let mut making = Making {
        prefix: first.prefix(),
        held: Vec::with_capacity(alloc, plan.count())?,
        cells: BTreeMap::new(alloc),
    };
    let mut ahead = ReadAhead::new(entries);
    while let Some(entry) = ahead.next() {
        making.add(alloc, plan, entry, keeps_room)?;
    }
    making.close(alloc, plan, keeps_room)?;
    Ok(making.cells)
}

// The cells of a list under way.
#[derive(Drop)]
struct Making {
    // The cells of the prefixes before this one.
    cells: BTreeMap<Prefix, Cell>,
    prefix: Prefix,
    // The routes on it so far.
    held: Vec<HeldRoute>,
}

impl Making {
    // Takes the route of the next announcement.
    fn add(
        &mut self,
        alloc: Global,
        plan: &Exchange,
        entry: LoggedChange,
        keeps_room: bool,
    ) -> Result<(), AllocError>
        requires making { IsMaking keeps_room plan.now self.old }
        requires next { IsNext self.old entry }
        requires known { entry.peer < length plan.now.peers }
        requires announced { is_some entry.attributes ≡ true }
        ensures making { OnOk result (IsMaking keeps_room plan.now self.new) }
        ensures routes { OnOk result ((peer : ℕ) → (prefix : IpPrefix)
            → route_at (routes_so_far self.new prefix) peer
            ≡ (if is_of peer prefix entry then entry_route entry
            else route_at (routes_so_far self.old prefix) peer)) }
        ensures next { OnOk result ((later : Logged) → IsBefore entry later → IsNext self.new later) }
    {
        self.turn_to(alloc, plan, entry.prefix(), keeps_room)?;
        let (peer, time, attributes) = entry.into_parts();
        let Some(attributes) = attributes else {
            unreachable!();
        };
        let route = plan.hold(usize::from(peer), self.prefix, time, attributes);
        self.held.push(route)?;
        Ok(())
    }

    // Goes on to a prefix, if it isn't there yet.
    fn turn_to(
        &mut self,
        alloc: Global,
        plan: &Exchange,
        prefix: Prefix,
        keeps_room: bool,
    ) -> Result<(), AllocError>
        requires making { IsMaking keeps_room plan.now self.old }
        requires ascends { prefix_cmp prefix self.old.prefix ≢ Less }
        ensures making { OnOk result (IsMaking keeps_room plan.now self.new) }
        ensures routes { OnOk result ((q : IpPrefix) → routes_so_far self.new q ≡ routes_so_far self.old q) }
        ensures prefix { OnOk result (self.new.prefix ≡ prefix) }
        ensures above { OnOk result (StaysAbove prefix self.old self.new) }
    {
        if prefix == self.prefix {
            return Ok(());
        }
        self.close(alloc, plan, keeps_room)?;
        self.prefix = prefix;
        Ok(())
    }

    // Makes the cell of the prefix, if there is a route on it.
    fn close(&mut self, alloc: Global, plan: &Exchange, keeps_room: bool) -> Result<(), AllocError>
        requires { IsMaking keeps_room plan.now self.old }
        ensures routes { OnOk result ((q : IpPrefix)
            → routes_at self.new.cells.entries q ≡ routes_so_far self.old q) }
        ensures cells { OnOk result (AreKeptCells keeps_room plan.now self.new.cells.entries) }
        ensures empty { OnOk result (self.new.held.items ≡ []) }
        ensures prefix { self.new.prefix ≡ self.old.prefix }
    {
        if self.held.is_empty() {
            return Ok(());
        }
        let cell = Cell::of(alloc, plan, &mut self.held, keeps_room)?;
        self.cells.insert(self.prefix, cell)?;
        Ok(())
    }
}
