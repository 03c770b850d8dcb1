//! Changes of all peers, gathered before tables are made of them.
//!
//! A change is appended to the list of its prefix's first octet, and a loss of a session is counted: what each
//! peer has left, and what each client gets, is found once, when all changes came (our choice).

ghost use Rattle.std.specs.Prelude.{◌≡◌, ◌≢◌, ◌<◌, ◌≤◌, ℕ, false, [], IfOk, OnOk, OnErr, length};
ghost use Rattle.std.specs.Prelude.{slice_index_or, true};
ghost use Rattle.std.specs.Option.{is_some, option_map};
ghost use Rattle.rs_change.specs.Change.{change_of, is_close};
ghost use Rattle.rs_table.specs.Content.{nothing_held, rib_of};
ghost use Rattle.rs_table.specs.Gathered.{AreLogs, GathersTo, IsAdded, LosesTo, lists_of, of_others};
ghost use Rattle.rs_table.specs.Left.{BecomeBy, body_prefix};

use crate::counts::is_some_open;
use crate::log::{Log, first_octet};
use crate::logged::LoggedChange;
use crate::settling::settle;
use crate::tables::{Tables, closes};
use rs_change::{Body, Reason, Word};
use rs_choice::{Exchange, MAX_PEERS};
use rs_types::{Attributes, Prefix};
use std::alloc::{AllocError, Global};
use std::marker::Model;
use std::sync::Arc;

/// With fewer entries than this a list is not compacted.
pub const FEW_ENTRIES: usize = 1024;

// How many lists there are: one for each first octet of a prefix.
const LISTS: usize = 256;

/// The changes of all peers so far. Seen from outside, they are the routes that these changes have left, and
/// whose sessions closed, as of tables.
#[derive(Drop)]
pub struct Gathering {
    plan: Arc<Exchange>,
    // Of each peer, whether its session closed.
    closed: Vec<bool>,
    // Of each peer, how many times its session was lost, or closed for another reason than the end of its file.
    losses: Vec<u32>,
    // The changes on the prefixes of each first octet.
    logs: Vec<Log>,
}

impl Model for Gathering {
    ghost use Rattle.rs_table.specs.Codes.{tables_code};
    ghost use Rattle.rs_table.specs.Content.{TablesContent};

    ghost Value = { TablesContent };

    ghost coded = { tables_code };

    ghost use Rattle.rs_table.specs.GatheringView.{gathering_view, IsGathering};

    ghost view = { gathering_view };

    ghost invariant = { IsGathering };
}

impl Gathering {
    /// Begins before any change: no peer of the plan has a route, and all sessions are open. A list with fewer entries
    /// than `few` is not compacted.
    pub fn of_plan(alloc: Global, plan: Arc<Exchange>, few: usize) -> Result<Gathering, AllocError>
        ensures plan { IfOk result (λ gathering. gathering.plan ≡ plan.value) }
        ensures empty { IfOk result (λ gathering. (peer : ℕ) → rib_of gathering peer ≡ nothing_held) }
        ensures count { IfOk result (λ gathering. length gathering.ribs ≡ length plan.value.peers) }
    {
        let mut closed = Vec::with_capacity(alloc, plan.count())?;
        closed.resize(plan.count(), false)?;
        let mut losses = Vec::with_capacity(alloc, plan.count())?;
        losses.resize(plan.count(), 0)?;
        let logs = empty_logs(alloc, few)?;
        Ok(Gathering {
            plan,
            closed,
            losses,
            logs,
        })
    }

    /// Begins with tables of which no peer has a route yet. A list with fewer entries than `few` is not
    /// compacted.
    pub fn new(tables: Tables, few: usize) -> Result<Gathering, AllocError>
        requires { (peer : ℕ) → rib_of tables peer ≡ nothing_held }
        ensures plan { IfOk result (λ gathering. gathering.plan ≡ tables.plan) }
        ensures empty { IfOk result (λ gathering. (peer : ℕ) → rib_of gathering peer ≡ nothing_held) }
        ensures count { IfOk result (λ gathering. length gathering.ribs ≡ length tables.ribs) }
    {
        let alloc = tables.allocator();
        let (plan, closed) = tables.into_peers();
        let mut losses = Vec::with_capacity(alloc, closed.len())?;
        losses.resize(closed.len(), 0)?;
        let logs = empty_logs(alloc, few)?;
        Ok(Gathering {
            plan,
            closed,
            losses,
            logs,
        })
    }

    /// How many peers there are: as many as the plan has.
    pub fn count(&self) -> usize
        ensures peers { result ≡ length self.now.plan.peers }
        ensures ribs { result ≡ length self.now.ribs }
        ensures bound { result ≤ MAX_PEERS }
    {
        // For the prover: each peer of the plan is open or closed, so there are as many RIBs as peers.
        let _closed = &self.closed;
        self.plan.count()
    }

    /// Whether the session of the peer of number `peer` closed; false if there is no such peer.
    pub fn is_closed(&self, peer: usize) -> bool
        ensures { result ≡ (rib_of self.now peer).closed }
    {
        match self.closed.get(peer) {
            Some(closed) => *closed,
            None => false,
        }
    }

    /// Takes the next change of the peer of number `peer`, as `Tables::apply` does.
    ///
    /// Only an announcement or a withdrawal can fail, if memory is refused. After a failure nothing is promised about
    /// what was collected.
    pub fn receive(&mut self, peer: usize, word: Word) -> Result<(), AllocError>
        requires known { peer < length self.old.plan.peers }
        requires open { (rib_of self.old peer).closed ≡ false }
        ensures routes { OnOk result (BecomeBy (rib_of self.old peer).routes (change_of word)
            (rib_of self.new peer).routes) }
        ensures closed { OnOk result ((rib_of self.new peer).closed ≡ is_close (change_of word)) }
        ensures others { OnOk result ((other : ℕ) → other ≢ peer → rib_of self.new other ≡ rib_of self.old other) }
        ensures plan { OnOk result (self.new.plan ≡ self.old.plan) }
        ensures count { OnOk result (length self.new.ribs ≡ length self.old.ribs) }
        ensures refused { OnErr result (is_some (body_prefix (change_of word).body) ≡ true) }
    {
        // For the prover: there are at most 256 peers, so the number of each is an octet.
        let _count = self.plan.count();
        let closes = closes(&word);
        take_in(&mut self.logs, &mut self.losses, peer, word)?;
        if closes {
            self.closed[peer] = true;
        }
        Ok(())
    }

    /// The tables of what was gathered. Each client's choice on each prefix is made here, once. If no session is
    /// open any more, a prefix takes no more room than its routes.
    pub fn settle(self) -> Result<Tables, AllocError>
        ensures { IfOk result (λ tables. tables ≡ self) }
    {
        let Gathering {
            plan,
            closed,
            losses,
            logs,
        } = self;
        let keeps_room = is_some_open(&closed);
        let cells = settle(*closed.allocator(), &plan, &losses, logs, keeps_room)?;
        Tables::of_cells(plan, closed, cells)
    }
}

// A list without entries for each first octet.
fn empty_logs(alloc: Global, few: usize) -> Result<Vec<Log>, AllocError>
    ensures { IfOk result (λ logs. (length logs.items ≡ LISTS)
        × ((octet : ℕ) → slice_index_or (lists_of logs.items) octet [] ≡ [])) }
{
    let mut logs = Vec::with_capacity(alloc, LISTS)?;
    for _ in 0..LISTS {
        logs.push(Log {
            entries: Vec::new(alloc),
            limit: few,
        })?;
    }
    Ok(logs)
}

// Takes a change of a peer into the lists. Only a change on a prefix can fail, if memory is refused.
fn take_in(logs: &mut [Log], losses: &mut [u32], peer: usize, word: Word) -> Result<(), AllocError>
    requires known { (peer < length losses.old) × (peer < MAX_PEERS) }
    requires logs { AreLogs losses.old logs.old }
    ensures routes { OnOk result (GathersTo peer (change_of word) losses.old logs.old losses.new logs.new) }
    ensures logs { AreLogs losses.new logs.new }
    ensures count { length losses.new ≡ length losses.old }
    ensures refused { OnErr result (is_some (body_prefix (change_of word).body) ≡ true) }
{
    let Word { time, body } = word;
    match body {
        Body::Announce(prefix, attributes) => {
            enter(logs, losses, peer, time, prefix, Some(attributes))
        }
        Body::Withdraw(prefix) => enter(logs, losses, peer, time, prefix, None),
        Body::Down => {
            lose(logs, losses, peer);
            Ok(())
        }
        Body::Close(reason) => {
            if reason != Reason::EndOfFile {
                lose(logs, losses, peer);
            }
            Ok(())
        }
    }
}

// Enters a peer's change on a prefix into the list of the prefix.
fn enter(
    logs: &mut [Log],
    losses: &[u32],
    peer: usize,
    time: u32,
    prefix: Prefix,
    attributes: Option<Arc<Attributes>>,
) -> Result<(), AllocError>
    requires known { (peer < length losses.now) × (peer < MAX_PEERS) }
    requires logs { AreLogs losses.now logs.old }
    ensures routes { OnOk result (IsAdded losses.now (record {
      prefix = prefix;
      time = time;
      losses = slice_index_or losses.now peer 0;
      peer = peer;
      attributes = option_map (λ attributes. attributes.value) attributes;
    }) logs.old logs.new) }
    ensures logs { AreLogs losses.now logs.new }
{
    let entry = LoggedChange::new(prefix, time, losses[peer], peer as u8, attributes);
    logs[first_octet(prefix)].push(entry, losses)
}

// Counts a loss of a peer: its entries so far are void by it. If the count has reached its limit, they are removed, and
// the count begins anew.
fn lose(logs: &mut [Log], losses: &mut [u32], peer: usize)
    requires known { peer < length losses.old }
    requires logs { AreLogs losses.old logs.old }
    ensures routes { LosesTo peer losses.old logs.old losses.new logs.new }
    ensures logs { AreLogs losses.new logs.new }
    ensures count { length losses.new ≡ length losses.old }
{
    let Some(more) = losses[peer].checked_add(1) else {
        forget(logs, peer);
        losses[peer] = 0;
        return;
    };
    losses[peer] = more;
}

// Removes the entries of a peer.
fn forget(logs: &mut [Log], peer: usize)
    ensures lists { (octet : ℕ) → slice_index_or (lists_of logs.new) octet []
        ≡ of_others peer (slice_index_or (lists_of logs.old) octet []) }
    ensures count { length logs.new ≡ length logs.old }
{
    for log in logs.iter_mut() {
        log.forget(peer);
    }
}
