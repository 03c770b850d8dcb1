//! A run over recorded files: a dump for each client, and the report.
//!
//! Our choices: all sessions are read before the first dump is started. They are read at once, each on a thread of its
//! own. All dumps are kept, in the order of the plan, before the first line of the report is written. The first
//! failure ends the run.

ghost use Rattle.std.specs.Fn.{FnOnceReturnsAt};
ghost use Rattle.std.specs.Prelude.{◌≡◌, ◌<◌, ◌≤◌, ◌^◌, All, IfOk, IfErr, OnOk, length, string_bytes};
ghost use Rattle.rs_keep.specs.Kept.{dumps_of, IsStop};
ghost use Rattle.rs_outlet.specs.Outlet.{Grows};
ghost use Rattle.rs_outlet.specs.Started.{AreSameNames};
ghost use Rattle.rs_run.specs.Recorded.{FailsAt, OverFiles, OverFilesServed, OverSourcesServed, SourceFailsAt};
ghost use Rattle.rs_run.specs.Recorded.{tables_of_files};
ghost use Rattle.rs_run.specs.Refusal.{IsFaultOf, IsReadRefusal};
ghost use Rattle.rs_run.specs.Report.{report_of};
ghost use Rattle.rs_run.specs.Run.{IsReadStop};
ghost use Rattle.rs_run.specs.RunAnswer.{RunAnswer, RunIfAnswer};
ghost use Rattle.rs_run.specs.SessionEnd.{ends_of_files};
ghost use Rattle.rs_serve.specs.Served.{IsServedOver};

use crate::report::add_peer_lines;
use rs_choice::Exchange;
use rs_keep::keep_dumps;
use rs_mrt::{Read, Source, Write, write_all};
use rs_options::Options;
use rs_outlet::{Outlet, RunFault};
use rs_serve::{FloorRefused, Open, PeerEnd, Served, serve_by, serve_sources};
use rs_session::a_session_closes_once;
use rs_setup::Setup;
use std::alloc::{AllocError, Global};
use std::sync::{Arc, Wait};
use std::thread::{Threads, spawn};

// How many octets the report has at most for each peer: the line of its session, and that of its table.
const LINES_LEN: usize = 256;

/// Reads the recorded sessions of all peers at once, each on a thread of its own. Keeps the dump of each client's
/// table in `outlet`, under the client's name with `.mrt`. Writes the report to `report`: a line for each peer's
/// session, and then one for each client's table. Dumps and lines are in the order of the plan.
///
/// `readers` gives the recorded file of each peer, in the order of the peers. If a record of a file closes the
/// session, little more than that record is read.
///
/// `Read` names a peer whose file can't be read to its end or has 2^50 octets or more, while its session is open. The
/// files of the peers before it can be read. No dump is kept, and nothing of the report is written.
///
/// `Unsettled` names a peer of the plan of which not all changes are known to have been applied. No dump is kept, and
/// nothing of the report is written.
///
/// `Dump` is answered if the outlet failed, or the writer of a dump. It is also answered if a table has more than
/// 4,294,967,295 rows. The dumps of the clients before that one are kept.
///
/// `Report` is answered if a write of the report failed. All dumps are kept, and a beginning of the report is
/// written.
///
/// `Memory` is answered if memory was refused. The first dumps, or none, are kept, and nothing of the report is
/// written.
///
/// After every answer, each writer that the outlet gave is back. Once all dumps are kept, a thread frees the tables.
/// That thread may outlast the call; all others end before it.
pub fn run<T: Threads + Wait + Sync, O: Outlet, W: Write, R: Read + Send + Drop>(
    rt: &T,
    alloc: Global,
    setup: &Setup,
    readers: Vec<R>,
    options: &Options,
    outlet: &mut O,
    report: &mut W,
) -> Result<(), RunFault>
    requires one_for_each { length readers.items ≡ length setup.now.plan.value.peers }
    requires reader_failures { All (λ reader. R.failures reader < u64.MAX) readers.items }
    requires outlet_failures { O.failures outlet.old < u64.MAX }
    requires report_failures { W.failures report.old < u64.MAX }
    requires ring { (1 ≤ options.now.ring) × (options.now.ring ≤ 65536) }
    requires shards { (1 ≤ options.now.shards) × (options.now.shards ≤ 16) }
    // There are files that the readers may give, and dumps and report are those of these files.
    ensures answer { RunAnswer
        (OverFilesServed R.gives options.now.errors setup.now.plan.value readers.items)
        (FailsAt R.gives options.now.errors setup.now.plan.value readers.items)
        O.kept O.failures W.taken W.failures setup.now.plan.value options.now.time
        outlet.old outlet.new report.old report.new result }
    ensures back { AreSameNames (O.started outlet.old) (O.started outlet.new) }
{
    let served = serve_files(rt, alloc, &setup.plan, readers, options)?;
    write_served(rt, alloc, &setup.plan, served, options.time, outlet, report)
}

/// `run` over sources of records: `sources` gives the recording of each peer, in the order of the peers.
pub(crate) fn run_sources<T: Threads + Wait + Sync, O: Outlet, W: Write, S: Source + Send + Drop>(
    rt: &T,
    alloc: Global,
    setup: &Setup,
    sources: Vec<S>,
    options: &Options,
    outlet: &mut O,
    report: &mut W,
) -> Result<(), RunFault>
    requires one_for_each { length sources.items ≡ length setup.now.plan.value.peers }
    requires room { All (λ source. S.room source ≤ 2 ^ 50) sources.items }
    requires outlet_failures { O.failures outlet.old < u64.MAX }
    requires report_failures { W.failures report.old < u64.MAX }
    requires ring { (1 ≤ options.now.ring) × (options.now.ring ≤ 65536) }
    requires shards { (1 ≤ options.now.shards) × (options.now.shards ≤ 16) }
    ensures answer { RunAnswer
        (OverSourcesServed S.comes S.shows options.now.errors setup.now.plan.value sources.items)
        (SourceFailsAt S.comes S.shows options.now.errors setup.now.plan.value sources.items)
        O.kept O.failures W.taken W.failures setup.now.plan.value options.now.time
        outlet.old outlet.new report.old report.new result }
{
    let served = serve_recordings(rt, alloc, &setup.plan, sources, options)?;
    write_served(rt, alloc, &setup.plan, served, options.time, outlet, report)
}

/// What a run has done that did not fail.
#[derive(Drop)]
pub struct Ran {
    /// How the session of each peer ended, in the order of the plan.
    pub ends: Vec<PeerEnd>,
    /// Whether all dumps are kept and the report is written. If not, no dump is kept, and nothing of the report is
    /// written.
    pub is_written: bool,
}

/// A run over sources of records that asks `is_wanted` before its first dump: by the tables, and how the session of each
/// peer ended. If dumps and report are not wanted, no dump is kept, and nothing of the report is written. `sources` gives
/// the recording of each peer, in the order of the peers. Else it does and fails as `run` does.
pub fn run_if<
    T: Threads + Wait + Sync,
    O: Outlet,
    W: Write,
    S: Source + Send + Drop,
    D: FnOnce(&Served) -> bool,
>(
    rt: &T,
    alloc: Global,
    setup: &Setup,
    sources: Vec<S>,
    options: &Options,
    is_wanted: D,
    outlet: &mut O,
    report: &mut W,
) -> Result<Ran, RunFault>
    requires one_for_each { length sources.items ≡ length setup.now.plan.value.peers }
    requires room { All (λ source. S.room source ≤ 2 ^ 50) sources.items }
    requires outlet_failures { O.failures outlet.old < u64.MAX }
    requires report_failures { W.failures report.old < u64.MAX }
    requires ring { (1 ≤ options.now.ring) × (options.now.ring ≤ 65536) }
    requires shards { (1 ≤ options.now.shards) × (options.now.shards ≤ 16) }
    requires wanted { D.IsAlwaysCallable is_wanted }
    // There are changes that sessions over the sources may tell, and dumps and report are those of these changes.
    ensures answer { RunIfAnswer
        (OverSourcesServed S.comes S.shows options.now.errors setup.now.plan.value sources.items)
        (SourceFailsAt S.comes S.shows options.now.errors setup.now.plan.value sources.items)
        O.kept O.failures W.taken W.failures setup.now.plan.value options.now.time
        outlet.old outlet.new report.old report.new result }
    ensures wanted { IfOk result (λ ran.
        OverSourcesServed S.comes S.shows options.now.errors setup.now.plan.value sources.items (λ served.
        (ran.ends.items ≡ served.ends) × FnOnceReturnsAt D.FnOnce is_wanted served ran.is_written)) }
    ensures back { AreSameNames (O.started outlet.old) (O.started outlet.new) }
{
    let served = serve_recordings(rt, alloc, &setup.plan, sources, options)?;
    let mut ends = Vec::with_capacity(alloc, served.ends().len())?;
    ends.extend_from_slice(served.ends())?;
    if !is_wanted(&served) {
        free_apart(rt, served);
        return Ok(Ran {
            ends,
            is_written: false,
        });
    }
    write_served(rt, alloc, &setup.plan, served, options.time, outlet, report)?;
    Ok(Ran {
        ends,
        is_written: true,
    })
}

// Frees tables on a thread for which nobody waits. Freeing big tables takes a second, and the caller may be about to
// end. If no thread can be made, they are freed at once.
fn free_apart<T: Threads>(rt: &T, served: Served) {
    let free = move || -> () {
        let _served = served;
    };
    let _thread = spawn(rt, free);
}

// Reads the sessions of all peers in the files that readers give, on threads.
fn serve_files<T: Threads + Wait + Sync, R: Read + Send + Drop>(
    rt: &T,
    alloc: Global,
    plan: &Arc<Exchange>,
    readers: Vec<R>,
    options: &Options,
) -> Result<Served, RunFault>
    requires one_for_each { length readers.items ≡ length plan.now.value.peers }
    requires reader_failures { All (λ reader. R.failures reader < u64.MAX) readers.items }
    requires ring { (1 ≤ options.now.ring) × (options.now.ring ≤ 65536) }
    requires shards { (1 ≤ options.now.shards) × (options.now.shards ≤ 16) }
    ensures served { IfOk result (λ served. OverFiles R.gives options.now.errors plan.now.value readers.items (λ files.
        (served.tables ≡ tables_of_files options.now.errors plan.now.value files)
        × (served.ends ≡ ends_of_files options.now.errors plan.now.value files))) }
    ensures fault { IfErr result (IsReadStop (FailsAt R.gives options.now.errors plan.now.value readers.items)
        plan.now.value) }
{
    a_session_closes_once();
    match serve_by(
        rt,
        alloc,
        plan,
        readers,
        options.ring,
        options.shards,
        options.errors,
        &Open,
    ) {
        Ok(served) => Ok(served),
        Err(refused) => Err(fault_of(refused)),
    }
}

// Reads the sessions of all peers in the records that sources show, on threads.
fn serve_recordings<T: Threads + Wait + Sync, S: Source + Send + Drop>(
    rt: &T,
    alloc: Global,
    plan: &Arc<Exchange>,
    sources: Vec<S>,
    options: &Options,
) -> Result<Served, RunFault>
    requires one_for_each { length sources.items ≡ length plan.now.value.peers }
    requires room { All (λ source. S.room source ≤ 2 ^ 50) sources.items }
    requires ring { (1 ≤ options.now.ring) × (options.now.ring ≤ 65536) }
    requires shards { (1 ≤ options.now.shards) × (options.now.shards ≤ 16) }
    ensures served { IfOk result
        (IsServedOver S.comes S.shows options.now.errors plan.now.value sources.items) }
    ensures fault { IfErr result
        (IsReadStop (SourceFailsAt S.comes S.shows options.now.errors plan.now.value sources.items) plan.now.value) }
{
    match serve_sources(
        rt,
        alloc,
        plan,
        sources,
        options.ring,
        options.shards,
        options.errors,
        &Open,
    ) {
        Ok(served) => Ok(served),
        Err(refused) => Err(fault_of(refused)),
    }
}

// Why a run fails whose sessions can't be read. The capacity of the rings and the number of shards are never the
// reason.
fn fault_of(refused: FloorRefused) -> RunFault
    requires { IsReadRefusal refused }
    ensures { IsFaultOf refused result }
{
    match refused {
        FloorRefused::Memory => RunFault::Memory,
        FloorRefused::Read(peer) => RunFault::Read(peer),
        FloorRefused::Unsettled(peer) => RunFault::Unsettled(peer),
        FloorRefused::Capacity => unreachable!(),
        FloorRefused::Shards => unreachable!(),
    }
}

// Keeps the dumps of what is served, and writes its report. The tables are freed before the report is written.
fn write_served<T: Threads + Sync, O: Outlet, W: Write>(
    rt: &T,
    alloc: Global,
    plan: &Exchange,
    served: Served,
    time: u32,
    outlet: &mut O,
    report: &mut W,
) -> Result<(), RunFault>
    requires plan { served.tables.plan ≡ plan.now }
    requires one_for_each { length served.ends ≡ length plan.now.peers }
    requires outlet_failures { O.failures outlet.old < u64.MAX }
    requires report_failures { W.failures report.old < u64.MAX }
    ensures answer { RunAnswer (λ Holds. Holds served) (λ peer. ⊥) O.kept O.failures W.taken W.failures plan.now time
        outlet.old outlet.new report.old report.new result }
    ensures back { AreSameNames (O.started outlet.old) (O.started outlet.new) }
{
    let text = keep_and_report(rt, alloc, plan, &served, time, outlet)?;
    free_apart(rt, served);
    match write_all(report, text.as_bytes()) {
        Ok(()) => Ok(()),
        Err(_) => Err(RunFault::Report),
    }
}

// Keeps the dump of each client, and answers the report.
fn keep_and_report<T: Threads + Sync, O: Outlet>(
    rt: &T,
    alloc: Global,
    plan: &Exchange,
    served: &Served,
    time: u32,
    outlet: &mut O,
) -> Result<String, RunFault>
    requires plan { served.now.tables.plan ≡ plan.now }
    requires one_for_each { length served.now.ends ≡ length plan.now.peers }
    requires failures { O.failures outlet.old < u64.MAX }
    ensures report { IfOk result (λ text. string_bytes text ≡ report_of plan.now served.now.ends served.now.tables) }
    ensures kept { OnOk result (Grows (O.kept outlet.old) (O.kept outlet.new) (dumps_of served.now.tables time)) }
    ensures no_failure { OnOk result (O.failures outlet.new ≡ O.failures outlet.old) }
    ensures fault { IfErr result (IsStop served.now.tables time (O.kept outlet.old) (O.kept outlet.new)
        (O.failures outlet.old) (O.failures outlet.new)) }
    ensures back { AreSameNames (O.started outlet.old) (O.started outlet.new) }
{
    let mut text = String::with_capacity(alloc, plan.count() * LINES_LEN)?;
    add_peer_lines(&mut text, plan, served)?;
    keep_dumps(rt, alloc, served.tables(), time, outlet, &mut text)?;
    Ok(text)
}
