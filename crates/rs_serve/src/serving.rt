//! A run on threads: one for each peer's recorded session, and one for each shard of the tables.

ghost use Rattle.std.specs.List.{list_any, position};
ghost use Rattle.std.specs.Prelude.{◌≡◌, ◌<◌, ◌≤◌, ◌^◌, All, IfErr, IfOk, IsTrue, OnOk, length, map, not};
ghost use Rattle.rs_session.specs.Change.{is_read};
ghost use Rattle.rs_worker.specs.Worked as spec;
ghost use Rattle.rs_serve.specs.Run.{CanMerge, IsAnswer, IsRefusal, IsVerdictOn, end_of};
ghost use Rattle.rs_serve.specs.Run.{is_out_of_memory};
ghost use Rattle.rs_router.specs.ShardParts.{IsShardCount};
ghost use Rattle.rs_serve.specs.ServeAnswer.{AreBeyondLimits, ServeAnswer, ServeSourcesAnswer, WithinLimits};
ghost use Rattle.rs_serve.specs.Served.{is_shard_count};

use crate::at_hand::record_readers;
use crate::capacity::has_room;
use crate::crew::{Crew, Ran, run};
use crate::ended::PeerEnd;
use crate::fault::FloorRefused;
use crate::laws::{run_shards_are_whole, shards_merge};
use crate::outcome::verdict_by;
use crate::served::Served;
use rs_choice::Exchange;
use rs_mrt::{Read, Source};
use rs_router::MAX_SHARDS;
use rs_session::{
    Reason, a_failed_read_closes_last, a_reader_gives_a_file_or_fails, a_session_closes_once,
};
use rs_table::Tables;
use rs_update::Errors;
use rs_worker::{Gate, Joined};
use std::alloc::{AllocError, Global};
use std::sync::{Arc, Wait};
use std::thread::Threads;

/// Runs the recorded sessions of all peers at once. A thread for each peer reads its file and sends the changes through
/// a ring of this capacity. The calling thread routes them to the shards. A thread for each shard has the tables of its
/// prefixes. `readers` has the reader of each peer's file, in the order of the peers. Faults in messages are handled by
/// one of the standards.
///
/// Fails with the first of these that applies:
/// - `Capacity` if the capacity isn't from 1 to 65,536.
/// - `Shards` if the number of shards isn't from 1 to 16.
/// - `Memory` if memory or a thread is refused.
/// - `Read` of a peer whose reader may fail. The readers of the peers before it may give their files.
/// - `Unsettled` of a peer of which perhaps not all that was sent was received.
///
/// All threads are joined before any answer.
pub fn serve_by<T: Threads + Wait + Sync, R: Read + Send + Drop, G: Gate>(
    rt: &T,
    alloc: Global,
    plan: &Arc<Exchange>,
    readers: Vec<R>,
    capacity: usize,
    shards: usize,
    errors: Errors,
    gate: &G,
) -> Result<Served, FloorRefused>
    requires as_many { length readers.items ≡ length plan.now.value.peers }
    requires failures { All (λ reader. R.failures reader < u64.MAX) readers.items }
    ensures answer { ServeAnswer R.gives errors plan.now.value readers.items capacity shards result }
{
    a_failed_read_closes_last();
    a_reader_gives_a_file_or_fails::<R>();
    a_session_closes_once();
    test_limits(capacity, shards)?;
    let sources = record_readers(alloc, readers)?;
    serve_within(rt, alloc, plan, sources, capacity, shards, errors, gate)
}

/// `serve_by` over sources of records: `sources` has that of each peer's recording, in the order of the peers. Each may
/// show at most 2^50 octets.
pub fn serve_sources<T: Threads + Wait + Sync, S: Source + Send + Drop, G: Gate>(
    rt: &T,
    alloc: Global,
    plan: &Arc<Exchange>,
    sources: Vec<S>,
    capacity: usize,
    shards: usize,
    errors: Errors,
    gate: &G,
) -> Result<Served, FloorRefused>
    requires as_many { length sources.items ≡ length plan.now.value.peers }
    requires room { All (λ source. S.room source ≤ 2 ^ 50) sources.items }
    ensures answer { ServeSourcesAnswer S.comes S.shows errors plan.now.value sources.items capacity shards result }
{
    test_limits(capacity, shards)?;
    serve_within(rt, alloc, plan, sources, capacity, shards, errors, gate)
}

// The same within the limits of capacity and shards.
fn serve_within<T: Threads + Wait + Sync, S: Source + Send + Drop, G: Gate>(
    rt: &T,
    alloc: Global,
    plan: &Arc<Exchange>,
    sources: Vec<S>,
    capacity: usize,
    shards: usize,
    errors: Errors,
    gate: &G,
) -> Result<Served, FloorRefused>
    requires as_many { length sources.items ≡ length plan.now.value.peers }
    requires room { All (λ source. S.room source ≤ 2 ^ 50) sources.items }
    requires limits { WithinLimits capacity shards }
    requires count { IsShardCount shards }
    ensures answer { ServeSourcesAnswer S.comes S.shows errors plan.now.value sources.items capacity shards result }
{
    run_shards_are_whole();
    shards_merge();
    let crew = Crew::new(alloc, plan, sources, capacity, shards)?;
    match run(rt, alloc, crew, errors, gate) {
        Some(ran) => settle(alloc, ran),
        None => Err(FloorRefused::Memory),
    }
}

// Refuses a capacity or a number of shards that is not within its limits.
fn test_limits(capacity: usize, shards: usize) -> Result<(), FloorRefused>
    ensures within { OnOk result (WithinLimits capacity shards) }
    ensures count { OnOk result (IsShardCount shards) }
    ensures refused { IfErr result (AreBeyondLimits capacity shards) }
{
    if !has_room(capacity) {
        return Err(FloorRefused::Capacity);
    }
    if !has_place(shards) {
        return Err(FloorRefused::Shards);
    }
    Ok(())
}

// Whether there may be so many shards.
fn has_place(shards: usize) -> bool
    ensures value { result ≡ is_shard_count shards }
    ensures count { IsTrue result → IsShardCount shards }
{
    (1..=MAX_SHARDS).contains(&shards)
}

// The answer to a run of which all threads were joined.
fn settle(alloc: Global, ran: Ran) -> Result<Served, FloorRefused>
    requires { IsTrue ran.whole → CanMerge (length ran.ends.items) ran.parts.items }
    ensures served { IfOk result (IsAnswer ran.ends.items ran.parts.items ran.whole) }
    ensures refused { IfErr result (IsRefusal ran.ends.items ran.whole) }
{
    let Ran { ends, parts, whole } = ran;
    judge(&ends, whole)?;
    let ends = peer_ends(alloc, &ends)?;
    let tables = Tables::merge(parts)?;
    // It tells that the tables have what each peer of the plan has left.
    let _peers = tables.count();
    Ok(Served::new(tables, ends))
}

// Whether all is well with a run of which all threads were joined, or why not. It takes no memory.
fn judge(ends: &[Joined], whole: bool) -> Result<(), FloorRefused>
    ensures { IsVerdictOn ends.now whole result }
{
    verdict_by(
        is_refused_memory(ends, whole),
        first_failed(ends),
        first_unsettled(ends),
    )
}

// Whether a worker was refused memory, or the tables of a shard are missing.
fn is_refused_memory(ends: &[Joined], whole: bool) -> bool
    ensures { result ≡ is_out_of_memory ends.now whole }
{
    is_any_refused(ends) || !whole
}

// Whether a worker was refused memory.
fn is_any_refused(ends: &[Joined]) -> bool
    ensures { result ≡ list_any (λ end. spec.is_memory end.reason) ends.now }
{
    ends.iter().any(|end| is_memory(end.reason))
}

// The least peer with a failed read.
fn first_failed(ends: &[Joined]) -> Option<usize>
    ensures { result ≡ position (λ end. is_read end.reason) ends.now }
{
    ends.iter().position(|end| is_failed_read(end.reason))
}

// The least peer of which perhaps not all that was sent was received.
fn first_unsettled(ends: &[Joined]) -> Option<usize>
    ensures { result ≡ position (λ end. not end.settled) ends.now }
{
    ends.iter().position(|end| !end.settled)
}

// How the session of each peer ended.
fn peer_ends(alloc: Global, ends: &[Joined]) -> Result<Vec<PeerEnd>, AllocError>
    ensures { IfOk result (λ all. all.items ≡ map end_of ends.now) }
{
    ends.iter().map(peer_end).collect(alloc)
}

// How the session of a peer ended.
fn peer_end(end: &Joined) -> PeerEnd
    ensures { result ≡ end_of end.now }
{
    PeerEnd {
        changes: end.changes,
        passed: end.passed,
        reason: end.reason,
    }
}

// Whether a session ended for want of memory.
fn is_memory(reason: Reason) -> bool
    ensures { result ≡ spec.is_memory reason }
{
    matches!(reason, Reason::Memory)
}

// Whether a session ended with a failed read.
fn is_failed_read(reason: Reason) -> bool
    ensures { result ≡ is_read reason }
{
    matches!(reason, Reason::Read)
}
