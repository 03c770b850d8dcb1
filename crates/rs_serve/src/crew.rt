//! The threads of a run: all that they take, their start, and their join.
//!
//! Our choices: the shards start before the workers. If the system refuses a thread, those that run are drained and
//! joined.

ghost use Rattle.std.specs.Prelude.{◌≡◌, ◌<◌, ◌≤◌, true, [], All, IfOk, IfSome, IsTrue, length, map, vec_len};
ghost use Rattle.std.specs.Prelude.{take, vec_capacity};
ghost use mathlib.Core.List.{IsPrefix};
ghost use Rattle.rs_ring.specs.Items.{is_capacity};
ghost use Rattle.std.proofs.Props.{props};
ghost use Rattle.std.specs.Coded.{codes};
ghost use Rattle.rs_router.specs.Delivery.{sent_lists};
ghost use Rattle.rs_router.specs.Routing.{EndLast};
ghost use Rattle.rs_router.specs.ShardParts.{IsShardCount};
ghost use Rattle.rs_table.specs.Codes.{rib_code};
ghost use Rattle.rs_serve.specs.Crew as of_shards;
ghost use Rattle.rs_worker.specs.Crew.{charge_of, charged};
ghost use Rattle.rs_serve.specs.Lines.{AreLines, AreRings, CanShare, CanWork, HaveRoom, HasFewOctets};
ghost use Rattle.rs_serve.specs.Lines.{RingsHaveRoom};
ghost use Rattle.rs_serve.specs.Run.{HasRun};

use crate::lines::{Lines, open_lines};
use crate::rings::{Rings, open_rings};
use crate::shard::ShardEnd;
use crate::shard_crew::{ShardJob, ShardOf, join_shards, start_shards};
use rs_choice::Exchange;
use rs_mrt::Source;
use rs_ring::{Receiver, Sender};
use rs_router::{Routed, route};
use rs_session::Word;
use rs_table::Tables;
use rs_update::Errors;
use rs_worker::{Gate, Job, Joined, WorkerEnd, WorkerOf, join_workers, start_workers};
use std::alloc::{AllocError, Global};
use std::sync::{Arc, Wait};
use std::thread;
use std::thread::{Promise, PromisedHandle, Scope, Threads};

// Room for what is known of each thread: its handle, and what it leaves.
#[derive(Drop)]
struct Room<S: Source> {
    workers: Vec<PromisedHandle<WorkerEnd, WorkerOf<S>>>,
    shards: Vec<PromisedHandle<ShardEnd, ShardOf>>,
    ends: Vec<Joined>,
    parts: Vec<Tables>,
}

// All that takes memory before the first thread starts: the rings, what each shard gathers changes in, and room for
// what is known of each thread. Nothing was sent or received.
#[derive(Drop)]
pub(crate) struct Crew<S: Source> {
    pub(crate) lines: Lines<S>,
    pub(crate) rings: Rings,
    room: Room<S>,
    ghost can_work: { CanWork lines.jobs.items lines.from.items },
    ghost can_share: { CanShare rings.jobs.items rings.to.items } by { Prim.hlevel (props, codes, rib_code) },
    ghost few: { length lines.jobs.items ≤ 256 },
    ghost room_for_workers: { vec_len lines.jobs ≤ vec_capacity room.workers },
    ghost room_for_shards: { vec_len rings.jobs ≤ vec_capacity room.shards },
    ghost room_for_ends: { vec_len lines.jobs ≤ vec_capacity room.ends },
    ghost room_for_parts: { vec_len rings.jobs ≤ vec_capacity room.parts },
    ghost no_workers: { room.workers.items ≡ [] },
    ghost no_shards: { vec_len room.shards ≡ 0 },
    ghost no_ends: { room.ends.items ≡ [] },
    ghost no_parts: { vec_len room.parts ≡ 0 },
}

// What a run leaves once all its threads were joined.
#[derive(Drop)]
pub(crate) struct Ran {
    // How each peer's session ended, in the order of the peers.
    pub(crate) ends: Vec<Joined>,
    // The tables of the shards, in their order, without those that were refused memory or left an item waiting.
    pub(crate) parts: Vec<Tables>,
    // Whether no shard was refused memory, and none left an item waiting.
    pub(crate) whole: bool,
}

impl<S: Source + Drop> Room<S> {
    // Room for so many peers and shards. It fails if memory is refused.
    fn new(alloc: Global, peers: usize, shards: usize) -> Result<Room<S>, AllocError>
        ensures room_for_handles { IfOk result (λ room. (peers ≤ vec_capacity room.workers)
            × (shards ≤ vec_capacity room.shards)) }
        ensures room_for_ends { IfOk result (λ room. (peers ≤ vec_capacity room.ends)
            × (shards ≤ vec_capacity room.parts)) }
        ensures no_handles { IfOk result (λ room. (room.workers.items ≡ [])
            × (vec_len room.shards ≡ 0)) }
        ensures no_ends { IfOk result (λ room. (room.ends.items ≡ []) × (vec_len room.parts ≡ 0)) }
    {
        Ok(Room {
            workers: Vec::with_capacity(alloc, peers)?,
            shards: Vec::with_capacity(alloc, shards)?,
            ends: Vec::with_capacity(alloc, peers)?,
            parts: Vec::with_capacity(alloc, shards)?,
        })
    }
}

impl<S: Source + Drop> Crew<S> {
    // Takes all memory that a run needs before its first thread starts: rings of this capacity, one for each peer, and
    // one for each of so many shards. It fails if memory is refused.
    pub(crate) fn new(
        alloc: Global,
        plan: &Arc<Exchange>,
        sources: Vec<S>,
        capacity: usize,
        shards: usize,
    ) -> Result<Crew<S>, AllocError>
        requires as_many { length sources.items ≡ length plan.now.value.peers }
        requires capacity { is_capacity capacity ≡ true }
        requires shards { IsShardCount shards }
        ensures lines { IfOk result (λ crew.
            AreLines plan.now.value sources.items crew.lines.jobs.items crew.lines.from.items) }
        ensures rings { IfOk result (λ crew. AreRings plan.now.value crew.rings.jobs.items crew.rings.to.items) }
        ensures count { IfOk result (λ crew. length crew.rings.jobs.items ≡ shards) }
        ensures capacity { IfOk result (λ crew. HaveRoom capacity crew.lines.jobs.items
            × RingsHaveRoom capacity crew.rings.to.items) }
    {
        let room = Room::new(alloc, plan.count(), shards)?;
        let lines = open_lines(alloc, plan, sources, capacity)?;
        let rings = open_rings(alloc, plan, capacity, shards)?;
        Ok(Crew { lines, rings, room })
    }
}

// Runs all threads of a crew in a scope of their own, and joins them. None if the system refuses one.
pub(crate) fn run<T: Threads + Wait + Sync, S: Source + Send + Drop, G: Gate>(
    rt: &T,
    alloc: Global,
    crew: Crew<S>,
    errors: Errors,
    gate: &G,
) -> Option<Ran>
    requires room { All (HasFewOctets S.room) crew.lines.jobs.items }
    ensures { IfSome result (λ ran. HasRun S.comes S.shows (map (charge_of errors) crew.lines.jobs.items)
        (map of_shards.charge_of crew.rings.jobs.items) ran.ends.items ran.parts.items ran.whole) }
{
    thread::scope(
        thread::scope_env(),
        rt,
        |scope| -> Option<Ran>
            requires room { All (HasFewOctets S.room) crew.lines.jobs.items }
            ensures { IfSome result (λ ran. HasRun S.comes S.shows (map (charge_of errors) crew.lines.jobs.items)
                (map of_shards.charge_of crew.rings.jobs.items) ran.ends.items ran.parts.items ran.whole) }
        { run_in(scope, rt, alloc, crew, errors, gate) },
    )
}

// Runs all threads in a scope, and joins them. None if the system refuses one.
fn run_in<'s, E, T: Threads + Wait + Sync, S: Source + Send + Drop + 's, G: Gate>(
    scope: &'s Scope<'s, E>,
    rt: &'s T,
    alloc: Global,
    crew: Crew<S>,
    errors: Errors,
    gate: &'s G,
) -> Option<Ran>
    requires room { All (HasFewOctets S.room) crew.lines.jobs.items }
    ensures { IfSome result (λ ran. HasRun S.comes S.shows (map (charge_of errors) crew.lines.jobs.items)
        (map of_shards.charge_of crew.rings.jobs.items) ran.ends.items ran.parts.items ran.whole) }
{
    let Crew { lines, rings, room } = crew;
    let Lines { jobs, from } = lines;
    let Rings {
        jobs: shard_jobs,
        to,
    } = rings;
    let mut room = room;
    let mut from = from;
    let mut to = to;
    if !start(
        scope,
        rt,
        alloc,
        jobs,
        shard_jobs,
        errors,
        gate,
        &mut room.workers,
        &mut room.shards,
    ) {
        give_up(rt, room, &mut from, &mut to);
        return None;
    }
    Some(join_all(rt, room, from, to))
}

// Starts all threads, and keeps their handles. Answers whether all were started. If the system refuses a thread, the
// handles are those of the first threads.
fn start<'s, E, T: Threads + Wait + Sync, S: Source + Send + Drop + 's, G: Gate>(
    scope: &'s Scope<'s, E>,
    rt: &'s T,
    alloc: Global,
    jobs: Vec<Job<S>>,
    shard_jobs: Vec<ShardJob>,
    errors: Errors,
    gate: &'s G,
    workers: &mut Vec<PromisedHandle<WorkerEnd, WorkerOf<S>>>,
    shards: &mut Vec<PromisedHandle<ShardEnd, ShardOf>>,
) -> bool
    requires ready { All (λ job. (job.out.sent ≡ []) × HasFewOctets S.room job) jobs.items × All of_shards.IsReady shard_jobs.items }
    requires room { (vec_len jobs ≤ vec_capacity workers.old)
        × (vec_len shard_jobs ≤ vec_capacity shards.old) }
    requires no_handles { (workers.old.items ≡ []) × (shards.old.items ≡ []) }
    ensures workers { IsPrefix (map (λ handle. charged handle.promise) workers.new.items)
        (map (charge_of errors) jobs.items) }
    ensures shards { IsPrefix (map (λ handle. of_shards.charged handle.promise) shards.new.items)
        (map of_shards.charge_of shard_jobs.items) }
    ensures all { IsTrue result → (vec_len workers.new ≡ vec_len jobs)
        × (vec_len shards.new ≡ vec_len shard_jobs) }
{
    if !start_shards(scope, rt, shard_jobs, gate, shards) {
        return false;
    }
    start_workers(scope, rt, alloc, jobs, errors, gate, workers)
}

// Routes all changes, and joins all threads.
fn join_all<T: Threads + Wait, S: Source>(
    rt: &T,
    room: Room<S>,
    from: Vec<Receiver<Word>>,
    to: Vec<Sender<Routed>>,
) -> Ran
    requires shards { IsShardCount (length to.items) }
    requires peers { length from.items ≤ 256 }
    requires unreceived { All (λ receiver. receiver.received ≡ []) from.items }
    requires unsent { All (λ sender. sender.sent ≡ []) to.items }
    requires worker_rings { map (λ handle. (charged handle.promise).ring) room.workers.items
        ≡ map (λ receiver. receiver.ring) from.items }
    requires shard_rings { map (λ handle. (of_shards.charged handle.promise).ring) room.shards.items
        ≡ map (λ sender. sender.ring) to.items }
    requires no_ends { (room.ends.items ≡ []) × (room.parts.items ≡ []) }
    requires room_for_ends { vec_len room.workers ≤ vec_capacity room.ends }
    requires room_for_parts { vec_len room.shards ≤ vec_capacity room.parts }
    ensures { HasRun S.comes S.shows (map (λ handle. charged handle.promise) room.workers.items)
        (map (λ handle. of_shards.charged handle.promise) room.shards.items)
        result.ends.items result.parts.items result.whole }
{
    let Room {
        workers,
        shards,
        ends,
        parts,
    } = room;
    let mut from = from;
    let mut to = to;
    let mut ends = ends;
    let mut parts = parts;
    route(rt, &mut from, &mut to);
    join_workers(rt, workers, &mut from, &mut ends);
    let whole = join_shards(rt, shards, &mut to, &mut parts);
    Ran { ends, parts, whole }
}

// Drains the rings of the workers that were started, sends the last item to each shard that was, and joins them.
fn give_up<T: Threads + Wait, S: Source>(
    rt: &T,
    room: Room<S>,
    from: &mut [Receiver<Word>],
    to: &mut [Sender<Routed>],
)
    requires workers { length room.workers.items ≤ length from.old }
    requires shards { length room.shards.items ≤ length to.old }
    requires few_peers { length room.workers.items ≤ 256 }
    requires few_shards { length room.shards.items ≤ 16 }
    requires unreceived { All (λ receiver. receiver.received ≡ []) from.old }
    requires unsent { All (λ sender. sender.sent ≡ []) to.old }
    // A shard that were not sent the last item would never end.
    ensures last { EndLast (take (length room.shards.items) (sent_lists to.new)) }
{
    let Room {
        workers,
        shards,
        ..
    } = room;
    if !shards.is_empty() {
        route(rt, &mut from[..workers.len()], &mut to[..shards.len()]);
    }
    join_each(rt, workers);
    join_each(rt, shards);
}

// Joins threads in their order, whatever they did.
fn join_each<V: Drop, P: Promise<V>>(rt: &impl Threads, handles: Vec<PromisedHandle<V, P>>) {
    for handle in handles {
        handle.join(rt);
    }
}
