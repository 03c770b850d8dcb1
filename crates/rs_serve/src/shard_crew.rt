//! All shards: each on a thread of its own, started and joined in their order.

ghost use Rattle.std.specs.Prelude.{◌≡◌, ◌≤◌, ◌<◌, [], ℕ, All, IfSome, IsTrue, map, vec_len, vec_capacity};
ghost use mathlib.Core.List.{IsPrefix};
ghost use Rattle.rs_router.specs.Delivery.{sent_lists, SameSenders};
ghost use Rattle.rs_table.specs.Content.{nothing_held, rib_of};
ghost use Rattle.rs_serve.specs.Crew.{charge_of, charged, HasEnded, IsReady, AllHold};
ghost use Rattle.rs_serve.specs.Held.{HoldReceived};

use crate::shard::{ShardEnd, shard_worker};
use rs_ring::{Receiver, Sender};
use rs_router::Routed;
use rs_table::{Gathering, Tables};
use rs_worker::Gate;
use std::snapshot::Snapshot;
use std::sync::Wait;
use std::thread::{Promise, PromisedHandle, Scope, Threads};

/// What one shard takes: a gathering without changes, and the ring to receive through.
#[derive(Drop)]
pub struct ShardJob {
    /// What its tables are gathered in: no peer has a route yet.
    pub tables: Gathering,
    /// The receiving end of its ring.
    pub from: Receiver<Routed>,
}

/// What the thread of a shard promises: its end is that of a shard with these tables and this ring.
#[derive(Drop)]
pub struct ShardOf {
    pub(crate) tables: Snapshot<Gathering>,
    pub(crate) from: Snapshot<Receiver<Routed>>,
}

impl Promise<ShardEnd> for ShardOf {
    ghost kept_by = { λ p end. HasEnded (charged p) end };
}

/// Starts all shards in a scope, one thread each, and keeps their handles: job `k` is the one of shard `k`.
/// Answers whether all were started. It takes no memory but what the system takes for its threads.
///
/// If the system refuses a thread, no more are started: the handles are those of the first shards, and the
/// other jobs are gone.
pub fn start_shards<'s, E, R: Wait + Sync, G: Gate>(
    scope: &'s Scope<'s, E>,
    rt: &'s R,
    jobs: Vec<ShardJob>,
    gate: &'s G,
    handles: &mut Vec<PromisedHandle<ShardEnd, ShardOf>>,
) -> bool
    requires ready { All IsReady jobs.items }
    requires empty { handles.old.items ≡ [] }
    requires room { vec_len jobs ≤ vec_capacity handles.old }
    // Handle k is the one of job k.
    ensures tied { IsPrefix (map (λ handle. charged handle.promise) handles.new.items) (map charge_of jobs.items) }
    ensures all { IsTrue result → vec_len handles.new ≡ vec_len jobs }
{
    for job in jobs {
        let shard = handles.len();
        let Some(handle) = start_shard(scope, rt, shard, job, gate) else {
            return false;
        };
        handles.push_reserved(handle);
    }
    true
}

// Starts one shard. None if the system refuses a thread.
fn start_shard<'s, E, R: Wait + Sync, G: Gate>(
    scope: &'s Scope<'s, E>,
    rt: &'s R,
    shard: usize,
    job: ShardJob,
    gate: &'s G,
) -> Option<PromisedHandle<ShardEnd, ShardOf>>
    requires { IsReady job }
    ensures { IfSome result (λ handle. charged handle.promise ≡ charge_of job) }
{
    let ShardJob { tables, from } = job;
    let promise = ShardOf {
        tables: Snapshot::of(&tables),
        from: Snapshot::of(&from),
    };
    let run = move || -> ShardEnd
        requires { (from.received ≡ []) × ((peer : ℕ) → rib_of tables peer ≡ nothing_held) }
        ensures { HasEnded (record { tables = tables; ring = from.ring }) result }
    { shard_worker(rt, shard, tables, from, gate) };
    scope.spawn_with(promise, run).ok()
}

/// Joins shards in their order, and keeps their tables: sender `k` is the one of shard `k`, and will send no
/// more. Answers whether each shard has its tables, and received all that was sent to it. It takes no memory.
pub fn join_shards(
    rt: &impl Threads,
    handles: Vec<PromisedHandle<ShardEnd, ShardOf>>,
    to: &mut [Sender<Routed>],
    parts: &mut Vec<Tables>,
) -> bool
    requires rings { map (λ handle. (charged handle.promise).ring) handles.items ≡ map (λ sender. sender.ring) to.old }
    requires empty { parts.old.items ≡ [] }
    requires room { vec_len handles ≤ vec_capacity parts.old }
    // Part k is what shard k holds of all that was sent to it.
    ensures parts { IsTrue result → AllHold (map (λ handle. charged handle.promise) handles.items)
        (sent_lists to.old) parts.new.items }
    ensures same { SameSenders to.old to.new }
    ensures sent { sent_lists to.new ≡ sent_lists to.old }
{
    let mut complete = true;
    let mut shard = 0;
    for handle in handles {
        match join_shard(rt, handle, &mut to[shard]) {
            Some(tables) => parts.push_reserved(tables),
            None => complete = false,
        }
        shard += 1;
    }
    complete
}

// Joins one shard: its tables, if it has them and received all that was sent.
fn join_shard(
    rt: &impl Threads,
    handle: PromisedHandle<ShardEnd, ShardOf>,
    to: &mut Sender<Routed>,
) -> Option<Tables>
    requires { (charged handle.promise).ring ≡ to.old.ring }
    ensures held { IfSome result (HoldReceived (charged handle.promise).tables to.new.sent) }
    ensures same { (to.new.ring ≡ to.old.ring) × (to.new.sent ≡ to.old.sent) }
{
    let ShardEnd { tables, from } = handle.join(rt);
    let mut from = from;
    if from.beside(to) > 0 {
        return None;
    }
    tables
}
