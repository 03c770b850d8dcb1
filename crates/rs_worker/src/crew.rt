//! The workers of all peers: each on a thread of its own, started and joined in the order of the peers.

ghost use Rattle.std.specs.Prelude.{◌≡◌, ◌≤◌, ◌^◌, [], All, IfSome, IsTrue, map, vec_len, vec_capacity};
ghost use mathlib.Core.List.{IsPrefix};
ghost use Rattle.rs_session.specs.Stage.{May, fresh};
ghost use Rattle.rs_worker.specs.Crew.{charge_of, charged, given_by, HasJoined, AllJoined};
ghost use Rattle.rs_worker.specs.Worked.{HasWorked};

use crate::gate::Gate;
use crate::work::{WorkerEnd, worker_by};
use rs_mrt::Source;
use rs_ring::{Finished, Receiver, Sender};
use rs_session::{PeerId, Reason, Word};
use rs_update::Errors;
use std::alloc::Global;
use std::snapshot::Snapshot;
use std::sync::Wait;
use std::thread::{Promise, PromisedHandle, Scope, Threads};

/// What one worker takes: the records of a peer, who that is, and the ring to send through.
#[derive(Drop)]
pub struct Job<S> {
    /// The records.
    pub source: S,
    /// The peer.
    pub id: PeerId,
    /// The sending end of its ring.
    pub out: Sender<Word>,
}

/// What the thread of a worker promises: its end is that of a worker with this source and this ring.
#[derive(Drop)]
pub struct WorkerOf<S> {
    pub(crate) source: Snapshot<S>,
    pub(crate) id: PeerId,
    pub(crate) errors: Errors,
    pub(crate) out: Snapshot<Sender<Word>>,
}

impl<S: Source> Promise<WorkerEnd> for WorkerOf<S> {
    ghost kept_by = { λ p end.
        HasWorked (May S.comes S.shows (fresh p.source.value p.id p.errors)) p.out.value.ring end };
}

// Starts the worker of one peer. None if the system refuses a thread.
fn start_worker<'s, E, R: Wait + Sync, S: Source + Send + Drop + 's, G: Gate>(
    scope: &'s Scope<'s, E>,
    rt: &'s R,
    alloc: Global,
    errors: Errors,
    gate: &'s G,
    peer: usize,
    job: Job<S>,
) -> Option<PromisedHandle<WorkerEnd, WorkerOf<S>>>
    requires unsent { job.out.sent ≡ [] }
    requires room { S.room job.source ≤ 2 ^ 50 }
    ensures { IfSome result (λ handle. charged handle.promise ≡ charge_of errors job) }
{
    let Job { source, id, out } = job;
    let promise = WorkerOf {
        source: Snapshot::of(&source),
        id,
        errors,
        out: Snapshot::of(&out),
    };
    let run = move || -> WorkerEnd
        requires { (out.sent ≡ []) × (S.room source ≤ 2 ^ 50) }
        ensures { HasWorked (May S.comes S.shows (fresh source id errors)) out.ring result }
    { worker_by(rt, alloc, peer, source, id, errors, out, gate) };
    scope.spawn_with(promise, run).ok()
}

/// Starts the workers of all peers in a scope, one thread each, and keeps their handles: job `k` is the one
/// of peer `k`. Answers whether all were started. It takes no memory but what the system takes for its
/// threads.
///
/// If the system refuses a thread, no more are started: the handles are those of the first peers, and the
/// other jobs are gone.
pub fn start_workers<'s, E, R: Wait + Sync, S: Source + Send + Drop + 's, G: Gate>(
    scope: &'s Scope<'s, E>,
    rt: &'s R,
    alloc: Global,
    jobs: Vec<Job<S>>,
    errors: Errors,
    gate: &'s G,
    handles: &mut Vec<PromisedHandle<WorkerEnd, WorkerOf<S>>>,
) -> bool
    requires ready { All (λ job. (job.out.sent ≡ []) × (S.room job.source ≤ 2 ^ 50)) jobs.items }
    requires empty { handles.old.items ≡ [] }
    requires room { vec_len jobs ≤ vec_capacity handles.old }
    // Handle k is the one of job k.
    ensures tied { IsPrefix (map (λ handle. charged handle.promise) handles.new.items)
        (map (charge_of errors) jobs.items) }
    ensures all { IsTrue result → vec_len handles.new ≡ vec_len jobs }
{
    for job in jobs {
        let peer = handles.len();
        let Some(handle) = start_worker(scope, rt, alloc, errors, gate, peer, job) else {
            return false;
        };
        handles.push_reserved(handle);
    }
    true
}

/// What is known of a worker that was joined.
#[derive(Clone, Copy, Debug, PartialEq, Eq, Drop)]
pub struct Joined {
    /// How many changes were sent, the close included.
    pub changes: u64,
    /// How many records were passed over before the close.
    pub passed: u64,
    /// Why the session ended.
    pub reason: Reason,
    /// Whether the sending ended with a token, by which all that was sent was received.
    pub settled: bool,
}

// Joins one worker.
fn join_worker<S: Source>(
    rt: &impl Threads,
    handle: PromisedHandle<WorkerEnd, WorkerOf<S>>,
    from: &mut Receiver<Word>,
) -> Joined
    requires { (charged handle.promise).ring ≡ from.old.ring }
    ensures joined { HasJoined (given_by S.comes S.shows (charged handle.promise)) from.new.received result }
    ensures same { (from.new.ring ≡ from.old.ring) × (from.new.received ≡ from.old.received) }
{
    let WorkerEnd {
        finished,
        passed,
        changes,
        reason,
    } = handle.join(rt);
    let settled = match finished {
        Some(token) => is_settled(from, token),
        None => false,
    };
    Joined {
        changes,
        passed,
        reason,
        settled,
    }
}

// Whether all that was sent was received.
fn is_settled(from: &mut Receiver<Word>, token: Finished<Word>) -> bool
    requires { token.ring ≡ from.old.ring }
    ensures settled { IsTrue result → from.new.received ≡ token.sent }
    ensures same { (from.new.ring ≡ from.old.ring) × (from.new.received ≡ from.old.received) }
{
    let mut token = token;
    from.after(&mut token) == 0
}

/// Joins workers in the order of the peers, and finds out for each whether all that it sent was received. Receiver
/// `k` is the one of peer `k`. It takes no memory.
pub fn join_workers<S: Source>(
    rt: &impl Threads,
    handles: Vec<PromisedHandle<WorkerEnd, WorkerOf<S>>>,
    from: &mut [Receiver<Word>],
    ends: &mut Vec<Joined>,
)
    requires rings { map (λ handle. (charged handle.promise).ring) handles.items
        ≡ map (λ receiver. receiver.ring) from.old }
    requires empty { ends.old.items ≡ [] }
    requires room { vec_len handles ≤ vec_capacity ends.old }
    ensures count { vec_len ends.new ≡ vec_len handles }
    ensures joined { AllJoined S.comes S.shows
        (map (λ handle. charged handle.promise) handles.items) from.new ends.new.items }
    ensures same { (map (λ receiver. receiver.ring) from.new ≡ map (λ receiver. receiver.ring) from.old)
        × (map (λ receiver. receiver.received) from.new ≡ map (λ receiver. receiver.received) from.old) }
{
    for handle in handles {
        let peer = ends.len();
        ends.push_reserved(join_worker(rt, handle, &mut from[peer]));
    }
}
