//! The public calls of a run, joined by hand: two workers and a shard on threads of their own, and the router.

ghost use Rattle.std.specs.Prelude.{◌≡◌, ◌<◌, ◌^◌, [], ℕ, IfSome, length};
ghost use Rattle.rs_table.specs.Content.{nothing_held, rib_of};

use super::changes::ring_of;
use super::exchanges::{address_of, two_peers};
use super::shards::nothing_gathered;
use rs_ring::{Receiver, Sender};
use rs_serve::{Routed, ShardEnd, route, shard_worker};
use rs_session::{PeerId, Word};
use rs_table::{Gathering, Tables};
use rs_worker::{Open, WorkerEnd, worker};
use std::alloc::Global;
use std::sync::Wait;
use std::test::*;
use std::thread;
use std::thread::Threads;

// The peer of this place.
fn peer_at(place: u32) -> PeerId {
    PeerId {
        address: address_of(place),
        asn: place.wrapping_add(64501),
    }
}

// The workers of two peers, each on a thread.
fn work<R: Threads + Wait + Sync>(
    rt: &R,
    alloc: Global,
    first: &[u8],
    second: &[u8],
    out: Sender<Word>,
    other_out: Sender<Word>,
) -> (WorkerEnd, WorkerEnd)
    requires limit { (length first.now < 2 ^ 50) × (length second.now < 2 ^ 50) }
    requires unsent { (out.sent ≡ []) × (other_out.sent ≡ []) }
    ensures first { IfSome result.0.finished (λ token. token.ring ≡ out.ring) }
    ensures second { IfSome result.1.finished (λ token. token.ring ≡ other_out.ring) }
{
    thread::join(
        rt,
        move || -> WorkerEnd
            requires { (out.sent ≡ []) × (length first.now < 2 ^ 50) }
            ensures { IfSome result.finished (λ token. token.ring ≡ out.ring) }
        { worker(rt, alloc, 0, first, peer_at(0), out, &Open) },
        move || -> WorkerEnd
            requires { (other_out.sent ≡ []) × (length second.now < 2 ^ 50) }
            ensures { IfSome result.finished (λ token. token.ring ≡ other_out.ring) }
        { worker(rt, alloc, 1, second, peer_at(1), other_out, &Open) },
    )
}

// Routes the changes of two peers to one shard.
fn route_two(
    rt: &impl Wait,
    from: Receiver<Word>,
    other_from: Receiver<Word>,
    to: Sender<Routed>,
) -> (Receiver<Word>, Receiver<Word>)
    requires unreceived { (from.received ≡ []) × (other_from.received ≡ []) }
    requires unsent { to.sent ≡ [] }
    ensures { (result.0.ring ≡ from.ring) × (result.1.ring ≡ other_from.ring) }
{
    let mut from = [from, other_from];
    let mut to = [to];
    route(rt, &mut from, &mut to);
    let [first, second] = from;
    (first, second)
}

// Routes the changes of two peers, and holds the tables of all prefixes on a thread.
fn route_and_hold<R: Threads + Wait + Sync>(
    rt: &R,
    from: Receiver<Word>,
    other_from: Receiver<Word>,
    to: Sender<Routed>,
    of_shard: Receiver<Routed>,
    tables: Gathering,
) -> ((Receiver<Word>, Receiver<Word>), ShardEnd)
    requires unreceived { (from.received ≡ []) × (other_from.received ≡ []) }
    requires unsent { (to.sent ≡ []) × (of_shard.received ≡ []) }
    requires empty { (peer : ℕ) → rib_of tables peer ≡ nothing_held }
    ensures { (result.0.0.ring ≡ from.ring) × (result.0.1.ring ≡ other_from.ring) }
{
    thread::join(
        rt,
        move || -> (Receiver<Word>, Receiver<Word>)
            requires { (from.received ≡ []) × (other_from.received ≡ []) × (to.sent ≡ []) }
            ensures { (result.0.ring ≡ from.ring) × (result.1.ring ≡ other_from.ring) }
        { route_two(rt, from, other_from, to) },
        move || -> ShardEnd
            requires { (of_shard.received ≡ []) × ((peer : ℕ) → rib_of tables peer ≡ nothing_held) }
        { shard_worker(rt, 0, tables, of_shard, &Open) },
    )
}

// How many changes of a worker wait, once its token shows all.
fn waiting(end: WorkerEnd, from: Receiver<Word>) -> Option<usize>
    requires { IfSome end.finished (λ token. token.ring ≡ from.ring) }
{
    let mut from = from;
    let mut token = end.finished?;
    Some(from.after(&mut token))
}

// The same threads with these files and tables: how many changes wait of each worker, and the tables that are left.
fn run_by_hand<R: Threads + Wait + Sync>(
    rt: &R,
    alloc: Global,
    first: &[u8],
    second: &[u8],
    tables: Gathering,
) -> Option<(usize, usize, Tables)>
    requires limit { (length first.now < 2 ^ 50) × (length second.now < 2 ^ 50) }
    requires empty { (peer : ℕ) → rib_of tables peer ≡ nothing_held }
{
    let (out, from) = ring_of::<Word>(alloc, 1)?;
    let (other_out, other_from) = ring_of::<Word>(alloc, 1)?;
    let (to, of_shard) = ring_of::<Routed>(alloc, 1)?;
    let ((end, other_end), ((from, other_from), shard)) = thread::join(
        rt,
        move || -> (WorkerEnd, WorkerEnd)
            requires { (out.sent ≡ []) × (other_out.sent ≡ [])
                × (length first.now < 2 ^ 50) × (length second.now < 2 ^ 50) }
            ensures { IfSome result.0.finished (λ token. token.ring ≡ out.ring)
                × IfSome result.1.finished (λ token. token.ring ≡ other_out.ring) }
        { work(rt, alloc, first, second, out, other_out) },
        move || -> ((Receiver<Word>, Receiver<Word>), ShardEnd)
            requires { (from.received ≡ []) × (other_from.received ≡ []) × (to.sent ≡ [])
                × (of_shard.received ≡ []) × ((peer : ℕ) → rib_of tables peer ≡ nothing_held) }
            ensures { (result.0.0.ring ≡ from.ring) × (result.0.1.ring ≡ other_from.ring) }
        { route_and_hold(rt, from, other_from, to, of_shard, tables) },
    );
    let waits = waiting(end, from)?;
    let others_wait = waiting(other_end, other_from)?;
    Some((waits, others_wait, shard.tables?))
}

// The same of two peers, the first of which announces so many prefixes: how many changes wait of each worker, and how
// many rows the second one has.
fn counted<R: Threads + Wait + Sync>(
    rt: &R,
    alloc: Global,
    count: u32,
) -> Option<(usize, usize, usize)> {
    let peers = two_peers(alloc, count)?;
    let tables = nothing_gathered(alloc, &peers)?;
    let [first, second] = peers.as_slice() else {
        return None;
    };
    let (first, second) = (first.file.as_slice(), second.file.as_slice());
    if first.len() >= 1 << 50 || second.len() >= 1 << 50 {
        return None;
    }
    let (waits, others_wait, tables) = run_by_hand(rt, alloc, first, second, tables)?;
    Some((waits, others_wait, tables.rows(1).ok()?.len()))
}

#[test]
fn calls_that_are_joined_by_hand_leave_all_rows(rt: HostRuntime) {
    let left = counted(&rt, rt.alloc(), 4_999);
    assert_eq!(rt; left, Some((0, 0, 4_999)));
}
