//! Shards on threads: the tables that they hold.

ghost use Rattle.std.specs.Prelude.{◌≡◌, [], ℕ, IfSome};
ghost use Rattle.rs_table.specs.Content.{nothing_held, rib_of};

use super::changes::{change_of, prefix_at, ring_of, route_of};
use super::exchanges::{Peer, exchange};
use super::rows::peers_of;
use rs_ring::{Closing, SendRefused, Sender};
use rs_serve::{Routed, ShardEnd, shard_worker};
use rs_table::{FEW_ENTRIES, Gathering, Tables};
use rs_update::Attributes;
use rs_worker::Open;
use std::alloc::{AllocError, Global};
use std::process::Abort;
use std::sync::{Arc, Wait};
use std::test::*;
use std::thread;
use std::thread::Threads;

// What the shard is sent of three peers before the last item. A change has its place as its time. One follows its
// peer's close, and one is of a peer that isn't there.
const CHANGES: &str = "0:+10 1:+10 0:+20 0:-20 0:end 0:-10 7:+30 1:+40 1:down 1:+50 2:+60 2:fault";

// What that leaves: each prefix by its first octet for a client, and of whom, and when it was announced.
const LEFT: &str =
    "10 for 2 of 0 at 0; 50 for 0 of 1 at 9; 50 for 2 of 1 at 9; closed 0; closed 2;";

// The item of a word.
fn item_of(route: &Arc<Attributes>, time: u32, word: &str) -> Option<Routed> {
    let (peer, word) = word.split_once(':')?;
    let peer = peer.parse().ok()?;
    let word = change_of(route, time, word)?;
    Some(Routed::Word { peer, word })
}

// Sends an item, once there is room. Answers whether it was sent.
fn send(rt: &impl Wait, sender: &mut Sender<Routed>, item: Routed) -> bool {
    let mut item = item;
    for _ in rt.forever() {
        if sender.sent() >= Routed::LIMIT {
            return false;
        }
        match sender.try_send(item) {
            Ok(_) => return true,
            Err(SendRefused::Closed(_)) => return false,
            Err(SendRefused::Full(back)) => item = back,
        }
        thread::yield_now();
    }
    unreachable!()
}

// Sends all changes, and the last item. Answers whether they were sent.
fn send_all(rt: &impl Wait, sender: Sender<Routed>, route: &Arc<Attributes>) -> bool {
    let mut sender = sender;
    let mut time = 0u32;
    for word in CHANGES.split_whitespace() {
        let Some(item) = item_of(route, time, word) else {
            return false;
        };
        if !send(rt, &mut sender, item) {
            return false;
        }
        time = time.wrapping_add(1);
    }
    send(rt, &mut sender, Routed::Last)
}

/// What the changes of peers are gathered in, before any change.
pub fn nothing_gathered(alloc: Global, peers: &[Peer]) -> Option<Gathering>
    ensures { IfSome result (λ tables. (peer : ℕ) → rib_of tables peer ≡ nothing_held) }
{
    Gathering::of_plan(alloc, exchange(alloc, peers)?, FEW_ENTRIES).ok()
}

// The same of three peers.
fn no_routes(alloc: Global) -> Option<Gathering>
    ensures { IfSome result (λ tables. (peer : ℕ) → rib_of tables peer ≡ nothing_held) }
{
    let peers = peers_of(alloc, "64501/11:nothing 64502/12:nothing 64503/13:nothing")?;
    nothing_gathered(alloc, &peers)
}

// What the shard of number 3 holds of all changes, which come through a ring of this capacity from another thread.
fn held<R: Threads + Wait + Sync>(rt: &R, alloc: Global, capacity: usize) -> Option<Tables> {
    let route = route_of(alloc)?;
    let shared = &route;
    let tables = no_routes(alloc)?;
    let (sender, from) = ring_of::<Routed>(alloc, capacity)?;
    let (sent, end) = thread::join(
        rt,
        move || -> bool { send_all(rt, sender, shared) },
        move || -> ShardEnd
            requires { (from.received ≡ []) × ((peer : ℕ) → rib_of tables peer ≡ nothing_held) }
        { shard_worker(rt, 3, tables, from, &Open) },
    );
    if !sent {
        return None;
    }
    end.tables
}

// Appends the route that a client gets on a prefix.
fn add_best(
    said: &mut String,
    tables: &Tables,
    first: u8,
    client: usize,
) -> Result<(), AllocError> {
    let Some(route) = prefix_at(first).and_then(|prefix| tables.best(client, prefix)) else {
        return Ok(());
    };
    let (peer, time) = (route.peer, route.time);
    write!(said, "{first} for {client} of {peer} at {time}; ")
}

// What tables hold, if there is memory to say it.
fn said_of(alloc: Global, tables: &Tables) -> Option<String> {
    let mut said = String::new(alloc);
    for first in [10, 20, 30, 40, 50, 60] {
        add_best(&mut said, tables, first, 0).ok()?;
        add_best(&mut said, tables, first, 2).ok()?;
    }
    for peer in 0..3 {
        if tables.is_closed(peer) {
            write!(said, "closed {peer}; ").ok()?;
        }
    }
    Some(said)
}

#[test]
fn a_shard_holds_what_each_peer_has_left_up_to_its_close(rt: HostRuntime) {
    for capacity in [1, 2, 64] {
        let tables = held(&rt, rt.alloc(), capacity).expect(&rt, "tables");
        let said = said_of(rt.alloc(), &tables).expect(&rt, "memory");
        assert_eq!(rt; said.trim(), LEFT, "through {capacity}");
    }
}

// How a shard ends that was sent all changes before it began, if there is memory to send them.
fn ended(rt: &impl Wait, alloc: Global) -> Option<ShardEnd> {
    let route = route_of(alloc)?;
    let tables = no_routes(alloc)?;
    let (sender, from) = ring_of::<Routed>(alloc, 16)?;
    if !send_all(rt, sender, &route) {
        return None;
    }
    Some(shard_worker(rt, 3, tables, from, &Open))
}

// It holds whichever allocation is refused: then the shard has no tables, or all that it was sent, and in each case it
// received all items. `tools/refuse_in_tests` refuses each in turn.
#[test]
fn refused_memory_ends_the_tables_of_a_shard(rt: HostRuntime) {
    let Some(ShardEnd { tables, from }) = ended(&rt, rt.alloc()) else {
        return;
    };
    assert!(rt; from.closed());
    let Some(tables) = tables else {
        return;
    };
    if let Some(said) = said_of(rt.alloc(), &tables) {
        assert_eq!(rt; said.trim(), LEFT);
    }
}
