//! Routes the changes of all peers.

ghost use Rattle.std.specs.Prelude.{◌≡◌, ◌≤◌, ◌<◌, [], true, All, length};
ghost use Rattle.rs_router.specs.ShardParts.{IsShardCount};
ghost use Rattle.rs_router.specs.Delivery.{sent_lists, SameSenders};
ghost use Rattle.rs_router.specs.Routing.{AreClosed, AreShardParts, AreKnown, EndLast, IsRouted, all_closed};
ghost use Rattle.rs_router.specs.Routing.{received_lists};
ghost use Rattle.rs_router.specs.Routing.{SameReceivers};

use crate::delivery::{Shared, deliver, send_to_all};
use crate::routed::Routed;
use rs_change::Word;
use rs_patience::Patience;
use rs_ring::{Numbered, Receiver, Sender};
use std::sync::Wait;

// How many changes of one peer are taken before the next peer's turn.
const TURN: usize = 64;

/// Routes the changes of all peers, at most 256, to the shards until each peer's session closed. Each change goes to
/// the shard of its prefix. Each loss and close of a session goes to every shard, and after all changes `Last` does.
/// The changes of one peer stay in order.
///
/// It takes no memory, and keeps at most one change that it received and hasn't sent.
pub fn route<R: Wait>(rt: &R, from: &mut [Receiver<Word>], to: &mut [Sender<Routed>])
    requires shards { IsShardCount (length to.old) }
    requires peers { length from.old ≤ 256 }
    requires nothing_received { All (λ receiver. receiver.received ≡ []) from.old }
    requires nothing_sent { All (λ sender. sender.sent ≡ []) to.old }
    // Each session closed.
    ensures closed { AreClosed (received_lists from.new) }
    // Of the changes received of each peer, each shard was sent its part.
    ensures shard_parts { AreShardParts (received_lists from.new) (sent_lists to.new) }
    ensures known { AreKnown (length from.old) (sent_lists to.new) }
    ensures last { EndLast (sent_lists to.new) }
    ensures receivers { SameReceivers from.old from.new }
    ensures senders { SameSenders to.old to.new }
{
    route_until_closed(rt, from, to);
    send_to_all(rt, to, Shared::Last);
}

// Routes the changes of all peers until each session closed.
fn route_until_closed<R: Wait>(rt: &R, from: &mut [Receiver<Word>], to: &mut [Sender<Routed>])
    requires shards { IsShardCount (length to.old) }
    requires peers { length from.old ≤ 256 }
    requires routed { IsRouted (received_lists from.old) (sent_lists to.old) }
    ensures routed { IsRouted (received_lists from.new) (sent_lists to.new) }
    ensures closed { all_closed from.new ≡ true }
    ensures receivers { SameReceivers from.old from.new }
    ensures senders { SameSenders to.old to.new }
{
    let mut patience = Patience::new();
    for _ in rt.forever() {
        let moved = route_round(rt, from, to);
        if all_closed(from) {
            return;
        }
        if moved {
            patience.reset();
        } else {
            patience.wait(rt);
        }
    }
    unreachable!()
}

// Whether each peer's session closed.
fn all_closed(from: &[Receiver<Word>]) -> bool
    ensures { result ≡ all_closed from.now }
{
    from.iter().all(|receiver| receiver.closed())
}

// Gives each peer a turn. Answers whether any change came.
fn route_round<R: Wait>(rt: &R, from: &mut [Receiver<Word>], to: &mut [Sender<Routed>]) -> bool
    requires shards { IsShardCount (length to.old) }
    requires peers { length from.old ≤ 256 }
    requires routed { IsRouted (received_lists from.old) (sent_lists to.old) }
    ensures routed { IsRouted (received_lists from.new) (sent_lists to.new) }
    ensures receivers { SameReceivers from.old from.new }
    ensures senders { SameSenders to.old to.new }
{
    let mut moved = false;
    for peer in 0..from.len() {
        moved |= route_turn(rt, from, to, peer);
    }
    moved
}

// Routes changes of one peer that wait. Answers whether any came.
fn route_turn<R: Wait>(
    rt: &R,
    from: &mut [Receiver<Word>],
    to: &mut [Sender<Routed>],
    peer: usize,
) -> bool
    requires peer { peer < length from.old }
    requires shards { IsShardCount (length to.old) }
    requires peers { length from.old ≤ 256 }
    requires routed { IsRouted (received_lists from.old) (sent_lists to.old) }
    ensures routed { IsRouted (received_lists from.new) (sent_lists to.new) }
    ensures receivers { SameReceivers from.old from.new }
    ensures senders { SameSenders to.old to.new }
{
    let mut moved = false;
    for _ in 0..TURN {
        if !route_one(rt, from, to, peer) {
            return moved;
        }
        moved = true;
    }
    moved
}

// Routes one change of a peer, if one waits. Answers whether one came.
fn route_one<R: Wait>(
    rt: &R,
    from: &mut [Receiver<Word>],
    to: &mut [Sender<Routed>],
    peer: usize,
) -> bool
    requires peer { peer < length from.old }
    requires shards { IsShardCount (length to.old) }
    requires peers { length from.old ≤ 256 }
    requires routed { IsRouted (received_lists from.old) (sent_lists to.old) }
    ensures routed { IsRouted (received_lists from.new) (sent_lists to.new) }
    ensures receivers { SameReceivers from.old from.new }
    ensures senders { SameSenders to.old to.new }
{
    let Some(Numbered { item, .. }) = from[peer].try_receive() else {
        return false;
    };
    deliver(rt, to, peer, item);
    true
}
