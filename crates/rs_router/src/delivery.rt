//! Hands one item to the shards that get it.

ghost use Rattle.std.specs.Prelude.{◌≡◌, ◌<◌, ◌^◌, ◌++◌, ◌∷◌, [], false, length};
ghost use Rattle.rs_ring.specs.Items.{has_close};
ghost use Rattle.rs_router.specs.ShardParts as shard_parts;
ghost use Rattle.rs_router.specs.RoutedItems.{is_last};
ghost use Rattle.rs_router.specs.Delivery.{item_of, sent_lists, CanSend, Delivered, IsSentToAll, SameSenders};

use crate::prefix_shard::shard_of;
use crate::routed::Routed;
use rs_change::{Body, Reason, Word};
use rs_patience::{Patience, send_when_room};
use rs_ring::{SendRefused, Sender};
use std::sync::Wait;

// An item of which each shard gets one.
#[derive(Clone, Copy)]
pub(crate) enum Shared {
    Down {
        peer: usize,
        time: u32,
    },
    Close {
        peer: usize,
        time: u32,
        reason: Reason,
    },
    Last,
}

impl Shared {
    // The item as it is sent to one shard.
    fn item(self) -> Routed
        ensures { result ≡ item_of self }
    {
        match self {
            Shared::Down { peer, time } => Routed::Word {
                peer,
                word: Word {
                    time,
                    body: Body::Down,
                },
            },
            Shared::Close { peer, time, reason } => Routed::Word {
                peer,
                word: Word {
                    time,
                    body: Body::Close(reason),
                },
            },
            Shared::Last => Routed::Last,
        }
    }
}

// Sends a peer's change to the shards that get it.
pub(crate) fn deliver<R: Wait>(rt: &R, to: &mut [Sender<Routed>], peer: usize, word: Word)
    requires shards { shard_parts.IsShardCount (length to.old) }
    requires open { CanSend to.old }
    ensures sent { Delivered peer word (sent_lists to.old) (sent_lists to.new) }
    ensures same { SameSenders to.old to.new }
{
    let time = word.time;
    match &word.body {
        Body::Announce(prefix, _) | Body::Withdraw(prefix) => {
            let shard = shard_of(*prefix, to.len());
            offer(rt, &mut to[shard], Routed::Word { peer, word });
        }
        Body::Down => send_to_all(rt, to, Shared::Down { peer, time }),
        Body::Close(reason) => {
            let reason = *reason;
            send_to_all(rt, to, Shared::Close { peer, time, reason });
        }
    }
}

// Sends the item to each shard.
pub(crate) fn send_to_all<R: Wait>(rt: &R, to: &mut [Sender<Routed>], shared: Shared)
    requires { CanSend to.old }
    ensures sent { IsSentToAll (item_of shared) (sent_lists to.old) (sent_lists to.new) }
    ensures same { SameSenders to.old to.new }
{
    for sender in to.iter_mut() {
        offer(rt, sender, shared.item());
    }
}

// Sends an item, once there is room.
fn offer<R: Wait>(rt: &R, sender: &mut Sender<Routed>, item: Routed)
    requires open { has_close is_last sender.old.sent ≡ false }
    requires few { length sender.old.sent < 2 ^ 60 }
    ensures sent { sender.new.sent ≡ sender.old.sent ++ item ∷ [] }
    ensures same { sender.new.ring ≡ sender.old.ring }
{
    match sender.try_send(item) {
        Ok(_) => {}
        Err(SendRefused::Closed(_)) => unreachable!(),
        Err(SendRefused::Full(refused)) => send_when_room(
            rt,
            sender,
            refused,
            &mut Patience::new(),
        ),
    }
}
