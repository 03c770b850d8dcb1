//! The router: what it sends to each shard.

ghost use Rattle.std.specs.Prelude.{◌≡◌, [], All, IfSome};

use super::changes::{add_change, change_of, ring_of, route_of};
use rs_ring::{Closing, Numbered, Receiver, Sender};
use rs_serve::{MAX_SHARDS, Routed, route, shard_of};
use rs_session::Word;
use rs_update::{Attributes, Prefix};
use std::alloc::Global;
use std::process::Abort;
use std::sync::{Arc, Wait};
use std::test::*;
use std::thread;
use std::thread::Threads;

// Address and length of a prefix, the number of shards, and the shard: 198.51.100.0/24, 203.0.113.0/24, 0.0.0.0/0 and
// 255.255.255.255/32.
const SHARDS: &[(u32, u8, usize, usize)] = &[
    (0xC633_6400, 24, 3, 0),
    (0xCB00_7100, 24, 3, 2),
    (0xC633_6400, 24, 16, 6),
    (0xCB00_7100, 24, 16, 11),
    (0xC633_6400, 24, 1, 0),
    (0, 0, 1, 0),
    (0, 0, 3, 0),
    (0, 0, 16, 0),
    (0xFFFF_FFFF, 32, 16, 15),
    (0xFFFF_FFFF, 32, 2, 1),
];

// The shard of the prefix of so many bits of an address.
fn shard_at(address: u32, len: u8, shards: usize) -> Option<usize> {
    let prefix = Prefix::new(address, len)?;
    if !(1..=MAX_SHARDS).contains(&shards) {
        return None;
    }
    Some(shard_of(prefix, shards))
}

#[test]
fn the_shard_of_a_prefix_is_the_first_octet_of_its_address_modulo_their_number(rt: HostRuntime) {
    for (address, len, shards, shard) in SHARDS {
        let found = shard_at(*address, *len, *shards);
        assert_eq!(rt; found, Some(*shard), "of {address:x}/{len} in {shards}");
    }
}

// What two peers say. A change has its place as its time.
const SAID: [&str; 2] = ["+198 +203 +1 -198 down +0 -1 end", "+203 down fault"];

// What each of three shards gets of each of them: 198 and 0 are in shard 0, 1 in shard 1, 203 in shard 2.
const PARTS: &[&str] = &[
    "0 +198.0.0.0/8; 3 -198.0.0.0/8; 4 down; 5 +0.0.0.0/8; 7 EndOfFile;",
    "1 down; 2 Bgp { code: 3, subcode: 6 };",
    "2 +1.0.0.0/8; 4 down; 6 -1.0.0.0/8; 7 EndOfFile;",
    "1 down; 2 Bgp { code: 3, subcode: 6 };",
    "1 +203.0.0.0/8; 4 down; 7 EndOfFile;",
    "0 +203.0.0.0/8; 1 down; 2 Bgp { code: 3, subcode: 6 };",
];

// The ends of the rings of two peers and three shards that the router doesn't own. Also how many changes of each
// peer were sent, and what each shard received of each peer.
#[derive(Drop)]
struct Outside {
    peers: [Sender<Word>; 2],
    shards: [Receiver<Routed>; 3],
    sent: [usize; 2],
    // Of each shard and peer, the shard's number times two and that of the peer being the place.
    parts: Vec<String>,
    // How many last items came.
    ended: usize,
}

impl Outside {
    fn new(
        alloc: Global,
        peers: [Sender<Word>; 2],
        shards: [Receiver<Routed>; 3],
    ) -> Option<Outside> {
        let mut parts = Vec::new(alloc);
        for _ in 0..6 {
            parts.push(String::new(alloc)).ok()?;
        }
        Some(Outside {
            peers,
            shards,
            sent: [0, 0],
            parts,
            ended: 0,
        })
    }

    // Sends the next of a peer's changes, if there is one and room for it.
    fn send_next(&mut self, route: &Arc<Attributes>, peer: usize) -> Option<()> {
        let place = *self.sent.get(peer)?;
        let Some(word) = SAID.get(peer)?.split_whitespace().nth(place) else {
            return Some(());
        };
        let change = change_of(route, u32::try_from(place).ok()?, word)?;
        let sender = self.peers.get_mut(peer)?;
        if sender.sent() < Word::LIMIT && sender.try_send(change).is_ok() {
            *self.sent.get_mut(peer)? = place.saturating_add(1);
        }
        Some(())
    }

    // Takes an item of a shard: none may come of another peer.
    fn take(&mut self, shard: usize, item: &Routed) -> Option<()> {
        match item {
            Routed::Word { peer, word } => {
                let place = shard.wrapping_mul(2).wrapping_add(*peer);
                add_change(self.parts.get_mut(place)?, word).ok()
            }
            Routed::Last => {
                self.ended = self.ended.saturating_add(1);
                Some(())
            }
        }
    }

    // Receives an item for a shard, if one waits.
    fn receive(&mut self, shard: usize) -> Option<()> {
        match self.shards.get_mut(shard)?.try_receive() {
            Some(Numbered { item, .. }) => self.take(shard, &item),
            None => Some(()),
        }
    }

    // Sends and receives what can be.
    fn go_on(&mut self, route: &Arc<Attributes>) -> Option<()> {
        for peer in 0..2 {
            self.send_next(route, peer)?;
        }
        for shard in 0..3 {
            self.receive(shard)?;
        }
        Some(())
    }
}

// Sends the changes of both peers as there is room, and receives what comes for the shards, until each one was sent the
// last item.
fn feed(rt: &impl Wait, outside: Outside, route: &Arc<Attributes>) -> Option<Outside> {
    let mut outside = outside;
    for _ in rt.forever() {
        outside.go_on(route)?;
        if outside.ended >= 3 {
            return Some(outside);
        }
        thread::yield_now();
    }
    unreachable!()
}

// Routes what two peers say to three shards.
fn route_all(rt: &impl Wait, from: [Receiver<Word>; 2], to: [Sender<Routed>; 3])
    requires received { All (λ receiver. receiver.received ≡ []) from }
    requires sent { All (λ sender. sender.sent ≡ []) to }
{
    let mut from = from;
    let mut to = to;
    route(rt, &mut from, &mut to);
}

// The ends of the rings of two peers.
fn peer_rings(alloc: Global, capacity: usize) -> Option<([Sender<Word>; 2], [Receiver<Word>; 2])>
    ensures { IfSome result (λ ends. All (λ receiver. receiver.received ≡ []) ends.1) }
{
    let (first, from_first) = ring_of::<Word>(alloc, capacity)?;
    let (second, from_second) = ring_of::<Word>(alloc, capacity)?;
    Some(([first, second], [from_first, from_second]))
}

// The ends of the rings of three shards.
fn shard_rings(
    alloc: Global,
    capacity: usize,
) -> Option<([Sender<Routed>; 3], [Receiver<Routed>; 3])>
    ensures { IfSome result (λ ends. All (λ sender. sender.sent ≡ []) ends.0) }
{
    let (to_none, none) = ring_of::<Routed>(alloc, capacity)?;
    let (to_one, one) = ring_of::<Routed>(alloc, capacity)?;
    let (to_two, two) = ring_of::<Routed>(alloc, capacity)?;
    Some(([to_none, to_one, to_two], [none, one, two]))
}

// What the shards get through rings of this capacity, the router being in a thread of its own.
fn through<R: Threads + Wait + Sync>(rt: &R, alloc: Global, capacity: usize) -> Option<Outside> {
    let attributes = route_of(alloc)?;
    let shared = &attributes;
    let (peers, from) = peer_rings(alloc, capacity)?;
    let (to, shards) = shard_rings(alloc, capacity)?;
    let outside = Outside::new(alloc, peers, shards)?;
    let (_routed, outside) = thread::join(
        rt,
        move || -> ()
            requires { All (λ receiver. receiver.received ≡ []) from × All (λ sender. sender.sent ≡ []) to }
        { route_all(rt, from, to) },
        move || -> Option<Outside> { feed(rt, outside, shared) },
    );
    outside
}

// Each shard gets its part of what each peer says through rings of this capacity.
fn check_through<R: Threads + Wait + Sync + Abort>(rt: &R, alloc: Global, capacity: usize) {
    let outside = through(rt, alloc, capacity).expect(rt, "memory");
    for (place, (part, wanted)) in outside.parts.iter().zip(PARTS).enumerate() {
        assert_eq!(rt; part.trim(), *wanted, "part {place}, through {capacity}");
    }
}

#[test]
fn each_shard_gets_the_part_of_what_each_peer_says(rt: HostRuntime) {
    for capacity in [1, 2, 64] {
        check_through(&rt, rt.alloc(), capacity);
    }
}
