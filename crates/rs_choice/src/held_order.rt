//! The place of a peer's route among the routes on a prefix, which are in ascending order of their peers.

ghost use Rattle.std.specs.Prelude.{◌<◌, ◌≤◌, ◌↔◌, IsTrue, length};
ghost use Rattle.std.specs.List.Sorted.{IsPartitionPoint};
ghost use Rattle.rs_choice.specs.Held.{AscendByPeer, IsAt};

use crate::held_route::HeldRoute;

// How many routes are looked at one by one: that is quicker than by halves, if each step waits for the last.
const FEW: usize = 16;

/// The place of the route of the peer of number `peer` among routes in ascending order of their peers. If the peer
/// has none, it is the place where its route would stand. All routes before that place are of lower numbers, and none
/// from it on is.
///
/// Of up to 16 routes all are looked at. Among more, the place that is the peer's number is looked at first. The route
/// stands there if all peers of lower numbers have a route too. Else it is found by halves. It takes no memory.
pub fn place_of_peer(held: &[HeldRoute], peer: usize) -> usize
    ensures within { result ≤ length held.now }
    ensures place { AscendByPeer held.now
        → IsPartitionPoint (λ one. one.peer < peer) (λ one. peer ≤ one.peer) held.now result }
{
    if held.len() <= FEW {
        return count_lower(held, peer);
    }
    if is_at(held, peer, peer) {
        return peer;
    }
    held.partition_point(|one| usize::from(one.peer) < peer)
}

// How many routes are of lower numbers than a peer. No branch depends on what is read of them, so while the
// processor waits for one list it goes on to the next.
fn count_lower(held: &[HeldRoute], peer: usize) -> usize
    ensures within { result ≤ length held.now }
    ensures place { AscendByPeer held.now
        → IsPartitionPoint (λ one. one.peer < peer) (λ one. peer ≤ one.peer) held.now result }
{
    let mut count = 0;
    for place in 0..held.len() {
        count += usize::from(usize::from(held[place].peer) < peer);
    }
    count
}

/// Whether the route at a place, if there is one, is that of the peer of number `peer`.
pub fn is_at(held: &[HeldRoute], place: usize, peer: usize) -> bool
    ensures { IsTrue result ↔ IsAt held.now place peer }
{
    place < held.len() && usize::from(held[place].peer) == peer
}
