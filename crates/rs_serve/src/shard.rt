//! A shard: it takes all items that the router hands it.

ghost use Rattle.std.specs.Prelude.{◌≡◌, ◌++◌, ◌∷◌, [], ℕ, false, IfSome};
ghost use Rattle.rs_ring.specs.Items.{has_close};
ghost use Rattle.rs_router.specs.RoutedItems.{is_last};
ghost use Rattle.rs_router.specs.Routing.{EndsLast};
ghost use Rattle.rs_table.specs.Content.{nothing_held, rib_of};
ghost use Rattle.rs_serve.specs.Held.{HoldReceived};

use crate::taking::{after_item, settled};
use rs_ring::{Numbered, Receiver};
use rs_router::Routed;
use rs_table::{Gathering, Tables};
use rs_worker::{Gate, Patience};
use std::sync::Wait;

/// What a shard answers.
#[derive(Drop)]
pub struct ShardEnd {
    /// Its tables; None if it was refused memory.
    pub tables: Option<Tables>,
    /// The end of the ring through which it received, of which nothing is left to come.
    pub from: Receiver<Routed>,
}

/// Takes all items that come through a ring, up to the last one, into a gathering without changes: tables of which no
/// peer has a route yet. A change of a peer that isn't there, or whose session closed, is dropped. Each client's choice
/// on each prefix is made once, after the last item.
///
/// It passes the gate once for each item, before it handles it. Refused memory it drops what it gathered and all
/// later changes, but receives them, so that no other thread waits for it.
pub fn shard_worker<G: Gate>(
    rt: &impl Wait,
    shard: usize,
    tables: Gathering,
    from: Receiver<Routed>,
    gate: &G,
) -> ShardEnd
    requires unreceived { from.received ≡ [] }
    requires new { (peer : ℕ) → rib_of tables peer ≡ nothing_held }
    // Each peer has the routes that its received changes leave, up to its close.
    ensures tables { IfSome result.tables (HoldReceived tables result.from.received) }
    ensures ended { EndsLast result.from.received }
    ensures ring { result.from.ring ≡ from.ring }
{
    let mut from = from;
    let mut gathered = Some(tables);
    for _ in rt.forever() {
        if from.closed() {
            return ShardEnd {
                tables: settled(gathered),
                from,
            };
        }
        let Numbered { number, item } = next_item(rt, &mut from);
        gate.shard_pass(shard, number);
        gathered = after_item(gathered, item);
    }
    unreachable!()
}

// The next item, once it is there.
fn next_item(rt: &impl Wait, from: &mut Receiver<Routed>) -> Numbered<Routed>
    ensures received { from.new.received ≡ from.old.received ++ result.item ∷ [] }
    ensures open { has_close is_last from.old.received ≡ false }
    ensures same { from.new.ring ≡ from.old.ring }
{
    let mut patience = Patience::new();
    for _ in rt.forever() {
        if let Some(numbered) = from.try_receive() {
            return numbered;
        }
        patience.wait(rt);
    }
    unreachable!()
}
