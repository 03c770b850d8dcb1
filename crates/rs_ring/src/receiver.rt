//! The end of a ring that receives.

ghost use Rattle.std.specs.Prelude.{◌≡◌, ◌+◌, ◌<◌, ◌≤◌, ◌++◌, ◌∷◌, [], true, false, length, IfSome, IfNone, IsSome};
ghost use mathlib.Core.List.{IsPrefix};
ghost use Rattle.rtrb.specs.Ring.{received, known_items, consumer_capacity};
ghost use Rattle.rs_ring.specs.Items.{has_close};
ghost use Rattle.rs_ring.specs.Views.{ring_of};

use crate::closing::{Closing, UntilClose};
use crate::finished::Finished;
use crate::sender::Sender;
use crate::tally::Tally;
use rtrb::Consumer;
use std::alloc::Global;
use std::marker::Model;

/// An item and its number: how many were sent before it.
#[derive(Drop)]
pub struct Numbered<T> {
    /// The number, from 0.
    pub number: u64,
    /// The item.
    pub item: T,
}

/// The end of a ring that receives. It can move to another thread.
#[derive(Drop)]
pub struct Receiver<T: Closing> {
    consumer: Consumer<T, Global, UntilClose>,
    // Of the items that were received.
    tally: Tally,
}

impl<T: Closing> Model for Receiver<T> {
    ghost use Rattle.std.specs.Prelude.{◌≡◌, length};
    ghost use Rattle.rtrb.specs.Ring.{received, known_items, consumer_capacity};
    ghost use Rattle.rs_ring.specs.Ends.{Receiving};
    ghost use Rattle.rs_ring.specs.Items.{has_close};
    ghost use Rattle.rs_ring.specs.Views.{ring_of};

    ghost Value = { Receiving T };

    ghost view = { λ r. record {
      ring = ring_of r.consumer.end;
      capacity = consumer_capacity r.consumer;
      received = received r.consumer;
      waiting = known_items r.consumer;
    } };

    ghost invariant = { λ r. (r.tally.count ≡ length (received r.consumer))
        × (r.tally.closed ≡ has_close T.closes (received r.consumer)) };
}

impl<T: Closing> Receiver<T> {
    // The receiving end of a ring to which nothing was sent.
    pub(crate) fn new(consumer: Consumer<T, Global, UntilClose>) -> Receiver<T>
        requires { received consumer ≡ [] }
        ensures ring { result.ring ≡ ring_of consumer.end }
        ensures empty { (result.received ≡ []) × (result.waiting ≡ known_items consumer)
            × (result.capacity ≡ consumer_capacity consumer) }
    {
        Receiver {
            consumer,
            tally: Tally::new(),
        }
    }

    /// Receives the oldest item that waits. It takes no memory and doesn't wait.
    ///
    /// Answers None if no item is there; then nothing changed.
    pub fn try_receive(&mut self) -> Option<Numbered<T>>
        ensures number { IfSome result (λ given. given.number ≡ length self.old.received) }
        ensures below { IfSome result (λ given. given.number < T.LIMIT) }
        ensures received { IfSome result (λ given. self.new.received ≡ self.old.received ++ given.item ∷ []) }
        // Nothing follows a closing item.
        ensures open { IfSome result (λ given. has_close T.closes self.old.received ≡ false) }
        ensures waiting { IfSome result (λ given. IsPrefix self.old.waiting (given.item ∷ self.new.waiting)) }
        ensures none { IfNone result (self.new ≡ self.old) }
        ensures succeeds { 0 < length self.old.waiting → IsSome result }
        ensures same { (self.new.ring ≡ self.old.ring) × (self.new.capacity ≡ self.old.capacity) }
    {
        let item = self.consumer.pop().ok()?;
        let number = self.tally.add::<T>(item.is_close());
        Some(Numbered { number, item })
    }

    /// Whether a closing item was received: then no more comes.
    pub fn closed(&self) -> bool
        ensures { result ≡ has_close T.closes self.now.received }
    {
        self.tally.closed
    }

    /// How many items wait, for a thread that has both ends of the ring.
    ///
    /// So many receipts in a row give an item. After them, as many sends as there is room for aren't refused as
    /// full.
    pub fn beside(&mut self, sender: &mut Sender<T>) -> usize
        requires { sender.old.ring ≡ self.old.ring }
        ensures waiting { result ≡ length self.new.waiting }
        ensures all { self.new.received ++ self.new.waiting ≡ sender.new.sent }
        ensures room { sender.new.capacity ≤ sender.new.room + result }
        ensures same { self.new ≡ record self.old { waiting = self.new.waiting } }
        ensures sender { sender.new ≡ record sender.old { room = sender.new.room } }
    {
        sender.producer.slots_beside(&mut self.consumer);
        self.consumer.slots_beside(&mut sender.producer)
    }

    /// How many items wait, once the sender has finished: so many receipts in a row give an item, and no more
    /// will come.
    pub fn after(&mut self, token: &mut Finished<T>) -> usize
        requires { token.old.ring ≡ self.old.ring }
        ensures waiting { result ≡ length self.new.waiting }
        ensures all { self.new.received ++ self.new.waiting ≡ token.old.sent }
        ensures same { self.new ≡ record self.old { waiting = self.new.waiting } }
        ensures token { token.new ≡ token.old }
    {
        self.consumer.slots_after(&mut token.finished)
    }
}
