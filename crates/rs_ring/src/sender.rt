//! The end of a ring that sends.

ghost use Rattle.std.specs.Prelude.{◌≡◌, ◌+◌, ◌<◌, ◌≤◌, ◌++◌, ◌∷◌, [], true, false, length, IfOk, IfErr, IsOk, IsErr};
ghost use Rattle.std.specs.Prelude.{OnErr, OnOk, IfSome};
ghost use Rattle.rtrb.specs.Ring.{sent, known_free, producer_capacity};
ghost use Rattle.rs_ring.specs.Items.{has_close, refusal};
ghost use Rattle.rs_ring.specs.Views.{ring_of};

use crate::closing::{Closing, UntilClose};
use crate::fault::SendRefused;
use crate::finished::Finished;
use crate::tally::Tally;
use rtrb::{Producer, PushError};
use std::alloc::Global;
use std::marker::Model;

/// The end of a ring that sends. It can move to another thread.
#[derive(Drop)]
pub struct Sender<T: Closing> {
    pub(crate) producer: Producer<T, Global, UntilClose>,
    // Of the items that were sent.
    tally: Tally,
}

impl<T: Closing> Model for Sender<T> {
    ghost use Rattle.std.specs.Prelude.{◌≡◌, length};
    ghost use Rattle.rtrb.specs.Ring.{sent, known_free, producer_capacity};
    ghost use Rattle.rs_ring.specs.Ends.{Sending};
    ghost use Rattle.rs_ring.specs.Items.{has_close};
    ghost use Rattle.rs_ring.specs.Views.{ring_of};

    ghost Value = { Sending T };

    ghost view = { λ s. record {
      ring = ring_of s.producer.end;
      capacity = producer_capacity s.producer;
      sent = sent s.producer;
      room = known_free s.producer;
    } };

    ghost invariant = { λ s. (s.tally.count ≡ length (sent s.producer))
        × (s.tally.closed ≡ has_close T.closes (sent s.producer)) };
}

impl<T: Closing> Sender<T> {
    // The sending end of a ring to which nothing was sent.
    pub(crate) fn new(producer: Producer<T, Global, UntilClose>) -> Sender<T>
        requires { sent producer ≡ [] }
        ensures ring { result.ring ≡ ring_of producer.end }
        ensures empty { (result.sent ≡ []) × (result.room ≡ known_free producer)
            × (result.capacity ≡ producer_capacity producer) }
    {
        Sender {
            producer,
            tally: Tally::new(),
        }
    }

    /// Sends an item, and answers its number: how many were sent before it. It takes no memory and doesn't wait.
    ///
    /// Fails with `Closed` if a closing item was sent before, else with `Full` if the ring has no room. Then the
    /// item is given back, and nothing changed.
    pub fn try_send(&mut self, item: T) -> Result<u64, SendRefused<T>>
        requires { length self.old.sent < T.LIMIT }
        ensures number { IfOk result (λ number. number ≡ length self.old.sent) }
        ensures sent { OnOk result (self.new.sent ≡ self.old.sent ++ item ∷ []) }
        ensures room { OnOk result (self.old.room ≤ self.new.room + 1) }
        ensures refused { IfErr result (λ fault. fault ≡ refusal T.closes self.old.sent item) }
        ensures closed { has_close T.closes self.old.sent ≡ true → IsErr result }
        // An open ring with room takes the item.
        ensures succeeds { has_close T.closes self.old.sent ≡ false → 0 < self.old.room → IsOk result }
        ensures unchanged { OnErr result (self.new ≡ self.old) }
        ensures same { (self.new.ring ≡ self.old.ring) × (self.new.capacity ≡ self.old.capacity) }
    {
        if self.tally.closed {
            return Err(SendRefused::Closed(item));
        }
        let closes = item.is_close();
        if let Err(PushError::Full(item)) = self.producer.push(item) {
            return Err(SendRefused::Full(item));
        }
        Ok(self.tally.add::<T>(closes))
    }

    /// Looks how many items the ring has room for: so many sends in a row aren't refused as full. It takes no
    /// memory and doesn't wait.
    pub fn room(&mut self) -> usize
        ensures room { result ≡ self.new.room }
        ensures no_less { self.old.room ≤ self.new.room }
        ensures same { self.new ≡ record self.old { room = self.new.room } }
    {
        self.producer.slots()
    }

    /// How many items the ring holds at most.
    pub fn capacity(&self) -> usize
        ensures { result ≡ self.now.capacity }
    {
        self.producer.capacity()
    }

    /// How many items were sent.
    pub fn sent(&self) -> u64
        ensures { result ≡ length self.now.sent }
    {
        self.tally.count
    }

    /// Ends the sending. If the receiver still exists, the answer is a token that shows it all that was sent.
    pub fn finish(self) -> Option<Finished<T>>
        ensures { IfSome result (λ token. token ≡ record { ring = self.ring; sent = self.sent }) }
    {
        let Sender { producer, .. } = self;
        Some(Finished::new(producer.finish()?))
    }
}
