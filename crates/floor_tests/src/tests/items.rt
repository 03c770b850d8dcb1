//! Items of rings, and rings by their two ends.

ghost use Rattle.std.specs.Prelude.{◌≡◌};

use rs_ring::{Closing, Finished, Receiver, RingRefused, SendRefused, Sender, ring};
use std::alloc::Global;

/// An item of a ring. The last one closes it.
#[derive(Clone, Copy, Debug, PartialEq, Eq, Drop)]
pub struct Item {
    pub value: u32,
    pub last: bool,
}

impl Closing for Item {
    ghost LIMIT = { 18446744073709551615 };

    ghost closes = { λ item. item.last };

    const LIMIT: u64 = u64::MAX;

    fn is_close(&self) -> bool {
        self.last
    }
}

/// An item that closes nothing.
pub fn plain(value: u32) -> Item {
    Item { value, last: false }
}

/// An item that closes its ring.
pub fn last(value: u32) -> Item {
    Item { value, last: true }
}

/// The two ends of one ring.
#[derive(Drop)]
pub struct Ends {
    pub sender: Sender<Item>,
    pub receiver: Receiver<Item>,
    ghost pair: { sender.ring ≡ receiver.ring },
}

impl Ends {
    /// A ring of this capacity.
    pub fn new(alloc: Global, capacity: usize) -> Result<Ends, RingRefused> {
        let (sender, receiver) = ring(alloc, capacity)?;
        Ok(Ends { sender, receiver })
    }

    /// The number of the item that was sent, or the refusal.
    pub fn send(&mut self, item: Item) -> Result<u64, SendRefused<Item>> {
        if self.sender.sent() >= Item::LIMIT {
            return Err(SendRefused::Closed(item));
        }
        self.sender.try_send(item)
    }

    /// How many items wait.
    pub fn waiting(&mut self) -> usize {
        self.receiver.beside(&mut self.sender)
    }

    /// Ends the sending.
    pub fn finish(self) -> Option<Ended> {
        let Ends { sender, receiver } = self;
        let token = sender.finish()?;
        Some(Ended { receiver, token })
    }
}

/// The receiving end of a ring whose sender finished.
#[derive(Drop)]
pub struct Ended {
    pub receiver: Receiver<Item>,
    token: Finished<Item>,
    ghost pair: { token.ring ≡ receiver.ring },
}

impl Ended {
    /// How many items wait.
    pub fn waiting(&mut self) -> usize {
        self.receiver.after(&mut self.token)
    }
}
