//! What a ring asks of its items: which of them close it, and how many it carries at most.

ghost use Rattle.std.specs.Prelude.{◌≡◌, ◌^◌, ◌<◌, ℕ, Bool};
ghost use Rattle.rs_ring.specs.Items.{MayFollow};

use rtrb::Protocol;

/// An item of a ring.
pub trait Closing: Drop {
    ghost LIMIT: { ℕ };

    ghost closes: { Self → Bool };

    /// How many items a ring carries at most: the number of each one is below it.
    const LIMIT: u64;

    /// Whether this item closes the ring: nothing may follow it.
    fn is_close(&self) -> bool
        ensures { result ≡ closes self.now };
}

/// What a sender promises of each item that it sends: fewer than the limit came before it, and none of those
/// closes the ring.
#[derive(Clone, Copy)]
pub struct UntilClose;

impl<T: Closing> Protocol<T> for UntilClose {
    ghost allows = { λ before item. MayFollow T.closes T.LIMIT before };
}
