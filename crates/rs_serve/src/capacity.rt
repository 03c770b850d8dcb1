//! The capacity of rings.

ghost use Rattle.std.specs.Prelude.{◌≡◌};
ghost use Rattle.rs_ring.specs.Items.{is_capacity};

use rs_ring::MAX_CAPACITY;

/// Whether a ring may have room for so many changes: from 1 to 65,536.
pub fn has_room(capacity: usize) -> bool
    ensures { result ≡ is_capacity capacity }
{
    (1..=MAX_CAPACITY).contains(&capacity)
}
