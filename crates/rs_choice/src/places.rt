//! Some of at most 256 places, in an array: it takes no memory.

ghost use Rattle.std.specs.Prelude.{◌≡◌, ◌<◌, ◌≤◌, [], ◌∷◌, ◌++◌, length, slice_get, Some};

use crate::plan::MAX_PEERS;
use std::marker::Model;

/// At most 256 places below 256, in order.
#[derive(Drop)]
pub(crate) struct Places {
    places: [u8; MAX_PEERS],
    len: usize,
}

impl Model for Places {
    ghost use Rattle.std.specs.Prelude.{◌≤◌, List, ℕ, take};
    ghost use Rattle.rs_choice.specs.declared.plan.TheConstants.{MAX_PEERS};

    ghost Value = { List ℕ };

    ghost view = { λ places. take places.len places.places };

    ghost invariant = { λ places. places.len ≤ MAX_PEERS };
}

impl Places {
    // No place.
    pub(crate) fn new() -> Places
        ensures { result ≡ [] }
    {
        Places {
            places: [0; MAX_PEERS],
            len: 0,
        }
    }

    // How many places there are.
    pub(crate) fn len(&self) -> usize
        ensures value { result ≡ length self.now }
        ensures bound { result ≤ MAX_PEERS }
    {
        self.len
    }

    // The place of a number.
    pub(crate) fn place(&self, number: usize) -> usize
        requires { number < length self.now }
        ensures value { slice_get self.now number ≡ Some result }
        ensures bound { result < MAX_PEERS }
    {
        usize::from(self.places[number])
    }

    // Adds a place.
    pub(crate) fn push(&mut self, place: usize)
        requires room { length self.old < MAX_PEERS }
        requires small { place < MAX_PEERS }
        ensures { self.new ≡ self.old ++ place ∷ [] }
    {
        self.places[self.len] = place as u8;
        self.len += 1;
    }
}
