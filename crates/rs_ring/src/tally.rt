//! How far one end of a ring has come.

ghost use Rattle.std.specs.Prelude.{◌≡◌, ◌+◌, ◌<◌, false};

use crate::closing::Closing;

// How many items went through one end, and whether the last one closes the ring.
#[derive(Clone, Copy)]
pub(crate) struct Tally {
    pub(crate) count: u64,
    pub(crate) closed: bool,
}

impl Tally {
    // No item did.
    pub(crate) fn new() -> Tally
        ensures { result ≡ record { count = 0; closed = false } }
    {
        Tally {
            count: 0,
            closed: false,
        }
    }

    // Counts one item more, and answers its number.
    pub(crate) fn add<T: Closing>(&mut self, closes: bool) -> u64
        requires { self.old.count < T.LIMIT }
        ensures number { result ≡ self.old.count }
        ensures tally { self.new ≡ record { count = self.old.count + 1; closed = closes } }
    {
        // The limit is a number of 64 bits, so the count stays one.
        prove!(self.count < T::LIMIT);
        let number = self.count;
        self.count += 1;
        self.closed = closes;
        number
    }
}
