//! The token of a sender that will send no more.

ghost use Rattle.std.specs.Prelude.{◌≡◌};
ghost use Rattle.rtrb.specs.Ring.{all_sent};
ghost use Rattle.rs_ring.specs.Views.{ring_of};

use crate::closing::{Closing, UntilClose};
use std::alloc::Global;
use std::marker::Model;

/// Shows the receiver of a ring all that was sent. It can move to another thread.
#[derive(Drop)]
pub struct Finished<T: Closing> {
    pub(crate) finished: rtrb::Finished<T, Global, UntilClose>,
}

impl<T: Closing> Model for Finished<T> {
    ghost use Rattle.rtrb.specs.Ring.{all_sent};
    ghost use Rattle.rs_ring.specs.Ends.{Sent};
    ghost use Rattle.rs_ring.specs.Views.{ring_of};

    ghost Value = { Sent T };

    ghost view = { λ f. record { ring = ring_of f.finished.end; sent = all_sent f.finished } };
}

impl<T: Closing> Finished<T> {
    // The token of a sender that finished.
    pub(crate) fn new(finished: rtrb::Finished<T, Global, UntilClose>) -> Finished<T>
        ensures { result ≡ record { ring = ring_of finished.end; sent = all_sent finished } }
    {
        Finished { finished }
    }
}
