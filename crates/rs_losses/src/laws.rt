//! What holds of the definitions. Each law is the contract of a function that does nothing.

ghost use Rattle.rs_losses.specs.Laws.{LossIsJustALoss, ShownAreThose};

/// A source with losses shows the records of its source with the losses inserted.
pub fn what_a_source_with_losses_shows()
    ensures { ShownAreThose }
{}

/// A record that is put in says to the session of the peer just that it is lost, at the record's time.
pub fn a_loss_that_is_put_in_says_just_a_loss()
    ensures { LossIsJustALoss }
{}
