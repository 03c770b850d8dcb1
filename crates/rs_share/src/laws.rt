//! What holds of the definitions. Each law is the contract of a function that does nothing.

ghost use Rattle.rs_share.specs.Laws.{HeardSaysTheSame, NoOwnIsPassed, OwnSaysTheSame, TakesOwn};

use rs_mrt::Source;

/// A session over the records that are for its peer says what a session over all records says.
pub fn own_records_say_the_same()
    ensures { OwnSaysTheSame }
{}

/// A session passes over no record that is for its peer.
pub fn no_own_record_is_passed_over()
    ensures { NoOwnIsPassed }
{}

/// A session over what its peer hears says the same, and passes over as many records.
pub fn a_peer_hears_all_that_its_session_says()
    ensures { HeardSaysTheSame }
{}

/// What may come for a peer of a shared reading: its own records of those that the source may give, and the end; or the
/// first of them, and then a failed read.
pub fn a_peer_takes_its_own_records<S: Source>()
    ensures { TakesOwn S.comes }
{}
