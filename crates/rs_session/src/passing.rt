//! A session asked for one prefix, up to a time: UPDATEs that list no prefix that covers it are passed over, without
//! memory (RFC 4271, sections 4.3 and 9.1.4).
//!
//! Our choice: an UPDATE past the time is read, and its changes are given, so that the caller sees where to stop.

ghost use Rattle.rs_mrt.specs.Source.{CountsFailure};
ghost use Rattle.rs_session.specs.Concerning.{SaysOn};
ghost use Rattle.rs_session.specs.Laws.{SomethingMayCome};
ghost use Rattle.rs_session.specs.Stage.{Closes, Fewer, GoesOn, answer_behind, most_changes};

use crate::beside::Only;
use crate::session::Session;
use rs_change::Word;
use rs_mrt::Source;
use rs_update::Prefix;
use std::alloc::AllocError;

impl<S: Source> Session<S> {
    /// Gives the next change. It passes over UPDATEs that list no prefix that covers `prefix` and aren't later than
    /// `until`, in seconds since 1970. None is no limit. Faults in such UPDATEs are found all the same. Memory is
    /// taken only for changes that are given. If memory is refused, records that were passed over stay passed over,
    /// and nothing else is lost.
    #[tactic(auto, using(crate::proofs::StageLemmas::something_comes))]
    pub fn next_word_on(
        &mut self,
        prefix: Prefix,
        until: Option<u32>,
    ) -> Result<Option<Word>, AllocError>
        // What was passed over is beside the prefix and in time.
        ensures says { SaysOn S.comes S.shows prefix until self.old self.new result }
        ensures closes { Closes self.old.closed self.new.closed result }
        ensures fewer { Fewer (most_changes S.room S.shows self.old) (most_changes S.room S.shows self.new) result }
        ensures failures { CountsFailure (S.failures self.old.source) (S.failures self.new.source)
            (S.full self.new.source) (S.stopped self.old.source) (answer_behind result) }
        ensures goes_on { GoesOn (S.stopped self.old.source) (S.stopped self.new.source) result }
        ensures more { SomethingMayCome S.comes S.shows self.new }
    {
        self.next_where(&Some(Only { prefix, until }))
    }
}
