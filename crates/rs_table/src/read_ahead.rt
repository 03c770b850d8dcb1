//! The changes of a list in their order, with their attributes read ahead (our choice).
//!
//! Attributes of routes that stand side by side in a list most often lie far apart in memory. Were they read one
//! after another, as the routes are settled, the processor would wait for each.

ghost use Rattle.std.specs.Prelude.{◌≡◌, ◌∷◌, [], MatchOption};

use crate::logged::LoggedChange;
use std::collections::VecDeque;

// Of so many changes the attributes are read together: about as many reads of memory are under way at once in a
// processor.
const TOGETHER: usize = 16;

/// The changes of a list that are still to come.
#[derive(Drop)]
pub(crate) struct ReadAhead {
    pub(crate) rest: VecDeque<LoggedChange>,
    // How many of the attributes that were read ahead begin with a zero. None do: the first octet of a path attribute
    // has a flag set. They are counted, and the count is asked for, so that no compiler leaves out the reads.
    zeros: usize,
}

impl ReadAhead {
    /// All changes of a list.
    pub(crate) fn new(entries: Vec<LoggedChange>) -> ReadAhead
        ensures { result.rest.items ≡ entries.items }
    {
        let rest = VecDeque::from(entries);
        let zeros = read_attributes(&rest);
        ReadAhead { rest, zeros }
    }

    /// The next change. One call in sixteen reads ahead.
    pub(crate) fn next(&mut self) -> Option<LoggedChange>
        ensures { MatchOption result (self.old.rest.items ≡ [])
            (λ entry. self.old.rest.items ≡ entry ∷ self.new.rest.items) }
    {
        if self.rest.len() % TOGETHER == self.zeros {
            self.zeros = read_attributes(&self.rest);
        }
        self.rest.pop_front()
    }
}

// Reads attributes of the next sixteen changes together, so that the waits for memory overlap. Answers how many of
// them begin with a zero.
fn read_attributes(rest: &VecDeque<LoggedChange>) -> usize {
    rest.iter()
        .take(TOGETHER)
        .filter(|entry| entry.begins_with_zero())
        .count()
}
