//! What a peer's changes say last of a prefix, and why its route was taken away or its session closed.

ghost use Rattle.std.specs.Prelude.{◌≡◌, ◌++◌, ◌∷◌, [], List};
ghost use Rattle.rs_update.specs.IpPrefix.{IpPrefix};
ghost use Rattle.rs_session.specs.Change.{change_of, Change};
ghost use Rattle.rs_glass.specs.Recorded.{IsSaid, close_after, is_failed_read, time_of};

use crate::cause::Cause;
use rs_explain::{EndedBy, LastSaid};
use rs_session::{Body, Reason, Word, is_cut_short};
use rs_update::Prefix;

/// What a peer's changes say last of a prefix, and why its route was taken away or its session closed.
#[derive(Clone, Copy, Debug, PartialEq, Eq, Drop)]
pub struct Said {
    /// What they say last of the prefix.
    pub last: LastSaid,
    /// Why the route was taken away, if the record that says so says more than that.
    pub cause: Option<Cause>,
    /// Why the session closed, if it did.
    pub close: Option<Reason>,
}

impl Said {
    // Before any change.
    pub(crate) fn nothing() -> Said
        ensures { (prefix : IpPrefix) → IsSaid prefix [] result }
    {
        Said {
            last: LastSaid::nothing(),
            cause: None,
            close: None,
        }
    }

    // With one change more, and why that came.
    pub(crate) fn after(self, prefix: Prefix, word: &Word, cause: Option<Cause>) -> Said
        ensures { (changes : List Change) → IsSaid prefix changes self
            → IsSaid prefix (changes ++ change_of word.now ∷ []) result }
    {
        let last = self.last.after(prefix, word);
        Said {
            last,
            cause: cause_after(self.last, last, self.cause, cause),
            close: close_after(self.close, word),
        }
    }

    /// When the peer's route on the prefix was announced, if it is there, or when it was removed: in seconds since
    /// 1970; None if that isn't known. A close because of a record at fault has the record's time. A close because
    /// the end of the file cuts a record short has none.
    pub fn time(&self) -> Option<u32>
        ensures { result ≡ time_of self.now.last }
    {
        match self.last {
            LastSaid::NeverAnnounced => None,
            LastSaid::Announced(time) => Some(time),
            LastSaid::Ended(_, ending) => match ending.by {
                EndedBy::Close(reason) if is_cut_short(reason) => None,
                _ => Some(ending.time),
            },
        }
    }
}

// Why the route was removed: this is new if the route was there before a change and not after it.
fn cause_after(
    before: LastSaid,
    after: LastSaid,
    old: Option<Cause>,
    new: Option<Cause>,
) -> Option<Cause> {
    match (before, after) {
        (LastSaid::Announced(_), LastSaid::Ended(..)) => new,
        (_, LastSaid::Announced(_)) => None,
        _ => old,
    }
}

// Whether a session closed because a read failed.
pub(crate) fn is_failed_read(close: Option<Reason>) -> bool
    ensures { result ≡ is_failed_read close }
{
    matches!(close, Some(Reason::Read))
}

// Why the session closed, with one change more.
fn close_after(before: Option<Reason>, word: &Word) -> Option<Reason>
    ensures { result ≡ close_after before (change_of word.now).body }
{
    match word.body {
        Body::Close(reason) => Some(reason),
        _ => before,
    }
}
