//! The last state of a prefix by a peer's changes: why its route is left there or absent (RFC 4271, sections 3.1 and
//! 9.1).

ghost use Rattle.std.specs.Prelude.{◌≡◌, ◌++◌, ◌∷◌, [], List, MatchOption};
ghost use Rattle.rs_update.specs.IpPrefix.{IpPrefix};
ghost use Rattle.rs_session.specs.Change.{change_of, Change};
ghost use Rattle.rs_explain.specs.LastSaid.{announces, ends, IsEnding, IsSaidLast};
ghost use Rattle.std.specs.Prelude.{false};

use rs_session::{Body, Reason, Word};
use rs_update::Prefix;

/// The last state of a prefix by a peer's changes.
#[derive(Clone, Copy, Debug, PartialEq, Eq, Drop)]
pub enum LastSaid {
    /// The prefix was never announced.
    NeverAnnounced,
    /// It was announced last at this time, in seconds since 1970, and nothing took the route away since.
    Announced(u32),
    /// It was announced last at this time, and this took the route away.
    Ended(u32, Ending),
}

/// What took a route away.
#[derive(Clone, Copy, Debug, PartialEq, Eq, Drop)]
pub struct Ending {
    /// When, in seconds since 1970.
    pub time: u32,
    /// By what.
    pub by: EndedBy,
}

/// By what a route is taken away.
#[derive(Clone, Copy, Debug, PartialEq, Eq, Drop)]
pub enum EndedBy {
    /// The peer withdrew the prefix.
    Withdrawal,
    /// The session was lost.
    Loss,
    /// The session closed, for this reason, which is not the end of the file.
    Close(Reason),
}

impl LastSaid {
    /// The last state of a prefix before any change.
    pub fn nothing() -> LastSaid
        ensures { (prefix : IpPrefix) → IsSaidLast prefix [] result }
    {
        LastSaid::NeverAnnounced
    }

    /// The last state of a prefix after one more change. Take any changes of which this is the last state. The answer
    /// is the last state of these changes followed by that one.
    pub fn after(self, prefix: Prefix, word: &Word) -> LastSaid
        ensures { (changes : List Change) → IsSaidLast prefix changes self
            → IsSaidLast prefix (changes ++ change_of word.now ∷ []) result }
    {
        if announces(prefix, word) {
            return LastSaid::Announced(word.time);
        }
        match self {
            LastSaid::NeverAnnounced => LastSaid::NeverAnnounced,
            LastSaid::Announced(time) => match taken_away(prefix, word) {
                Some(ending) => LastSaid::Ended(time, ending),
                None => LastSaid::Announced(time),
            },
            LastSaid::Ended(time, ending) => LastSaid::Ended(time, ending),
        }
    }
}

// Whether a change announces a prefix.
fn announces(prefix: Prefix, word: &Word) -> bool
    ensures { result ≡ announces prefix (change_of word.now) }
{
    match &word.body {
        Body::Announce(announced, _) => *announced == prefix,
        _ => false,
    }
}

// How a change takes a route on a prefix away, if it does.
fn taken_away(prefix: Prefix, word: &Word) -> Option<Ending>
    ensures { MatchOption result (ends prefix (change_of word.now) ≡ false) (IsEnding prefix (change_of word.now)) }
{
    let by = match &word.body {
        Body::Withdraw(withdrawn) if *withdrawn == prefix => EndedBy::Withdrawal,
        Body::Down => EndedBy::Loss,
        Body::Close(reason) if *reason != Reason::EndOfFile => EndedBy::Close(*reason),
        _ => return None,
    };
    Some(Ending {
        time: word.time,
        by,
    })
}
