//! A source around another source, whose end may cut a record short (RFC 6396, section 2).
//!
//! Our choice: if the tail is lenient, the record that is cut short is left out, and the records end before it.

ghost use Rattle.std.specs.Prelude.{◌≡◌};
ghost use Rattle.rs_mrt.specs.Leniency.{ComesBy, answer_by, comes_by, stopped_by};

use crate::bounds::Tail;
use crate::fault::{MrtFault, SourceFault};
use crate::record::Record;
use crate::source::Source;
use std::marker::Model;

/// The records of another source. If the tail is lenient, they end before a record that the end of the file cuts
/// short. A failed read is still answered.
#[derive(Drop)]
pub struct Lenient<S: Source> {
    source: S,
    tail: Tail,
}

impl<S: Source> Model for Lenient<S> {
    ghost use Rattle.rs_mrt.specs.Leniency.{Leniency};

    ghost Value = { Leniency S };

    ghost view = { λ l. record { source = l.source; tail = l.tail } };
}

impl<S: Source> Lenient<S> {
    /// Begins with the next record of the source. It doesn't read yet.
    pub fn new(source: S, tail: Tail) -> Lenient<S>
        ensures { result ≡ record { source = source; tail = tail } }
    {
        Lenient { source, tail }
    }

    /// The source whose records these are.
    pub fn source(&self) -> &S
        ensures { result.now ≡ self.now.source }
    {
        &self.source
    }
}

impl<S: Source> Source for Lenient<S> {
    ghost shows = { λ l. S.shows l.source };

    ghost comes = { λ l. ComesBy S.comes l };

    ghost stopped = { λ l. stopped_by l.tail (S.stopped l.source) };

    ghost failures = { λ l. S.failures l.source };

    ghost full = { λ l. S.full l.source };

    ghost room = { λ l. S.room l.source };

    ghost may_come = { λ l. comes_by S.comes l (S.may_come l.source) };

    fn advance(&mut self) -> Result<bool, SourceFault> {
        let answer = self.source.advance();
        answer_by(self.tail, answer)
    }

    fn shown(&self) -> Option<Record<'_>> {
        self.source.shown()
    }
}

// The answer if the source answers so.
fn answer_by(tail: Tail, answer: Result<bool, SourceFault>) -> Result<bool, SourceFault>
    ensures { result ≡ answer_by tail answer }
{
    match (tail, answer) {
        (Tail::Lenient, Err(SourceFault::Mrt(MrtFault::HeaderCutShort | MrtFault::BodyCutShort))) =>
            Ok(false),
        _ => answer,
    }
}
