//! One peer's session in a recording, given change by change (RFC 4271, section 3.1; RFC 6396, section 4.4).
//!
//! Our choices: the session is open at the first record; records of other peers are passed over and counted;
//! nothing is read after the close.

ghost use Rattle.std.specs.Prelude.{◌≡◌, ◌+◌, ◌<◌, ◌≤◌, ℕ, Bool, true, false, List, [], None, Option, Result, OnErr};
ghost use Rattle.std.specs.Prelude.{IfOk, IfNone, is_none};
ghost use Rattle.rs_mrt.specs.declared.fault.SourceFault.{SourceFault};
ghost use Rattle.rs_update.specs.declared.errors.Errors.TheVariants.{Rfc4271};
ghost use Rattle.std.specs.Option.{option_map};
ghost use Rattle.rs_mrt.specs.Record.{reading_of, record_of};
ghost use Rattle.rs_mrt.specs.Source.{CountsFailure};
ghost use Rattle.rs_session.specs.Concerning.{PassesShown, SaysOf, StepsOf};
ghost use Rattle.rs_session.specs.FileChanges.{changes_in, passed_in};
ghost use Rattle.rs_session.specs.Laws.{SomethingMayCome};
ghost use Rattle.rs_session.specs.Stage.{fresh, May, Says, SaysJust, Closes, Fewer, GoesOn, answer_behind};
ghost use Rattle.rs_session.specs.Stage.{most_changes};
ghost use Rattle.rs_change.specs.Change.{Change, closing_word};
ghost use Rattle.rs_session.specs.Steps.{Fetches, GivesWaiting, ReadsShown, answer_of_fetch, closed_by};
ghost use Rattle.rs_session.specs.Counts.{held_count};

use crate::beside::{Only, is_beside};
use crate::effect::{Effect, read_record};
use crate::pending::Pending;
use rs_change::{Body, Reason, Word};
use rs_mrt::{Record, Records, Source, SourceFault};
use rs_types::PeerId;
use rs_update::Errors;
use std::alloc::{AllocError, Global};
use std::marker::Model;

/// One peer's session in a recording: gives its changes one after another, and its close as the last one.
#[derive(Drop)]
pub struct Session<S: Source> {
    alloc: Global,
    source: S,
    peer: PeerId,
    // How faults in messages are handled.
    errors: Errors,
    // The changes that the last record gave and that haven't been given yet.
    waiting: Pending,
    // Whether the record that the source shows is still to be read.
    held: bool,
    // Whether the close was given.
    closed: bool,
    // How many records were passed over before the change given last, and how many after it.
    passed: u64,
    skipped: u64,
}

impl<S: Source> Model for Session<S> {
    ghost use Rattle.std.specs.Prelude.{◌+◌, ◌<◌};
    ghost use Rattle.rs_session.specs.Stage.{Stage};
    ghost use Rattle.rs_session.specs.Counts.{CountFits};

    ghost Value = { Stage S };

    ghost view = { λ s. record {
      source = s.source;
      peer = s.peer;
      errors = s.errors;
      waiting = s.waiting;
      held = s.held;
      closed = s.closed;
      passed = s.passed;
      skipped = s.skipped;
    } };

    ghost invariant = { λ s. CountFits (s.passed + s.skipped) s.held (S.room s.source) };
}

impl<'a> Session<Records<'a>> {
    /// Begins at the first octet of a file, faults in messages being handled as RFC 4271 says. It takes no memory.
    pub fn new(alloc: Global, file: &'a [u8], peer: PeerId) -> Session<Records<'a>>
        // What may come is just what the file says of the peer.
        ensures says { SaysJust ⟦<Records<'a> as Source>⟧.comes ⟦<Records<'a> as Source>⟧.shows
            result (changes_in peer file.now) (passed_in peer file.now) }
        ensures source { result.source ≡ reading_of None file.now }
        ensures passed { result.passed ≡ 0 }
    {
        Session::over(alloc, Records::new(file), peer)
    }
}

impl<S: Source> Session<S> {
    /// Begins at the next record of the source, faults in messages being handled as RFC 4271 says. It takes no memory.
    pub fn over(alloc: Global, source: S, peer: PeerId) -> Session<S>
        ensures { result ≡ fresh source peer Rfc4271 }
    {
        Session::over_by(alloc, source, peer, Errors::Rfc4271)
    }

    /// Begins at the next record of the source, faults in messages being handled by one of the standards: by
    /// RFC 7606 many UPDATEs at fault close nothing, and their routes are withdrawn. It takes no memory.
    pub fn over_by(alloc: Global, source: S, peer: PeerId, errors: Errors) -> Session<S>
        ensures { result ≡ fresh source peer errors }
    {
        Session {
            alloc,
            source,
            peer,
            errors,
            waiting: Pending::none(alloc),
            held: false,
            closed: false,
            passed: 0,
            skipped: 0,
        }
    }

    /// The source whose records the session reads.
    pub fn source(&self) -> &S
        ensures { result.now ≡ self.now.source }
    {
        &self.source
    }

    /// Gives the next change; after the close it answers None. A close says that the records ended, or why the
    /// session ended before. If memory is refused, the session is unchanged, and the next call gives the change if
    /// there is memory.
    #[tactic(auto, using(crate::proofs::StageLemmas::something_comes))]
    pub fn next_word(&mut self) -> Result<Option<Word>, AllocError>
        ensures says { Says S.comes S.shows self.old self.new result }
        ensures closes { Closes self.old.closed self.new.closed result }
        // A source of so many octets gives no more changes before the close.
        ensures fewer { Fewer (most_changes S.room S.shows self.old) (most_changes S.room S.shows self.new) result }
        // A close because records cannot be read comes only if a read failed, or if the source takes no more octets.
        ensures failures { CountsFailure (S.failures self.old.source) (S.failures self.new.source)
            (S.full self.new.source) (S.stopped self.old.source) (answer_behind result) }
        ensures goes_on { GoesOn (S.stopped self.old.source) (S.stopped self.new.source) result }
        // What is given is always a beginning of something that may come.
        ensures more { SomethingMayCome S.comes S.shows self.new }
    {
        self.next_where(&None)
    }

    // Gives the next change. If only one prefix is asked for, it passes over the records that may be; None asks for
    // every change.
    pub(crate) fn next_where(&mut self, only: &Option<Only>) -> Result<Option<Word>, AllocError>
        ensures says { SaysOf S.comes S.shows only.now self.old self.new result }
        ensures closes { Closes self.old.closed self.new.closed result }
        ensures fewer { Fewer (most_changes S.room S.shows self.old) (most_changes S.room S.shows self.new) result }
        ensures failures { CountsFailure (S.failures self.old.source) (S.failures self.new.source)
            (S.full self.new.source) (S.stopped self.old.source) (answer_behind result) }
        ensures goes_on { GoesOn (S.stopped self.old.source) (S.stopped self.new.source) result }
    {
        while !self.closed {
            if let Some(word) = self.give_waiting()? {
                return Ok(Some(word));
            }
            if let Some(close) = self.step(only)? {
                return Ok(Some(close));
            }
        }
        Ok(None)
    }

    /// How many records were passed over before the change given last; after the close, in all.
    pub fn passed_over(&self) -> u64
        ensures value { result ≡ self.now.passed }
        ensures at_most { (changes : List Change) (passed : ℕ) → May S.comes S.shows self.now changes passed
            → result ≤ passed }
        ensures in_the_end { (passed : ℕ) → May S.comes S.shows self.now [] passed → result ≡ passed }
    {
        self.passed
    }

    /// The record that is read: after a change was given, the one that gave it. None before the first one,
    /// and after a close that no whole record gave.
    pub fn shown(&self) -> Option<Record<'_>>
        ensures { option_map record_of result ≡ S.shows self.now.source }
    {
        self.source.shown()
    }

    // Gives a change that waits.
    fn give_waiting(&mut self) -> Result<Option<Word>, AllocError>
        ensures ok { IfOk result (λ given. GivesWaiting self.old given self.new) }
        ensures err { OnErr result (self.new ≡ self.old) }
    {
        let Some(word) = self.waiting.next()? else {
            return Ok(None);
        };
        self.count_passed();
        Ok(Some(word))
    }

    // Reads one record or passes it over. If it ends the session, the close is given.
    fn step(&mut self, only: &Option<Only>) -> Result<Option<Word>, AllocError>
        requires closed { self.old.closed ≡ false }
        requires waiting { self.old.waiting ≡ [] }
        ensures says { StepsOf S.comes S.shows only.now self.old self.new result }
        ensures room { IfOk result (λ given. IfNone given
            (S.room self.new.source + held_count self.new.held < S.room self.old.source + held_count self.old.held)) }
        ensures failures { CountsFailure (S.failures self.old.source) (S.failures self.new.source)
            (S.full self.new.source) (S.stopped self.old.source) (answer_behind result) }
        ensures goes_on { GoesOn (S.stopped self.old.source) (S.stopped self.new.source) result }
        ensures fewer { most_changes S.room S.shows self.new ≤ most_changes S.room S.shows self.old }
    {
        if let Some(reason) = self.fetch() {
            return Ok(Some(self.close(0, reason)));
        }
        if self.pass_held(only) {
            return Ok(None);
        }
        self.read_held()
    }

    // Goes to the next record, unless one is still to be read. If there is none, gives the reason for the close.
    fn fetch(&mut self) -> Option<Reason>
        ensures same { self.new ≡ record self.old { source = self.new.source; held = is_none result } }
        ensures says { Fetches S.comes S.shows self.old self.new result }
        ensures room { IfNone result (S.room self.new.source + 1 ≤ S.room self.old.source + held_count self.old.held) }
        ensures failures { CountsFailure (S.failures self.old.source) (S.failures self.new.source)
            (S.full self.new.source) (S.stopped self.old.source) (answer_of_fetch result) }
        ensures goes_on { IfNone result ((last : Result Bool SourceFault) →
            S.stopped self.new.source ≡ Some last → S.stopped self.old.source ≡ Some last) }
        ensures fewer { most_changes S.room S.shows self.new ≤ most_changes S.room S.shows self.old }
    {
        if self.held {
            return None;
        }
        match self.source.advance() {
            Ok(true) => {
                self.held = true;
                None
            }
            Ok(false) => Some(Reason::EndOfFile),
            Err(SourceFault::Mrt(fault)) => Some(Reason::Mrt(fault.number())),
            Err(SourceFault::Read) => Some(Reason::Read),
        }
    }

    // Reads the record that the source shows. Refused, it is still to be read.
    fn read_held(&mut self) -> Result<Option<Word>, AllocError>
        requires { self.old.held ≡ true }
        ensures ok { IfOk result (λ given. ReadsShown (S.shows self.old.source) self.old given self.new) }
        ensures err { OnErr result (self.new ≡ self.old) }
    {
        let Some(record) = self.source.shown() else {
            self.held = false;
            return Ok(None);
        };
        let time = record.time;
        let effect = read_record(self.alloc, self.errors, self.peer, &record)?;
        self.held = false;
        match effect {
            Effect::PassesOver => {
                self.skipped += 1;
                Ok(None)
            }
            Effect::Gives(changes) => {
                self.waiting = changes;
                Ok(None)
            }
            Effect::Ends(reason) => Ok(Some(self.close(time, reason))),
        }
    }

    // Passes over the record that the source shows if it may be: an UPDATE of the peer, not past the time. It must
    // list no prefix that covers the one asked for.
    fn pass_held(&mut self, only: &Option<Only>) -> bool
        requires { self.old.held ≡ true }
        ensures { PassesShown (S.shows self.old.source) only.now self.old result self.new }
    {
        let Some(only) = only else {
            return false;
        };
        let Some(record) = self.source.shown() else {
            return false;
        };
        let passes = is_beside(self.errors, self.peer, &record, *only);
        if passes {
            self.held = false;
        }
        passes
    }

    // Closes the session.
    fn close(&mut self, time: u32, reason: Reason) -> Word
        ensures word { result ≡ closing_word time reason }
        ensures closed { self.new ≡ closed_by self.old }
    {
        self.held = false;
        self.closed = true;
        self.count_passed();
        Word {
            time,
            body: Body::Close(reason),
        }
    }

    // Counts the records that were passed over since a change was given last.
    fn count_passed(&mut self)
        ensures { self.new ≡ record self.old { passed = self.old.passed + self.old.skipped; skipped = 0 } }
    {
        self.passed += self.skipped;
        self.skipped = 0;
    }
}
