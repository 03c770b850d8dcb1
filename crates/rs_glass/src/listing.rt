//! What happens on a prefix in the recorded file of one peer, listed record by record.

ghost use Rattle.std.specs.Prelude.{◌≡◌, [], ◌∷◌, IfOk, OnOk};
ghost use Rattle.std.specs.Option.{option_map};
ghost use Rattle.rs_mrt.specs.Record.{record_of};
ghost use Rattle.rs_session.specs.Change.{change_of};
ghost use Rattle.rs_session.specs.Effect.{effect_of};
ghost use Rattle.rs_session.specs.FileChanges.{close_at};
ghost use Rattle.rs_glass.specs.Causes.{cause_behind};
ghost use Rattle.rs_glass.specs.FileSaid.{all_said_by, closing_at_end, moment_of, said_of};
ghost use Rattle.rs_glass.specs.Happened.{happens_on};
ghost use Rattle.rs_glass.specs.Listed.{GoesOnBy, IsListing, Lists};

use crate::cause::{Cause, cause_of};
use crate::happened::Happening;
use crate::microseconds::microseconds_of;
use crate::moment::Moment;
use crate::question::Question;
use rs_mrt::Record;
use rs_session::{Body, Effect, PeerId, Pending, Reason, Word, read_record};
use rs_update::{Errors, Prefix};
use std::alloc::{AllocError, Global};

/// What happened on a prefix in the recorded file of a peer, as far as it is read.
#[derive(Drop)]
pub(crate) struct Listing {
    /// The number of the peer.
    pub(crate) peer: usize,
    /// What is asked.
    pub(crate) question: Question,
    /// The latest moment of all changes so far, on the prefix or not.
    pub(crate) latest: Moment,
    /// What happened, in the order of the file.
    pub(crate) all: Vec<Happening>,
}

impl Listing {
    // Of nothing that was read.
    pub(crate) fn of_nothing(alloc: Global, peer: usize, question: Question) -> Listing
        ensures { IsListing question peer [] result }
    {
        Listing {
            peer,
            question,
            latest: Moment::first(),
            all: Vec::new(alloc),
        }
    }

    // Takes what a record, which may be put in, says to the session of the peer. Answers whether the session goes on.
    pub(crate) fn take_record(
        &mut self,
        alloc: Global,
        errors: Errors,
        id: PeerId,
        recorded: &Record<'_>,
        put_in: bool,
    ) -> Result<bool, AllocError>
        ensures lists { OnOk result (Lists self.old (said_of errors id (record_of recorded.now)) self.new) }
        ensures goes_on { IfOk result (GoesOnBy (effect_of errors id (record_of recorded.now))) }
    {
        match read_record(alloc, errors, id, recorded)? {
            Effect::PassesOver => Ok(true),
            Effect::Gives(changes) => {
                self.take_changes(alloc, changes, recorded, put_in)?;
                Ok(true)
            }
            Effect::Ends(reason) => {
                self.take(
                    alloc,
                    close_at(recorded.time, reason),
                    Some(recorded),
                    put_in,
                )?;
                Ok(false)
            }
        }
    }

    // Takes the close of the session for how its file ends.
    pub(crate) fn take_end(&mut self, alloc: Global, reason: Reason) -> Result<(), AllocError>
        ensures { OnOk result
            (Lists self.old (closing_at_end reason ∷ []) self.new) }
    {
        self.take(alloc, close_at(0, reason), None, false)
    }

    // Takes the changes that a record gives.
    fn take_changes(
        &mut self,
        alloc: Global,
        changes: Pending,
        recorded: &Record<'_>,
        put_in: bool,
    ) -> Result<(), AllocError>
        ensures { OnOk result (Lists self.old (all_said_by (record_of recorded.now) changes) self.new) }
    {
        let mut left = changes;
        while let Some(word) = left.next()? {
            self.take(alloc, word, Some(recorded), put_in)?;
        }
        Ok(())
    }

    // Takes one change, and lists it if it happens on the prefix.
    fn take(
        &mut self,
        alloc: Global,
        word: Word,
        said_by: Option<&Record<'_>>,
        put_in: bool,
    ) -> Result<(), AllocError>
        ensures { OnOk result (Lists self.old
            (record { change = change_of word; said_by = option_map (λ r. record_of r.now) said_by.entry } ∷ [])
            self.new) }
    {
        self.latest = self.latest.or_later(moment_of(&word, said_by));
        if happens_on(&word, self.question.prefix) {
            let cause = cause_behind(alloc, self.question.errors, said_by, &word)?;
            self.all.push(Happening {
                peer: self.peer,
                time: self.latest.seconds,
                microseconds: self.latest.microseconds,
                word,
                cause,
                put_in,
            })?;
        }
        Ok(())
    }
}

// The close of a session at a time.
fn close_at(time: u32, reason: Reason) -> Word
    ensures { change_of result ≡ close_at time reason }
{
    Word {
        time,
        body: Body::Close(reason),
    }
}

// When the record of a change came.
fn moment_of(word: &Word, said_by: Option<&Record<'_>>) -> Moment
    ensures { result ≡ moment_of (record {
      change = change_of word.now;
      said_by = option_map (λ r. record_of r.now) said_by.entry;
    }) }
{
    let microseconds = match said_by {
        Some(recorded) => microseconds_of(recorded),
        None => None,
    };
    Moment {
        seconds: word.time,
        microseconds,
    }
}

// Why a change came, by the record that gave it, if a record did.
fn cause_behind(
    alloc: Global,
    errors: Errors,
    said_by: Option<&Record<'_>>,
    word: &Word,
) -> Result<Option<Cause>, AllocError>
    ensures { IfOk result (λ cause. cause
        ≡ cause_behind errors (option_map (λ r. record_of r.now) said_by.entry) (change_of word.now)) }
{
    match said_by {
        Some(recorded) => cause_of(alloc, errors, word, recorded),
        None => Ok(None),
    }
}

/// Whether a change announces or withdraws a prefix, or is a loss or a close.
pub(crate) fn happens_on(word: &Word, prefix: Prefix) -> bool
    ensures { result ≡ happens_on prefix (change_of word.now) }
{
    match &word.body {
        Body::Announce(changed, _) => *changed == prefix,
        Body::Withdraw(changed) => *changed == prefix,
        Body::Down => true,
        Body::Close(_) => true,
    }
}
