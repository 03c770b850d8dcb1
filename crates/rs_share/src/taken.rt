//! The records that one peer takes of a recording that several peers share.
//!
//! Our choices: the records of others are not shown, only counted. If the reader ends before it said how the records
//! end, that is a failed read.

ghost use Rattle.std.specs.Prelude.{◌≡◌, ◌≤◌, ◌^◌, ◌++◌, [], ◌∷◌, None, Some, Err, IfNone, IfSome};
ghost use Rattle.rtrb.specs.Ring.{received};
ghost use Rattle.rs_mrt.specs.declared.fault.SourceFault.TheVariants.{Read};
ghost use Rattle.rs_share.specs.Telling.{MayFollow};
ghost use Rattle.std.specs.Option.{option_map};
ghost use Rattle.rs_mrt.specs.Leniency.{answer_at_end};
ghost use Rattle.rs_mrt.specs.Record.{MrtRecord, record_of};
ghost use Rattle.rs_mrt.specs.declared.fault.SourceFault.{SourceFault};
ghost use Rattle.rs_share.specs.Taking.{Carries, MayCome, Steps, room_left, something_comes};

use crate::batch::Batch;
use crate::part::{Free, InTurn, Last, Part};
use rs_mrt::{Record, Source, SourceFault};
use rs_types::PeerId;
use rtrb::{Consumer, Producer};
use std::alloc::{Alloc, Global};
use std::marker::Model;
use std::mem;
use std::snapshot::Snapshot;
use std::sync::{Arc, Wait};
use std::thread::Parker;
use std::time::Duration;

// How long a peer waits at most, in microseconds, before it looks again whether the reader is still there.
const LONGEST_WAIT: u64 = 20_000;

/// The records of one peer, and those that end every session, of a source that another thread reads. It waits for them
/// as long as that thread goes on.
#[derive(Drop)]
pub struct Taken<'s, S: Source, R: Wait> {
    pub(crate) rt: &'s R,
    // The source as it was before it was read.
    pub(crate) source: Snapshot<S>,
    pub(crate) peer: PeerId,
    pub(crate) parts: Consumer<Part<S>, Global, InTurn>,
    // Batches that are given back.
    pub(crate) back: Producer<Batch, Global, Free>,
    // Wakes the reader, and this peer.
    pub(crate) reader: Arc<Parker>,
    pub(crate) parker: Arc<Parker>,
    pub(crate) alloc: Global,
    // The records of the last part, and how many of them were shown.
    pub(crate) batch: Batch,
    pub(crate) at: usize,
    pub(crate) last: Option<Last>,
    // Which of them is shown, and how many records of others come right before it.
    pub(crate) shown: Option<usize>,
    pub(crate) others: u64,
    // How the records ended.
    pub(crate) stopped: Option<Option<SourceFault>>,
}

impl<'s, S: Source, R: Wait> Model for Taken<'s, S, R> {
    ghost use Rattle.rtrb.specs.Ring.{received};
    ghost use Rattle.rs_share.specs.Taking.{HasTaken, Taking, left_in, shown_in, stopped_by};
    ghost use Rattle.rs_share.specs.Telling.{told};

    ghost Value = { Taking S };

    ghost view = { λ t. record {
      source = t.source.value;
      peer = t.peer;
      told = told (received t.parts);
      left = left_in t.batch t.at t.last;
      shown = shown_in t.batch t.shown;
      others = t.others;
      stopped = stopped_by t.stopped;
    } };

    ghost invariant = { λ t. HasTaken S.comes S.room t.source.value t.peer (received t.parts) t.batch t.at t.last };
}

impl<'s, S: Source, R: Wait> Taken<'s, S, R> {
    /// The peer whose records these are.
    pub fn peer(&self) -> PeerId
        ensures { result ≡ self.now.peer }
    {
        self.peer
    }

    /// How many records of others come right before the record that is shown, or, at the end, behind the last one that
    /// was.
    pub fn others(&self) -> u64
        ensures { result ≡ self.now.others }
    {
        self.others
    }

    // Goes to the next record of the last part, or to the end if that part has it. None: the part is used up.
    fn step(&mut self) -> Option<Result<bool, SourceFault>>
        requires { self.old.stopped ≡ None }
        ensures { Steps S.comes S.room self.old self.new result }
    {
        let at = self.at;
        if at < self.batch.len() {
            self.others = self.batch.others(at);
            self.shown = Some(at);
            self.at = at + 1;
            return Some(Ok(true));
        }
        self.shown = None;
        let last = self.last?;
        self.others = last.others;
        self.last = None;
        Some(self.stop(last.end))
    }

    // Stops with this end: no record is shown.
    fn stop(&mut self, end: Option<SourceFault>) -> Result<bool, SourceFault>
        ensures stopped { self.new ≡ record self.old { shown = None; stopped = Some (answer_at_end end) } }
        ensures answer { result ≡ answer_at_end end }
    {
        self.shown = None;
        self.stopped = Some(end);
        answer_at(end)
    }

    // Takes the next part, and gives the room of the last one back. Answers whether there is one: not if the reader is
    // gone.
    fn take_part(&mut self) -> bool
        requires used_up { self.old.left ≡ [] }
        requires goes { self.old.stopped ≡ None }
        ensures { Carries S.comes S.room self.old self.new }
    {
        let Some(part) = next_part(self.rt, &mut self.parts, &self.parker) else {
            return false;
        };
        let Part { batch, last, .. } = part;
        let mut used = mem::replace(&mut self.batch, batch);
        used.clear();
        self.at = 0;
        self.last = last;
        // There is always room: the reader has no more batches than the ring has places.
        let _ = self.back.push(used).is_ok();
        self.reader.unpark();
        true
    }
}

impl<'s, S: Source, R: Wait> Source for Taken<'s, S, R> {
    ghost shows = { λ t. t.shown };

    ghost comes = { λ t. MayCome S.comes t };

    ghost stopped = { λ t. t.stopped };

    ghost failures = { λ _. 0 };

    ghost full = { λ t. t.stopped ≡ Some (Err Read) };

    ghost room = { λ t. room_left S.room t };

    ghost may_come = { λ t. something_comes S.comes t };

    fn advance(&mut self) -> Result<bool, SourceFault> {
        if let Some(end) = self.stopped {
            return self.stop(end);
        }
        for _ in self.rt.forever() {
            if let Some(answer) = self.step() {
                return answer;
            }
            if !self.take_part() {
                return self.stop(Some(SourceFault::Read));
            }
        }
        unreachable!()
    }

    fn shown(&self) -> Option<Record<'_>> {
        self.batch.record(self.shown?)
    }
}

// The answer at an end of the records.
fn answer_at(end: Option<SourceFault>) -> Result<bool, SourceFault>
    ensures { result ≡ answer_at_end end }
{
    match end {
        None => Ok(false),
        Some(fault) => Err(fault),
    }
}

// Waits for the next part. None if the reader is gone.
fn next_part<S: Source>(
    rt: &impl Wait,
    parts: &mut Consumer<Part<S>, Global, InTurn>,
    parker: &Parker,
) -> Option<Part<S>>
    ensures some { IfSome result (λ part. (received parts.new ≡ received parts.old ++ part ∷ [])
        × MayFollow S.comes S.room (received parts.old) part) }
    ensures none { IfNone result (received parts.new ≡ received parts.old) }
{
    for _ in rt.forever() {
        if let Ok(part) = parts.pop() {
            return Some(part);
        }
        if parts.is_abandoned() {
            return parts.pop().ok();
        }
        parker.park_timeout(rt, Duration::from_micros(LONGEST_WAIT));
    }
    unreachable!()
}
