//! What goes from the reader of a shared recording to one peer.

ghost use Rattle.std.specs.Prelude.{◌≡◌, ℕ, [], true, false, ◌<◌, length, if◌then◌else◌, ◌∷◌, ◌++◌, List, None};
ghost use Rattle.rtrb.specs.Ring.{sent};
ghost use Rattle.rs_mrt.specs.Record.{MrtRecord, record_of};
ghost use Rattle.rs_share.specs.Lines.{HasSent, IsAt, IsEnded, MayGo, IsSameLine, Tells, TellsOn, part_of};
ghost use Rattle.rs_share.specs.Own.{is_for};
ghost use Rattle.rs_share.specs.Telling.{MayFollow};

use crate::batch::Batch;
use crate::part::{Free, InTurn, Last, Part};
use rs_mrt::{Record, Source, SourceFault};
use rs_types::PeerId;
use rtrb::{Consumer, Producer, PushError};
use std::alloc::Global;
use std::mem;
use std::snapshot::Snapshot;
use std::sync::{Arc, Wait};
use std::thread::{self, Parker};
use std::time::Duration;

// How long the reader waits at most, in microseconds, before it looks again whether a peer is still there.
const LONGEST_WAIT: u64 = 2_000;

/// The reader's side of what goes to one peer.
#[derive(Drop)]
pub(crate) struct Line<S: Source> {
    // The source as it was before it was read, and whose records go here.
    pub(crate) source: Snapshot<S>,
    pub(crate) id: PeerId,
    pub(crate) parts: Producer<Part<S>, Global, InTurn>,
    // Batches that were given back.
    pub(crate) back: Consumer<Batch, Global, Free>,
    // Wakes the peer.
    pub(crate) peer: Arc<Parker>,
    // The records that wait to be sent.
    pub(crate) batch: Batch,
    // How many records of the recording came up to the last one of these, that one included.
    pub(crate) seen: u64,
    // Whether more can be sent: not if the peer is gone, nor behind the end.
    pub(crate) open: bool,
}

impl<S: Source> Line<S> {
    /// Whether more can be sent.
    pub(crate) fn is_open(&self) -> bool {
        self.open
    }

    /// Adds the record that stands behind so many of the recording. If memory is refused for a record that is larger
    /// than a batch, the peer hears that a read failed.
    pub(crate) fn put(
        &mut self,
        rt: &impl Wait,
        alloc: Global,
        reader: &Parker,
        before: u64,
        record: &Record<'_>,
    )
        requires at { self.old.open ≡ true → IsAt S.comes S.room self.old before }
        requires own { is_for self.old.id (record_of «record».now) ≡ true }
        requires fits { before < u64.MAX }
        ensures tells { (given : List MrtRecord) → length given ≡ before → TellsOn self.old given
            → TellsOn self.new (given ++ record_of «record».now ∷ []) }
        ensures same { (self.new.source.value ≡ self.old.source.value) × (self.new.id ≡ self.old.id) }
        ensures open { self.new.open ≡ true → self.old.open ≡ true }
    {
        self.make_room(rt, alloc, reader, record.body.len());
        if !self.open {
            return;
        }
        let others = before.saturating_sub(self.seen);
        if self.batch.push(others, record).is_ok() {
            self.seen = before + 1;
        } else {
            self.give_up(rt, alloc);
        }
    }

    /// Puts a record that ends every session, and sends what waits: nothing more is read.
    pub(crate) fn put_last(
        &mut self,
        rt: &impl Wait,
        alloc: Global,
        reader: &Parker,
        before: u64,
        record: &Record<'_>,
    )
        requires at { self.old.open ≡ true → MayGo S.comes S.room self.old before (record_of «record».now) }
        requires own { is_for self.old.id (record_of «record».now) ≡ true }
        requires fits { before < u64.MAX }
    {
        self.put(rt, alloc, reader, before, record);
        self.flush(rt, alloc);
    }

    // Makes room for a record whose body has so many octets: if the batch has none, another one takes its place.
    fn make_room(&mut self, rt: &impl Wait, alloc: Global, reader: &Parker, octets: usize)
        requires { self.old.open ≡ true → (count : ℕ) × IsAt S.comes S.room self.old count }
        ensures tells { (given : List MrtRecord) → TellsOn self.old given → TellsOn self.new given }
        ensures same { IsSameLine self.old self.new }
        ensures open { self.new.open ≡ true → self.old.open ≡ true }
    {
        if !self.open || self.batch.has_room(octets) {
            return;
        }
        self.flush(rt, alloc);
        self.fetch(rt, reader);
    }

    // Tells the peer that a read failed: memory was refused for its next record.
    fn give_up(&mut self, rt: &impl Wait, alloc: Global)
        requires { self.old.open ≡ true → (count : ℕ) × IsAt S.comes S.room self.old count }
        ensures open { self.new.open ≡ false }
        ensures same { IsSameLine self.old self.new }
    {
        if !self.open {
            return;
        }
        let end = Some(SourceFault::Read);
        self.send(rt, alloc, Some(Last { others: 0, end }));
        self.open = false;
    }

    /// Sends the records that wait, if there are any.
    pub(crate) fn flush(&mut self, rt: &impl Wait, alloc: Global)
        requires { self.old.open ≡ true → (count : ℕ) × IsAt S.comes S.room self.old count }
        ensures tells { (given : List MrtRecord) → TellsOn self.old given → TellsOn self.new given }
        ensures same { IsSameLine self.old self.new }
        ensures batch { self.old.open ≡ true → self.new.batch ≡ [] }
        ensures open { self.new.open ≡ true → self.old.open ≡ true }
    {
        if self.open && self.batch.len() > 0 {
            self.send(rt, alloc, None);
        }
    }

    /// Tells the peer how the records end, behind so many of them.
    pub(crate) fn finish(
        &mut self,
        rt: &impl Wait,
        alloc: Global,
        count: u64,
        end: Option<SourceFault>,
    )
        requires { self.old.open ≡ true → IsEnded S.comes S.room self.old count end }
    {
        if self.open {
            let others = count.saturating_sub(self.seen);
            self.send(rt, alloc, Some(Last { others, end }));
            self.open = false;
        }
    }

    // Sends the records that wait, and perhaps the end.
    fn send(&mut self, rt: &impl Wait, alloc: Global, last: Option<Last>)
        requires { MayFollow S.comes S.room (sent self.old.parts) (part_of self.old last) }
        ensures sent { HasSent self.old self.new (part_of self.old last) }
        ensures batch { self.new.batch ≡ [] }
    {
        let batch = mem::replace(&mut self.batch, Batch::none(alloc));
        let part = Part {
            begin: None,
            batch,
            last,
        };
        if !send_part(rt, &mut self.parts, part) {
            self.open = false;
        }
        self.peer.unpark();
    }

    // Waits for a batch that is given back. If the peer is gone, no more is sent.
    fn fetch(&mut self, rt: &impl Wait, reader: &Parker)
        requires { self.old.batch ≡ [] }
        ensures same { IsSameLine self.old self.new }
        ensures sent { sent self.new.parts ≡ sent self.old.parts }
        ensures batch { self.new.batch ≡ [] }
        ensures open { self.new.open ≡ true → self.old.open ≡ true }
    {
        match next_batch(rt, &mut self.back, reader) {
            Some(batch) => {
                self.batch = batch;
                self.batch.clear();
            }
            None => self.open = false,
        }
    }
}

// Sends a part, once there is room for it. Answers whether it was sent: not if the peer is gone. There mostly is room,
// since no more batches are made than the ring has places.
fn send_part<S: Source>(
    rt: &impl Wait,
    parts: &mut Producer<Part<S>, Global, InTurn>,
    part: Part<S>,
) -> bool
    requires { MayFollow S.comes S.room (sent parts.old) part }
    ensures { sent parts.new ≡ (if result then sent parts.old ++ part ∷ [] else sent parts.old) }
{
    let mut part = part;
    for _ in rt.forever() {
        match parts.push(part) {
            Ok(()) => return true,
            Err(PushError::Full(refused)) => part = refused,
        }
        if parts.is_abandoned() {
            return false;
        }
        thread::yield_now();
    }
    unreachable!()
}

// Waits for a batch that is given back. None if the peer is gone.
fn next_batch(
    rt: &impl Wait,
    back: &mut Consumer<Batch, Global, Free>,
    reader: &Parker,
) -> Option<Batch> {
    for _ in rt.forever() {
        if let Ok(batch) = back.pop() {
            return Some(batch);
        }
        if back.is_abandoned() {
            return None;
        }
        reader.park_timeout(rt, Duration::from_micros(LONGEST_WAIT));
    }
    unreachable!()
}
