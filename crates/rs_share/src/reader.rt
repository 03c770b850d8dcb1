//! The reader of a recording that several peers share: it walks once over all records, and hands each peer its own ones.

ghost use Rattle.std.specs.Prelude.{◌≡◌, ◌≢◌, ◌<◌, ◌+◌, ℕ, true, false, Some, length, slice_get, ◌==◌, IsTrue};
ghost use Rattle.rs_mrt.specs.Record.{MrtRecord, record_of};
ghost use Rattle.rs_share.specs.Own.{is_for};
ghost use Rattle.rs_share.specs.Reading.{AreAt, AreAtMore, AreEnded, AreSameLines, IsReading, TellMore, ids_of};
ghost use Rattle.rs_share.specs.declared.line.Line.{Line};

use crate::directory::{Directory, Whom};
use crate::line::Line;
use rs_mrt::{Record, Source, SourceFault};
use std::alloc::Global;
use std::sync::{Arc, Wait};
use std::thread::Parker;

/// Reads a source for several peers.
#[derive(Drop)]
pub struct Reader<S: Source> {
    pub(crate) alloc: Global,
    pub(crate) source: S,
    pub(crate) directory: Directory,
    // What goes to each peer, in the order of the directory.
    pub(crate) lines: Vec<Line<S>>,
    // Where the reader waits for batches that are given back.
    pub(crate) parker: Arc<Parker>,
    // How many records were read.
    pub(crate) count: u64,
}

impl<S: Source + Drop> Reader<S> {
    /// Reads all records, and hands each peer its own ones, and those that end every session. It waits for a peer whose
    /// batches are all full, and goes on if that peer is gone. Behind a record that ends every session nothing is read.
    pub fn read_all(self, rt: &impl Wait)
        requires { IsReading S.comes S.room self }
    {
        let mut reader = self;
        for _ in rt.forever() {
            if !reader.turn(rt) {
                return;
            }
        }
    }

    // Reads one record, or finds that there is none. Answers whether to go on.
    fn turn(&mut self, rt: &impl Wait) -> bool
        requires { IsReading S.comes S.room self.old }
        ensures { IsTrue result → IsReading S.comes S.room self.new }
    {
        match self.source.advance() {
            Ok(true) => self.hand(rt),
            Ok(false) => {
                finish_all(rt, self.alloc, &mut self.lines, self.count, None);
                false
            }
            Err(fault) => {
                finish_all(rt, self.alloc, &mut self.lines, self.count, Some(fault));
                false
            }
        }
    }

    // Hands the record that is shown to whom it concerns. Answers whether to go on: not behind a record that ends every
    // session, and not if no peer is left.
    fn hand(&mut self, rt: &impl Wait) -> bool
        requires at { (r : MrtRecord) → S.shows self.old.source ≡ Some r
            → AreAtMore S.comes S.room self.old.lines.items self.old.count r }
        requires ids { ids_of self.old.lines.items ≡ self.old.directory }
        requires fits { self.old.count < u64.MAX }
        ensures tells { IsTrue result → (r : MrtRecord) → S.shows self.old.source ≡ Some r
            → TellMore self.old.lines.items self.new.lines.items self.old.count r }
        ensures lines { IsTrue result → AreSameLines self.old.lines.items self.new.lines.items }
        ensures same { (self.new.source ≡ self.old.source) × (self.new.directory ≡ self.old.directory)
            × (IsTrue result → self.new.count ≡ self.old.count + 1) }
    {
        let Some(record) = self.source.shown() else {
            return false;
        };
        let before = self.count;
        self.count = before + 1;
        match self.directory.whom(&record) {
            Whom::Nobody => true,
            Whom::One(place) => {
                put_at(
                    rt,
                    self.alloc,
                    &self.parker,
                    &mut self.lines,
                    place,
                    before,
                    &record,
                );
                has_open(&self.lines)
            }
            Whom::All => {
                put_all(
                    rt,
                    self.alloc,
                    &self.parker,
                    &mut self.lines,
                    before,
                    &record,
                );
                false
            }
        }
    }
}

// Whether a peer is left.
fn has_open<S: Source>(lines: &[Line<S>]) -> bool {
    lines.iter().any(|line| line.is_open())
}

// Puts a record to the peer at a place: it is for this one alone.
fn put_at<S: Source>(
    rt: &impl Wait,
    alloc: Global,
    reader: &Parker,
    lines: &mut Vec<Line<S>>,
    place: usize,
    before: u64,
    record: &Record<'_>,
)
    requires at { AreAt S.comes S.room lines.old.items before }
    requires place { place < length lines.old.items }
    requires fits { before < u64.MAX }
    requires own { (k : ℕ) → (line : Line S) → slice_get lines.old.items k ≡ Some line
        → is_for line.id (record_of «record».now) ≡ (place == k) }
    ensures tells { TellMore lines.old.items lines.new.items before (record_of «record».now) }
    ensures same { AreSameLines lines.old.items lines.new.items }
{
    lines[place].put(rt, alloc, reader, before, record);
}

// Puts a record to all peers, and sends what waits.
fn put_all<S: Source>(
    rt: &impl Wait,
    alloc: Global,
    reader: &Parker,
    lines: &mut Vec<Line<S>>,
    before: u64,
    record: &Record<'_>,
)
    requires at { AreAtMore S.comes S.room lines.old.items before (record_of «record».now) }
    requires fits { before < u64.MAX }
    requires own { (k : ℕ) → (line : Line S) → slice_get lines.old.items k ≡ Some line
        → is_for line.id (record_of «record».now) ≡ true }
{
    for place in 0..lines.len() {
        lines[place].put_last(rt, alloc, reader, before, record);
    }
}

// Tells each peer how the records end.
fn finish_all<S: Source>(
    rt: &impl Wait,
    alloc: Global,
    lines: &mut Vec<Line<S>>,
    count: u64,
    end: Option<SourceFault>,
)
    requires { AreEnded S.comes S.room lines.old.items count end }
{
    for place in 0..lines.len() {
        lines[place].finish(rt, alloc, count, end);
    }
}
