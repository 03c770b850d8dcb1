//! The records of a file, of which an outline is made while they are shown (RFC 6396, section 2).
//!
//! Our choices: the outline is made only if somebody wants it. If memory is refused or a read fails, nothing is known
//! of the file. The contracts say what the outline has taken of the records, and what is given at their end. They say
//! nothing of the slot, since its outline lies behind a lock.

ghost use Rattle.std.specs.Prelude.{◌≡◌, ◌+◌, ◌^◌, ◌<◌, ◌≤◌, IfSome, None, is_some};
ghost use Rattle.rs_mrt.specs.Cut.{cut_of};
ghost use Rattle.rs_mrt.specs.Record.{octets_of};
ghost use Rattle.rs_mrt.specs.RecordReading.{MayCome, read_limit, room_left, something_comes};
ghost use Rattle.rs_mrt.specs.Source.{Advances, CountsFailure, Stays, Stops};
ghost use Rattle.rs_inventory.specs.FileOutline.{OutlinesNothing};
ghost use Rattle.rs_inventory.specs.OutlinedRecords.{Gathers, TakesShown, whole_by};

use crate::file_outline::Outline;
use crate::outline_slot::OutlineSlot;
use rs_mrt::{Read, Record, RecordReader, Source, SourceFault};
use rs_types::PeerId;
use std::alloc::Global;
use std::marker::Model;

/// The records of a file, of which an outline is made while they are shown. It shows just the records of its source.
#[derive(Drop)]
pub struct Outlined<'a, R: Read> {
    source: RecordReader<R>,
    alloc: Global,
    server: PeerId,
    // What the records so far hold; none if nobody wants it, if memory was refused, or once the records ended.
    outline: Option<Outline>,
    slot: Option<&'a OutlineSlot>,
}

impl<'a, R: Read> Model for Outlined<'a, R> {
    ghost use Rattle.rs_inventory.specs.OutlinedRecords.{Outlining};

    ghost Value = { Outlining R };

    ghost view = { λ o. record { source = o.source; server = o.server; gathered = o.outline } };
}

impl<'a, R: Read> Outlined<'a, R> {
    /// Begins with the next record of the source. The server is named as records name it. The outline is put into the
    /// slot once the records ended. Without a slot no outline is made, and calls are just passed on.
    pub fn new(
        alloc: Global,
        source: RecordReader<R>,
        server: PeerId,
        slot: Option<&'a OutlineSlot>,
    ) -> Outlined<'a, R>
        ensures source { result.source ≡ source }
        ensures server { result.server ≡ server }
        ensures begins { IfSome result.gathered OutlinesNothing }
        ensures wanted { is_some result.gathered ≡ is_some slot.entry }
    {
        let outline = match slot {
            Some(_) => Some(Outline::none(alloc)),
            None => None,
        };
        Outlined {
            source,
            alloc,
            server,
            outline,
            slot,
        }
    }

    /// The source whose records these are.
    pub fn source(&self) -> &RecordReader<R>
        ensures { result.now ≡ self.now.source }
    {
        &self.source
    }

    // Takes the record that is shown, if an outline is made; else it isn't looked at. If memory is refused, nothing is
    // known from then on.
    fn take_shown(&mut self)
        ensures takes { TakesShown self.old.server self.old.gathered self.old.source.shown self.new.gathered }
        ensures same { self.new ≡ record self.old { gathered = self.new.gathered } }
    {
        let Some(outline) = &mut self.outline else {
            return;
        };
        let Some(record) = self.source.shown() else {
            self.outline = None;
            return;
        };
        if outline.take(self.alloc, &record, self.server).is_err() {
            self.outline = None;
        }
    }

    // Gives what is known of the file, if the source answered so: its outline, if one was made. Nothing is known from
    // then on.
    fn take_whole(&mut self, answer: Result<bool, SourceFault>) -> Option<Outline>
        ensures whole { result ≡ whole_by answer (cut_of self.old.source) self.old.gathered }
        ensures left { self.new ≡ record self.old { gathered = None } }
    {
        let mut outline = self.outline.take()?;
        let end = match answer {
            Ok(_) => None,
            Err(SourceFault::Mrt(fault)) => Some(fault),
            Err(SourceFault::Read) => return None,
        };
        outline.take_end(end, self.source.cut());
        Some(outline)
    }

    // Puts what is known of the file into the slot, if the source answered so.
    fn put_whole(&mut self, answer: Result<bool, SourceFault>)
        ensures { self.new ≡ record self.old { gathered = None } }
    {
        let Some(outline) = self.take_whole(answer) else {
            return;
        };
        if let Some(slot) = self.slot {
            slot.put(outline);
        }
    }
}

impl<'a, R: Read> Source for Outlined<'a, R> {
    ghost shows = { λ o. o.source.shown };

    ghost comes = { λ o. MayCome R.gives o.source };

    ghost stopped = { λ o. o.source.stopped };

    ghost failures = { λ o. R.failures o.source.inflow.reader };

    ghost full = { λ o. o.source.inflow.came ≡ read_limit };

    ghost room = { λ o. room_left o.source };

    ghost may_come = { λ o. something_comes R.gives o.source (R.may_come o.source.inflow.reader) };

    // A record that is shown is taken into the outline. The slot gets what `take_whole` gives.
    fn advance(&mut self) -> Result<bool, SourceFault>
        ensures records { Advances (MayCome R.gives) self.old.source self.new.source self.new.source.shown result }
        ensures bound { room_left self.old.source < 2 ^ 64 }
        ensures room { room_left self.new.source + octets_of self.new.source.shown ≤ room_left self.old.source }
        ensures failures { CountsFailure (R.failures self.old.source.inflow.reader)
            (R.failures self.new.source.inflow.reader) (self.new.source.inflow.came ≡ read_limit)
            self.old.source.stopped result }
        ensures stays { Stays self.old.source.stopped (R.failures self.old.source.inflow.reader)
            (R.failures self.new.source.inflow.reader) result }
        ensures stops { Stops self.new.source.stopped result }
        ensures gathers { Gathers self.old self.new result }
        ensures server { self.new.server ≡ self.old.server }
    {
        let answer = self.source.advance();
        match answer {
            Ok(true) => self.take_shown(),
            _ => self.put_whole(answer),
        }
        answer
    }

    fn shown(&self) -> Option<Record<'_>> {
        self.source.shown()
    }
}
