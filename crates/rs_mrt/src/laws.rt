//! What holds of the definitions. Each law is the contract of a function that does nothing.

ghost use Rattle.std.specs.Prelude.{◌≡◌, ◌<◌, ℕ, List, [], Option, None, Some, length, map, if◌then◌else◌};
ghost use Rattle.rs_mrt.specs.Entry.{FrontSaysTheSame, front_len, front_of};
ghost use Rattle.rs_mrt.specs.Examples.{RecordExamples, EntryExamples, SourceExamples, WriterExamples, ReaderExamples};
ghost use Rattle.rs_mrt.specs.Reader.{ReadEnd, FileEnds};
ghost use Rattle.rs_mrt.specs.Record.{MrtRecord, SplitIsFound, SplitIsTheOnlyOne, end_of, records_of};
ghost use Rattle.rs_mrt.specs.RecordReading.{MayCome, read_limit, unread, unread_until};
ghost use Rattle.rs_mrt.specs.Places.{HasPassed};
ghost use Rattle.rs_mrt.specs.Source.{source_end};
ghost use Rattle.rs_mrt.specs.declared.fault.SourceFault.{SourceFault};
ghost use Rattle.rs_mrt.specs.Bounds.{end_within, has_later, records_until};
ghost use Rattle.rs_mrt.specs.Leniency.{ComesBy, unread_within};

use crate::bgp4mp::FRONT_LEN;
use crate::bounds::Bounds;
use crate::reader::Read;

/// A file is records and a rest in one way, and the computed records and rest are these (RFC 6396, section 2).
pub fn file_splits_in_one_way()
    ensures found { SplitIsFound }
    ensures only { SplitIsTheOnlyOne }
{}

/// The first 4,121 octets of a record's body say what the whole body says: the same fault, or the same entry
/// of the same peer. A message is then cut to its first 4,097 octets or more. So a reader needs no larger buffer.
pub fn front_of_a_record_says_the_same()
    ensures len { FRONT_LEN ≡ front_len }
    ensures same { FrontSaysTheSame }
{}

/// A reader of known octets, fewer than 2^50, gives the front of each of their records. Then it gives the end
/// or the fault of the rest. `Records` gives the same, with whole bodies.
pub fn known_octets_are_shown<R: Read>(_reader: &R, _file: &[u8])
    requires known { (octets : List ℕ) (end : ReadEnd) → R.gives _reader.now octets end
        → (octets ≡ _file.now) × (end ≡ FileEnds) }
    requires fits { length _file.now < read_limit }
    ensures { (records : List MrtRecord) (fault : Option SourceFault)
        → MayCome R.gives (unread _reader.now) records fault
        → (records ≡ map front_of (records_of _file.now)) × (fault ≡ source_end (end_of _file.now)) }
{}

/// A reader of known octets, fewer than 2^50, that is read up to a time gives the front of each record before the first
/// that is later. Then it gives the end, if some record is later: a whole one, or one that is cut short behind its
/// header. Otherwise it gives the end or the fault of the rest.
pub fn known_octets_are_shown_up_to<R: Read>(_reader: &R, _file: &[u8], _time: u32)
    requires known { (octets : List ℕ) (end : ReadEnd) → R.gives _reader.now octets end
        → (octets ≡ _file.now) × (end ≡ FileEnds) }
    requires fits { length _file.now < read_limit }
    ensures { (records : List MrtRecord) (fault : Option SourceFault)
        → MayCome R.gives (unread_until (Some _time) _reader.now) records fault
        → (records ≡ map front_of (records_until (Some _time) _file.now))
        × (fault ≡ (if has_later (Some _time) _file.now then None else source_end (end_of _file.now))) }
{}

/// A reader of known octets, fewer than 2^50, has passed no record of them at first. So each record is shown at its
/// place, by the clause `next` of `advance`: behind as many octets as the records before it take.
pub fn a_reader_begins_before_the_first_record<R: Read>(
    _reader: &R,
    _file: &[u8],
    _until: Option<u32>,
)
    requires known { (octets : List ℕ) (end : ReadEnd) → R.gives _reader.now octets end
        → (octets ≡ _file.now) × (end ≡ FileEnds) }
    requires fits { length _file.now < read_limit }
    ensures { HasPassed R.gives _file.now [] (unread_until _until _reader.now) }
{}

/// A reader of known octets, fewer than 2^50, that is read within bounds gives the front of each record before the
/// first that is later. They end with the fault of the file's own end if no record is later and the tail is strict, or
/// else with none. So `Lenient` answers over a `RecordReader` up to the time of the bounds.
pub fn what_is_within_bounds<R: Read>(_reader: &R, _file: &[u8], _bounds: Bounds)
    requires known { (octets : List ℕ) (end : ReadEnd) → R.gives _reader.now octets end
        → (octets ≡ _file.now) × (end ≡ FileEnds) }
    requires fits { length _file.now < read_limit }
    ensures records { (records : List MrtRecord) (fault : Option SourceFault)
        → ComesBy (MayCome R.gives) (unread_within _bounds _reader.now) records fault
        → records ≡ map front_of (records_until _bounds.until _file.now) }
    ensures end { (records : List MrtRecord) (fault : Option SourceFault)
        → ComesBy (MayCome R.gives) (unread_within _bounds _reader.now) records fault
        → fault ≡ source_end (end_within _bounds _file.now) }
{}

/// The definitions say of some octets, records and calls what one would say by hand.
pub fn examples_hold()
    ensures records { RecordExamples }
    ensures entries { EntryExamples }
    ensures sources { SourceExamples }
    ensures writers { WriterExamples }
    ensures readers { ReaderExamples }
{}
