//! Readers and writers over memory, with limits and without, and readers and writers of std.

ghost use Rattle.std.specs.Prelude.{◌≡◌, ◌++◌, ◌<◌, OnOk};

use rs_mrt::{
    Failed, IoReader, IoWriter, Lenient, Limits, MemoryReader, MemoryWriter, MrtFault, Read,
    ReadLimits, RecordReader, Source, SourceFault, Tail, Write, write_all,
};
use std::alloc::Global;
use std::io;
use std::sync::atomic::{AtomicUsize, Ordering};
use std::test::*;

// A reader of std whose every call fails.
#[derive(Drop)]
struct Broken;

impl io::Read for Broken {
    fn read(&mut self, _into: &mut [u8]) -> io::Result<usize> {
        Err(io::Error::from(io::ErrorKind::Interrupted))
    }
}

#[test]
fn a_reader_of_std_is_a_reader(rt: HostRuntime) {
    let mut into = [0; 2];
    let mut reader = IoReader::new([1, 2, 3].as_slice());
    let counts = [
        reader.read(&mut into),
        reader.read(&mut into),
        reader.read(&mut into),
    ];
    let octets = into;
    let failed = IoReader::new(Broken).read(&mut into);
    let left = reader.into_inner().len();
    assert_eq!(rt;
        (counts, octets, failed, left),
        ([Ok(2), Ok(1), Ok(0)], [3, 2], Err(Failed), 0)
    );
}

// A reader of std over octets at hand, whose calls are counted.
#[derive(Drop)]
struct Counted<'a> {
    left: &'a [u8],
    calls: &'a AtomicUsize,
}

impl<'a> io::Read for Counted<'a> {
    fn read(&mut self, into: &mut [u8]) -> io::Result<usize> {
        self.calls.fetch_add(1, Ordering::SeqCst);
        self.left.read(into)
    }
}

// Two records, of 15 and 12 octets.
const TWO_RECORDS: &[u8] = &[
    0, 0, 0, 1, 0, 13, 0, 1, 0, 0, 0, 3, 1, 2, 3, 0, 0, 0, 2, 0, 13, 0, 2, 0, 0, 0, 0,
];

// One more call than the one that gives all tells that the file has ended.
#[test]
fn a_file_that_the_buffer_holds_comes_in_one_call(rt: HostRuntime) {
    let calls = AtomicUsize::new(0);
    let mut records = RecordReader::new(IoReader::new(Counted {
        left: TWO_RECORDS,
        calls: &calls,
    }));
    let answers = [records.advance(), records.advance(), records.advance()];
    let count = calls.load(Ordering::SeqCst);
    assert_eq!(rt; (answers, count), ([Ok(true), Ok(true), Ok(false)], 2));
}

// Four answers of a reader of the two records. Each call gives one octet, but the one after so many calls fails.
fn answers_with_failed_call(calls: u64) -> [Result<bool, SourceFault>; 4] {
    let limits = ReadLimits {
        calls_before_failure: Some(calls),
        piece: 1,
        ..ReadLimits::none()
    };
    let mut records = RecordReader::new(MemoryReader::new(TWO_RECORDS, limits));
    [
        records.advance(),
        records.advance(),
        records.advance(),
        records.advance(),
    ]
}

// The right ones: the records that came whole before the failed call, and then the failed read for ever. The call after
// 27 others tells the end of the file, if it doesn't fail.
fn right_answers_with_failed_call(calls: u64) -> [Result<bool, SourceFault>; 4] {
    let failed = Err(SourceFault::Read);
    match calls {
        0..=14 => [failed, failed, failed, failed],
        15..=26 => [Ok(true), failed, failed, failed],
        27 => [Ok(true), Ok(true), failed, failed],
        _ => [Ok(true), Ok(true), Ok(false), Ok(false)],
    }
}

// The first number of calls with other answers.
fn first_wrong_call() -> Option<u64> {
    (0..30).find(|calls| answers_with_failed_call(*calls) != right_answers_with_failed_call(*calls))
}

#[test]
fn whichever_call_fails_the_records_before_it_come(rt: HostRuntime) {
    assert_eq!(rt; first_wrong_call(), None);
}

// Three answers of the records of these octets, of which as many are given as the limits say.
fn answers_by(tail: Tail, octets: &[u8], limits: ReadLimits) -> [Result<bool, SourceFault>; 3] {
    let records = RecordReader::new(MemoryReader::new(octets, limits));
    let mut records = Lenient::new(records, tail);
    [records.advance(), records.advance(), records.advance()]
}

// The file ends in the header of the second record, or in the body of the first one.
#[test]
fn a_record_that_is_cut_short_is_left_out_if_the_tail_is_lenient(rt: HostRuntime) {
    let in_header = &TWO_RECORDS[..26];
    let in_body = &TWO_RECORDS[..14];
    let limits = ReadLimits::none();
    let header = Err(SourceFault::Mrt(MrtFault::HeaderCutShort));
    let body = Err(SourceFault::Mrt(MrtFault::BodyCutShort));
    let answers = [
        answers_by(Tail::Strict, in_header, limits),
        answers_by(Tail::Lenient, in_header, limits),
        answers_by(Tail::Strict, in_body, limits),
        answers_by(Tail::Lenient, in_body, limits),
    ];
    assert_eq!(rt;
        answers,
        [
            [Ok(true), header, header],
            [Ok(true), Ok(false), Ok(false)],
            [body, body, body],
            [Ok(false), Ok(false), Ok(false)],
        ]
    );
}

#[test]
fn a_failed_read_is_answered_if_the_tail_is_lenient(rt: HostRuntime) {
    let limits = ReadLimits {
        octets_before_failure: Some(20),
        ..ReadLimits::none()
    };
    let failed = Err(SourceFault::Read);
    let answers = answers_by(Tail::Lenient, TWO_RECORDS, limits);
    assert_eq!(rt; answers, [Ok(true), failed, failed]);
}

// A record at 1 second, and the header of one at 3 seconds, with the largest Length.
const LATER_HEADER: &[u8] = &[
    0, 0, 0, 1, 0, 13, 0, 1, 0, 0, 0, 3, 1, 2, 3, 0, 0, 0, 3, 0, 13, 0, 2, 255, 255, 255, 255,
];

// Three answers up to a time, of a reader that fails behind that header. A call gives so many octets at most.
fn answers_up_to(until: Option<u32>, piece: usize) -> [Result<bool, SourceFault>; 3] {
    let limits = ReadLimits {
        octets_before_failure: Some(LATER_HEADER.len()),
        piece,
        ..ReadLimits::none()
    };
    let mut records = RecordReader::up_to(MemoryReader::new(LATER_HEADER, limits), until);
    [records.advance(), records.advance(), records.advance()]
}

#[test]
fn the_records_end_before_a_later_one_whose_body_cannot_be_read(rt: HostRuntime) {
    let failed = Err(SourceFault::Read);
    let answers = [
        answers_up_to(Some(0), 1),
        answers_up_to(Some(2), 1),
        answers_up_to(Some(2), 100),
        answers_up_to(Some(3), 1),
        answers_up_to(None, 100),
    ];
    assert_eq!(rt;
        answers,
        [
            [Ok(false), Ok(false), Ok(false)],
            [Ok(true), Ok(false), Ok(false)],
            [Ok(true), Ok(false), Ok(false)],
            [Ok(true), failed, failed],
            [Ok(true), failed, failed],
        ]
    );
}

// A second call of the reader would ask for the body.
#[test]
fn the_body_of_a_later_record_is_not_asked_for(rt: HostRuntime) {
    let calls = AtomicUsize::new(0);
    let reader = IoReader::new(Counted {
        left: LATER_HEADER,
        calls: &calls,
    });
    let mut records = RecordReader::up_to(reader, Some(2));
    let answers = [records.advance(), records.advance(), records.advance()];
    let count = calls.load(Ordering::SeqCst);
    assert_eq!(rt; (answers, count), ([Ok(true), Ok(false), Ok(false)], 1));
}

const PIECE: [u8; 40] = [7; 40];

// Writes the piece, and answers whether all of it was taken and how many octets were.
fn write_piece(alloc: Global, limits: Limits) -> (bool, usize) {
    let mut out = MemoryWriter::new(alloc, limits);
    let written = write_all(&mut out, &PIECE);
    (written.is_ok(), out.octets().len())
}

// Of a writer: the calls before one fails, the room, how many octets a call takes at most; whether all of 40 octets is
// taken, and how many are.
const WRITERS: &[(Option<u64>, usize, usize, bool, usize)] = &[
    (None, 1000, 1000, true, 40),
    (None, 40, 40, true, 40),
    (None, 1000, 1, true, 40),
    (None, 39, 1000, false, 39),
    (None, 30, 1000, false, 30),
    (None, 1000, 0, false, 0),
    (Some(0), 1000, 1000, false, 0),
    (Some(1), 1000, 1000, true, 40),
    (Some(2), 1000, 7, false, 14),
];

// The first of these writers of which something else is taken.
fn first_other(alloc: Global) -> Option<(Option<u64>, usize, usize)> {
    for (calls_before_failure, room, piece, all, len) in WRITERS {
        let (calls_before_failure, room, piece) = (*calls_before_failure, *room, *piece);
        let limits = Limits {
            calls_before_failure,
            room,
            piece,
        };
        if write_piece(alloc, limits) != (*all, *len) {
            return Some((calls_before_failure, room, piece));
        }
    }
    None
}

#[test]
fn all_of_a_piece_is_written_or_a_beginning(rt: HostRuntime) {
    let without_limits = write_piece(rt.alloc(), Limits::none());
    assert_eq!(rt;
        (first_other(rt.alloc()), without_limits),
        (None, (true, 40))
    );
}

#[test]
fn a_writer_that_failed_works_again(rt: HostRuntime) {
    let once = Limits {
        calls_before_failure: Some(0),
        ..Limits::none()
    };
    let mut out = MemoryWriter::new(rt.alloc(), once);
    let answers = [out.write(&[1, 2]), out.write(&[3, 4]), out.write(&[])];
    let octets = out.into_octets();
    assert_eq!(rt;
        (answers, octets.as_slice()),
        ([Err(Failed), Ok(2), Ok(0)], [3, 4].as_slice())
    );
}

// Writes the piece to a writer of std that tells what it has taken.
fn write_to_memory(out: &mut IoWriter<Vec<u8>>, piece: &[u8]) -> Result<(), Failed>
    requires { out.old.failures < u64.MAX }
    ensures { OnOk result (out.new.inner.items ≡ out.old.inner.items ++ piece.now) }
{
    write_all(out, piece)
}

#[test]
fn a_writer_of_std_over_memory_tells_what_it_has_taken(rt: HostRuntime) -> Result<(), Fail> {
    let mut out = IoWriter::new(Vec::new(rt.alloc()));
    write_to_memory(&mut out, &[1, 2, 3])?;
    assert_eq!(rt; out.into_inner().as_slice(), [1, 2, 3].as_slice());
    Ok(())
}

#[test]
fn a_writer_of_std_is_a_writer(rt: HostRuntime) {
    let mut space = [0; 42];
    let mut out = IoWriter::new(space.as_mut_slice());
    let answers = [write_all(&mut out, &PIECE), write_all(&mut out, &PIECE)];
    let left = out.into_inner().len();
    assert_eq!(rt;
        (answers, left, space.last().copied()),
        ([Ok(()), Err(Failed)], 0, Some(7))
    );
}
