//! Workers on threads: what they send of a file.

ghost use Rattle.std.specs.Prelude.{◌≡◌, ◌≤◌, ◌<◌, ◌^◌, [], IfSome};

use super::changes::{add_change, ring_of};
use super::exchanges::announcer;
use rs_mrt::{MemoryReader, ReadLimits, RecordReader, Records, Source};
use rs_ring::{Numbered, Receiver};
use rs_session::{PeerId, Reason, Word};
use rs_update::Errors;
use rs_worker::{Open, Patience, WorkerEnd, worker, worker_by, worker_over};
use std::alloc::Global;
use std::process::Abort;
use std::sync::Wait;
use std::test::*;
use std::thread;
use std::thread::Threads;

// AS 64501 at 192.0.2.11.
const PEER: PeerId = PeerId {
    address: 0xC000_020B,
    asn: 64501,
};

// Receives up to the close, and says each change. A change for which memory is refused is missing.
fn receive_all(rt: &impl Wait, alloc: Global, from: Receiver<Word>) -> (String, Receiver<Word>)
    ensures { result.1.ring ≡ from.ring }
{
    let mut from = from;
    let mut said = String::new(alloc);
    let mut patience = Patience::new();
    for _ in rt.forever() {
        if from.closed() {
            return (said, from);
        }
        let Some(Numbered { item, .. }) = from.try_receive() else {
            patience.wait(rt);
            continue;
        };
        patience.reset();
        let _ = add_change(&mut said, &item);
    }
    unreachable!()
}

// Appends what a worker told of what it sent, and how many changes wait, once the token shows all.
fn told(said: String, end: WorkerEnd, from: Receiver<Word>) -> Option<String>
    requires { IfSome end.finished (λ token. token.ring ≡ from.ring) }
{
    let WorkerEnd {
        finished,
        passed,
        changes,
        reason,
    } = end;
    let mut from = from;
    let mut said = said;
    let mut token = finished?;
    let waiting = from.after(&mut token);
    write!(
        said,
        "{changes} sent, {passed} passed over, {reason:?}, {waiting} wait"
    )
    .ok()?;
    Some(said)
}

// What a worker of the peer sends through a ring of this capacity, which is received on another thread. The worker
// handles faults by RFC 4271, by name or by default.
fn sent<R: Threads + Wait + Sync, S: Source + Send + Drop>(
    rt: &R,
    alloc: Global,
    capacity: usize,
    source: S,
    is_told: bool,
) -> Option<String>
    requires { S.room source ≤ 2 ^ 50 }
{
    let (out, from) = ring_of::<Word>(alloc, capacity)?;
    let (end, (said, from)) = thread::join(
        rt,
        move || -> WorkerEnd
            requires { (out.sent ≡ []) × (S.room source ≤ 2 ^ 50) }
            ensures { IfSome result.finished (λ token. token.ring ≡ out.ring) }
        {
            if is_told {
                worker_by(rt, alloc, 0, source, PEER, Errors::Rfc4271, out, &Open)
            } else {
                worker_over(rt, alloc, 0, source, PEER, out, &Open)
            }
        },
        move || -> (String, Receiver<Word>)
            ensures { result.1.ring ≡ from.ring }
        { receive_all(rt, alloc, from) },
    );
    told(said, end, from)
}

// What a worker is to send of a file of so many announcements.
fn announcements(alloc: Global, count: u32) -> Option<String> {
    let mut said = String::new(alloc);
    for time in 0..count {
        let first = time % 2 + 10;
        write!(said, "{time} +{first}.0.{time}.0/24; ").ok()?;
    }
    let sent = count.wrapping_add(1);
    write!(
        said,
        "0 EndOfFile; {sent} sent, 0 passed over, EndOfFile, 0 wait"
    )
    .ok()?;
    Some(said)
}

#[test]
fn a_worker_sends_what_its_file_says(rt: HostRuntime) {
    let alloc = rt.alloc();
    let peer = announcer(alloc, 0, 200).expect(&rt, "a file");
    let wanted = announcements(alloc, 200).expect(&rt, "a text");
    assert!(rt; peer.file.len() < 1 << 50);
    for capacity in [1, 3, 64, 1000] {
        let found = sent(&rt, alloc, capacity, Records::new(&peer.file), true).expect(
            &rt, "a text",
        );
        assert_eq!(rt; found.as_str(), wanted.as_str(), "through {capacity}");
    }
}

// Of a file of 86 octets with one announcement: how many octets come at a time, after how many a read fails, and what
// is sent.
const FAILURES: &[(usize, Option<usize>, &str)] = &[
    (
        1,
        None,
        "0 +10.0.0.0/24; 0 EndOfFile; 2 sent, 0 passed over, EndOfFile, 0 wait",
    ),
    (
        1000,
        None,
        "0 +10.0.0.0/24; 0 EndOfFile; 2 sent, 0 passed over, EndOfFile, 0 wait",
    ),
    (
        1,
        Some(86),
        "0 +10.0.0.0/24; 0 Read; 2 sent, 0 passed over, Read, 0 wait",
    ),
    (
        1000,
        Some(86),
        "0 +10.0.0.0/24; 0 Read; 2 sent, 0 passed over, Read, 0 wait",
    ),
    (1, Some(85), "0 Read; 1 sent, 0 passed over, Read, 0 wait"),
    (1000, Some(0), "0 Read; 1 sent, 0 passed over, Read, 0 wait"),
];

#[test]
fn a_worker_sends_what_came_before_a_failed_read(rt: HostRuntime) {
    let peer = announcer(rt.alloc(), 0, 1).expect(&rt, "a file");
    assert_eq!(rt; peer.file.len(), 86);
    for (piece, octets_before_failure, wanted) in FAILURES {
        let limits = ReadLimits {
            octets_before_failure: *octets_before_failure,
            piece: *piece,
            ..ReadLimits::none()
        };
        let source = RecordReader::new(MemoryReader::new(&peer.file, limits));
        let found = sent(&rt, rt.alloc(), 1, source, false).expect(&rt, "a text");
        assert_eq!(rt;
            found.as_str(),
            *wanted,
            "{piece} {octets_before_failure:?}"
        );
    }
}

// An UPDATE at time 100 that announces 10.0.0.0/24 and 10.0.1.0/24.
const RECORDED: &[u8] = b"\x00\x00\x00\x64\x00\x10\x00\x04\x00\x00\x00\x47\
    \x00\x00\xFB\xF5\x00\x00\xFB\xF4\x00\x00\x00\x01\xC0\x00\x02\x0B\xC0\x00\x02\x01\
    \xFF\xFF\xFF\xFF\xFF\xFF\xFF\xFF\xFF\xFF\xFF\xFF\xFF\xFF\xFF\xFF\x00\x33\x02\
    \x00\x00\x00\x14\
    \x40\x01\x01\x00\x40\x02\x06\x02\x01\x00\x00\xFB\xF5\x40\x03\x04\xC0\x00\x02\x0B\
    \x18\x0A\x00\x00\x18\x0A\x00\x01";

// What it says, and a close for want of memory.
const SAID: [&str; 4] = [
    "100 +10.0.0.0/24; ",
    "100 +10.0.1.0/24; ",
    "0 EndOfFile; ",
    "0 Memory; ",
];

// The line of the change of a number: that of the file, or the close by which the ring is closed.
fn line_at(number: usize, is_close: bool, reason: Reason) -> Option<&'static str> {
    let place = match (is_close, reason) {
        (true, Reason::Memory) => 3,
        (true, _) => 2,
        (false, _) => number,
    };
    SAID.get(place).copied()
}

// The line of a change, if there is memory for it.
fn line_of(alloc: Global, change: &Word) -> Option<String> {
    let mut line = String::new(alloc);
    add_change(&mut line, change).ok()?;
    Some(line)
}

// Receives and checks all changes of a worker that ended so. Answers how many there were.
fn check_all(rt: &impl Abort, alloc: Global, from: Receiver<Word>, reason: Reason) -> usize {
    let mut from = from;
    let mut given: usize = 0;
    for _ in 0..8 {
        let Some(Numbered { item, .. }) = from.try_receive() else {
            break;
        };
        if let Some(line) = line_of(alloc, &item) {
            assert_eq!(rt; Some(line.as_str()), line_at(given, from.closed(), reason));
        }
        given = given.wrapping_add(1);
    }
    assert!(rt; from.closed());
    given
}

// It holds whichever allocation is refused: then no ring is made, or the worker sends a beginning of what its file
// says, and a close that says so; or a line isn't compared. `tools/refuse_in_tests` refuses each in turn.
#[test]
fn refused_memory_ends_the_changes_of_a_worker(rt: HostRuntime) {
    let Some((out, from)) = ring_of::<Word>(rt.alloc(), 8) else {
        return;
    };
    let end = worker(&rt, rt.alloc(), 0, RECORDED, PEER, out, &Open);
    let given = check_all(&rt, rt.alloc(), from, end.reason);
    assert_eq!(rt; usize::try_from(end.changes).ok(), Some(given));
    match end.reason {
        Reason::Memory => assert!(rt; given <= 3),
        reason => assert_eq!(rt; (reason, given), (Reason::EndOfFile, 3)),
    }
}
