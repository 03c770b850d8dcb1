//! Sessions that are refused memory.

use super::changes::add_change;
use super::exchanges::address_of;
use super::rows::digits;
use rs_mrt::Source;
use rs_session::{PeerId, Session, Word};
use spelled_in_hex::octets;
use std::alloc::{AllocError, Global};
use std::process::Abort;
use std::test::*;

// What is recorded, by its name, the place of its peer, what it says, and how many records are passed over.
const SAID: &[(&str, u32, &str, u64)] = &[
    ("nothing", 1, "0 EndOfFile; ", 0),
    ("restricted", 0, "100 +203.0.113.0/24; |0 EndOfFile; ", 0),
    ("longer", 2, "100 +203.0.113.0/24; |0 EndOfFile; ", 0),
    (
        "collected",
        0,
        "100 +203.0.113.0/24; |101 +198.51.100.0/24; |0 EndOfFile; ",
        5,
    ),
];

// The next change of a session, which is asked again if memory was refused; it has then passed over no record.
fn next_after_refusals<S: Source>(rt: &impl Abort, session: &mut Session<S>) -> Option<Word> {
    for _ in 0..4 {
        let passed = session.passed_over();
        match session.next_word() {
            Ok(change) => return change,
            Err(AllocError) => assert!(rt; session.passed_over() == passed),
        }
    }
    None
}

// The line of a change, if there is memory for it.
fn line_of(alloc: Global, change: &Word) -> Option<String> {
    let mut line = String::new(alloc);
    add_change(&mut line, change).ok()?;
    Some(line)
}

// The next change of a session is that of the line, if there is memory for its text.
fn check_next<S: Source>(rt: &impl Abort, alloc: Global, session: &mut Session<S>, line: &str) {
    let change = next_after_refusals(rt, session).expect(rt, "a change");
    if let Some(found) = line_of(alloc, &change) {
        assert_eq!(rt; found.as_str(), line);
    }
}

// A session says all that it is to, and passes over so many records.
fn check_session<S: Source + Drop>(
    rt: &impl Abort,
    alloc: Global,
    session: Session<S>,
    said: &str,
    passed: u64,
) {
    let mut session = session;
    for line in said.split('|') {
        check_next(rt, alloc, &mut session, line);
    }
    assert!(rt; next_after_refusals(rt, &mut session).is_none());
    assert_eq!(rt; session.passed_over(), passed);
}

// The octets of a file, if there is memory for them.
fn file_of(alloc: Global, name: &str) -> Option<Vec<u8>> {
    octets(alloc, &[digits(name)?]).ok()
}

// It holds whichever allocation is refused: then one file isn't there, a session is asked again, or a line isn't
// compared. `tools/refuse_in_tests` refuses each in turn.
#[test]
fn refused_memory_loses_no_change_of_a_session(rt: HostRuntime) {
    let alloc = rt.alloc();
    let mut missing: usize = 0;
    for (name, place, said, passed) in SAID {
        let Some(file) = file_of(alloc, name) else {
            missing = missing.wrapping_add(1);
            continue;
        };
        assert!(rt; file.len() < 1 << 50);
        let peer = PeerId {
            address: address_of(*place),
            asn: place.wrapping_add(64501),
        };
        check_session(&rt, alloc, Session::new(alloc, &file, peer), said, *passed);
    }
    assert!(rt; missing <= 1);
}
