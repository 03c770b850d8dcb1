//! What is refused: reads and memory.

ghost use Rattle.std.specs.Prelude.{◌≡◌, List, [], Option, Some, None, Result, Err, refl};
ghost use Rattle.rs_mrt.specs.declared.fault.SourceFault.TheVariants.{Read};

use super::super::said::Said;
use super::{Asked, PEER, add_change, add_session};
use rs_mrt::{Record, Records, Source, SourceFault};
use rs_session::{Session, Word};
use std::alloc::Global;
use std::test::*;

// A source whose every read fails.
#[derive(Drop)]
struct Unreadable;

impl Source for Unreadable {
    ghost shows = { λ _. None };

    ghost comes = { λ _ records end. (records ≡ []) × (end ≡ Some Read) };

    ghost stopped = { λ _. Some (Err Read) };

    ghost failures = { λ _. 0 };

    ghost full = { λ _. Unit {0} };

    ghost room = { λ _. 0 };

    ghost may_come = { λ _. ([], Some Read, (refl, refl)) };

    fn advance(&mut self) -> Result<bool, SourceFault> {
        Err(SourceFault::Read)
    }

    fn shown(&self) -> Option<Record<'_>> {
        None
    }
}

#[test]
fn a_failed_read_closes(rt: HostRuntime) {
    let mut said = Said::new(rt.alloc());
    let mut session = Session::over(rt.alloc(), Unreadable, PEER);
    let all = Asked {
        prefix: None,
        until: None,
    };
    add_session(&mut said, &mut session, &all);
    assert_eq!(rt; said.text(), Some("\n    0 closed: failed read"));
}

// A KEEPALIVE of another peer at time 100; an UPDATE at time 101 that withdraws 1.0.0.0/8 to 13.0.0.0/8 and
// announces ten such prefixes, eight of those among them.
const RECORDED: &[u8] = b"\x00\x00\x00\x64\x00\x10\x00\x04\x00\x00\x00\x27\
    \x00\x00\xFB\xF6\x00\x00\xFB\xF4\x00\x00\x00\x01\xC0\x00\x02\x0C\xC0\x00\x02\x01\
    \xFF\xFF\xFF\xFF\xFF\xFF\xFF\xFF\xFF\xFF\xFF\xFF\xFF\xFF\xFF\xFF\x00\x13\x04\
    \x00\x00\x00\x65\x00\x10\x00\x04\x00\x00\x00\x6D\
    \x00\x00\xFB\xF5\x00\x00\xFB\xF4\x00\x00\x00\x01\xC0\x00\x02\x0B\xC0\x00\x02\x01\
    \xFF\xFF\xFF\xFF\xFF\xFF\xFF\xFF\xFF\xFF\xFF\xFF\xFF\xFF\xFF\xFF\x00\x59\x02\
    \x00\x1A\
    \x08\x01\x08\x02\x08\x03\x08\x04\x08\x05\x08\x06\x08\x07\x08\x08\x08\x09\x08\x0A\x08\x0B\x08\x0C\x08\x0D\
    \x00\x14\
    \x40\x01\x01\x00\x40\x02\x06\x02\x01\x00\x00\xFB\xF5\x40\x03\x04\xC0\x00\x02\x0B\
    \x08\x14\x08\x02\x08\x04\x08\x06\x08\x08\x08\x0A\x08\x0C\x08\x0E\x08\x03\x08\x01";

// What it says.
const CHANGES: &str = "101 -5.0.0.0/8
101 -7.0.0.0/8
101 -9.0.0.0/8
101 -11.0.0.0/8
101 -13.0.0.0/8
101 +20.0.0.0/8
101 +2.0.0.0/8
101 +4.0.0.0/8
101 +6.0.0.0/8
101 +8.0.0.0/8
101 +10.0.0.0/8
101 +12.0.0.0/8
101 +14.0.0.0/8
101 +3.0.0.0/8
101 +1.0.0.0/8
0 closed: end of file";

// The next change of a session, which is asked again where memory was refused. None where it has then passed over a
// record, and where memory is refused again and again.
fn next_after_refusals(session: &mut Session<Records<'_>>) -> Option<Option<Word>> {
    let passed = session.passed_over();
    for _ in 0..4 {
        if let Ok(change) = session.next_word() {
            return Some(change);
        }
        if session.passed_over() != passed {
            break;
        }
    }
    None
}

// Whether the line of a change is this one. Where its text is refused memory, it is some line.
fn is_line(alloc: Global, change: &Word, line: &str) -> bool {
    let mut said = Said::new(alloc);
    add_change(&mut said, change);
    match said.text() {
        Some(found) => found.trim() == line,
        None => true,
    }
}

// The first line that is not that of the next change of a session.
fn first_other(alloc: Global, session: &mut Session<Records<'_>>) -> Option<&'static str> {
    for line in CHANGES.lines() {
        match next_after_refusals(session) {
            Some(Some(change)) if is_line(alloc, &change, line) => {}
            _ => return Some(line),
        }
    }
    None
}

// It holds whichever allocation is refused: the recording takes none, so that but those of the texts all are the
// session's. `tools/refuse_in_tests` refuses each in turn.
#[test]
fn refused_memory_loses_nothing(rt: HostRuntime) {
    let mut session = Session::new(rt.alloc(), RECORDED, PEER);
    let other = first_other(rt.alloc(), &mut session);
    let ended = matches!(next_after_refusals(&mut session), Some(None));
    assert_eq!(rt; (other, ended, session.passed_over()), (None, true, 1));
}
