//! Since when the recordings of peers run.

use rs_explain::{Explanation, LastSaid};
use rs_glass::{Answer, Answers};
use rs_glass_shell::Unanswered;
use rs_host::{FileFault, found_at, open};
use rs_setup::{Recording, Setup};
use std::fs::Files;
use std::io::Read;

// Since when a recording runs: the time of its first record (RFC 6396, section 2), in seconds since 1970.
#[derive(Clone, Copy, Debug, PartialEq, Eq)]
pub(crate) enum Start {
    // No later than the time up to which records are read.
    InTime(u32),
    // Later than that: nothing of it is read.
    Later(u32),
}

impl Start {
    // The time.
    pub(crate) fn time(self) -> u32 {
        match self {
            Start::InTime(time) => time,
            Start::Later(time) => time,
        }
    }
}

// Since when the recording of each peer runs that never announced a route. There is no time for other peers. There
// is none either for a file that is read only once, or for one without a record.
pub(crate) fn starts<R: AllocGlobal + Files>(
    rt: &R,
    setup: &Setup,
    answers: &Answers,
    until: Option<u32>,
) -> Result<Vec<Option<Start>>, Unanswered> {
    let mut starts = Vec::with_capacity(rt.alloc(), answers.peers.len())?;
    for (peer, answer) in answers.peers.iter().enumerate() {
        let start = match setup.recording(peer) {
            Some(recording) if never_announced(answer) => start_of(rt, recording, until)?,
            _ => None,
        };
        starts.push(start).map_err(|_| Unanswered::Memory)?;
    }
    Ok(starts)
}

// Whether a peer never announced a route.
pub(crate) fn never_announced(answer: &Answer) -> bool {
    matches!(answer.explanation, Explanation::Absent)
        && matches!(answer.said.last, LastSaid::NeverAnnounced)
}

// Since when a recording runs.
fn start_of<R: AllocGlobal + Files>(
    rt: &R,
    recording: Recording<'_>,
    until: Option<u32>,
) -> Result<Option<Start>, Unanswered> {
    match (first_time_of(rt, recording)?, until) {
        (None, _) => Ok(None),
        (Some(time), Some(until)) if time > until => Ok(Some(Start::Later(time))),
        (Some(time), _) => Ok(Some(Start::InTime(time))),
    }
}

// The Timestamp of the first record of a recording, whose first files may have none.
fn first_time_of<R: AllocGlobal + Files>(
    rt: &R,
    recording: Recording<'_>,
) -> Result<Option<u32>, Unanswered> {
    for place in 0..recording.count() {
        if let Some(time) = first_time(rt, recording.path(place))? {
            return Ok(Some(time));
        }
    }
    Ok(None)
}

// The Timestamp of the first record of a file; none if the file is read only once, or has none.
fn first_time<R: AllocGlobal + Files>(rt: &R, path: &str) -> Result<Option<u32>, Unanswered> {
    match found_at(rt, path)? {
        Some(found) if found.is_file() => {}
        _ => return Ok(None),
    }
    let mut file = match open(rt, path) {
        Ok(file) => file,
        Err(FileFault::Memory) => return Err(Unanswered::Memory),
        Err(FileFault::Unread) => return Ok(None),
    };
    let mut octets = [0; 4];
    match file.read_exact(&mut octets) {
        Ok(()) => Ok(Some(u32::from_be_bytes(octets))),
        Err(_) => Ok(None),
    }
}
