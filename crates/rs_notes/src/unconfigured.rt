//! The note on peers of the recorded files that no peer of the configuration is.
//!
//! Our choices: a configuration may leave peers out on purpose, so the note is no reason for a status. Records with the
//! address 0.0.0.0 or that of the server are of no peer. The line names the eight peers with the most records, and says
//! how many more there are. If memory for it is refused, there is no note.

use crate::contents::Contents;
use crate::note::{add_counted, add_unconfigured_end, unconfigured_line};
use crate::notes::Notes;
use crate::peers::is_stranger;
use rs_inventory::PeerId;
use rs_setup::{Recording, Setup};
use std::alloc::{AllocError, Global};
use std::collections::BTreeMap;

// How many peers the line names.
const NAMED: usize = 8;

// A peer of recorded files, and how many records they have of it.
#[derive(Clone, Copy, Debug, PartialEq, Eq, Drop)]
struct Counted {
    peer: PeerId,
    records: u64,
}

/// Adds the note on the peers of these recordings that no peer of the configuration is, if there are any. Of recordings
/// with the same last file only the first counts, and of each peer the records that a route server reads.
pub fn add_unconfigured(alloc: Global, setup: &Setup, all: &[Contents<'_>], notes: &mut Notes) {
    if let Ok(counts) = counts_of(alloc, setup, all) {
        if let Some(first) = next_of(&counts, None) {
            notes.add_as_asked(line_on(alloc, &counts, first));
        }
    }
}

// How many records the files have of each peer that no peer of the configuration is.
fn counts_of(
    alloc: Global,
    setup: &Setup,
    all: &[Contents<'_>],
) -> Result<BTreeMap<PeerId, u64>, AllocError> {
    let mut counts = BTreeMap::new(alloc);
    for (place, contents) in all.iter().enumerate() {
        if !is_counted(&all[..place], contents.recording) {
            add_peers(setup, contents, &mut counts)?;
        }
    }
    Ok(counts)
}

/// Whether one of these recordings has the last file of another one.
pub(crate) fn is_counted(earlier: &[Contents<'_>], recording: Recording<'_>) -> bool {
    let mut earlier = earlier.iter();
    earlier.any(|contents| contents.recording.file == recording.file)
}

// Adds how many records a recording has of each peer that no peer of the configuration is.
fn add_peers(
    setup: &Setup,
    contents: &Contents<'_>,
    counts: &mut BTreeMap<PeerId, u64>,
) -> Result<(), AllocError> {
    for (peer, records) in contents.held.peers() {
        if records.records() > 0 && is_stranger(setup, *peer) {
            add_to(counts, *peer, records.records())?;
        }
    }
    Ok(())
}

// Adds so many records of a peer.
fn add_to(
    counts: &mut BTreeMap<PeerId, u64>,
    peer: PeerId,
    records: u64,
) -> Result<(), AllocError> {
    if let Some(count) = counts.get_mut(&peer) {
        *count = count.saturating_add(records);
        return Ok(());
    }
    counts.insert(peer, records)?;
    Ok(())
}

// The peer that comes next behind another one, or the first: the one with the most records, and of several such ones
// that with the lowest address and then AS number.
fn next_of(counts: &BTreeMap<PeerId, u64>, before: Option<Counted>) -> Option<Counted> {
    let mut next: Option<Counted> = None;
    for (peer, records) in counts {
        let one = Counted {
            peer: *peer,
            records: *records,
        };
        if is_behind(one, before) && has_more(one, next) {
            next = Some(one);
        }
    }
    next
}

// Whether a peer comes behind another one, if there is another.
fn is_behind(one: Counted, before: Option<Counted>) -> bool {
    match before {
        Some(before) if one.records == before.records => one.peer > before.peer,
        Some(before) => one.records < before.records,
        None => true,
    }
}

// Whether a peer has more records than another one, if there is another.
fn has_more(one: Counted, other: Option<Counted>) -> bool {
    match other {
        Some(other) => one.records > other.records,
        None => true,
    }
}

// The line on these peers, of which this one is the first.
fn line_on(
    alloc: Global,
    counts: &BTreeMap<PeerId, u64>,
    first: Counted,
) -> Result<String, AllocError> {
    if counts.len() == 1 {
        return unconfigured_line(alloc, first.peer, first.records);
    }
    let mut line = String::from_str(alloc, "peers")?;
    let mut last = Some(first);
    for place in 0..NAMED {
        if let Some(one) = last {
            add_counted(alloc, &mut line, place, counts.len(), one.peer, one.records)?;
            last = next_of(counts, last);
        }
    }
    add_unconfigured_end(&mut line, counts.len().saturating_sub(NAMED))?;
    Ok(line)
}
