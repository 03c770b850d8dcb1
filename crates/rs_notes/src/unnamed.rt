//! The note on a loss that is recorded without an address, of an AS number that several peers of the exchange have (RFC
//! 6396, section 4.4.4). No record says which of them lost its session.
//!
//! Our choices: the loss may be that of each such peer whose recording ends with this file, and whose session was up then.
//! It is not that of a peer whose own later records show that its session went on: it has a later record, and began no session
//! since, or its own loss came first. If it is that of nobody, there is no note. If losses are inferred, it is counted once
//! exactly one of these peers begins a session behind it; then there is none, either. The note tells of the first such
//! loss and of how many more there are, however the sessions of their peers closed.

use crate::contents::{Contents, contents_of};
use crate::lost::was_up;
use crate::notes::Notes;
use crate::peers::{NO_ADDRESS, is_alone, is_configured};
use crate::subject::Subject;
use crate::unconfigured::is_counted;
use rs_host::Utc;
use rs_inventory::{PeerId, PeerRecords, UnnamedLoss};
use rs_setup::Setup;
use std::alloc::{AllocError, Global};

// How many peers the line names.
const NAMED: usize = 8;

// What the records of a peer say of a loss without an address.
#[derive(Clone, Copy, Debug, PartialEq, Eq)]
enum Fate {
    // It isn't the peer's.
    Other,
    // It may be the peer's.
    Open,
    // It may be the peer's, who began a session behind it.
    Again,
}

// How many peers may have had a loss, and how many of these began a session behind it.
#[derive(Clone, Copy, Debug, PartialEq, Eq)]
struct Fates {
    peers: usize,
    again: usize,
}

// A loss without an address, in a file at a path.
#[derive(Clone, Copy)]
struct Nameless<'b> {
    path: &'b str,
    loss: UnnamedLoss,
}

// The losses that may be those of several peers: the first one, and how many there are.
#[derive(Clone, Copy)]
struct OpenLosses<'b> {
    first: Option<Nameless<'b>>,
    count: usize,
}

impl<'b> OpenLosses<'b> {
    // Takes those of a recording.
    fn take(&mut self, subject: Subject<'_>, all: &[Contents<'_>], contents: &Contents<'b>) {
        for loss in contents.held.unnamed() {
            let one = Nameless {
                path: contents.recording.file,
                loss: *loss,
            };
            if is_open(subject, all, one) {
                self.first = self.first.or(Some(one));
                self.count = self.count.saturating_add(1);
            }
        }
    }
}

/// Adds the note, if there is such a loss.
pub(crate) fn add_unnamed(
    alloc: Global,
    subject: Subject<'_>,
    all: &[Contents<'_>],
    notes: &mut Notes,
) {
    let mut open = OpenLosses {
        first: None,
        count: 0,
    };
    for (place, contents) in all.iter().enumerate() {
        if !is_counted(&all[..place], contents.recording) {
            open.take(subject, all, contents);
        }
    }
    if let Some(first) = open.first {
        let more = open.count.saturating_sub(1);
        notes.add(unnamed_line(alloc, subject.setup, all, first, more));
    }
}

// Whether a loss may be that of some peer of an AS number that several have, and won't be counted.
fn is_open(subject: Subject<'_>, all: &[Contents<'_>], one: Nameless<'_>) -> bool {
    let setup = subject.setup;
    let nobody = PeerId {
        address: NO_ADDRESS,
        asn: one.loss.asn,
    };
    if is_alone(setup, one.loss.asn) || is_configured(setup, nobody) {
        return false;
    }
    let fates = fates_of(setup, all, one);
    fates.peers > 0 && !(subject.inferred && fates.again == 1)
}

// How many peers may have had a loss.
fn fates_of(setup: &Setup, all: &[Contents<'_>], one: Nameless<'_>) -> Fates {
    let mut fates = Fates { peers: 0, again: 0 };
    for peer in 0..setup.plan.count() {
        let fate = fate_of(setup, all, one, peer);
        if fate != Fate::Other {
            fates.peers = fates.peers.saturating_add(1);
        }
        if fate == Fate::Again {
            fates.again = fates.again.saturating_add(1);
        }
    }
    fates
}

// What the records of the peer of a number say of a loss.
fn fate_of(setup: &Setup, all: &[Contents<'_>], one: Nameless<'_>, peer: usize) -> Fate {
    match records_of(setup, all, one, peer) {
        Some(records) if was_up(records, one.loss.time) => fate_by(records, one.loss.time),
        _ => Fate::Other,
    }
}

// The records of the peer of a number, if it has the AS number of a loss and its recording ends with the same file.
fn records_of<'b>(
    setup: &Setup,
    all: &'b [Contents<'_>],
    one: Nameless<'_>,
    peer: usize,
) -> Option<&'b PeerRecords> {
    if peer >= setup.plan.count() {
        return None;
    }
    let (id, recording) = (setup.plan.peer(peer).peer_id(), setup.recording(peer)?);
    if id.asn != one.loss.asn || recording.file != one.path {
        return None;
    }
    contents_of(all, recording)?.held.peers().get(&id)
}

// What the records of a peer, whose session was up at a time, say of a loss then.
fn fate_by(records: &PeerRecords, time: u32) -> Fate {
    let course = records.course();
    if ends_behind(records, time) {
        return Fate::Other;
    }
    if has_begun(records, time) {
        return Fate::Again;
    }
    match course.last {
        Some(last) if last > time => Fate::Other,
        _ => Fate::Open,
    }
}

// Whether the session that was up at a time was lost later, by its own records.
fn ends_behind(records: &PeerRecords, time: u32) -> bool {
    let mut end = None;
    for session in records.sessions() {
        if let Some(start) = session.up {
            if start > time {
                break;
            }
        }
        end = session.down;
    }
    match end {
        Some(end) => end > time,
        None => false,
    }
}

// Whether a session began behind a loss at a time.
fn has_begun(records: &PeerRecords, time: u32) -> bool {
    if let Some(again) = records.course().again {
        if again >= time {
            return true;
        }
    }
    for session in records.sessions() {
        if let Some(start) = session.up {
            if start > time {
                return true;
            }
        }
    }
    false
}

// The text of the note on a loss, and on so many more.
fn unnamed_line(
    alloc: Global,
    setup: &Setup,
    all: &[Contents<'_>],
    one: Nameless<'_>,
    more: usize,
) -> Result<String, AllocError> {
    let time = Utc(one.loss.time);
    let mut line = format!(in alloc;
        "a loss at {time} UTC is recorded without an address: it is of "
    )?;
    add_names(&mut line, setup, all, one)?;
    if more == 1 {
        line.push_str(" (and 1 more such loss)")?;
    } else if more > 1 {
        write!(line, " (and {more} more such losses)")?;
    }
    Ok(line)
}

// Adds the names of the peers that may have had a loss.
fn add_names(
    line: &mut String,
    setup: &Setup,
    all: &[Contents<'_>],
    one: Nameless<'_>,
) -> Result<(), AllocError> {
    let peers = fates_of(setup, all, one).peers;
    let mut place: usize = 0;
    for peer in 0..setup.plan.count() {
        if place < NAMED && fate_of(setup, all, one, peer) != Fate::Other {
            line.push_str(before_name(place, peers))?;
            line.push_str(&setup.plan.peer(peer).name)?;
            place += 1;
        }
    }
    if place < peers {
        let others = peers - place;
        write!(line, " or {others} more")?;
    }
    Ok(())
}

// What stands before the name at a place, of so many peers.
fn before_name(place: usize, peers: usize) -> &'static str {
    if place == 0 {
        ""
    } else if place.saturating_add(1) == peers {
        " or "
    } else {
        ", "
    }
}
