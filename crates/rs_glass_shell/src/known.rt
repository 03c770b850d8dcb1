//! What is known of the recorded files of an exchange once they were read: whether the session of each peer is up at
//! their end (RFC 4271, section 8.2.2), and the notes.
//!
//! Our choice: if losses are inferred, the file of a peer is read once more for its session.

use rs_host::open_recording;
use rs_inventory::{Inventory, PeerRecords, read_outline};
use rs_losses::{Sought, WithLosses};
use rs_mrt::{Bounds, Lenient, Losses, RecordReader};
use rs_notes::{Contents, Down, Outlines, Subject, Telling, contents_of, down_of, notes_of};
use rs_opening::sought;
use rs_setup::{Recording, Setup};
use std::alloc::AllocError;
use std::fs::Files;

/// What is known of the session of a peer at the end of what was read.
#[derive(Clone, Copy, Debug, PartialEq, Eq, Drop)]
pub struct PeerSession {
    /// That it is not up; none if it is up, or if that isn't known.
    pub down: Option<Down>,
    /// When it began while it was up, the last time since its last loss, in seconds since 1970: the loss before that is
    /// not recorded. None if losses are inferred.
    pub again: Option<u32>,
}

impl PeerSession {
    // Nothing is known of it.
    const UNKNOWN: PeerSession = PeerSession {
        down: None,
        again: None,
    };

    /// What the records of a peer tell of its session.
    pub fn of(records: Option<&PeerRecords>) -> PeerSession {
        match records {
            Some(records) => PeerSession {
                down: down_of(records),
                again: records.course().again,
            },
            None => PeerSession::UNKNOWN,
        }
    }

    /// When it began again behind a route that was announced at a time, without a recorded loss between them; none if it
    /// did not. Both are in seconds since 1970.
    pub fn again_after(&self, announced: u32) -> Option<u32> {
        self.again.filter(|again| announced < *again)
    }
}

/// Whose sessions are asked for.
#[derive(Clone, Copy, Debug, PartialEq, Eq)]
pub enum Whose {
    /// Nobody's.
    Nobody,
    /// That of the peer of this number.
    Of(usize),
    /// Those of all peers.
    All,
}

impl Whose {
    // Whether that of a peer is.
    fn includes(self, peer: usize) -> bool {
        self == Whose::All || self == Whose::Of(peer)
    }
}

/// What is known of the recorded files of an exchange.
#[derive(Drop)]
pub struct Known {
    /// The session of each peer, in their order.
    pub sessions: Vec<PeerSession>,
    /// The notes on likely mistakes.
    pub notes: Vec<String>,
}

impl Known {
    /// The session of the peer of a number.
    pub fn session(&self, peer: usize) -> PeerSession {
        self.sessions
            .get(peer)
            .copied()
            .unwrap_or(PeerSession::UNKNOWN)
    }
}

/// What is known of the recorded files of an exchange that were read, with these losses, while these outlines were
/// made. If losses are inferred, the file of each peer is read once more whose session is asked for, and only these
/// are known.
pub fn known_of<R: AllocGlobal + Files>(
    rt: &R,
    setup: &Setup,
    outlines: &Outlines,
    losses: Losses,
    whose: Whose,
) -> Result<Known, AllocError> {
    let contents = outlines.contents(rt, setup);
    let subject = Subject {
        setup,
        bounds: outlines.bounds(),
        endings: None,
        telling: Telling::Mistakes,
        inferred: losses == Losses::Inferred,
    };
    let notes = notes_of(rt, subject, &contents).texts;
    let sessions = sessions_of(rt, setup, outlines, &contents, losses, whose)?;
    Ok(Known { sessions, notes })
}

/// What is known of the session of each peer, in their order, if it is known what the files hold. The rest is as of
/// `known_of`.
pub fn sessions_of<R: AllocGlobal + Files>(
    rt: &R,
    setup: &Setup,
    outlines: &Outlines,
    contents: &[Contents<'_>],
    losses: Losses,
    whose: Whose,
) -> Result<Vec<PeerSession>, AllocError> {
    let mut sessions = Vec::with_capacity(rt.alloc(), setup.plan.count())?;
    for peer in 0..setup.plan.count() {
        sessions.push(match losses {
            Losses::Recorded => recorded_session(setup, contents, peer),
            Losses::Inferred if whose.includes(peer) => {
                inferred_session(rt, setup, outlines.bounds(), contents, peer)
            }
            Losses::Inferred => PeerSession::UNKNOWN,
        })?;
    }
    Ok(sessions)
}

// What is known of the session of a peer by what its file holds.
fn recorded_session(setup: &Setup, contents: &[Contents<'_>], peer: usize) -> PeerSession {
    match contents_by(setup, contents, peer) {
        Some(contents) => PeerSession::of(records_of(setup, peer, &contents.held)),
        None => PeerSession::UNKNOWN,
    }
}

// The same with losses inferred.
fn inferred_session<R: AllocGlobal + Files>(
    rt: &R,
    setup: &Setup,
    bounds: Bounds,
    contents: &[Contents<'_>],
    peer: usize,
) -> PeerSession {
    match &inferred_of(rt, setup, bounds, contents, peer) {
        Some(held) => PeerSession::of(records_of(setup, peer, held)),
        None => PeerSession::UNKNOWN,
    }
}

/// What the file of a peer holds with the losses of that peer inferred: it is read once more within bounds. None if it
/// isn't known what the file holds, if it is compressed or can't be read, or if memory is refused.
pub fn inferred_of<R: AllocGlobal + Files>(
    rt: &R,
    setup: &Setup,
    bounds: Bounds,
    contents: &[Contents<'_>],
    peer: usize,
) -> Option<Inventory> {
    match contents_by(setup, contents, peer) {
        Some(contents) if contents.held.compression().is_none() && peer < setup.plan.count() => {
            inferred_at(rt, contents.recording, bounds, sought(&setup.plan, peer))
        }
        _ => None,
    }
}

// What the file of a peer holds, if that is known.
fn contents_by<'b, 'a>(
    setup: &Setup,
    contents: &'b [Contents<'a>],
    peer: usize,
) -> Option<&'b Contents<'a>> {
    contents_of(contents, setup.recording(peer)?)
}

// The content of a recording within bounds, with the losses of a peer inferred. None if it can't be read, or if memory
// is refused.
fn inferred_at<'a, R: AllocGlobal + Files>(
    rt: &'a R,
    recording: Recording<'a>,
    bounds: Bounds,
    who: Sought,
) -> Option<Inventory> {
    let records = RecordReader::up_to(open_recording(rt, recording, None).ok()?, bounds.until);
    let whole = Lenient::new(records, bounds.tail);
    let source = WithLosses::new(whole, Losses::Inferred, who);
    read_outline(rt.alloc(), source).ok()
}

// What a file holds of a peer.
fn records_of<'a>(setup: &Setup, peer: usize, held: &'a Inventory) -> Option<&'a PeerRecords> {
    if peer >= setup.plan.count() {
        return None;
    }
    held.peers().get(&setup.plan.peer(peer).peer_id())
}
