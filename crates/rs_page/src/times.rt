//! What recordings show over time: the sessions of each peer, and how many changes came when.
//!
//! Our choices: the file of each peer is read once more for that, behind the run that builds the tables, and twice if losses
//! are inferred. So of a file that gives its octets only once nothing is shown.

use crate::changes::Changes;
use crate::spans::{Ends, Lost, Span, spans_of};
use rs_glass::{Loss, loss_of};
use rs_glass_shell::{PeerSession, Unanswered, inferred_of};
use rs_host::{Reached, Unready, open_recording};
use rs_inventory::{Inventory, PeerId, PeerRecords};
use rs_losses::{PutsIn, Sought, WithLosses};
use rs_mrt::{Bounds, Lenient, Losses, RecordReader, Source};
use rs_notes::{Contents, contents_of};
use rs_opening::sought;
use rs_query::TablesQuery;
use rs_session::{Body, Reason, Session, Word};
use rs_setup::{Recording, Setup};
use rs_update::Errors;
use std::alloc::{AllocError, Global};
use std::fs::Files;

/// What recordings show over time.
#[derive(Drop)]
pub(crate) struct Times {
    /// What they show of each peer.
    pub(crate) peers: Vec<PeerTimes>,
    /// What is known of the session of each peer at the end of what was read.
    pub(crate) sessions: Vec<PeerSession>,
    /// How many changes came when.
    pub(crate) changes: Changes,
    /// Whether there is any record of a peer.
    pub(crate) any: bool,
}

impl Times {
    // Takes what is known of the next peer.
    fn take(&mut self, one: PeerTimes, session: PeerSession) -> Result<(), AllocError> {
        self.peers.push(one)?;
        self.sessions.push(session)?;
        Ok(())
    }
}

/// What the recording of one peer shows.
#[derive(Drop)]
pub(crate) struct PeerTimes {
    /// How many prefixes the peer announced, repeated ones too.
    pub(crate) announced: u64,
    /// How many it withdrew.
    pub(crate) withdrawn: u64,
    /// When its sessions were up.
    pub(crate) spans: Vec<Span>,
}

/// What the recorded files of a setup show within bounds, if it is known what they hold.
pub(crate) fn times_of<R: AllocGlobal + Files>(
    rt: &R,
    setup: &Setup,
    contents: &[Contents<'_>],
    bounds: Bounds,
    query: &TablesQuery,
) -> Result<Times, Unanswered> {
    let (first, last) = range_of(setup, contents);
    let mut times = Times {
        peers: Vec::new(rt.alloc()),
        sessions: Vec::new(rt.alloc()),
        changes: Changes::none(first.unwrap_or(0), last.unwrap_or(0)),
        any: first.is_some(),
    };
    for peer in 0..setup.plan.count() {
        let Some(recording) = setup.recording(peer) else {
            break;
        };
        let of = setup.plan.peer(peer).peer_id();
        let manner = Manner {
            bounds,
            errors: query.errors,
            losses: query.losses,
            who: sought(&setup.plan, peer),
        };
        let recorded = records_of(contents, recording, of);
        let held = match (recorded, manner.losses) {
            (Some(_), Losses::Inferred) => inferred_of(rt, setup, bounds, contents, peer),
            _ => None,
        };
        let records = match manner.losses {
            Losses::Recorded => recorded,
            Losses::Inferred => records_in(&held, of),
        };
        let one = match recorded {
            Some(_) => heard(rt, records, recording, manner, &mut times.changes)?,
            None => silent(rt.alloc()),
        };
        times.take(one, PeerSession::of(records))?;
    }
    Ok(times)
}

// How the file of a peer is read.
#[derive(Clone, Copy)]
struct Manner {
    bounds: Bounds,
    errors: Errors,
    losses: Losses,
    // Whose losses count.
    who: Sought,
}

// What is shown of a peer without a record.
fn silent(alloc: Global) -> PeerTimes {
    PeerTimes {
        announced: 0,
        withdrawn: 0,
        spans: Vec::new(alloc),
    }
}

// The records of a peer in a recording.
fn records_of<'b>(
    all: &'b [Contents<'_>],
    recording: Recording<'_>,
    peer: PeerId,
) -> Option<&'b PeerRecords> {
    contents_of(all, recording)?.held.peers().get(&peer)
}

// The records of the peer of a number.
fn records_by<'b>(setup: &Setup, all: &'b [Contents<'_>], peer: usize) -> Option<&'b PeerRecords> {
    if peer >= setup.plan.count() {
        return None;
    }
    records_of(all, setup.recording(peer)?, setup.plan.peer(peer).peer_id())
}

// The records of a peer in what a recording holds, if that is known.
fn records_in(held: &Option<Inventory>, peer: PeerId) -> Option<&PeerRecords> {
    match held {
        Some(held) => held.peers().get(&peer),
        None => None,
    }
}

// The time of the first record of all peers, and the latest time of all records of their files, those of others too.
fn range_of(setup: &Setup, contents: &[Contents<'_>]) -> (Option<u32>, Option<u32>) {
    let mut first: Option<u32> = None;
    let mut last: Option<u32> = None;
    for one in contents {
        last = later(last, one.held.last());
    }
    for peer in 0..setup.plan.count() {
        if let Some(records) = records_by(setup, contents, peer) {
            first = earlier(first, records.course().first);
        }
    }
    (first, last)
}

// The earlier of two times, if there are two.
fn earlier(one: Option<u32>, other: Option<u32>) -> Option<u32> {
    match (one, other) {
        (Some(one), Some(other)) => Some(one.min(other)),
        (None, other) => other,
        (one, None) => one,
    }
}

// The later of two times, if there are two.
fn later(one: Option<u32>, other: Option<u32>) -> Option<u32> {
    match (one, other) {
        (Some(one), Some(other)) => Some(one.max(other)),
        (None, other) => other,
        (one, None) => one,
    }
}

// What the recording of a peer shows; its changes are counted. If it can be read, its records are only unknown if memory
// was refused.
fn heard<'a, R: AllocGlobal + Files>(
    rt: &'a R,
    records: Option<&PeerRecords>,
    recording: Recording<'a>,
    manner: Manner,
    changes: &mut Changes,
) -> Result<PeerTimes, Unanswered> {
    let alloc = rt.alloc();
    let reached = Reached::first();
    let file = match open_recording(rt, recording, Some(&reached)) {
        Ok(file) => file,
        Err(fault) => {
            let unready = Unready::by_file(alloc, fault, recording.path(0));
            return Err(Unanswered::from(unready));
        }
    };
    let reader = RecordReader::up_to(file, manner.bounds.until);
    let whole = Lenient::new(reader, manner.bounds.tail);
    let source = WithLosses::new(whole, manner.losses, manner.who);
    let session = Session::over_by(alloc, source, manner.who.peer, manner.errors);
    let mut one = silent(alloc);
    let ends = hear(alloc, session, &mut one, changes)?;
    if let Some((_, Reason::Read)) = ends.close {
        let unready = Unready::by_path(alloc, reached.path(recording));
        return Err(Unanswered::from(unready));
    }
    let Some(records) = records else {
        return Err(Unanswered::Memory);
    };
    one.spans = spans_of(alloc, records, &ends, changes.last)?;
    Ok(one)
}

// Counts the changes that a recorded session gives. Answers how its sessions ended.
fn hear<S: Source + PutsIn + Drop>(
    alloc: Global,
    mut session: Session<S>,
    one: &mut PeerTimes,
    changes: &mut Changes,
) -> Result<Ends, AllocError> {
    let mut ends = Ends {
        losses: Vec::new(alloc),
        since: None,
        close: None,
    };
    for _ in 0..u64::MAX {
        let Some(word) = session.next_word()? else {
            break;
        };
        let loss = loss_behind(&session, &word);
        take_word(one, changes, &mut ends, &word, loss)?;
    }
    Ok(ends)
}

// How the session was lost, if that is the change that it gave last.
fn loss_behind<S: Source + PutsIn>(session: &Session<S>, word: &Word) -> Option<Loss> {
    match word.body {
        Body::Down if session.source().is_put_in() => Some(Loss::Inferred),
        Body::Down => loss_of(&session.shown()?),
        _ => None,
    }
}

// Takes one change.
fn take_word(
    one: &mut PeerTimes,
    changes: &mut Changes,
    ends: &mut Ends,
    word: &Word,
    loss: Option<Loss>,
) -> Result<(), AllocError> {
    let time = word.time;
    match word.body {
        Body::Announce(prefix, _) => {
            one.announced = one.announced.saturating_add(1);
            changes.announce(time, prefix);
            ends.since = ends.since.or(Some(time));
        }
        Body::Withdraw(prefix) => {
            one.withdrawn = one.withdrawn.saturating_add(1);
            changes.withdraw(time, prefix);
            ends.since = ends.since.or(Some(time));
        }
        Body::Down => {
            ends.losses.push(Lost {
                since: ends.since,
                time,
                how: loss,
            })?;
            ends.since = None;
        }
        Body::Close(Reason::EndOfFile) => {}
        Body::Close(reason) => ends.close = Some((time, reason)),
    }
    Ok(())
}
