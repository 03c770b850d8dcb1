//! When the sessions of a peer were up, and how each ended.

use rs_glass::Loss;
use rs_inventory::{PeerRecords, SessionTimes};
use rs_session::Reason;
use std::alloc::{AllocError, Global};

/// How a session ended.
#[derive(Clone, Copy, Drop)]
pub(crate) enum End {
    /// It is up at the end of the recordings.
    Up,
    /// No record says how.
    Unrecorded,
    /// It was lost: in this way, if that is known.
    Lost(Option<Loss>),
    /// It closed, for this reason.
    Closed(Reason),
}

/// When a session was up, in seconds since 1970.
#[derive(Clone, Copy, Drop)]
pub(crate) struct Span {
    /// From when on.
    pub(crate) from: u32,
    /// Up to when.
    pub(crate) to: u32,
    /// How it ended.
    pub(crate) end: End,
}

/// A loss of a session.
#[derive(Clone, Copy, Drop)]
pub(crate) struct Lost {
    /// When the first change behind the loss before it came; none if none did.
    pub(crate) since: Option<u32>,
    /// When the session was lost.
    pub(crate) time: u32,
    /// How, if that is known.
    pub(crate) how: Option<Loss>,
}

/// What the changes of a peer say of the ends of its sessions.
#[derive(Drop)]
pub(crate) struct Ends {
    /// Its losses, in order.
    pub(crate) losses: Vec<Lost>,
    /// When the first change behind the last loss came.
    pub(crate) since: Option<u32>,
    /// When the last session closed before the end of the file, and why. The time is 0 if no record has one: the file
    /// itself ends too early.
    pub(crate) close: Option<(u32, Reason)>,
}

/// The sessions that the records of a peer show. One that is up behind the last of them is up until this time, the end
/// of all recordings.
pub(crate) fn spans_of(
    alloc: Global,
    records: &PeerRecords,
    ends: &Ends,
    until: u32,
) -> Result<Vec<Span>, AllocError> {
    let mut spans = Vec::new(alloc);
    let course = records.course();
    let (first, last) = (course.first.unwrap_or(0), course.last.unwrap_or(0));
    let close = match ends.close {
        Some((0, reason)) => Some((last, reason)),
        close => close,
    };
    let sessions = records.sessions();
    let mut given = 0;
    for place in 0..sessions.len() {
        let open = match sessions.get(place.saturating_add(1)) {
            Some(behind) => (behind.up.unwrap_or(last), End::Unrecorded),
            None => (until, End::Up),
        };
        let later = sessions.get(place..).unwrap_or(&[]);
        let ended = ended_by(&ends.losses, given, later);
        if let Some(ended) = ended {
            given = ended.saturating_add(1);
        }
        let how = ended.and_then(|ended| how_at(&ends.losses, ended));
        let span = session(sessions[place], first, open, how);
        add_span(&mut spans, span, close)?;
    }
    match session_without_beginning(records, until) {
        Some(span) => add_span(&mut spans, span, close)?,
        None => {}
    }
    Ok(spans)
}

// A session whose beginning or end is recorded. If it was lost, then in this way. If its end is not recorded, it has this
// one.
fn session(times: SessionTimes, first: u32, (to, end): (u32, End), how: Option<Loss>) -> Span {
    let from = times.up.unwrap_or(first);
    match times.down {
        Some(down) => Span {
            from,
            to: down,
            end: End::Lost(how),
        },
        None => Span { from, to, end },
    }
}

// Which loss ended the first of some sessions, at this place or behind it; none if none is known.
//
// Both stand in their order. Of the losses that no session has, within the second of one that a session has, it isn't
// known on which side of it they stand. A change of state behind a NOTIFICATION is taken for one of them.
fn ended_by(losses: &[Lost], from: usize, sessions: &[SessionTimes]) -> Option<usize> {
    let down = sessions.first()?.down?;
    let mut place = from;
    for lost in losses.get(from..)? {
        if lost.time == down {
            let more = losses_at(losses.get(place..)?, down) > sessions_until(sessions, down);
            return Some(if more && repeats(losses, place) {
                place.saturating_add(1)
            } else {
                place
            });
        }
        place = place.saturating_add(1);
    }
    None
}

// How the loss at a place came, if that is known.
fn how_at(losses: &[Lost], place: usize) -> Option<Loss> {
    losses.get(place)?.how
}

// How many of the first of some losses are of this time.
fn losses_at(losses: &[Lost], time: u32) -> usize {
    let mut count: usize = 0;
    for lost in losses {
        if lost.time != time {
            break;
        }
        count = count.saturating_add(1);
    }
    count
}

// How many of the first of some sessions went down at this time.
fn sessions_until(sessions: &[SessionTimes], time: u32) -> usize {
    let mut count: usize = 0;
    for times in sessions {
        if times.down != Some(time) {
            break;
        }
        count = count.saturating_add(1);
    }
    count
}

// Whether the loss at a place is a change of state right behind a NOTIFICATION: the recorder's side of the same end.
fn repeats(losses: &[Lost], place: usize) -> bool {
    let before = losses.get(place.saturating_sub(1));
    match (before, losses.get(place)) {
        (
            Some(
                Lost {
                    how: Some(Loss::Notification(_, _)),
                    ..
                },
            ),
            Some(
                Lost {
                    since: None,
                    how: Some(Loss::State(_)),
                    ..
                },
            ),
        ) => true,
        _ => false,
    }
}

// The only session, if no record says when it came up or went down: there are just messages.
fn session_without_beginning(records: &PeerRecords, until: u32) -> Option<Span> {
    let course = records.course();
    let (first, last) = (course.first?, course.last?);
    if !records.sessions().is_empty() || records.messages() == 0 {
        return None;
    }
    let (to, end) = if course.up {
        (until, End::Up)
    } else {
        (last, End::Unrecorded)
    };
    Some(Span {
        from: first,
        to,
        end,
    })
}

// Adds a span, cut off if the session closed before it ends, and left out if it closed before it begins.
fn add_span(
    spans: &mut Vec<Span>,
    span: Span,
    close: Option<(u32, Reason)>,
) -> Result<(), AllocError> {
    let span = match close {
        Some((time, _)) if time < span.from => return Ok(()),
        Some((time, reason)) if time <= span.to => Span {
            from: span.from,
            to: time,
            end: End::Closed(reason),
        },
        _ => span,
    };
    spans.push(span)?;
    Ok(())
}
