//! What the recorded file of a peer shows if nothing of it was kept.
//!
//! Our choices: a file isn't wrong if its records are only later than what is read. It is read once more to see that. If
//! memory or that reading is refused, what it shows is unknown.

use crate::contents::{Contents, read_contents};
use crate::hint::{Hint, hint_on};
use crate::near::{Near, near_of};
use crate::subject::Subject;
use rs_choice::PeerSpec;
use rs_inventory::{Inventory, PeerId};
use rs_mrt::Bounds;
use std::fs::Files;

/// What the recorded file of a peer shows.
#[derive(Clone, Copy, Debug, PartialEq, Eq)]
pub(crate) enum Look {
    /// It is probably the wrong one. A peer of it may be meant.
    Wrong(Hint, Option<Near>),
    /// No record of the peer is read. The first one has this time, in seconds since 1970.
    Later(u32),
    /// It is empty.
    Empty,
    /// That isn't known: memory or a read was refused.
    Unknown,
    /// There is nothing to note.
    Plain,
}

/// What the file of a peer shows, of which nothing was kept.
pub(crate) fn look_at<R: AllocGlobal + Files>(
    rt: &R,
    subject: Subject<'_>,
    spec: &PeerSpec,
    contents: &Contents<'_>,
) -> Look {
    let peer = spec.peer_id();
    if contents.is_empty() {
        return Look::Empty;
    }
    if subject.bounds.until.is_none() {
        return look_into(subject, contents, peer);
    }
    if has_records(&contents.held, peer) {
        return Look::Plain;
    }
    let Ok(whole) = read_contents(rt, subject.setup, contents.recording, Bounds::none()) else {
        return Look::Unknown;
    };
    match first_of(&whole.held, peer) {
        Some(first) => Look::Later(first),
        None => look_into(subject, &whole, peer),
    }
}

// What a file shows that holds this.
fn look_into(subject: Subject<'_>, contents: &Contents<'_>, peer: PeerId) -> Look {
    let held = &contents.held;
    match hint_on(held, &contents.front.octets, peer) {
        Some(hint) => Look::Wrong(hint, near_of(subject.setup, held, peer)),
        None => Look::Plain,
    }
}

// Whether some record is the peer's.
fn has_records(held: &Inventory, peer: PeerId) -> bool {
    match held.peers().get(&peer) {
        Some(records) => records.records() > 0,
        None => false,
    }
}

// The time of the peer's first record that a route server reads, if there is one.
fn first_of(held: &Inventory, peer: PeerId) -> Option<u32> {
    held.peers().get(&peer)?.course().first_read
}
