//! Whether the session of a peer is down at the end of what was read (RFC 4271, section 8.2.2), and the note on it: a
//! client gets its table as if the session was up.
//!
//! Our choices: of a session it is only told that it is down if a recorded change of state or the last record of the peer
//! shows that. If losses are inferred, a loss without an address behind all records of the peer shows it too. The note is
//! no reason for a status, since one peer that is down must not keep the tables of all others.

use crate::group::{Detail, Told};
use crate::peers::is_alone;
use crate::subject::Subject;
use rs_host::Utc;
use rs_inventory::{Inventory, PeerId, PeerRecords};
use std::alloc::{AllocError, Global};

/// The text on several peers whose sessions are down.
pub(crate) const SEVERAL_DOWN: &str =
    "their sessions are down; their tables are as if they were up";

/// That the session of a peer is not up at the end of what was read.
#[derive(Clone, Copy, Debug, PartialEq, Eq, Drop)]
pub enum Down {
    /// It was lost last at this time, in seconds since 1970.
    Since(u32),
    /// It has not begun.
    NotBegun,
}

/// That a session is down behind these records of its peer, if they show it.
pub fn down_of(records: &PeerRecords) -> Option<Down> {
    let course = records.course();
    if course.up {
        return None;
    }
    let has_states = records.state_changes() > 0;
    match records.sessions().last().and_then(|last| last.down) {
        Some(time) if has_states || course.lost => Some(Down::Since(time)),
        Some(_) => None,
        None if has_states && !course.inside => Some(Down::NotBegun),
        None => None,
    }
}

/// That the session of a peer is down at the end of a file that holds this, of which `records` are the peer's own.
pub(crate) fn down_at_end(
    subject: Subject<'_>,
    held: &Inventory,
    records: &PeerRecords,
    peer: PeerId,
) -> Option<Down> {
    if let Some(down) = down_of(records) {
        return Some(down);
    }
    if !subject.inferred || !is_alone(subject.setup, peer.asn) {
        return None;
    }
    let time = last_unnamed(held, peer.asn)?;
    if is_behind(records, time) {
        Some(Down::Since(time))
    } else {
        None
    }
}

// When the last loss of an AS number is recorded without an address.
fn last_unnamed(held: &Inventory, asn: u32) -> Option<u32> {
    let mut last = None;
    for loss in held.unnamed() {
        if loss.asn == asn {
            last = Some(loss.time);
        }
    }
    last
}

// Whether a time is behind all records of a peer, whose session is up then.
fn is_behind(records: &PeerRecords, time: u32) -> bool {
    let course = records.course();
    let is_last = match course.last {
        Some(last) => last <= time,
        None => false,
    };
    course.up && is_last && course.again != Some(time)
}

/// The note on a peer whose session is down.
pub(crate) fn down_told(alloc: Global, name: &str, down: Down) -> Result<Told, AllocError> {
    match down {
        Down::Since(time) => {
            let time = Utc(time);
            Ok(Told {
                line: format!(in alloc;
                    "peer {name}: its session is down since {time} UTC; its table is as if it were up"
                )?,
                detail: Detail::Part(format!(in alloc; "down since {time} UTC")?),
            })
        }
        Down::NotBegun => Ok(Told {
            line: format!(in alloc;
                "peer {name}: its session has not begun; its table is as if it were up"
            )?,
            detail: Detail::Part(String::from_str(alloc, "it has not begun")?),
        }),
    }
}
