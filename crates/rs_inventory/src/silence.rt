//! A time without any record while a session is up, as where a piece of a recording is missing (RFC 4271, section 4.4).
//!
//! Our choices: such a time is longer than the largest Hold Time of the OPENs before it, and than five minutes. A session
//! counts that shows KEEPALIVEs: that of the peer which sent the last one while it was up. It must be up still.

ghost use Rattle.std.specs.Prelude.{◌≡◌, None};
ghost use Rattle.rs_inventory.specs.Silence.{keeper_by, least_wait, peer_in, silence_behind, watch_with};

use crate::finding::{Finding, Note};
use crate::kind::Kind;
use rs_types::PeerId;

// How long there may always be no record, in seconds.
const LEAST_WAIT: u32 = 300;

/// A time without any record.
#[derive(Clone, Copy, Debug, PartialEq, Eq)]
pub struct Silence {
    /// The latest time before it, in seconds since 1970.
    pub from: u32,
    /// How many seconds it lasts: the next record ends it.
    pub seconds: u32,
    /// How many records stand before the one that ends it.
    pub records: u64,
    /// How many octets stand before that one: none if one of those records is longer than any of a session.
    pub octet: Option<u64>,
}

/// What records tell of times without any.
#[derive(Clone, Copy, Debug, PartialEq, Eq)]
pub(crate) struct Watch {
    /// How long there may be no record, in seconds: the largest Hold Time of the OPENs, and at least `LEAST_WAIT`.
    pub wait: u32,
    /// Who sent the last KEEPALIVE behind which the session of its sender is up.
    pub keeper: Option<PeerId>,
    /// The first time without any record while the session of such a sender is up.
    pub first: Option<Silence>,
}

impl Watch {
    /// Of no record.
    pub(crate) fn none() -> Watch
        ensures { result ≡ record { wait = least_wait; keeper = None; first = None } }
    {
        Watch {
            wait: LEAST_WAIT,
            keeper: None,
            first: None,
        }
    }

    /// With one record more. Whether the session of its peer is up behind it, and the time without any record before it,
    /// if that counts.
    pub(crate) fn with(self, finding: &Finding, up: bool, silence: Option<Silence>) -> Watch
        ensures { result ≡ watch_with finding.now up silence self }
    {
        Watch {
            wait: self.wait.max(finding.hold),
            keeper: match keeper_by(up, finding) {
                Some(keeper) => Some(keeper),
                None => self.keeper,
            },
            first: match self.first {
                Some(first) => Some(first),
                None => silence,
            },
        }
    }
}

// Who sent a KEEPALIVE behind which the session of its sender is up, if it is one.
fn keeper_by(up: bool, finding: &Finding) -> Option<PeerId>
    ensures { result ≡ keeper_by up finding.now }
{
    match finding.kind {
        Kind::KeepAlive if up => peer_in(finding.note),
        _ => None,
    }
}

// Of whom a note is, if there is one.
fn peer_in(note: Option<Note>) -> Option<PeerId>
    ensures { result ≡ peer_in note }
{
    match note {
        Some(note) => Some(note.peer),
        None => None,
    }
}

/// The time without any record before one of a time, if it is longer than there may be none. Those before are so many,
/// with so many octets, of which `last` is the latest time.
pub(crate) fn silence_behind(
    last: Option<u32>,
    time: u32,
    wait: u32,
    records: u64,
    octet: Option<u64>,
) -> Option<Silence>
    ensures { result ≡ silence_behind last time wait records octet }
{
    let last = last?;
    if time <= last || time - last <= wait {
        return None;
    }
    Some(Silence {
        from: last,
        seconds: time - last,
        records,
        octet,
    })
}
