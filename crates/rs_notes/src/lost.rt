//! A loss of a peer's session that is recorded with the address of no peer: recorders write the end of a connection with
//! the address 0.0.0.0, or a change of state with both addresses swapped (RFC 6396, section 4.4.4).
//!
//! Our choices: the AS number tells whose loss it is, if no other peer of the exchange has it. Of several such losses the
//! first counts, and only if by the peer's own records its session was up.

use crate::peers::{NO_ADDRESS, is_alone, is_configured};
use rs_inventory::{Inventory, PeerId, PeerRecords};
use rs_setup::Setup;

/// A loss that is recorded with the address of no peer.
#[derive(Clone, Copy, Debug, PartialEq, Eq)]
pub(crate) struct Lost {
    /// When, in seconds since 1970.
    pub time: u32,
    /// Whether it has the address of the server; else it has none.
    pub is_swapped: bool,
}

/// The first loss of a peer in a file that holds this, recorded with the address of no peer, if there is one. `records`
/// are the peer's own.
pub(crate) fn lost_of(
    setup: &Setup,
    held: &Inventory,
    records: &PeerRecords,
    peer: PeerId,
) -> Option<Lost> {
    if !is_alone(setup, peer.asn) {
        return None;
    }
    let time = loss_at(setup, held, records, peer.asn, NO_ADDRESS);
    if let Some(time) = time {
        return Some(Lost {
            time,
            is_swapped: false,
        });
    }
    let server = setup.plan.local().peer_id().address;
    Some(Lost {
        time: loss_at(setup, held, records, peer.asn, server)?,
        is_swapped: true,
    })
}

// When the first loss is recorded of this AS number and an address that no peer has, if the session was up then.
fn loss_at(
    setup: &Setup,
    held: &Inventory,
    records: &PeerRecords,
    asn: u32,
    address: u32,
) -> Option<u32> {
    let nobody = PeerId { address, asn };
    if is_configured(setup, nobody) {
        return None;
    }
    let lost = held.peers().get(&nobody)?;
    let time = lost.sessions().iter().find_map(|session| session.down)?;
    if was_up(records, time) {
        Some(time)
    } else {
        None
    }
}

/// Whether the session of a peer was up at a time: the last one that came up before did not go down. If none is recorded
/// so, the peer has a record from before.
pub(crate) fn was_up(records: &PeerRecords, time: u32) -> bool {
    let mut up = match records.course().first {
        Some(first) => first <= time,
        None => false,
    };
    for session in records.sessions() {
        if let Some(start) = session.up {
            if start > time {
                break;
            }
            up = true;
        }
        if let Some(end) = session.down {
            up = up && end > time;
        }
    }
    up
}
