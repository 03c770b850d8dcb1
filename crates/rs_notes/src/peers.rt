//! Which peers an exchange has, as records name them.

use rs_inventory::PeerId;
use rs_setup::Setup;

/// The address that records of no peer have.
pub(crate) const NO_ADDRESS: u32 = 0;

/// Whether the exchange has a peer that records name so.
pub(crate) fn is_configured(setup: &Setup, peer: PeerId) -> bool {
    for place in 0..setup.plan.count() {
        if setup.plan.peer(place).peer_id() == peer {
            return true;
        }
    }
    false
}

/// Whether records that name a peer so are of a peer that the exchange has not: no peer is it, and the records have
/// neither no address nor that of the server.
pub(crate) fn is_stranger(setup: &Setup, peer: PeerId) -> bool {
    peer.address != NO_ADDRESS
        && peer.address != setup.plan.local().peer_id().address
        && !is_configured(setup, peer)
}

/// Whether one peer of the exchange alone has an AS number.
pub(crate) fn is_alone(setup: &Setup, asn: u32) -> bool {
    let mut peers: usize = 0;
    for place in 0..setup.plan.count() {
        if setup.plan.peer(place).asn == asn {
            peers = peers.saturating_add(1);
        }
    }
    peers == 1
}
