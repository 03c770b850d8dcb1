//! The tests of a plan, in their order (our choice: RFC 4271 leaves configuration to the implementation).
//!
//! First those of the whole plan, then those of one peer after another, then the names that one peer after
//! another refuses.

ghost use Rattle.std.specs.Prelude.{◌≡◌, map, string_bytes};
ghost use Rattle.std.specs.List.{list_all};
ghost use Rattle.rs_choice.specs.Checks.{has_address_among, has_name_among};
ghost use Rattle.rs_choice.specs.Plan as spec;
ghost use Rattle.rs_choice.specs.Plan.{names_tests, peer_of, peer_tests, peers_tests, whole_tests};
ghost use Rattle.rs_types.specs.FirstFault.{first_fault};

use crate::fault::PlanFault;
use crate::plan::{HYPHEN, Local, MAX_NAME_LEN, MAX_PEERS, PeerSpec, UNDERSCORE};

// The first fault of a plan.
pub(crate) fn plan_fault(local: &Local, peers: &[PeerSpec]) -> Option<PlanFault>
    ensures { result ≡ spec.plan_fault local.now (map peer_of peers.now) }
{
    if let Some(fault) = whole_fault(local, peers) {
        return Some(fault);
    }
    if let Some(fault) = first_peer_fault(peers) {
        return Some(fault);
    }
    first_unknown_name(peers)
}

// The first fault of the whole plan.
fn whole_fault(local: &Local, peers: &[PeerSpec]) -> Option<PlanFault>
    ensures { result ≡ first_fault (whole_tests local.now (map peer_of peers.now)) }
{
    if peers.is_empty() {
        return Some(PlanFault::NoPeer);
    }
    if peers.len() > MAX_PEERS {
        return Some(PlanFault::TooManyPeers);
    }
    if local.asn == 0 {
        return Some(PlanFault::ZeroAs(None));
    }
    None
}

// The first fault of the first peer that has one.
fn first_peer_fault(peers: &[PeerSpec]) -> Option<PlanFault>
    ensures { result ≡ first_fault (peers_tests (map peer_of peers.now)) }
{
    for (number, peer) in peers.iter().enumerate() {
        if let Some(fault) = peer_fault(&peers[..number], number, peer) {
            return Some(fault);
        }
    }
    None
}

// The first fault of one peer by itself and beside the peers before it.
fn peer_fault(earlier: &[PeerSpec], number: usize, peer: &PeerSpec) -> Option<PlanFault>
    ensures { result ≡ first_fault (peer_tests (map peer_of earlier.now) number (peer_of peer.now)) }
{
    if !is_name(peer.name.as_bytes()) {
        return Some(PlanFault::InvalidName(number));
    }
    if has_name(earlier, &peer.name) {
        return Some(PlanFault::RepeatedName(number));
    }
    if has_address(earlier, peer.address) {
        return Some(PlanFault::RepeatedAddress(number));
    }
    if peer.asn == 0 {
        return Some(PlanFault::ZeroAs(Some(number)));
    }
    None
}

// The fault of the first peer that refuses routes from a name that no peer has.
fn first_unknown_name(peers: &[PeerSpec]) -> Option<PlanFault>
    ensures { result ≡ first_fault (names_tests (map peer_of peers.now)) }
{
    for (number, peer) in peers.iter().enumerate() {
        if !has_names(peers, &peer.refuse_from) {
            return Some(PlanFault::UnknownName(number));
        }
    }
    None
}

// Whether a peer may have this name.
fn is_name(name: &[u8]) -> bool
    ensures { result ≡ spec.is_name name.now }
{
    !name.is_empty() && name.len() <= MAX_NAME_LEN && all_name_octets(name)
}

// Whether a name may hold all of these octets.
fn all_name_octets(name: &[u8]) -> bool
    ensures { result ≡ list_all spec.is_name_octet name.now }
{
    name.iter().all(|octet| is_name_octet(*octet))
}

// Whether a name may hold this octet.
fn is_name_octet(octet: u8) -> bool
    ensures { result ≡ spec.is_name_octet octet }
{
    octet.is_ascii_alphanumeric() || octet == HYPHEN || octet == UNDERSCORE
}

// Whether one of the peers has this name.
fn has_name(peers: &[PeerSpec], name: &String) -> bool
    ensures { result ≡ has_name_among peers.now (string_bytes name.now) }
{
    peers.iter().any(|peer| peer.name == *name)
}

// Whether each of the names is one of the peers'.
fn has_names(peers: &[PeerSpec], names: &[String]) -> bool
    ensures { result ≡ list_all (λ name. has_name_among peers.now (string_bytes name)) names.now }
{
    names.iter().all(|name| has_name(peers, name))
}

// Whether one of the peers has this address.
fn has_address(peers: &[PeerSpec], address: u32) -> bool
    ensures { result ≡ has_address_among peers.now address }
{
    peers.iter().any(|peer| peer.address == address)
}
