//! What is asked of one route: what decisions ask of it, whether it is eligible, and to whom it is exported.

use super::check_rows;
use rs_choice::{Candidate, Exchange, HeldRoute};
use std::alloc::Global;
use std::test::Fail;

/// A route's sender and time, its candidacy, whether it is eligible and whether it is for all, and its path length,
/// neighbour AS and MED.
pub fn shown(alloc: Global, exchange: &Exchange, held: &HeldRoute) -> Option<String> {
    let peer = usize::from(held.peer);
    if peer >= exchange.count() {
        return None;
    }
    let standing = exchange.standing(&Candidate {
        peer,
        attributes: &held.attributes,
    });
    let (time, candidacy, path_length) = (held.time, held.candidacy, held.path_length);
    let (is_eligible, is_open) = (candidacy.is_candidate(), candidacy.is_open());
    let (neighbour, med) = (standing.neighbour, standing.med);
    format!(in alloc;
        "{peer} {time} {candidacy:?} {is_eligible} {is_open} {path_length} {neighbour} {med}"
    ).ok()
}

/// Whether a route is eligible.
pub fn shown_eligible(alloc: Global, exchange: &Exchange, held: &HeldRoute) -> Option<String> {
    let peer = usize::from(held.peer);
    if peer >= exchange.count() {
        return None;
    }
    let is_eligible = exchange.eligible(peer, &held.attributes);
    format!(in alloc; "{is_eligible}").ok()
}

/// Of each client whether it may get a route.
pub fn shown_clients(alloc: Global, exchange: &Exchange, held: &HeldRoute) -> Option<String> {
    let peer = usize::from(held.peer);
    if peer >= exchange.count() {
        return None;
    }
    let mut clients = Vec::new(alloc);
    for client in 0..exchange.count() {
        let is_permitted = exchange.permits(client, peer, &held.attributes);
        clients.push(is_permitted).ok()?;
    }
    format!(in alloc; "{clients:?}").ok()
}

// A route, its sender's number and time, and the values that decisions need. They are whether it is eligible,
// whether it is for all but its sender, and its path length, neighbour AS and MED.
const HELD: &str = "
exchange 64500 192.0.2.0/24; a,64501,192.0.2.11,192.0.2.11; b,64502,192.0.2.12,192.0.2.12; \
    c,64503,192.0.2.13,192.0.2.13; d,64504,192.0.2.14,192.0.2.14
held: IGP | a igp 64501-65010 hop-a | 0 100 PlainOpenIgp true true 2 64501 0
held: EGP | a egp 64501-65010 hop-a | 0 100 PlainOpenEgp true true 2 64501 0
held: INCOMPLETE | a incomplete 64501-65010 hop-a | 0 100 PlainOpenIncomplete true true 2 64501 0
held: the server's AS | a igp 64500 hop-a | 0 100 Ineligible false false 1 64500 0
held: not to b | a igp 64501-65010 hop-a 0:64502 | 0 100 PlainRestrictedIgp true false 2 64501 0
held: to none | a egp 64501-65010 hop-a 0:64500 | 0 100 PlainRestrictedEgp true false 2 64501 0
held: to b alone | a incomplete 64501-65010 hop-a 0:64500,64500:64502 | 0 100 PlainRestrictedIncomplete true false 2 64501 0
held: not eligible, to none | a igp 64500 hop-a 0:64500 | 0 100 Ineligible false false 1 64500 0

# A community that refuses to nobody but its sender, or to nobody (RFC 7947, section 2.3; the communities are our choice).
held: not to a | a igp 64501-65010 hop-a 0:64501 | 0 100 PlainOpenIgp true true 2 64501 0
held: not to a stranger | a igp 64501-65010 hop-a 0:64999 | 0 100 PlainOpenIgp true true 2 64501 0
held: to each by name | a igp 64501-65010 hop-a 0:64500,64500:64502,64500:64503,64500:64504 | \
    0 100 PlainOpenIgp true true 2 64501 0
held: to b, which refuses nothing | a igp 64501-65010 hop-a 64500:64502 | 0 100 PlainOpenIgp true true 2 64501 0

# The path begins with another AS than a's, or has none to begin with: then the neighbour AS is a's own. An AS_SET
# counts 1 (RFC 4271, section 9.1.2.2, a).
held: another AS first | a igp 64502-65010 hop-a | 0 100 OpenIgp true true 2 64502 0
held: another AS first, to none | a egp 64502-65010 hop-a 0:64500 | 0 100 RestrictedEgp true false 2 64502 0
held: no path | a igp no-path hop-a | 0 100 PlainOpenIgp true true 0 64501 0
held: an AS_SET first | a igp {65010,65011}-65013 hop-a | 0 100 PlainOpenIgp true true 2 64501 0
held: an AS_SET and two ASes | a igp {65010,65011,65012}-65013-65014 hop-a | 0 100 PlainOpenIgp true true 3 64501 0

# A MED, which may be 0.
held: MED, EGP | a egp 64501-65010 hop-a med-10 | 0 100 OpenEgp true true 2 64501 10
held: MED, INCOMPLETE | a incomplete 64501-65010 hop-a med-10 | 0 100 OpenIncomplete true true 2 64501 10
held: MED, not to b | a igp 64501-65010 hop-a med-10 0:64502 | 0 100 RestrictedIgp true false 2 64501 10
held: MED, to b alone | a incomplete 64501-65010 hop-a med-10 0:64500,64500:64502 | \
    0 100 RestrictedIncomplete true false 2 64501 10
held: MED 0 | a igp 64501-65010 hop-a med-0 | 0 100 PlainOpenIgp true true 2 64501 0
held: MED, not eligible | a igp 64500 hop-a med-10 | 0 100 Ineligible false false 1 64500 10
held: MED, another AS first | a igp 64502-65010 hop-a med-10 | 0 100 OpenIgp true true 2 64502 10
held: MED, no path | a igp no-path hop-a med-5 | 0 100 OpenIgp true true 0 64501 5

# b refuses a's routes, which restricts these alone.
exchange 64500 192.0.2.0/24; a,64501,192.0.2.11,192.0.2.11; b,64502,192.0.2.12,192.0.2.12,100,a; \
    c,64503,192.0.2.13,192.0.2.13; d,64504,192.0.2.14,192.0.2.14
held: of a | a igp 64501-65010 hop-a | 0 100 PlainRestrictedIgp true false 2 64501 0
held: of b | b igp 64502-65010 hop-a | 1 100 PlainOpenIgp true true 2 64502 0
held: of c | c igp 64503-65010 hop-a | 2 100 PlainOpenIgp true true 2 64503 0
";

#[test]
fn what_decisions_ask_of_a_route_is_held_with_it(rt: HostRuntime) -> Result<(), Fail> {
    check_rows(&rt, rt.alloc(), HELD)
}

// A route, and whether it is eligible.
const ELIGIBLE: &str = "
# Not with the server's AS in its path (RFC 4271, section 9.1.2), nor with the server's address as next hop, nor with
# one outside the subnet (section 6.3).
exchange 64500 192.0.2.0/24; a,64501,192.0.2.11,192.0.2.11; b,64502,192.0.2.12,192.0.2.12
eligible: the sender's own address | a igp 64501 hop-a | true
eligible: another's address in the subnet | a igp 64501 hop-b | true
eligible: the server's address | a igp 64501 hop-server | false
eligible: an address outside the subnet | a igp 64501 hop-outside | false
eligible: the server's AS after the sender's | a igp 64501-64500 hop-a | false
eligible: the server's AS in an AS_SET | a igp 64501-{64500} hop-a | false
eligible: no AS | a igp no-path hop-a | true

# Without a subnet any next hop will do but the server's address.
exchange 64500; a,64501,192.0.2.11,192.0.2.11; b,64502,192.0.2.12,192.0.2.12
eligible: the sender's own address | a igp 64501 hop-a | true
eligible: another's address in the subnet | a igp 64501 hop-b | true
eligible: the server's address | a igp 64501 hop-server | false
eligible: an address outside the subnet | a igp 64501 hop-outside | true
eligible: the server's AS after the sender's | a igp 64501-64500 hop-a | false
eligible: the server's AS in an AS_SET | a igp 64501-{64500} hop-a | false

# A sender may stand outside the subnet, and then its own address will do; it may not have the server's.
exchange 64500 192.0.2.0/24; a,64501,198.51.100.1,192.0.2.11; b,64502,192.0.2.1,192.0.2.12
eligible: the sender's | a igp 64501 hop-outside | true
eligible: another's | b igp 64501 hop-outside | false
eligible: the server's and its own | b igp 64501 hop-server | false
";

#[test]
fn routes_are_eligible_by_path_and_next_hop(rt: HostRuntime) -> Result<(), Fail> {
    check_rows(&rt, rt.alloc(), ELIGIBLE)
}

// A route, and of each client whether it may get it: not its sender.
const EXPORTED: &str = "
# By communities (RFC 1997), which refuse and permit: (0, client's AS) before (server's AS, client's AS) before
# (0, server's AS), in any order in which they stand.
exchange 64500 192.0.2.0/24; a,64501,192.0.2.11,192.0.2.11; b,64502,192.0.2.12,192.0.2.12; \
    c,64503,192.0.2.13,192.0.2.13
exported: no community | a igp 64501 hop-a | [false, true, true]
exported: not to b | a igp 64501 hop-a 0:64502 | [false, false, true]
exported: to none | a igp 64501 hop-a 0:64500 | [false, false, false]
exported: to none but b | a igp 64501 hop-a 0:64500,64500:64502 | [false, true, false]
exported: to none but c | a igp 64501 hop-a 0:64500,64500:64503 | [false, false, true]
exported: to none but c, named first | a igp 64501 hop-a 64500:64503,0:64500 | [false, false, true]
exported: not to b, and to b | a igp 64501 hop-a 0:64502,64500:64502 | [false, false, true]
exported: to b | a igp 64501 hop-a 64500:64502 | [false, true, true]

# No community names an AS number above 65535: 70000 - 65536 is 4464.
exchange 64500 192.0.2.0/24; a,64501,192.0.2.11,192.0.2.11; b,70000,192.0.2.12,192.0.2.12
exported: alone | a igp 64501 hop-a 64500:4464 | [false, true]
exported: with (0, 64500) | a igp 64501 hop-a 0:64500,64500:4464 | [false, false]

# A client refuses peers by name, whatever the communities; its own name and a repeated one have no effect.
exchange 64500 192.0.2.0/24; a,64501,192.0.2.11,192.0.2.11; b,64502,192.0.2.12,192.0.2.12,100,b c c; \
    c,64503,192.0.2.13,192.0.2.13
exported: b refuses all of c | c igp 64501 hop-a 64500:64502 | [true, false, false]
exported: b refuses nothing of a | a igp 64501 hop-a 64500:64502 | [false, true, true]
exported: c refuses nothing of b | b igp 64501 hop-a 64500:64502 | [true, false, true]
";

#[test]
fn communities_and_names_refuse_and_permit(rt: HostRuntime) -> Result<(), Fail> {
    check_rows(&rt, rt.alloc(), EXPORTED)
}
