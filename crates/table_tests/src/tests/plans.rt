//! Plans that are taken, and the first faults of those that are not.

use super::exchanges::{judged, plan};
use super::{FOUR_PEERS, check, check_rows};
use rs_choice::{Exchange, PlanFault};
use std::alloc::Global;
use std::test::Fail;

/// How many peers an exchange has, the server's AS and subnet, and the name and address of the third peer.
pub fn shown(alloc: Global, exchange: &Exchange) -> Option<String> {
    let (count, local) = (exchange.count(), exchange.local());
    if count < 3 {
        return None;
    }
    let third = exchange.peer(2);
    let (asn, subnet, name, address) = (local.asn, local.subnet, &third.name, third.address);
    format!(in alloc; "{count} {asn} {subnet:?} {name} {address:08X}").ok()
}

/// The fault of the plan that a text describes, or None.
pub fn fault_of(alloc: Global, text: &str) -> Option<String> {
    let fault = judged(alloc, text)?.err();
    format!(in alloc; "{fault:?}").ok()
}

// A plan, and its first fault: of the whole plan first, then of one peer after another, and last a name that no peer
// has.
const PLANS: &str = "
exchange 64500 192.0.2.0/24; a,64501,192.0.2.11,192.0.2.11; b,64502,192.0.2.12,192.0.2.12; \
    c,64503,192.0.2.13,192.0.2.13; d,64504,192.0.2.14,192.0.2.14
plan: four peers, and the third | | 4 64500 Some(Prefix { address: 3221225984, len: 24 }) c C000020D
fault: no peer | 64500 192.0.2.0/24 | Some(NoPeer)
fault: no AS number and no peer | 0 192.0.2.0/24 | Some(NoPeer)
fault: no AS number of the server, and no name | 0 192.0.2.0/24; ,64501,192.0.2.11,192.0.2.11 | Some(ZeroAs(None))
fault: one name twice | 64500 192.0.2.0/24; a,64501,192.0.2.11,192.0.2.11; a,64502,192.0.2.12,192.0.2.12 | \
    Some(RepeatedName(1))
fault: one address twice, before an unknown name | 64500 192.0.2.0/24; a,64501,192.0.2.11,192.0.2.11,100,b; \
    b,64502,192.0.2.11,192.0.2.12,100,z | Some(RepeatedAddress(1))
fault: a name before an address | 64500 192.0.2.0/24; a,64501,192.0.2.11,192.0.2.11; \
    a,64502,192.0.2.11,192.0.2.12 | Some(RepeatedName(1))
fault: each peer wholly before the next | 64500 192.0.2.0/24; a,0,192.0.2.11,192.0.2.11,100,z; \
    ,64502,192.0.2.12,192.0.2.12 | Some(ZeroAs(Some(0)))
fault: an empty name | 64500 192.0.2.0/24; a,64501,192.0.2.11,192.0.2.11; ,64502,192.0.2.12,192.0.2.12 | \
    Some(InvalidName(1))
fault: a space in a name | 64500 192.0.2.0/24; a,64501,192.0.2.11,192.0.2.11; \
    b c,64502,192.0.2.12,192.0.2.12 | Some(InvalidName(1))
fault: a dot in a name | 64500 192.0.2.0/24; b.c,64501,192.0.2.11,192.0.2.11 | Some(InvalidName(0))
fault: a name of 64 octets | 64500 192.0.2.0/24; \
    0123456789-ABCDEFGHIJKLMNOPQRSTUVWXYZ_abcdefghijklmnopqrstuvwxyz,64501,192.0.2.11,192.0.2.11 | None
fault: a name of 65 octets | 64500 192.0.2.0/24; \
    0123456789-ABCDEFGHIJKLMNOPQRSTUVWXYZ_abcdefghijklmnopqrstuvwxyz0,64501,192.0.2.11,192.0.2.11 | \
    Some(InvalidName(0))
fault: its own name and a repeated one are lawful, an unknown one is not | 64500 192.0.2.0/24; \
    a,64501,192.0.2.11,192.0.2.11,100,a b b; b,64502,192.0.2.12,192.0.2.12,100,a z | Some(UnknownName(1))
fault: one identifier twice, and the name of a later peer | 64500 192.0.2.0/24; a,64501,192.0.2.11,192.0.2.11,100,b; \
    b,64502,192.0.2.12,192.0.2.11 | None
";

#[test]
fn a_plan_has_the_fault_that_comes_first(rt: HostRuntime) -> Result<(), Fail> {
    check_rows(&rt, rt.alloc(), PLANS)
}

// The fault of the plan of a server and so many peers, all alike.
fn fault_of_many(alloc: Global, server: &str, count: u32) -> Option<String> {
    let mut text = String::from_str(alloc, server).ok()?;
    for _ in 0..count {
        text.push_str("; a,64501,192.0.2.11,192.0.2.11").ok()?;
    }
    fault_of(alloc, &text)
}

#[test]
fn a_plan_has_at_most_256_peers(rt: HostRuntime) -> Result<(), Fail> {
    for (server, count, wanted) in [
        ("0", 257, "Some(TooManyPeers)"),
        ("0", 256, "Some(ZeroAs(None))"),
        ("64500 192.0.2.0/24", 256, "Some(RepeatedName(1))"),
    ] {
        check(
            fault_of_many(rt.alloc(), server, count),
            wanted,
            (server, ""),
        )?;
    }
    Ok(())
}

// Faults, each with its number, the number of its peer or None, and its text.
const FAULTS: &[(PlanFault, &str)] = &[
    (PlanFault::NoPeer, "1 None there is no peer"),
    (
        PlanFault::TooManyPeers,
        "2 None there are more than 256 peers",
    ),
    (
        PlanFault::InvalidName(0),
        "3 Some(0) the name of peer 0 is empty, longer than 64 octets, or has other characters than \
         letters, digits, hyphens and underscores",
    ),
    (
        PlanFault::RepeatedName(1),
        "4 Some(1) an earlier peer has the name of peer 1",
    ),
    (
        PlanFault::RepeatedAddress(2),
        "5 Some(2) an earlier peer has the address of peer 2",
    ),
    (PlanFault::ZeroAs(Some(3)), "6 Some(3) an AS number is 0"),
    (PlanFault::ZeroAs(None), "6 None an AS number is 0"),
    (
        PlanFault::UnknownName(4),
        "7 Some(4) peer 4 refuses routes from a name that no peer has",
    ),
    (PlanFault::Memory, "8 None out of memory"),
];

// The number of a fault, that of its peer, and its text.
fn text_of(alloc: Global, fault: PlanFault) -> Option<String> {
    let (number, peer) = (fault.number(), fault.peer());
    format!(in alloc; "{number} {peer:?} {fault}").ok()
}

#[test]
fn faults_are_numbered(rt: HostRuntime) -> Result<(), Fail> {
    for (fault, wanted) in FAULTS {
        check(text_of(rt.alloc(), *fault), wanted, (wanted, ""))?;
    }
    Ok(())
}

#[test]
fn refused_memory_is_no_fault_of_a_plan(rt: HostRuntime) -> Result<(), Fail> {
    let Some((server, peers)) = plan(rt.alloc(), FOUR_PEERS) else {
        return Ok(());
    };
    match Exchange::new(rt.alloc(), server, peers) {
        Ok(_) | Err(PlanFault::Memory) => Ok(()),
        Err(fault) => Err(Fail::new(fault)),
    }
}
