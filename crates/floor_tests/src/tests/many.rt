//! Many runs, many peers, and reads that fail one after another.

use super::exchanges::{
    AtHand, Peer, Recorded, add_announcement, add_withdrawal, at_hand, exchange, reader_of, run,
    schedule, turns_by_peer, two_peers,
};
use super::rows::{peers_of, said_of_run, said_of_schedule, said_of_tables, threaded};
use rs_floor::{Open, Turn, serve, serve_readers, serve_sharded};
use rs_mrt::MemoryReader;
use std::alloc::Global;
use std::process::Abort;
use std::sync::Wait;
use std::test::*;
use std::thread::Threads;

// A run in which a read of the second reader fails after so many octets of 506, and the first read of the last
// reader. The answer names the first such peer.
fn check_failed_read<R: Threads + Wait + Sync + Abort>(
    rt: &R,
    alloc: Global,
    peers: &[Peer],
    octets: usize,
) {
    let wanted = if octets <= 506 {
        "cannot read the file of peer 1"
    } else {
        "cannot read the file of peer 3"
    };
    let found = threaded(rt, alloc, peers, octets % 3 + 1, 2, false).expect(rt, "memory");
    assert_eq!(rt; found.as_str(), wanted, "after {octets} octets");
}

// Each read of the second reader fails in turn, the one that finds the end too.
#[test]
fn whichever_read_fails_the_least_such_peer_is_told(rt: HostRuntime) {
    let line = "64501/11:nothing 64502/12:collected!0 64503/13:longer 64504/14:nothing!0";
    let mut peers = peers_of(rt.alloc(), line).expect(&rt, "peers");
    for octets in 0..508usize {
        if let Some(peer) = peers.get_mut(1) {
            assert_eq!(rt; peer.file.len(), 506);
            peer.fails = Some(octets);
        }
        check_failed_read(&rt, rt.alloc(), &peers, octets);
    }
}

// A peer that announces one prefix, which no other peer does.
fn announcer_of_one(alloc: Global, place: u32) -> Option<Peer> {
    let asn = place.wrapping_add(64501);
    let mut peer = Peer::new(alloc, asn, place.wrapping_add(1));
    let [_, _, _, number] = place.to_be_bytes();
    let recorded = Recorded {
        place,
        asn,
        time: 100,
        prefix: [number % 200, number, 0],
    };
    add_announcement(&mut peer.file, &recorded, 0).ok()?;
    Some(peer)
}

// As many peers as there may be.
fn peers_of_one(alloc: Global) -> Option<Vec<Peer>> {
    let mut peers = Vec::new(alloc);
    for place in 0..256u32 {
        peers.push(announcer_of_one(alloc, place)?).ok()?;
    }
    Some(peers)
}

// A client has the routes of the 255 other peers.
#[test]
fn as_many_peers_and_shards_as_there_may_be(rt: HostRuntime) {
    let alloc = rt.alloc();
    let peers = peers_of_one(alloc).expect(&rt, "peers");
    let served = run(&rt, alloc, &peers, 4, 16, &Open).expect(&rt, "a run");
    for client in [0, 1, 100, 200, 255] {
        let rows = served.tables().rows(client).expect(&rt, "rows");
        let own = rows.iter().any(|row| row.route.peer == client);
        assert_eq!(rt; (rows.len(), own), (255, false), "of client {client}");
    }
}

// AS numbers and identifiers of six peers.
const SIX: &[(u32, u32)] = &[
    (64501, 11),
    (64501, 2),
    (64502, 13),
    (64502, 4),
    (64503, 15),
    (64504, 6),
];

// Appends what a peer says at a step: it announces or withdraws one of fourteen prefixes in as many shards.
fn add_step(peer: &mut Peer, place: u32, step: u32) -> Option<()> {
    let number = place.wrapping_mul(5).wrapping_add(step.wrapping_mul(3)) % 14;
    let recorded = Recorded {
        place,
        asn: peer.asn,
        time: step,
        prefix: [u8::try_from(number).ok()?, 0, 0],
    };
    if step % 5 == 4 {
        return add_withdrawal(&mut peer.file, &recorded).ok();
    }
    let med = u8::try_from(place.wrapping_add(step) % 3).ok()?;
    add_announcement(&mut peer.file, &recorded, med).ok()
}

// A peer that says two dozen such things.
fn busy_peer(alloc: Global, place: u32, asn: u32, id: u32) -> Option<Peer> {
    let mut peer = Peer::new(alloc, asn, id);
    for step in 0..24u32 {
        add_step(&mut peer, place, step)?;
    }
    Some(peer)
}

/// Six peers that say two dozen things each, of fourteen prefixes in as many shards.
pub fn busy_peers(alloc: Global) -> Option<Vec<Peer>> {
    let mut peers = Vec::new(alloc);
    let mut place = 0;
    for (asn, id) in SIX {
        peers.push(busy_peer(alloc, place, *asn, *id)?).ok()?;
        place = place.wrapping_add(1);
    }
    Some(peers)
}

// A schedule of turns that look random, of seven peers (multiplicative, modulo 2^32).
fn random_turns(alloc: Global, count: usize) -> Option<Vec<Turn>> {
    let mut turns = Vec::new(alloc);
    let mut state = 5u32;
    for _ in 0..count {
        state = state.wrapping_mul(1_664_525).wrapping_add(1_013_904_223);
        let peer = usize::try_from(state >> 20).unwrap_or(0) % 7;
        let turn = if state >> 16 & 1 == 0 {
            Turn::Send(peer)
        } else {
            Turn::Receive(peer)
        };
        turns.push(turn).ok()?;
    }
    Some(turns)
}

// What a schedule of the six peers leaves.
fn left_by(
    rt: &impl Abort,
    alloc: Global,
    peers: &[Peer],
    capacity: usize,
    turns: &[Turn],
) -> Option<String> {
    said_of_schedule(rt, alloc, schedule(alloc, peers, capacity, turns))
}

// However the turns are taken, all is sent and received, and the same is left.
#[test]
fn schedules_leave_the_same_tables(rt: HostRuntime) {
    let alloc = rt.alloc();
    let peers = busy_peers(alloc).expect(&rt, "peers");
    let ordered = turns_by_peer(alloc, 6, 25).expect(&rt, "turns");
    let random = random_turns(alloc, 10_000).expect(&rt, "turns");
    let one = left_by(&rt, alloc, &peers, 1, &ordered).expect(&rt, "memory");
    let other = left_by(&rt, alloc, &peers, 3, &random).expect(&rt, "memory");
    assert_eq!(rt; one.as_str(), other.as_str());
    let drained = one.split("sent 25, received 25, closed; ").count();
    assert_eq!(rt; drained, 7);
}

// The tables of a schedule that takes one peer after another.
fn tables_by_peer(alloc: Global, peers: &[Peer]) -> Option<String> {
    let turns = turns_by_peer(alloc, 6, 25)?;
    let floor = schedule(alloc, peers, 1, &turns).ok()?;
    said_of_tables(alloc, floor.tables())
}

// The tables of a run.
fn tables_of_run<R: Threads + Wait + Sync + Abort>(
    rt: &R,
    alloc: Global,
    peers: &[Peer],
) -> Option<String> {
    let served = run(rt, alloc, peers, 1, 1, &Open).ok()?;
    said_of_tables(alloc, served.tables())
}

// What comes of a run whose tables have many routes, and are those of a schedule.
fn said_as_scheduled<R: Threads + Wait + Sync + Abort>(
    rt: &R,
    alloc: Global,
    peers: &[Peer],
) -> Option<String> {
    let tables = tables_by_peer(alloc, peers)?;
    if tables.split(" of ").count() <= 6 * 4 || tables_of_run(rt, alloc, peers)? != tables {
        return None;
    }
    threaded(rt, alloc, peers, 1, 1, false)
}

// Five hundred runs leave the same, each with other rings or shards than the one before it: the rings are of `least`
// changes or of up to three more. Answers the first that doesn't.
fn first_other<R: Threads + Wait + Sync + Abort>(
    rt: &R,
    alloc: Global,
    peers: &[Peer],
    least: usize,
    wanted: &str,
) -> Option<usize> {
    for number in 0..500usize {
        let (capacity, shards) = (least.wrapping_add(number % 4), number / 4 % 4 + 1);
        match threaded(rt, alloc, peers, capacity, shards, false) {
            Some(found) if found.as_str() == wanted => {}
            _ => return Some(number),
        }
    }
    None
}

// Five hundred runs leave the tables of a schedule.
fn check_runs<R: Threads + Wait + Sync + Abort>(rt: &R, alloc: Global, least: usize) {
    let peers = busy_peers(alloc).expect(rt, "peers");
    let wanted = said_as_scheduled(rt, alloc, &peers).expect(rt, "the tables of a schedule");
    assert_eq!(rt; first_other(rt, alloc, &peers, least, &wanted), None);
}

#[test]
fn five_hundred_runs_through_small_rings_leave_the_tables_of_a_schedule(rt: HostRuntime) {
    check_runs(&rt, rt.alloc(), 1);
}

#[test]
fn five_hundred_runs_through_larger_rings_leave_the_tables_of_a_schedule(rt: HostRuntime) {
    check_runs(&rt, rt.alloc(), 5);
}

// What comes of a run over files at hand.
fn by_files<R: Threads + Wait + Sync + Abort>(
    rt: &R,
    alloc: Global,
    peers: &[Peer],
) -> Option<String> {
    let AtHand { plan, files } = at_hand(alloc, peers)?;
    said_of_run(rt, alloc, serve(rt, alloc, &plan, &files, 2, &Open))
}

// What comes of a run over readers, with so many shards or with one.
fn by_readers<R: Threads + Wait + Sync + Abort>(
    rt: &R,
    alloc: Global,
    peers: &[Peer],
    shards: Option<usize>,
) -> Option<String> {
    let plan = exchange(alloc, peers)?;
    let readers: Vec<MemoryReader<'_>> = peers
        .iter()
        .map(|peer| reader_of(&peer.file, 7, None))
        .collect(alloc)
        .ok()?;
    assert!(rt; readers.len() == plan.count());
    let answer = match shards {
        Some(shards) => serve_sharded(rt, alloc, &plan, readers, 2, shards, &Open),
        None => serve_readers(rt, alloc, &plan, readers, 2, &Open),
    };
    said_of_run(rt, alloc, answer)
}

#[test]
fn each_call_leaves_the_same(rt: HostRuntime) {
    let alloc = rt.alloc();
    let line = "64501/11:restricted 64502/12:nothing 64503/13:longer 64504/14:collected";
    let peers = peers_of(alloc, line).expect(&rt, "peers");
    let wanted = threaded(&rt, alloc, &peers, 2, 1, false);
    assert!(rt; wanted.is_some());
    assert_eq!(rt; by_files(&rt, alloc, &peers), wanted);
    assert_eq!(rt; by_readers(&rt, alloc, &peers, None), wanted);
    assert_eq!(rt; by_readers(&rt, alloc, &peers, Some(3)), wanted);
}

// How many rows the second of two peers has after a schedule, and how many changes of the first one were received: it
// announces so many prefixes, through a ring of one change.
fn scheduled_rows(alloc: Global, count: u32, turns: &[Turn]) -> Option<(usize, u64)> {
    let peers = two_peers(alloc, count)?;
    let floor = schedule(alloc, &peers, 1, turns).ok()?;
    if floor.tables().count() == 0 {
        return None;
    }
    Some((floor.tables().rows(1).ok()?.len(), floor.received(0)))
}

#[test]
fn a_schedule_of_many_changes_leaves_a_row_for_each_prefix(rt: HostRuntime) {
    let turns = turns_by_peer(rt.alloc(), 2, 5_000).expect(&rt, "turns");
    let left = scheduled_rows(rt.alloc(), 4_999, &turns);
    assert_eq!(rt; left, Some((4_999, 5_000)));
}
