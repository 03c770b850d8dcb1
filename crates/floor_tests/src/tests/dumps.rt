//! The dumps of a run: the same octets with any number of shards, and those of a schedule.

use super::exchanges::{Peer, run, schedule, turns_by_peer, two_peers};
use super::many::busy_peers;
use super::rows::peers_of;
use rs_dump::write_dump;
use rs_floor::Open;
use rs_mrt::{Limits, MemoryWriter};
use rs_table::Tables;
use std::alloc::Global;
use std::process::Abort;
use std::sync::Wait;
use std::test::*;
use std::thread::Threads;

// The dump of a client.
fn dump_of(alloc: Global, tables: &Tables, client: usize) -> Option<Vec<u8>> {
    if client >= tables.count() {
        return None;
    }
    let rows = tables.rows(client).ok()?;
    let mut out = MemoryWriter::new(alloc, Limits::none());
    write_dump(alloc, &mut out, tables.plan(), client, &rows, 1_700_000_000).ok()?;
    Some(out.into_octets())
}

// The dumps of all clients.
fn dumps_of(alloc: Global, tables: &Tables) -> Option<Vec<Vec<u8>>> {
    let mut dumps = Vec::new(alloc);
    for client in 0..tables.count() {
        dumps.push(dump_of(alloc, tables, client)?).ok()?;
    }
    Some(dumps)
}

// The dumps of a run with so many shards.
fn dumps_with<R: Threads + Wait + Sync + Abort>(
    rt: &R,
    alloc: Global,
    peers: &[Peer],
    shards: usize,
) -> Option<Vec<Vec<u8>>> {
    let served = run(rt, alloc, peers, 4, shards, &Open).ok()?;
    dumps_of(alloc, served.tables())
}

// The dumps of a schedule that takes one peer after another.
fn scheduled_dumps(alloc: Global, peers: &[Peer]) -> Option<Vec<Vec<u8>>> {
    let turns = turns_by_peer(alloc, peers.len(), 25)?;
    let floor = schedule(alloc, peers, 1, &turns).ok()?;
    dumps_of(alloc, floor.tables())
}

// The dumps with 1, 3 and 16 shards are those of a schedule.
fn check_dumps<R: Threads + Wait + Sync + Abort>(rt: &R, alloc: Global, peers: &[Peer]) {
    let wanted = scheduled_dumps(alloc, peers);
    assert!(rt; wanted.is_some());
    for shards in [1, 3, 16] {
        let found = dumps_with(rt, alloc, peers, shards);
        assert!(rt; found == wanted, "with {shards} shards");
    }
}

#[test]
fn any_number_of_shards_gives_the_same_dumps(rt: HostRuntime) {
    let busy = busy_peers(rt.alloc()).expect(&rt, "peers");
    check_dumps(&rt, rt.alloc(), &busy);
    let line = "64501/11:collected 64502/12:nothing 64503/13:longer 64504/14:nothing";
    let collected = peers_of(rt.alloc(), line).expect(&rt, "peers");
    check_dumps(&rt, rt.alloc(), &collected);
}

// Of 4,999 prefixes each of two clients has a dump: the one that announced them an empty one.
#[test]
fn any_number_of_shards_gives_the_same_dumps_of_many_prefixes(rt: HostRuntime) {
    let peers = two_peers(rt.alloc(), 4_999).expect(&rt, "peers");
    let wanted = dumps_with(&rt, rt.alloc(), &peers, 1).expect(&rt, "dumps");
    assert_eq!(rt; wanted.len(), 2);
    assert!(rt; wanted[0].len() < 100 && wanted[1].len() > 4_999 * 50);
    for shards in [3, 16] {
        let found = dumps_with(&rt, rt.alloc(), &peers, shards).expect(&rt, "dumps");
        assert!(rt; found == wanted, "with {shards} shards");
    }
}
