//! Runs whose threads a test watches, or makes wait, at their gates.

use super::exchanges::{run, two_announcers};
use rs_floor::Gate;
use std::alloc::Global;
use std::process::Abort;
use std::sync::Wait;
use std::sync::atomic::{AtomicBool, AtomicU64, Ordering};
use std::test::*;
use std::thread;
use std::thread::Threads;

// A gate at which the first items of two workers, or of two shards, wait for each other, each for so many turns at
// most. It counts what passes, and what passes out of turn.
#[derive(Drop)]
struct Crossing {
    of_shards: bool,
    passed: [AtomicU64; 2],
    strays: AtomicU64,
    came: [AtomicBool; 2],
    missed: AtomicBool,
}

impl Crossing {
    fn new(of_shards: bool) -> Crossing {
        Crossing {
            of_shards,
            passed: [AtomicU64::new(0), AtomicU64::new(0)],
            strays: AtomicU64::new(0),
            came: [AtomicBool::new(false), AtomicBool::new(false)],
            missed: AtomicBool::new(false),
        }
    }

    // One of the two waits for the other.
    fn wait(&self, which: usize) {
        self.came[which % 2].store(true, Ordering::SeqCst);
        for _ in 0..1_000_000 {
            if self.came[1 - which % 2].load(Ordering::SeqCst) {
                return;
            }
            thread::yield_now();
        }
        self.missed.store(true, Ordering::SeqCst);
    }

    // The item of this number of one of the two passes.
    fn cross(&self, which: usize, number: u64) {
        if self.passed[which % 2].fetch_add(1, Ordering::SeqCst) != number {
            self.strays.fetch_add(1, Ordering::SeqCst);
        }
        if number == 0 {
            self.wait(which);
        }
    }

    // How many items of each passed, how many out of turn, and whether one missed the other.
    fn seen(&self) -> (u64, u64, u64, bool) {
        (
            self.passed[0].load(Ordering::SeqCst),
            self.passed[1].load(Ordering::SeqCst),
            self.strays.load(Ordering::SeqCst),
            self.missed.load(Ordering::SeqCst),
        )
    }
}

impl Gate for Crossing {
    fn pass(&self, peer: usize, number: u64) {
        if !self.of_shards {
            self.cross(peer, number);
        }
    }

    fn shard_pass(&self, shard: usize, number: u64) {
        if self.of_shards {
            self.cross(shard, number);
        }
    }
}

// How many rows each of two peers has after a run in which they announce so many prefixes, each prefixes of its own,
// through rings of one change.
fn count_rows<R: Threads + Wait + Sync + Abort, G: Gate>(
    rt: &R,
    alloc: Global,
    (first, second): (u32, u32),
    shards: usize,
    gate: &G,
) -> Option<(usize, usize)> {
    let peers = two_announcers(alloc, first, second)?;
    let served = run(rt, alloc, &peers, 1, shards, gate).ok()?;
    let tables = served.tables();
    if tables.count() != 2 {
        return None;
    }
    Some((tables.rows(0).ok()?.len(), tables.rows(1).ok()?.len()))
}

// Each change of both workers passes once and in order, the closes too.
#[test]
fn two_workers_run_at_once(rt: HostRuntime) {
    for (first, second) in [(1, 0), (100, 0), (100, 70)] {
        let gate = Crossing::new(false);
        let rows = count_rows(&rt, rt.alloc(), (first, second), 1, &gate);
        let passed = (u64::from(first) + 1, u64::from(second) + 1, 0, false);
        let wanted = Some((second as usize, first as usize));
        assert_eq!(rt; (rows, gate.seen()), (wanted, passed));
    }
}

// Each item passes once and in order: half of the prefixes are in shard 0 and half in shard 1, and each has two closes
// and the last item besides.
#[test]
fn two_shards_run_at_once(rt: HostRuntime) {
    for (first, second) in [(2, 0), (100, 0), (100, 70)] {
        let gate = Crossing::new(true);
        let rows = count_rows(&rt, rt.alloc(), (first, second), 2, &gate);
        let half = u64::from((first + second) / 2) + 3;
        let wanted = Some((second as usize, first as usize));
        assert_eq!(rt; (rows, gate.seen()), (wanted, (half, half, 0, false)));
    }
}

// A gate that counts the first items of shards.
#[derive(Drop)]
struct FirstItems {
    passed: AtomicU64,
}

impl Gate for FirstItems {
    fn pass(&self, _peer: usize, _number: u64) {}

    fn shard_pass(&self, _shard: usize, number: u64) {
        if number == 0 {
            self.passed.fetch_add(1, Ordering::SeqCst);
        }
    }
}

#[test]
fn as_many_shards_run_as_are_asked_for(rt: HostRuntime) {
    for shards in [1, 2, 3, 16] {
        let gate = FirstItems {
            passed: AtomicU64::new(0),
        };
        let rows = count_rows(&rt, rt.alloc(), (10, 0), shards, &gate);
        let passed = gate.passed.load(Ordering::SeqCst);
        assert_eq!(rt; (rows, passed), (Some((0, 10)), shards as u64));
    }
}

// A gate that holds the first item of the shard, and sees whether a worker goes on too far meanwhile.
#[derive(Drop)]
struct HeldShard {
    holds: AtomicBool,
    too_far: AtomicBool,
}

impl Gate for HeldShard {
    fn pass(&self, _peer: usize, number: u64) {
        if number > 4 && self.holds.load(Ordering::SeqCst) {
            self.too_far.store(true, Ordering::SeqCst);
        }
    }

    fn shard_pass(&self, _shard: usize, number: u64) {
        if number > 0 {
            return;
        }
        for _ in 0..10_000 {
            thread::yield_now();
        }
        self.holds.store(false, Ordering::SeqCst);
    }
}

#[test]
fn a_shard_that_is_held_holds_the_worker(rt: HostRuntime) {
    let gate = HeldShard {
        holds: AtomicBool::new(true),
        too_far: AtomicBool::new(false),
    };
    let rows = count_rows(&rt, rt.alloc(), (4_999, 0), 1, &gate);
    assert_eq!(rt;
        (rows, gate.too_far.load(Ordering::SeqCst)),
        (Some((0, 4_999)), false)
    );
}
