//! Whole runs and schedules, row by row.
//!
//! A row has its name, and then its peers. Each peer has its AS number and its identifier, and behind a colon its
//! recorded session. `!78` says that a read fails after 78 octets.
//!
//! Each line `by ..` names what is done, and the lines after it have the results. `threads` does runs on threads: each
//! through rings of so many changes, and with so many shards. `losses` does the same where sessions are lost.
//! `schedule` does a schedule through rings of so many changes, in these turns. The turn `s0` sends the next change of
//! peer 0, and the turn `r0` receives one.

use super::changes::add_prefix;
use super::exchanges::{Peer, run, schedule};
use rs_floor::{Floor, FloorRefused, Gate, Served, Turn};
use rs_table::Tables;
use spelled_in_hex::octets;
use std::alloc::{AllocError, Global};
use std::process::Abort;
use std::sync::Wait;
use std::sync::atomic::{AtomicU64, Ordering};
use std::test::*;
use std::thread::Threads;

// What may be recorded of a peer, by its name.
const FILES: &[(&str, &str)] = &[
    ("nothing", ""),
    // The first peer announces 203.0.113.0/24.
    (
        "update",
        "00000064 0010 0004 00000043 0000FBF5 0000FBF4 0000 0001 C000020B C0000201 FFFFFFFFFFFFFFFFFFFFFFFFFFFFFFFF
        002F 02 0000 0014 40010100 40020602010000FBF5 400304C000020B 18CB0071",
    ),
    // It announces 203.0.113.0/24, and then 198.51.100.0/24.
    (
        "two-updates",
        "00000064 0010 0004 00000043 0000FBF5 0000FBF4 0000 0001 C000020B C0000201 FFFFFFFFFFFFFFFFFFFFFFFFFFFFFFFF
        002F 02 0000 0014 40010100 40020602010000FBF5 400304C000020B 18CB0071
        00000065 0010 0004 00000043 0000FBF5 0000FBF4 0000 0001 C000020B C0000201 FFFFFFFFFFFFFFFFFFFFFFFFFFFFFFFF
        002F 02 0000 0014 40010100 40020602010000FBF5 400304C000020B 18C63364",
    ),
    // It announces both, and is lost (RFC 6396, section 4.4.1).
    (
        "lost",
        "00000064 0010 0004 00000047 0000FBF5 0000FBF4 0000 0001 C000020B C0000201 FFFFFFFFFFFFFFFFFFFFFFFFFFFFFFFF
        0033 02 0000 0014 40010100 40020602010000FBF5 400304C000020B 18C63364 18CB0071
        00000065 0010 0005 00000018 0000FBF5 0000FBF4 0000 0001 C000020B C0000201 0006 0001",
    ),
    // The same, and it announces 203.0.113.0/24 again.
    (
        "lost-and-back",
        "00000064 0010 0004 00000047 0000FBF5 0000FBF4 0000 0001 C000020B C0000201 FFFFFFFFFFFFFFFFFFFFFFFFFFFFFFFF
        0033 02 0000 0014 40010100 40020602010000FBF5 400304C000020B 18C63364 18CB0071
        00000065 0010 0005 00000018 0000FBF5 0000FBF4 0000 0001 C000020B C0000201 0006 0001
        00000066 0010 0004 00000043 0000FBF5 0000FBF4 0000 0001 C000020B C0000201 FFFFFFFFFFFFFFFFFFFFFFFFFFFFFFFF
        002F 02 0000 0014 40010100 40020602010000FBF5 400304C000020B 18CB0071",
    ),
    // It announces 203.0.113.0/24, which isn't for AS 64502, by its communities.
    (
        "restricted",
        "00000064 0010 0004 0000004A 0000FBF5 0000FBF4 0000 0001 C000020B C0000201 FFFFFFFFFFFFFFFFFFFFFFFFFFFFFFFF
        0036 02 0000 001B 40010100 40020602010000FBF5 400304C000020B C008040000FBF6 18CB0071",
    ),
    // The third peer, AS 64503, announces 203.0.113.0/24 with a longer path.
    (
        "longer",
        "00000064 0010 0004 00000047 0000FBF7 0000FBF4 0000 0001 C000020D C0000201 FFFFFFFFFFFFFFFFFFFFFFFFFFFFFFFF
        0033 02 0000 0018 40010100 40020A02020000FBF70000FDF2 400304C000020D 18CB0071",
    ),
    // What a collector recorded, 506 octets: records of others, of other families and of other forms between those of
    // the first peer.
    (
        "collected",
        "00000064 0010 0004 00000043 0000FBF5 0000FBF4 0000 0001 C000020B C0000201 FFFFFFFFFFFFFFFFFFFFFFFFFFFFFFFF
        002F 02 0000 0014 40010100 40020602010000FBF5 400304C000020B 18CB0071
        00000064 0010 0004 00000043 0000FBF6 0000FBF4 0000 0001 C000020C C0000201 FFFFFFFFFFFFFFFFFFFFFFFFFFFFFFFF
        002F 02 0000 0014 40010100 40020602010000FBF6 400304C000020C 18CB0071
        00000064 0010 0004 0000005B 0000FBF5 0000FBF4 0000 0002 00000000000000000000000000000000
        00000000000000000000000000000000 FFFFFFFFFFFFFFFFFFFFFFFFFFFFFFFF
        002F 02 0000 0014 40010100 40020602010000FBF5 400304C000020B 18CB0071
        00000064 0010 0001 0000003F FBF5 FBF4 0000 0001 C000020B C0000201 FFFFFFFFFFFFFFFFFFFFFFFFFFFFFFFF
        002F 02 0000 0014 40010100 40020602010000FBF5 400304C000020B 18CB0071
        00000064 0010 0005 00000018 0000FBF7 0000FBF4 0000 0001 C000020D C0000201 0006 0001
        00000064 0010 0004 00000027 0000FBF8 0000FBF4 0000 0001 C000020E C0000201 FFFFFFFFFFFFFFFFFFFFFFFFFFFFFFFF
        0013 04
        00000065 0011 0004 00000047 00000000 0000FBF5 0000FBF4 0000 0001 C000020B C0000201
        FFFFFFFFFFFFFFFFFFFFFFFFFFFFFFFF 002F 02 0000 0014 40010100 40020602010000FBF5 400304C000020B 18C63364",
    ),
    // Three peers announce 203.0.113.0/24 with paths of two AS numbers: the first two, both AS 64501, with MED 10 and
    // MED 5, and the third one, AS 64502. The second one withdraws it.
    (
        "med-10",
        "00000064 0010 0004 0000004E 0000FBF5 0000FBF4 0000 0001 C000020B C0000201 FFFFFFFFFFFFFFFFFFFFFFFFFFFFFFFF
        003A 02 0000 001F 40010100 40020A02020000FBF50000FDF2 400304C000020B 8004040000000A 18CB0071",
    ),
    (
        "med-5-and-away",
        "00000064 0010 0004 0000004E 0000FBF5 0000FBF4 0000 0001 C000020C C0000201 FFFFFFFFFFFFFFFFFFFFFFFFFFFFFFFF
        003A 02 0000 001F 40010100 40020A02020000FBF50000FDF2 400304C000020B 80040400000005 18CB0071
        00000065 0010 0004 0000002F 0000FBF5 0000FBF4 0000 0001 C000020C C0000201 FFFFFFFFFFFFFFFFFFFFFFFFFFFFFFFF
        001B 02 0004 18CB0071 0000",
    ),
    (
        "no-med",
        "00000064 0010 0004 00000047 0000FBF6 0000FBF4 0000 0001 C000020D C0000201 FFFFFFFFFFFFFFFFFFFFFFFFFFFFFFFF
        0033 02 0000 0018 40010100 40020A02020000FBF60000FDF2 400304C000020B 18CB0071",
    ),
];

/// The digits of what is recorded.
pub fn digits(name: &str) -> Option<&'static str> {
    for (known, digits) in FILES {
        if name == *known {
            return Some(digits);
        }
    }
    None
}

// The peer of a word.
fn peer_of(alloc: Global, word: &str) -> Option<Peer> {
    let (who, name) = word.split_once(':')?;
    let (asn, id) = who.split_once('/')?;
    let (name, fails) = name.split_once('!').unwrap_or((name, ""));
    let mut peer = Peer::new(alloc, asn.parse().ok()?, id.parse().ok()?);
    peer.piece = 1;
    peer.fails = fails.parse().ok();
    peer.file = octets(alloc, &[digits(name)?]).ok()?;
    Some(peer)
}

/// The peers of a line.
pub fn peers_of(alloc: Global, line: &str) -> Option<Vec<Peer>> {
    let mut peers = Vec::new(alloc);
    for word in line.split_whitespace() {
        peers.push(peer_of(alloc, word)?).ok()?;
    }
    Some(peers)
}

// Appends the rows of a client's table: each prefix, the peer whose route the client gets on it, and when it was
// announced.
fn add_rows(said: &mut String, tables: &Tables, client: usize) -> Result<(), AllocError> {
    for row in tables.rows(client)? {
        said.push_str("; ")?;
        add_prefix(said, row.prefix)?;
        let (peer, time) = (row.route.peer, row.route.time);
        write!(said, " of {peer} at {time}")?;
    }
    said.push('\n')
}

/// The rows of all clients, if there is memory to say them.
pub fn said_of_tables(alloc: Global, tables: &Tables) -> Option<String> {
    let mut said = String::new(alloc);
    for client in 0..tables.count() {
        add_rows(&mut said, tables, client).ok()?;
    }
    Some(said)
}

// Appends how the session of a peer ended.
fn add_end(
    rt: &impl Abort,
    said: &mut String,
    served: &Served,
    peer: usize,
) -> Result<(), AllocError> {
    assert!(rt; peer < served.tables().count());
    let end = served.end(peer);
    let (changes, passed, reason) = (end.changes, end.passed, end.reason);
    write!(
        said,
        "{peer}: changes {changes}, passed over {passed}, {reason:?}"
    )
}

// Appends what a run leaves.
fn add_served(rt: &impl Abort, said: &mut String, served: &Served) -> Result<(), AllocError> {
    for peer in 0..served.tables().count() {
        add_end(rt, said, served, peer)?;
        add_rows(said, served.tables(), peer)?;
    }
    Ok(())
}

/// What comes of a run, if there is memory to say it.
pub fn said_of_run(
    rt: &impl Abort,
    alloc: Global,
    answer: Result<Served, FloorRefused>,
) -> Option<String> {
    let mut said = String::new(alloc);
    match answer {
        Ok(served) => add_served(rt, &mut said, &served).ok()?,
        Err(FloorRefused::Memory) => return None,
        Err(refused) => write!(said, "{refused}").ok()?,
    }
    Some(said)
}

// Appends how many changes of a peer were sent and received, and whether it is closed.
fn add_counts(
    rt: &impl Abort,
    said: &mut String,
    floor: &Floor,
    peer: usize,
) -> Result<(), AllocError> {
    assert!(rt; peer < floor.tables().count());
    let (sent, received) = (floor.sent(peer), floor.received(peer));
    let state = if floor.tables().is_closed(peer) {
        "closed"
    } else {
        "open"
    };
    write!(said, "{peer}: sent {sent}, received {received}, {state}")
}

// Appends what a schedule leaves.
fn add_floor(rt: &impl Abort, said: &mut String, floor: &Floor) -> Result<(), AllocError> {
    for peer in 0..floor.tables().count() {
        add_counts(rt, said, floor, peer)?;
        add_rows(said, floor.tables(), peer)?;
    }
    Ok(())
}

/// What comes of a schedule, if there is memory to say it.
pub fn said_of_schedule(
    rt: &impl Abort,
    alloc: Global,
    answer: Result<Floor, FloorRefused>,
) -> Option<String> {
    let mut said = String::new(alloc);
    match answer {
        Ok(floor) => add_floor(rt, &mut said, &floor).ok()?,
        Err(FloorRefused::Memory) => return None,
        Err(refused) => write!(said, "{refused}").ok()?,
    }
    Some(said)
}

// The turn of a word.
fn turn_of(word: &str) -> Option<Turn> {
    match word.strip_prefix('s') {
        Some(peer) => Some(Turn::Send(peer.parse().ok()?)),
        None => Some(Turn::Receive(word.strip_prefix('r')?.parse().ok()?)),
    }
}

// The turns of a line.
fn turns_of(alloc: Global, line: &str) -> Option<Vec<Turn>> {
    let mut turns = Vec::new(alloc);
    for word in line.split_whitespace() {
        turns.push(turn_of(word)?).ok()?;
    }
    Some(turns)
}

// What comes of a schedule with this capacity and these turns.
fn scheduled(
    rt: &impl Abort,
    alloc: Global,
    peers: &[Peer],
    capacity: usize,
    words: &str,
) -> Option<String> {
    let turns = turns_of(alloc, words)?;
    said_of_schedule(rt, alloc, schedule(alloc, peers, capacity, &turns))
}

// Counts the workers that came, and the changes and items that workers and shards were about to handle.
#[derive(Drop)]
struct Passes {
    workers: AtomicU64,
    changes: AtomicU64,
    items: AtomicU64,
}

impl Passes {
    fn none() -> Passes {
        Passes {
            workers: AtomicU64::new(0),
            changes: AtomicU64::new(0),
            items: AtomicU64::new(0),
        }
    }

    // No worker and no shard came.
    fn are_none(&self) -> bool {
        let workers = self.workers.load(Ordering::SeqCst);
        let changes = self.changes.load(Ordering::SeqCst);
        workers == 0 && changes == 0 && self.items.load(Ordering::SeqCst) == 0
    }

    // Each of so many shards handled all that it was sent: the changes on its prefixes, every close and the last item.
    // If no worker came, some shards may not be there. A thread that is left would come to the gate after the
    // answer.
    fn are_complete(&self, shards: u64) -> bool {
        let workers = self.workers.load(Ordering::SeqCst);
        let changes = self.changes.load(Ordering::SeqCst);
        let items = self.items.load(Ordering::SeqCst);
        if workers == 0 {
            return changes == 0 && items <= shards;
        }
        let closes = workers.wrapping_mul(shards.wrapping_sub(1));
        items == changes.wrapping_add(closes).wrapping_add(shards)
    }
}

impl Gate for Passes {
    fn pass(&self, _peer: usize, number: u64) {
        if number == 0 {
            self.workers.fetch_add(1, Ordering::SeqCst);
        }
        self.changes.fetch_add(1, Ordering::SeqCst);
    }

    fn shard_pass(&self, _shard: usize, _number: u64) {
        self.items.fetch_add(1, Ordering::SeqCst);
    }
}

/// What comes of a run with these numbers, of which no thread is left, if there is memory. If no session is lost,
/// the gate shows that all was handled.
pub fn threaded<R: Threads + Wait + Sync + Abort>(
    rt: &R,
    alloc: Global,
    peers: &[Peer],
    capacity: usize,
    shards: usize,
    losses: bool,
) -> Option<String> {
    let gate = Passes::none();
    let answer = run(rt, alloc, peers, capacity, shards, &gate);
    assert!(rt;
        losses || gate.are_complete(shards as u64),
        "{capacity}/{shards}"
    );
    said_of_run(rt, alloc, answer)
}

// What comes of each run of a line is this, if there is memory.
fn check_runs<R: Threads + Wait + Sync + Abort>(
    rt: &R,
    alloc: Global,
    peers: &[Peer],
    line: &str,
    wanted: &str,
    name: &str,
) -> Option<()> {
    let losses = line.starts_with("losses");
    for word in line.split_whitespace().skip(1) {
        let (capacity, shards) = word.split_once('/')?;
        let (capacity, shards) = (capacity.parse().ok()?, shards.parse().ok()?);
        let found = threaded(rt, alloc, peers, capacity, shards, losses)?;
        assert_eq!(rt; found.trim(), wanted, "{name}, by {line}: {word}");
    }
    Some(())
}

// What comes of each schedule of a line is this, if there is memory.
fn check_schedules(
    rt: &impl Abort,
    alloc: Global,
    peers: &[Peer],
    line: &str,
    wanted: &str,
    name: &str,
) -> Option<()> {
    let (capacity, schedules) = line.split_once(':')?;
    let capacity = capacity.parse().ok()?;
    for words in schedules.split('|') {
        let found = scheduled(rt, alloc, peers, capacity, words)?;
        assert_eq!(rt;
            found.trim(),
            wanted,
            "{name}, by a schedule through {capacity}: {words}"
        );
    }
    Some(())
}

// What comes of one way is what its lines say, if there is memory.
fn check_way<R: Threads + Wait + Sync + Abort>(
    rt: &R,
    alloc: Global,
    peers: &[Peer],
    lines: &str,
    name: &str,
) -> Option<()> {
    let (line, wanted) = lines.split_once('\n')?;
    match line.strip_prefix("schedule ") {
        Some(line) => check_schedules(rt, alloc, peers, line, wanted.trim(), name),
        None => check_runs(rt, alloc, peers, line, wanted.trim(), name),
    }
}

// What comes of each way of a row is what it says, if there is memory.
fn check_row<R: Threads + Wait + Sync + Abort>(rt: &R, alloc: Global, row: &str) -> Option<()> {
    let (head, ways) = row.split_once("\nby ")?;
    let (name, line) = head.split_once('\n')?;
    let peers = peers_of(alloc, line)?;
    for way in ways.split("\nby ") {
        check_way(rt, alloc, &peers, way, name)?;
    }
    Some(())
}

// What comes of each of these rows is what it says, if there is memory. Empty lines part them, and what begins with
// # is a comment.
fn check_rows<R: Threads + Wait + Sync + Abort>(rt: &R, alloc: Global, rows: &str) -> Option<()> {
    for row in rows.trim().split("\n\n") {
        if !row.starts_with('#') {
            check_row(rt, alloc, row)?;
        }
    }
    Some(())
}

// The best route on 203.0.113.0/24 isn't for the second peer: it gets the other one. Then the file of the first peer is
// a collector's.
const RUNS: &str = "
no path is hidden
64501/11:restricted 64502/12:nothing 64503/13:longer 64504/14:nothing
by threads 1/2 64/2
0: changes 2, passed over 0, EndOfFile; 203.0.113.0/24 of 2 at 100
1: changes 1, passed over 0, EndOfFile; 203.0.113.0/24 of 2 at 100
2: changes 2, passed over 0, EndOfFile; 203.0.113.0/24 of 0 at 100
3: changes 1, passed over 0, EndOfFile; 203.0.113.0/24 of 0 at 100

a collector's file
64501/11:collected 64502/12:nothing 64503/13:nothing 64504/14:nothing
by threads 1/2 64/2
0: changes 3, passed over 5, EndOfFile
1: changes 1, passed over 0, EndOfFile; 198.51.100.0/24 of 0 at 101; 203.0.113.0/24 of 0 at 100
2: changes 1, passed over 0, EndOfFile; 198.51.100.0/24 of 0 at 101; 203.0.113.0/24 of 0 at 100
3: changes 1, passed over 0, EndOfFile; 198.51.100.0/24 of 0 at 101; 203.0.113.0/24 of 0 at 100
";

// The same by schedules, one peer after another.
const SCHEDULES: &str = "
no path is hidden
64501/11:restricted 64502/12:nothing 64503/13:longer 64504/14:nothing
by schedule 1: s0 r0 s0 r0 s1 r1 s2 r2 s2 r2 s3 r3
0: sent 2, received 2, closed; 203.0.113.0/24 of 2 at 100
1: sent 1, received 1, closed; 203.0.113.0/24 of 2 at 100
2: sent 2, received 2, closed; 203.0.113.0/24 of 0 at 100
3: sent 1, received 1, closed; 203.0.113.0/24 of 0 at 100
by schedule 64: s0 s0 r0 r0 s1 r1 s2 s2 r2 r2 s3 r3
0: sent 2, received 2, closed; 203.0.113.0/24 of 2 at 100
1: sent 1, received 1, closed; 203.0.113.0/24 of 2 at 100
2: sent 2, received 2, closed; 203.0.113.0/24 of 0 at 100
3: sent 1, received 1, closed; 203.0.113.0/24 of 0 at 100

a collector's file
64501/11:collected 64502/12:nothing 64503/13:nothing 64504/14:nothing
by schedule 1: s0 r0 s0 r0 s0 r0 s1 r1 s2 r2 s3 r3
0: sent 3, received 3, closed
1: sent 1, received 1, closed; 198.51.100.0/24 of 0 at 101; 203.0.113.0/24 of 0 at 100
2: sent 1, received 1, closed; 198.51.100.0/24 of 0 at 101; 203.0.113.0/24 of 0 at 100
3: sent 1, received 1, closed; 198.51.100.0/24 of 0 at 101; 203.0.113.0/24 of 0 at 100
by schedule 64: s0 s0 s0 r0 r0 r0 s1 r1 s2 r2 s3 r3
0: sent 3, received 3, closed
1: sent 1, received 1, closed; 198.51.100.0/24 of 0 at 101; 203.0.113.0/24 of 0 at 100
2: sent 1, received 1, closed; 198.51.100.0/24 of 0 at 101; 203.0.113.0/24 of 0 at 100
3: sent 1, received 1, closed; 198.51.100.0/24 of 0 at 101; 203.0.113.0/24 of 0 at 100
";

const OTHERS: &str = "
# Capacities are from 1 to 65,536, shards from 1 to 16: the capacity is tested first.

numbers out of range
64501/11:nothing 64502/12:nothing
by threads 0/0 0/1 65537/1 65537/17
ring capacity not from 1 to 65536
by threads 1/0 1/17 65536/17
number of shards not from 1 to 16
by threads 65536/16 1/1 1/16
0: changes 1, passed over 0, EndOfFile
1: changes 1, passed over 0, EndOfFile
by schedule 0: | s0
ring capacity not from 1 to 65536
by schedule 65537: | s0
ring capacity not from 1 to 65536
by schedule 1: | r0 r1
0: sent 0, received 0, open
1: sent 0, received 0, open
by schedule 65536:
0: sent 0, received 0, open
1: sent 0, received 0, open

# Reads that fail: of a file of 79 octets, and which peer is told.

no read fails
64501/11:update 64502/12:update 64503/13:update
by threads 4/1 4/3
0: changes 2, passed over 0, EndOfFile
1: changes 1, passed over 1, EndOfFile; 203.0.113.0/24 of 0 at 100
2: changes 1, passed over 1, EndOfFile; 203.0.113.0/24 of 0 at 100

the read that finds the end of the first file fails
64501/11:update!79 64502/12:update 64503/13:update
by threads 4/1 4/3
cannot read the file of peer 0

a read fails of two peers
64501/11:update 64502/12:update!78 64503/13:update!0
by threads 4/1 4/3
cannot read the file of peer 1

# A session that is lost takes its routes from every shard.

a session is lost
64501/11:lost 64502/12:nothing
by losses 4/1 4/2 4/16 1/3
0: changes 4, passed over 0, EndOfFile
1: changes 1, passed over 0, EndOfFile

a session is lost and comes back
64501/11:lost-and-back 64502/12:nothing
by losses 4/1 4/2 4/16 1/3
0: changes 5, passed over 0, EndOfFile
1: changes 1, passed over 0, EndOfFile; 203.0.113.0/24 of 0 at 102

# A turn that can't be taken does nothing: none is sent into a full ring, and none is received of an empty one.

a ring of one change takes turns
64501/11:two-updates 64502/12:nothing
by schedule 1:
0: sent 0, received 0, open
1: sent 0, received 0, open
by schedule 1: s0 | s0 s0
0: sent 1, received 0, open
1: sent 0, received 0, open
by schedule 1: s0 s0 r0 | s0 s0 r0 r0
0: sent 1, received 1, open
1: sent 0, received 0, open; 203.0.113.0/24 of 0 at 100
by schedule 1: s0 s0 r0 r0 s0
0: sent 2, received 1, open
1: sent 0, received 0, open; 203.0.113.0/24 of 0 at 100

changes are in the tables once they are received
64501/11:update 64502/12:nothing
by schedule 2: s1
0: sent 0, received 0, open
1: sent 1, received 0, open
by schedule 2: s1 s0
0: sent 1, received 0, open
1: sent 1, received 0, open
by schedule 2: s1 s0 r0
0: sent 1, received 1, open
1: sent 1, received 0, open; 203.0.113.0/24 of 0 at 100
by schedule 2: s1 s0 r0 s0 | s1 s0 r0 s0 s0 | s1 s0 r0 s0 s0 s9
0: sent 2, received 1, open
1: sent 1, received 0, open; 203.0.113.0/24 of 0 at 100
by schedule 2: s1 s0 r0 s0 s0 s9 r1
0: sent 2, received 1, open
1: sent 1, received 1, closed; 203.0.113.0/24 of 0 at 100
by schedule 2: s1 s0 r0 s0 s0 s9 r1 r0 | s1 s0 r0 s0 s0 s9 r1 r0 r0 r9
0: sent 2, received 2, closed
1: sent 1, received 1, closed; 203.0.113.0/24 of 0 at 100

# By steps 1 to 3 of the decision process (RFC 4271, section 9.1.2.2) all routes are alike. MED decides between the
# first two peers' routes, and the identifier between those that are left.

the order of arrival doesn't decide
64501/1:med-10 64501/9:med-5-and-away 64502/5:no-med 64504/14:nothing
by schedule 4: s0 s1 s2 r0 r1 r2 | s0 s2 s1 r0 r2 r1 | s1 s0 s2 r1 r0 r2 | s1 s2 s0 r1 r2 r0 | s2 s0 s1 r2 r0 r1 | s2 s1 s0 r2 r1 r0
0: sent 1, received 1, open; 203.0.113.0/24 of 2 at 100
1: sent 1, received 1, open; 203.0.113.0/24 of 0 at 100
2: sent 1, received 1, open; 203.0.113.0/24 of 1 at 100
3: sent 0, received 0, open; 203.0.113.0/24 of 2 at 100
by schedule 4: s0 s1 s2 r0 r1 r2 s1 r1 | s0 s2 s1 r0 r2 r1 s1 r1 | s1 s0 s2 r1 r0 r2 s1 r1
0: sent 1, received 1, open; 203.0.113.0/24 of 2 at 100
1: sent 2, received 2, open; 203.0.113.0/24 of 0 at 100
2: sent 1, received 1, open; 203.0.113.0/24 of 0 at 100
3: sent 0, received 0, open; 203.0.113.0/24 of 0 at 100
by schedule 4: s1 s2 s0 r1 r2 r0 s1 r1 | s2 s0 s1 r2 r0 r1 s1 r1 | s2 s1 s0 r2 r1 r0 s1 r1
0: sent 1, received 1, open; 203.0.113.0/24 of 2 at 100
1: sent 2, received 2, open; 203.0.113.0/24 of 0 at 100
2: sent 1, received 1, open; 203.0.113.0/24 of 0 at 100
3: sent 0, received 0, open; 203.0.113.0/24 of 0 at 100
";

#[test]
fn runs_and_schedules_leave_what_their_rows_want(rt: HostRuntime) {
    for rows in [RUNS, SCHEDULES, OTHERS] {
        check_rows(&rt, rt.alloc(), rows).expect(&rt, "memory, threads, and rows that can be read");
    }
}

// It holds whichever allocation or thread is refused. `tools/refuse_in_tests` refuses each in turn.
#[test]
fn refused_memory_or_a_refused_thread_refuses_a_run(rt: HostRuntime) {
    let _ = check_rows(&rt, rt.alloc(), RUNS);
}

// It holds whichever allocation is refused. `tools/refuse_in_tests` refuses each in turn.
#[test]
fn refused_memory_refuses_a_schedule(rt: HostRuntime) {
    let _ = check_rows(&rt, rt.alloc(), SCHEDULES);
}

// A run that is refused leaves its gate as it was, if no thread is refused.
fn check_refusal<R: Threads + Wait + Sync + Abort>(
    rt: &R,
    alloc: Global,
    line: &str,
) -> Option<()> {
    let peers = peers_of(alloc, line)?;
    let gate = Passes::none();
    let refused = run(rt, alloc, &peers, 1, 2, &gate).is_err();
    assert!(rt; !refused || gate.are_none());
    Some(())
}

// It holds whichever allocation is refused before the first thread starts: then no worker and no shard comes to the
// gate. `tools/refuse_in_tests` refuses each of these in turn.
#[test]
fn a_run_that_is_refused_before_its_first_thread_has_none(rt: HostRuntime) {
    let line = "64501/11:restricted 64502/12:nothing 64503/13:longer 64504/14:nothing";
    let _ = check_refusal(&rt, rt.alloc(), line);
}
