//! Dumps that are written beside each other: each is that of its client's rows, whatever becomes of the others.

ghost use Rattle.std.specs.Prelude.{◌≡◌, IsFalse};

use super::changes::after;
use super::writers::{Dumped, add_routes, answer_of, list_dump};
use rs_dump::{DumpFault, TableDump, Writing, write_side_by_side};
use rs_mrt::{Limits, MemoryWriter};
use rs_table::Tables;
use std::alloc::Global;
use std::process::Abort;
use std::test::Fail;
use std::thread::Threads;

// How many clients there are: a thread is full of dumps, and there are some for another one.
const CLIENTS: usize = 6;

// These clients. The fifth refuses the routes of the first, and the sixth those of the second.
const SIX_PEERS: &str =
    "64500 192.0.2.0/24; a,64501,192.0.2.11,192.0.2.11; b,64502,192.0.2.12,192.0.2.12; \
    c,64503,192.0.2.13,192.0.2.13; d,64504,192.0.2.14,192.0.2.14; e,64505,192.0.2.15,192.0.2.15,100,a; \
    f,64506,192.0.2.16,192.0.2.16,100,b";

// Who has routes, the first of the prefixes on which it has them, and which.
const SENT: [(usize, u32, &str); 3] = [
    (0, 0x1400_0000, "plain"),
    (1, 0x1500_0000, "igp 64502-65010 hop-a"),
    (2, 0x1600_0000, "igp 64503-65010 hop-a"),
];

// On how many prefixes each of them has one: their rows are more than are spelled in a turn, and their records more
// than wait to be written.
const ROUTES: u32 = 1400;

// How many rows the table of each client has.
const ROWS: [u32; CLIENTS] = [2800, 2800, 2800, 4200, 2800, 2800];

// Tables of these peers and routes.
fn large_tables(alloc: Global) -> Option<Tables> {
    let mut tables = after(alloc, SIX_PEERS, "")?;
    for (sender, first, words) in SENT {
        add_routes(alloc, &mut tables, sender, (first, ROUTES), words)?;
    }
    Some(tables)
}

// The dumps of the lists of all clients' rows, and how many these are.
fn listed_dumps(alloc: Global, tables: &Tables) -> Option<Vec<Dumped>> {
    let mut all = Vec::new(alloc);
    for client in 0..CLIENTS {
        all.push(list_dump(alloc, tables, client, Limits::none())?)
            .ok()?;
    }
    Some(all)
}

// The dump of a client's table, and a writer of it that fails after so many calls, if at all.
fn writing<'a>(
    rt: &impl Abort,
    alloc: Global,
    tables: &'a Tables,
    client: usize,
    failing: usize,
) -> Writing<'a, MemoryWriter>
    ensures unfailed { IsFalse result.failed }
    ensures fresh { result.out.failures ≡ 0 }
{
    assert!(rt; client < tables.count());
    let mut limits = Limits::none();
    if client == failing {
        limits.calls_before_failure = Some(1);
    }
    Writing {
        dump: TableDump::begin(alloc, tables, client, 0).expect(rt, "a dump"),
        out: MemoryWriter::new(alloc, limits),
        failed: false,
    }
}

// Writes the dumps of all clients' tables beside each other; the writer of one client takes one piece, and fails at the
// next.
fn written<'a, T: Abort + Threads + Sync>(
    rt: &T,
    alloc: Global,
    tables: &'a Tables,
    failing: usize,
) -> [Writing<'a, MemoryWriter>; CLIENTS] {
    let mut writings = [
        writing(rt, alloc, tables, 0, failing),
        writing(rt, alloc, tables, 1, failing),
        writing(rt, alloc, tables, 2, failing),
        writing(rt, alloc, tables, 3, failing),
        writing(rt, alloc, tables, 4, failing),
        writing(rt, alloc, tables, 5, failing),
    ];
    write_side_by_side(rt, &mut writings);
    writings
}

// Whether the dump of a client is out whole, and of the one that failed a beginning of it.
fn is_written(
    writing: &Writing<MemoryWriter>,
    (client, failing): (usize, usize),
    (answer, whole): &Dumped,
) -> bool {
    let taken = writing.out.octets();
    let rows = ROWS.get(client).copied().ok_or(DumpFault::Write);
    let wanted = if client == failing {
        Err(DumpFault::Write)
    } else {
        rows
    };
    let is_whole = taken.len() == whole.len();
    (answer_of(writing), *answer) == (wanted, rows)
        && whole.starts_with(taken)
        && !taken.is_empty()
        && is_whole == wanted.is_ok()
}

// The dumps of all clients where one fails; the last time none does.
fn check_beside<T: Abort + Threads + Sync>(
    rt: &T,
    alloc: Global,
    tables: &Tables,
    listed: &[Dumped],
    failing: usize,
) -> Result<(), Fail> {
    let writings = written(rt, alloc, tables, failing);
    for (client, (writing, listed)) in writings.iter().zip(listed).enumerate() {
        if !is_written(writing, (client, failing), listed) {
            return Err(Fail::new(format_args!("client {client} beside {failing}")));
        }
    }
    Ok(())
}

#[test]
fn a_dump_that_fails_leaves_those_beside_it_whole(rt: HostRuntime) -> Result<(), Fail> {
    let alloc = rt.alloc();
    let tables = large_tables(alloc).ok_or("tables")?;
    let listed = listed_dumps(alloc, &tables).ok_or("dumps")?;
    for failing in 0..CLIENTS + 1 {
        check_beside(&rt, alloc, &tables, &listed, failing)?;
    }
    Ok(())
}
