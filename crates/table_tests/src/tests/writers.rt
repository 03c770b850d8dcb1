//! Writers that take little at a call, writers that fail, and the texts of faults.

use super::changes::{after, take};
use super::exchanges::attributes;
use super::{A, B, TWO_PEERS};
use rs_dump::{DumpFault, TableDump, Writing, write_dump, write_side_by_side};
use rs_mrt::{Limits, MemoryWriter};
use rs_session::{Body, Word};
use rs_table::Tables;
use rs_update::{Attributes, Prefix};
use std::alloc::Global;
use std::sync::Arc;
use std::test::Fail;
use std::thread::Threads;

// Which dump is written: that of a table, or that of the list of its rows.
#[derive(Clone, Copy, Debug)]
enum Way {
    Table,
    List,
}

/// What `write_dump` answers of the same rows where it comes to the same.
pub fn answer_of<W>(writing: &Writing<'_, W>) -> Result<u32, DumpFault> {
    if writing.failed {
        Err(DumpFault::Write)
    } else {
        Ok(writing.dump.spelled())
    }
}

// The announcement of a route on the prefix of 24 bits of an address.
fn announced(address: u32, time: u32, route: &Arc<Attributes>) -> Option<Word> {
    let prefix = Prefix::new(address, 24)?;
    let body = Body::Announce(prefix, route.clone().ok()?);
    Some(Word { time, body })
}

/// Adds routes of a peer, one on each of so many prefixes from this address on.
pub fn add_routes(
    alloc: Global,
    tables: &mut Tables,
    peer: usize,
    (first, count): (u32, u32),
    words: &str,
) -> Option<()> {
    let route = attributes(alloc, words)?;
    for number in 0..count.min(60000) {
        let address = first.wrapping_add(number * 256);
        if !take(tables, peer, announced(address, 100 + number, &route)?)? {
            return None;
        }
    }
    Some(())
}

// Tables of two peers, of which the first has a route on each of so many prefixes.
fn many_routes(alloc: Global, count: u32) -> Option<Tables> {
    let mut tables = after(alloc, TWO_PEERS, "")?;
    add_routes(alloc, &mut tables, A, (0x1400_0000, count), "plain")?;
    Some(tables)
}

/// What a dump answers, and what its writer has taken.
pub type Dumped = (Result<u32, DumpFault>, Vec<u8>);

// The dump of a client's table.
fn table_dump<T: Threads + Sync>(
    rt: &T,
    alloc: Global,
    tables: &Tables,
    client: usize,
    limits: Limits,
) -> Option<Dumped> {
    if client >= tables.count() {
        return None;
    }
    let mut writings = [Writing {
        dump: TableDump::begin(alloc, tables, client, 0).ok()?,
        out: MemoryWriter::new(alloc, limits),
        failed: false,
    }];
    write_side_by_side(rt, &mut writings);
    let [writing] = &writings;
    Some((answer_of(writing), writing.out.octets().to_vec(alloc).ok()?))
}

/// The dump of the list of a client's rows.
pub fn list_dump(alloc: Global, tables: &Tables, client: usize, limits: Limits) -> Option<Dumped> {
    if client >= tables.count() {
        return None;
    }
    let rows = tables.rows(client).ok()?;
    let mut out = MemoryWriter::new(alloc, limits);
    let answer = write_dump(alloc, &mut out, tables.plan(), client, &rows, 0);
    Some((answer, out.into_octets()))
}

// What comes of a dump: its answer, and how many octets are out, where that number is wanted.
type Outcome = (Result<u32, DumpFault>, Option<usize>);

// The tables of b's dump, and the whole of it.
type Source<'a> = (&'a Tables, &'a [u8]);

// What comes of a dump of b's table, where a beginning of the whole dump is out, all of it if the answer is Ok.
fn outcome<T: Threads + Sync>(
    rt: &T,
    alloc: Global,
    (tables, whole): Source,
    way: Way,
    limits: Limits,
) -> Option<(Result<u32, DumpFault>, usize)> {
    let (answer, written) = match way {
        Way::Table => table_dump(rt, alloc, tables, B, limits)?,
        Way::List => list_dump(alloc, tables, B, limits)?,
    };
    let is_whole = written.len() == whole.len();
    if whole.starts_with(&written) && is_whole == answer.is_ok() {
        Some((answer, written.len()))
    } else {
        None
    }
}

// A dump of b's table comes to what is wanted.
fn check<T: Threads + Sync>(
    rt: &T,
    alloc: Global,
    source: Source,
    (way, limits): (Way, Limits),
    (answer, octets): Outcome,
) -> Result<(), Fail> {
    let found = outcome(rt, alloc, source, way, limits);
    if let Some((given, count)) = found {
        if given == answer && count == octets.unwrap_or(count) {
            return Ok(());
        }
    }
    Err(Fail::new(format_args!("{way:?}, {limits:?}: {found:?}")))
}

// A writer that takes so many octets at a call, and fails after so many calls.
fn within(calls_before_failure: Option<u64>, piece: usize) -> Limits {
    Limits {
        calls_before_failure,
        room: usize::MAX,
        piece,
    }
}

// The 99 writers of the dump of one row, of 97 octets, and what comes of each: it fails at each octet in turn, or ends
// where the device is full, or is written an octet a call.
fn small(number: usize) -> (Limits, Outcome) {
    match number {
        97 => (
            Limits {
                calls_before_failure: None,
                room: 30,
                piece: usize::MAX,
            },
            (Err(DumpFault::Write), Some(30)),
        ),
        98 => (within(None, 1), (Ok(1), Some(97))),
        calls => (
            within(Some(calls as u64), 1),
            (Err(DumpFault::Write), Some(calls)),
        ),
    }
}

// The dump of one row meets each of those writers.
fn check_small<T: Threads + Sync>(
    rt: &T,
    alloc: Global,
    source: Source,
    way: Way,
) -> Result<(), Fail> {
    for number in 0..99 {
        let (limits, wanted) = small(number);
        check(rt, alloc, source, (way, limits), wanted)?;
    }
    Ok(())
}

// Tables, and b's whole dump of them.
fn source_of(alloc: Global, tables: Option<Tables>) -> Option<(Tables, Dumped)> {
    let tables = tables?;
    let dumped = list_dump(alloc, &tables, B, Limits::none())?;
    Some((tables, dumped))
}

#[test]
fn a_dump_may_fail_at_each_octet(rt: HostRuntime) -> Result<(), Fail> {
    let alloc = rt.alloc();
    let tables = after(alloc, TWO_PEERS, "a 100 203.0.113.0/24 plain");
    let (tables, (_, whole)) = source_of(alloc, tables).ok_or("no dump")?;
    check_small(&rt, alloc, (&tables, &whole), Way::Table)?;
    check_small(&rt, alloc, (&tables, &whole), Way::List)
}

// Writers of the dump of so many rows: it comes whole of so many writes, and a beginning of it of fewer.
fn check_writes<T: Threads + Sync>(
    rt: &T,
    alloc: Global,
    source: Source,
    count: u32,
    (first, writes): (u64, u64),
) -> Result<(), Fail> {
    for calls in first..writes {
        let how = (Way::Table, within(Some(calls), usize::MAX));
        check(rt, alloc, source, how, (Err(DumpFault::Write), None))?;
    }
    let how = (Way::Table, within(Some(writes), usize::MAX));
    check(rt, alloc, source, how, (Ok(count), None))
}

// The dump of so many rows, with these writers; a's own table has no row.
fn check_many<T: Threads + Sync>(
    rt: &T,
    alloc: Global,
    count: u32,
    writes: (u64, u64),
) -> Result<(), Fail> {
    let (tables, (answer, whole)) = source_of(alloc, many_routes(alloc, count)).ok_or("no dump")?;
    check_writes(rt, alloc, (&tables, &whole), count, writes)?;
    let own = table_dump(rt, alloc, &tables, A, Limits::none()).map(|(answer, _)| answer);
    if (answer, own) == (Ok(count), Some(Ok(0))) {
        return Ok(());
    }
    Err(Fail::new(format_args!("{count} rows: {answer:?}, {own:?}")))
}

// 256 rows are spelled in one turn, 257 in two and 18,500 in 73.
#[test]
fn many_rows_are_dumped_as_they_are_listed(rt: HostRuntime) -> Result<(), Fail> {
    for (count, first, writes) in [(256, 0, 1), (257, 0, 1), (2049, 0, 2), (18500, 13, 15)] {
        check_many(&rt, rt.alloc(), count, (first, writes))?;
    }
    Ok(())
}

// 3,000 rows of 50 octets each make three pieces: each write is refused in turn.
const WRITES: [(u64, Outcome); 4] = [
    (0, (Err(DumpFault::Write), Some(0))),
    (1, (Err(DumpFault::Write), Some(65547))),
    (2, (Err(DumpFault::Write), Some(131097))),
    (3, (Ok(3000), Some(150047))),
];

#[test]
fn each_write_of_a_list_may_fail(rt: HostRuntime) -> Result<(), Fail> {
    let alloc = rt.alloc();
    let (tables, (_, whole)) = source_of(alloc, many_routes(alloc, 3000)).ok_or("no dump")?;
    for (calls, wanted) in WRITES {
        let how = (Way::List, within(Some(calls), usize::MAX));
        check(&rt, alloc, (&tables, &whole), how, wanted)?;
    }
    Ok(())
}

// The texts of all faults, a line each.
fn texts(alloc: Global) -> Option<String> {
    let (write, rows, memory) = (DumpFault::Write, DumpFault::TooManyRows, DumpFault::Memory);
    format!(in alloc; "{write}\n{rows}\n{memory}").ok()
}

#[test]
fn each_fault_has_a_text(rt: HostRuntime) {
    assert_eq!(rt;
        texts(rt.alloc()).as_deref(),
        Some(
            "the dump could not be written\n\
            the table has more rows than a dump can number\n\
            out of memory"
        )
    );
}
