//! Dumps written out by hand from the standard (RFC 6396, section 4.3): that of a client's table, and that of the list
//! of its rows.

ghost use Rattle.std.specs.Prelude.{None};

use super::changes::after;
use super::check_rows;
use super::exchanges::{number, peer_of};
use rs_dump::{DumpFault, TableDump, Writing, write_dump, write_side_by_side};
use rs_mrt::{Failed, Write};
use rs_table::Tables;
use spelled_in_hex::octets;
use std::alloc::Global;
use std::test::Fail;
use std::thread::Threads;

// A writer that takes no memory: the first octets, and how many were written.
#[derive(Drop)]
struct Fixed {
    octets: [u8; 256],
    len: usize,
}

impl Fixed {
    // Begins with no octets.
    fn new() -> Fixed {
        Fixed {
            octets: [0; 256],
            len: 0,
        }
    }

    // Whether these octets were written, and no others.
    fn has_taken(&self, wanted: &[u8]) -> bool {
        self.octets.get(..self.len) == Some(wanted)
    }
}

impl Write for Fixed {
    ghost taken = { λ _. None };

    ghost failures = { λ _. 0 };

    fn write(&mut self, piece: &[u8]) -> Result<usize, Failed> {
        for octet in piece {
            if let Some(place) = self.octets.get_mut(self.len) {
                *place = *octet;
            }
            self.len = self.len.wrapping_add(1);
        }
        Ok(piece.len())
    }
}

// Writes the dump of the list of a client's rows, and answers how many these are, if it has these octets. Refused
// memory, nothing is written, and it comes when asked again.
fn list_dump(alloc: Global, asked: &Asked) -> Option<u32> {
    let (tables, client, time) = (&asked.tables, asked.client, asked.time);
    if client >= tables.count() {
        return None;
    }
    let rows = tables.rows(client).or_else(|_| tables.rows(client)).ok()?;
    let mut out = Fixed::new();
    let mut answer = write_dump(alloc, &mut out, tables.plan(), client, &rows, time);
    if answer == Err(DumpFault::Memory) && out.has_taken(&[]) {
        answer = write_dump(alloc, &mut out, tables.plan(), client, &rows, time);
    }
    if out.has_taken(&asked.wanted) {
        answer.ok()
    } else {
        None
    }
}

// The dump of a client's table before anything of it is written, begun once more if memory is refused.
fn begun(alloc: Global, asked: &Asked) -> Option<TableDump<'_>> {
    let (tables, client, time) = (&asked.tables, asked.client, asked.time);
    if client >= tables.count() {
        return None;
    }
    match TableDump::begin(alloc, tables, client, time) {
        Err(DumpFault::Memory) => TableDump::begin(alloc, tables, client, time).ok(),
        begun => begun.ok(),
    }
}

// Writes the dump of a client's table, and answers how many rows it has, if it has these octets.
fn table_dump<T: Threads + Sync>(rt: &T, dump: TableDump, wanted: &[u8]) -> Option<u32> {
    let mut writings = [Writing {
        dump,
        out: Fixed::new(),
        failed: false,
    }];
    write_side_by_side(rt, &mut writings);
    let [writing] = &writings;
    if writing.out.has_taken(wanted) && !writing.failed {
        Some(writing.dump.spelled())
    } else {
        None
    }
}

// What a row asks for: the dump of a client's table at a time, and its octets.
#[derive(Drop)]
struct Asked {
    tables: Tables,
    client: usize,
    time: u32,
    wanted: Vec<u8>,
}

// What is asked for after some changes.
fn read(
    alloc: Global,
    (plan, changes): (&str, &str),
    (asked, wanted): (&str, &str),
) -> Option<Asked> {
    let (name, time) = asked.trim().split_once(' ')?;
    let time = number(time)?;
    let tables = after(alloc, plan, changes)?;
    let client = peer_of(tables.plan(), name)?;
    let wanted = octets(alloc, &[wanted]).ok()?;
    Some(Asked {
        tables,
        client,
        time,
        wanted,
    })
}

// Whether both dumps that are asked for have the octets, and count as many rows.
fn is_dumped<T: Threads + Sync>(rt: &T, alloc: Global, asked: &Asked) -> Option<bool> {
    let listed = list_dump(alloc, asked)?;
    let dump = begun(alloc, asked)?;
    Some(table_dump(rt, dump, &asked.wanted) == Some(listed))
}

/// A row has its dumps after some changes. It is read once more if memory is refused.
pub fn check_dump<T: Threads + Sync>(
    rt: &T,
    alloc: Global,
    above: (&str, &str),
    row: (&str, &str),
) -> Result<(), Fail> {
    let asked = match read(alloc, above, row) {
        Some(asked) => Some(asked),
        None => read(alloc, above, row),
    };
    if let Some(asked) = &asked {
        if is_dumped(rt, alloc, asked) == Some(true) {
            return Ok(());
        }
    }
    Err(Fail::new(format_args!("dump {row:?} after {above:?}")))
}

// Each dump has the client's name, its time, and a record for the peers and for each row. A record is its Timestamp,
// type 13, subtype and Length, and its body.
const DUMPS: &str = "
exchange 64500 192.0.2.0/24; a,64501,192.0.2.11,192.0.2.11; b,64502,192.0.2.12,192.0.2.12
dump a 0 | 00000000 000D 0001 00000023 C0000201 0001 61 0002 02 C000020B C000020B 0000FBF5 02 C000020C C000020C 0000FBF6
dump b 0 | 00000000 000D 0001 00000023 C0000201 0001 62 0002 02 C000020B C000020B 0000FBF5 02 C000020C C000020C 0000FBF6

# One row. All routes are a's own, so it has none.
after a 100 203.0.113.0/24 plain
dump a 0 | 00000000 000D 0001 00000023 C0000201 0001 61 0002 02 C000020B C000020B 0000FBF5 02 C000020C C000020C 0000FBF6
dump b 0 | 00000000 000D 0001 00000023 C0000201 0001 62 0002 02 C000020B C000020B 0000FBF5 02 C000020C C000020C 0000FBF6 \
    00000000 000D 0002 00000026 00000000 18CB0071 0001 0000 00000064 0014 40010100 40020602010000FBF5 400304C000020B

# Rows on 0.0.0.0/0, 10.11.12.13/32, 10.240.0.0/12 and 203.0.113.0/24, at the time 01020304.
after a 100 203.0.113.0/24 plain; a 100 0.0.0.0/0 plain; a 100 10.11.12.13/32 plain; \
    a 100 10.240.0.0/12 plain
dump b 16909060 | \
    01020304 000D 0001 00000023 C0000201 0001 62 0002 02 C000020B C000020B 0000FBF5 02 C000020C C000020C 0000FBF6 \
    01020304 000D 0002 00000023 00000000 00 0001 0000 00000064 0014 40010100 40020602010000FBF5 400304C000020B \
    01020304 000D 0002 00000027 00000001 200A0B0C0D 0001 0000 00000064 0014 40010100 40020602010000FBF5 400304C000020B \
    01020304 000D 0002 00000025 00000002 0C0AF0 0001 0000 00000064 0014 40010100 40020602010000FBF5 400304C000020B \
    01020304 000D 0002 00000026 00000003 18CB0071 0001 0000 00000064 0014 40010100 40020602010000FBF5 400304C000020B

# AS_PATH 64501 65010, a MED, LOCAL_PREF, two communities and an attribute of type 32 are dumped without LOCAL_PREF, and with
# Partial set on the last one. The record's Length is 75, the Attribute Length 57.
after a 100 203.0.113.0/24 igp 64501-65010 hop-a med-7 preference-200 64500:64502,65000:1 large-65000:1:2
dump b 0 | 00000000 000D 0001 00000023 C0000201 0001 62 0002 02 C000020B C000020B 0000FBF5 02 C000020C C000020C 0000FBF6 \
    00000000 000D 0002 0000004B 00000000 18CB0071 0001 0000 00000064 0039 \
    40010100 40020A02020000FBF50000FDF2 400304C000020B 80040400000007 C00808FBF4FBF6FDE80001 E0200C0000FDE80000000100000002

exchange 64500 192.0.2.0/24; a,64501,192.0.2.11,192.0.2.11; b,64502,192.0.2.12,192.0.2.12; c,64503,192.0.2.13,192.0.2.13
dump c 0 | 00000000 000D 0001 00000030 C0000201 0001 63 0003 02 C000020B C000020B 0000FBF5 02 C000020C C000020C 0000FBF6 \
    02 C000020D C000020D 0000FBF7
";

#[test]
fn tables_are_dumped_as_the_standard_says(rt: HostRuntime) -> Result<(), Fail> {
    check_rows(&rt, rt.alloc(), DUMPS)
}

// The dumps of all clients of two exchanges. In the first, a's route isn't for b, and hides c's from nobody; in the
// second a has a route on each of two prefixes.
const DUMPS_OF_ALL: &str = "
exchange 64500 192.0.2.0/24; a,64501,192.0.2.11,192.0.2.11; b,64502,192.0.2.12,192.0.2.12; \
    c,64503,192.0.2.13,192.0.2.13; d,64504,192.0.2.14,192.0.2.14
after a 100 203.0.113.0/24 plain 0:64502; c 100 203.0.113.0/24 igp 64503-65010 hop-c
dump a 0 | 00000000 000D 0001 0000003D C0000201 0001 61 0004 02 C000020B C000020B 0000FBF5 02 C000020C C000020C 0000FBF6 \
    02 C000020D C000020D 0000FBF7 02 C000020E C000020E 0000FBF8 \
    00000000 000D 0002 0000002A 00000000 18CB0071 0001 0002 00000064 0018 40010100 40020A0202 0000FBF7 0000FDF2 400304C000020D
dump b 0 | 00000000 000D 0001 0000003D C0000201 0001 62 0004 02 C000020B C000020B 0000FBF5 02 C000020C C000020C 0000FBF6 \
    02 C000020D C000020D 0000FBF7 02 C000020E C000020E 0000FBF8 \
    00000000 000D 0002 0000002A 00000000 18CB0071 0001 0002 00000064 0018 40010100 40020A0202 0000FBF7 0000FDF2 400304C000020D
dump c 0 | 00000000 000D 0001 0000003D C0000201 0001 63 0004 02 C000020B C000020B 0000FBF5 02 C000020C C000020C 0000FBF6 \
    02 C000020D C000020D 0000FBF7 02 C000020E C000020E 0000FBF8 \
    00000000 000D 0002 0000002D 00000000 18CB0071 0001 0000 00000064 001B 40010100 4002060201 0000FBF5 400304C000020B \
    C00804 0000FBF6
dump d 0 | 00000000 000D 0001 0000003D C0000201 0001 64 0004 02 C000020B C000020B 0000FBF5 02 C000020C C000020C 0000FBF6 \
    02 C000020D C000020D 0000FBF7 02 C000020E C000020E 0000FBF8 \
    00000000 000D 0002 0000002D 00000000 18CB0071 0001 0000 00000064 001B 40010100 4002060201 0000FBF5 400304C000020B \
    C00804 0000FBF6

after a 101 198.51.100.0/24 plain; a 100 203.0.113.0/24 plain
dump a 0 | 00000000 000D 0001 0000003D C0000201 0001 61 0004 02 C000020B C000020B 0000FBF5 02 C000020C C000020C 0000FBF6 \
    02 C000020D C000020D 0000FBF7 02 C000020E C000020E 0000FBF8
dump b 0 | 00000000 000D 0001 0000003D C0000201 0001 62 0004 02 C000020B C000020B 0000FBF5 02 C000020C C000020C 0000FBF6 \
    02 C000020D C000020D 0000FBF7 02 C000020E C000020E 0000FBF8 \
    00000000 000D 0002 00000026 00000000 18C63364 0001 0000 00000065 0014 40010100 4002060201 0000FBF5 400304C000020B \
    00000000 000D 0002 00000026 00000001 18CB0071 0001 0000 00000064 0014 40010100 4002060201 0000FBF5 400304C000020B
dump c 0 | 00000000 000D 0001 0000003D C0000201 0001 63 0004 02 C000020B C000020B 0000FBF5 02 C000020C C000020C 0000FBF6 \
    02 C000020D C000020D 0000FBF7 02 C000020E C000020E 0000FBF8 \
    00000000 000D 0002 00000026 00000000 18C63364 0001 0000 00000065 0014 40010100 4002060201 0000FBF5 400304C000020B \
    00000000 000D 0002 00000026 00000001 18CB0071 0001 0000 00000064 0014 40010100 4002060201 0000FBF5 400304C000020B
dump d 0 | 00000000 000D 0001 0000003D C0000201 0001 64 0004 02 C000020B C000020B 0000FBF5 02 C000020C C000020C 0000FBF6 \
    02 C000020D C000020D 0000FBF7 02 C000020E C000020E 0000FBF8 \
    00000000 000D 0002 00000026 00000000 18C63364 0001 0000 00000065 0014 40010100 4002060201 0000FBF5 400304C000020B \
    00000000 000D 0002 00000026 00000001 18CB0071 0001 0000 00000064 0014 40010100 4002060201 0000FBF5 400304C000020B
";

#[test]
fn a_refused_dump_writes_nothing_and_comes_when_asked_again(rt: HostRuntime) -> Result<(), Fail> {
    check_rows(&rt, rt.alloc(), DUMPS_OF_ALL)
}
