//! Runs over a collector's file: whole, in pieces, and with each call of a reader, of the outlet, of a dump's
//! writer and of the report's refused in turn.

ghost use Rattle.std.specs.Prelude.{◌≡◌, ◌<◌, ◌≤◌, IfOk, length};

use rs_mrt::{IoWriter, Limits, MemoryReader, MemoryWriter, ReadLimits, Write};
use rs_options::Options;
use rs_outlet::{Kept, MemoryOutlet, OutletLimits, RunFault};
use rs_program::{Cleared, Progress};
use rs_run::run;
use rs_setup::{Setup, read_setup};
use rs_update::Errors;
use spelled_in_hex::octets;
use std::alloc::Global;
use std::sync::Wait;
use std::test::Fail;
use std::thread::Threads;

// Four peers, of which the first has the file of a collector.
const EXCHANGE: &str = r#"
server = { as = 64500, address = "192.0.2.1", subnet = "192.0.2.0/24" }
peer = [
    { name = "a", as = 64501, address = "192.0.2.11", file = "" },
    { name = "b", as = 64502, address = "192.0.2.12", file = "" },
    { name = "c", as = 64503, address = "192.0.2.13", file = "" },
    { name = "d", as = 64504, address = "192.0.2.14", file = "" },
]
"#;

// How many peers there are, each a client.
const CLIENTS: usize = 4;

// An UPDATE of a with 203.0.113.0/24; records of others, or of another kind; at time 101 an UPDATE of a with
// 198.51.100.0/24. In hexadecimal, as the dumps.
const COLLECTED: &str =
    "0000006400100004000000430000FBF50000FBF400000001C000020BC0000201FFFFFFFFFFFFFFFFFFFFFFFFFFFFFFFF\
    002F02000000144001010040020602010000FBF5400304C000020B18CB00710000006400100004000000430000FBF600\
    00FBF400000001C000020CC0000201FFFFFFFFFFFFFFFFFFFFFFFFFFFFFFFF002F020000001440010100400206020100\
    00FBF6400304C000020C18CB007100000064001000040000005B0000FBF50000FBF40000000200000000000000000000\
    00000000000000000000000000000000000000000000FFFFFFFFFFFFFFFFFFFFFFFFFFFFFFFF002F0200000014400101\
    0040020602010000FBF5400304C000020B18CB007100000064001000010000003FFBF5FBF400000001C000020BC00002\
    01FFFFFFFFFFFFFFFFFFFFFFFFFFFFFFFF002F02000000144001010040020602010000FBF5400304C000020B18CB0071\
    0000006400100005000000180000FBF70000FBF400000001C000020DC000020100060001000000640010000400000027\
    0000FBF80000FBF400000001C000020EC0000201FFFFFFFFFFFFFFFFFFFFFFFFFFFFFFFF001304000000650011000400\
    000047000000000000FBF50000FBF400000001C000020BC0000201FFFFFFFFFFFFFFFFFFFFFFFFFFFFFFFF002F020000\
    00144001010040020602010000FBF5400304C000020B18C63364";

// The report over that file for a, and empty ones for the others.
const REPORT: &str = "peer a changes 3 passed 5 close end\n\
    peer b changes 1 passed 0 close end\n\
    peer c changes 1 passed 0 close end\n\
    peer d changes 1 passed 0 close end\n\
    table a rows 0\n\
    table b rows 2\n\
    table c rows 2\n\
    table d rows 2\n";

// The dumps, in order, each with the name that it is kept under.
const DUMPS: [(&str, &str); CLIENTS] = [
    (
        "a.mrt",
        "00000000000D00010000003DC0000201000161000402C000020BC000020B0000FBF502C000020CC000020C0000FB\
        F602C000020DC000020D0000FBF702C000020EC000020E0000FBF8",
    ),
    (
        "b.mrt",
        "00000000000D00010000003DC0000201000162000402C000020BC000020B0000FBF502C000020CC000020C0000FB\
        F602C000020DC000020D0000FBF702C000020EC000020E0000FBF800000000000D0002000000260000000018C633\
        64000100000000006500144001010040020602010000FBF5400304C000020B00000000000D000200000026000000\
        0118CB0071000100000000006400144001010040020602010000FBF5400304C000020B",
    ),
    (
        "c.mrt",
        "00000000000D00010000003DC0000201000163000402C000020BC000020B0000FBF502C000020CC000020C0000FB\
        F602C000020DC000020D0000FBF702C000020EC000020E0000FBF800000000000D0002000000260000000018C633\
        64000100000000006500144001010040020602010000FBF5400304C000020B00000000000D000200000026000000\
        0118CB0071000100000000006400144001010040020602010000FBF5400304C000020B",
    ),
    (
        "d.mrt",
        "00000000000D00010000003DC0000201000164000402C000020BC000020B0000FBF502C000020CC000020C0000FB\
        F602C000020DC000020D0000FBF702C000020EC000020E0000FBF800000000000D0002000000260000000018C633\
        64000100000000006500144001010040020602010000FBF5400304C000020B00000000000D000200000026000000\
        0118CB0071000100000000006400144001010040020602010000FBF5400304C000020B",
    ),
];

// How a run goes: the room of its rings, how many shards it has, and how the reader of each peer's file, the outlet and
// the report fail.
#[derive(Clone, Copy)]
struct Manner {
    ring: usize,
    shards: usize,
    files: [ReadLimits; CLIENTS],
    outlet: OutletLimits,
    report: Limits,
}

impl Manner {
    // Small rings, so that threads wait for one another, and two shards; nothing fails.
    fn plain() -> Manner {
        Manner {
            ring: 2,
            shards: 2,
            files: [ReadLimits::none(); CLIENTS],
            outlet: OutletLimits::none(),
            report: Limits::none(),
        }
    }
}

// What each run reads: what that exchange sets up, and that file.
#[derive(Drop)]
struct Input {
    setup: Setup,
    file: Vec<u8>,
}

// Reads it.
fn read_input(alloc: Global) -> Result<Input, Fail>
    ensures { IfOk result (λ input. length input.setup.plan.value.peers ≡ CLIENTS) }
{
    let setup = read_setup(alloc, EXCHANGE.as_bytes())?;
    if setup.plan.count() != CLIENTS {
        return Err(Fail::new("another number of peers"));
    }
    let file = octets(alloc, &[COLLECTED])?;
    Ok(Input { setup, file })
}

/// The options of a run with rings of this room, and so many shards.
pub fn options(alloc: Global, ring: usize, shards: usize) -> Result<Options, Fail>
    ensures ring { IfOk result (λ options. (1 ≤ options.ring) × (options.ring ≤ 65536)) }
    ensures shards { IfOk result (λ options. (1 ≤ options.shards) × (options.shards ≤ 16)) }
{
    if ring < 1 || ring > 65_536 || shards < 1 || shards > 16 {
        return Err(Fail::new("no such rings or shards"));
    }
    Ok(Options {
        config: String::new(alloc),
        out: String::new(alloc),
        time: 0,
        ring,
        shards,
        errors: Errors::Rfc4271,
    })
}

// What a run answered, what it kept, and what its report has taken.
#[derive(Drop)]
struct Ran {
    answer: Result<(), RunFault>,
    outlet: MemoryOutlet,
    report: Vec<u8>,
}

// Runs over that file in a manner, and answers as the run does, and what is kept.
fn run_to<T: AllocGlobal + Threads + Wait + Sync, W: Write>(
    rt: &T,
    input: &Input,
    manner: &Manner,
    report: &mut W,
) -> Result<(Result<(), RunFault>, MemoryOutlet), Fail>
    requires peers { length input.now.setup.plan.value.peers ≡ CLIENTS }
    requires failures { W.failures report.old < u64.MAX }
{
    let alloc = rt.alloc();
    let options = options(alloc, manner.ring, manner.shards)?;
    let [first, second, third, fourth] = manner.files;
    let readers = [
        MemoryReader::new(&input.file, first),
        MemoryReader::new(&[], second),
        MemoryReader::new(&[], third),
        MemoryReader::new(&[], fourth),
    ];
    let readers = Vec::from_array(alloc, readers)?;
    let mut outlet = MemoryOutlet::new(alloc, manner.outlet);
    let setup = &input.setup;
    let answer = run(rt, alloc, setup, readers, &options, &mut outlet, report);
    Ok((answer, outlet))
}

// Runs over that file in a manner.
fn run_in<T: AllocGlobal + Threads + Wait + Sync>(rt: &T, manner: &Manner) -> Result<Ran, Fail> {
    let input = read_input(rt.alloc())?;
    let mut report = MemoryWriter::new(rt.alloc(), manner.report);
    let (answer, outlet) = run_to(rt, &input, manner, &mut report)?;
    Ok(Ran {
        answer,
        outlet,
        report: report.into_octets(),
    })
}

// Whether a dump is kept under this name, with the octets that are spelled so.
fn is_dump(alloc: Global, dump: &Kept, name: &str, expected: &str) -> bool {
    match octets(alloc, &[expected]) {
        Ok(expected) => dump.name.as_str() == name && dump.octets == expected,
        Err(_) => false,
    }
}

/// Whether the first of these dumps are kept, each under its name.
pub fn are_kept(alloc: Global, kept: &[Kept], dumps: &[(&str, &str)]) -> bool {
    for (dump, (name, expected)) in kept.iter().zip(dumps) {
        if !is_dump(alloc, dump, name, expected) {
            return false;
        }
    }
    true
}

// What a run answers, how many dumps it keeps, and how many octets of the report it writes.
type Outcome = (Result<(), RunFault>, usize, usize);

// What a run comes to that goes well.
const WHOLE: Outcome = (Ok(()), CLIENTS, 204);

// A run in a manner comes to what is wanted: the first dumps are kept, so many of them, and a beginning of the report
// is written. Messages name it by these numbers.
fn check_run<T: AllocGlobal + Threads + Wait + Sync>(
    rt: &T,
    manner: Manner,
    wanted: Outcome,
    numbers: (usize, usize),
) -> Result<(), Fail> {
    let ran = run_in(rt, &manner)?;
    let (kept, report) = (ran.outlet.kept(), ran.report.as_slice());
    let found = (ran.answer, kept.len(), report.len());
    let is_beginning = REPORT.as_bytes().starts_with(report);
    if found == wanted && is_beginning && are_kept(rt.alloc(), kept, &DUMPS) {
        return Ok(());
    }
    Err(Fail::new(format_args!("{numbers:?}: {found:?}")))
}

#[test]
fn a_run_is_the_same_whatever_its_rings_and_shards(rt: HostRuntime) -> Result<(), Fail> {
    for ring in [1, 2, 1024, 65_536] {
        for shards in [1, 2, 16] {
            let manner = Manner {
                ring,
                shards,
                ..Manner::plain()
            };
            check_run(&rt, manner, WHOLE, (ring, shards))?;
        }
    }
    Ok(())
}

// The writers of the program stand between the run and what takes its report, here memory.
#[test]
fn a_report_passes_the_writers_of_the_program(rt: HostRuntime) -> Result<(), Fail> {
    let input = read_input(rt.alloc())?;
    let progress = Progress::new(None, None);
    let mut out = Vec::new(rt.alloc());
    let mut report = IoWriter::new(Cleared::new(&mut out, &progress));
    let (answer, _) = run_to(&rt, &input, &Manner::plain(), &mut report)?;
    assert_eq!(rt; (answer, out.as_slice()), (Ok(()), REPORT.as_bytes()));
    Ok(())
}

// The limits of a reader that gives so many octets at a time, and fails after some if it fails.
fn in_pieces(piece: usize, octets_before_failure: Option<usize>) -> ReadLimits {
    ReadLimits {
        octets_before_failure,
        piece,
        ..ReadLimits::none()
    }
}

#[test]
fn a_run_over_files_in_pieces_is_the_same(rt: HostRuntime) -> Result<(), Fail> {
    for piece in [1, 7, 100] {
        let manner = Manner {
            files: [in_pieces(piece, None); CLIENTS],
            ..Manner::plain()
        };
        check_run(&rt, manner, WHOLE, (piece, 0))?;
    }
    Ok(())
}

// After how many octets of each peer's file a read fails, and the peer that is named. The file of the first one has 506
// octets: a call fails at each 40th of them, in records and between them, and where the end of the file would come. Of
// several peers the first one is named.
const FAILED_READS: [([Option<usize>; CLIENTS], usize); 18] = [
    ([Some(0), None, None, None], 0),
    ([Some(40), None, None, None], 0),
    ([Some(80), None, None, None], 0),
    ([Some(120), None, None, None], 0),
    ([Some(160), None, None, None], 0),
    ([Some(200), None, None, None], 0),
    ([Some(240), None, None, None], 0),
    ([Some(280), None, None, None], 0),
    ([Some(320), None, None, None], 0),
    ([Some(360), None, None, None], 0),
    ([Some(400), None, None, None], 0),
    ([Some(440), None, None, None], 0),
    ([Some(480), None, None, None], 0),
    ([Some(506), None, None, None], 0),
    ([None, Some(0), None, None], 1),
    ([None, None, None, Some(0)], 3),
    ([None, None, Some(0), Some(0)], 2),
    ([Some(100), Some(0), Some(0), Some(0)], 0),
];

// A run whose reads fail after so many octets.
fn reading([first, second, third, fourth]: [Option<usize>; CLIENTS]) -> Manner {
    Manner {
        files: [
            in_pieces(40, first),
            in_pieces(40, second),
            in_pieces(40, third),
            in_pieces(40, fourth),
        ],
        ..Manner::plain()
    }
}

#[test]
fn a_failed_read_ends_the_run_and_the_first_peer_is_named(rt: HostRuntime) -> Result<(), Fail> {
    for (row, (failures, peer)) in FAILED_READS.iter().enumerate() {
        let wanted = (Err(RunFault::Read(*peer)), 0, 0);
        check_run(&rt, reading(*failures), wanted, (row, *peer))?;
    }
    Ok(())
}

// What a run comes to that stops at the dump of a client: those before it are kept.
fn stopped(client: usize) -> Outcome {
    (Err(RunFault::Dump(client)), client, 0)
}

// Each dump is started and kept, so that there are two calls for each client.
#[test]
fn a_refused_start_or_keep_ends_the_run(rt: HostRuntime) -> Result<(), Fail> {
    for client in 0..CLIENTS {
        for call in [2 * client, 2 * client + 1] {
            let outlet = OutletLimits {
                calls_before_refusal: Some(call as u64),
                ..OutletLimits::none()
            };
            let manner = Manner {
                outlet,
                ..Manner::plain()
            };
            check_run(&rt, manner, stopped(client), (client, call))?;
        }
    }
    Ok(())
}

// A run in which the writer of the dump of a client has limits.
fn writing(client: usize, writer: Limits) -> Manner {
    let outlet = OutletLimits {
        dumps_before_limits: client,
        writer,
        ..OutletLimits::none()
    };
    Manner {
        outlet,
        ..Manner::plain()
    }
}

// So many calls to write go well, of 7 octets each, and the next one fails.
fn failing_after(calls: usize) -> Limits {
    Limits {
        calls_before_failure: Some(calls as u64),
        room: usize::MAX,
        piece: 7,
    }
}

#[test]
fn a_dump_without_room_ends_the_run(rt: HostRuntime) -> Result<(), Fail> {
    for client in 0..CLIENTS {
        let limits = Limits {
            room: 30,
            ..Limits::none()
        };
        check_run(&rt, writing(client, limits), stopped(client), (client, 30))?;
    }
    Ok(())
}

// Two digits an octet, 7 octets a call: each call to write a dump fails in turn. Those behind it would go well.
#[test]
fn whichever_write_of_a_dump_fails_the_run_ends_there(rt: HostRuntime) -> Result<(), Fail> {
    for (client, (_, digits)) in DUMPS.iter().enumerate() {
        let calls = digits.len().div_ceil(14);
        for call in 0..calls {
            let manner = writing(client, failing_after(call));
            check_run(&rt, manner, stopped(client), (client, call))?;
        }
        let manner = writing(client, failing_after(calls));
        check_run(&rt, manner, WHOLE, (client, calls))?;
    }
    Ok(())
}

// 204 octets, 7 a call: each of the 30 calls fails in turn.
#[test]
fn a_failed_write_of_the_report_leaves_a_beginning_of_it(rt: HostRuntime) -> Result<(), Fail> {
    for calls in 0..30 {
        let manner = Manner {
            report: failing_after(calls),
            ..Manner::plain()
        };
        let wanted = (Err(RunFault::Report), CLIENTS, 7 * calls);
        check_run(&rt, manner, wanted, (CLIENTS, calls))?;
    }
    Ok(())
}
