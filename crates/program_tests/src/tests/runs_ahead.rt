//! Runs over tables so large that dumps are written beside each other, with an outlet that gives writers ahead of their
//! turn: dump by dump, the same as with one that gives none.

ghost use Rattle.std.specs.Prelude.{◌≡◌, ◌<◌, IfOk, length};

use super::check;
use super::outlet_ahead::{Faults, OutletAhead};
use super::runs::options;
use rs_mrt::{Limits, MemoryReader, MemoryWriter, ReadLimits};
use rs_outlet::{Kept, MemoryOutlet, Outlet, OutletLimits, RunFault};
use rs_run::run;
use rs_setup::{Setup, read_setup};
use spelled_in_hex::octets;
use std::alloc::{AllocError, Global};
use std::sync::Wait;
use std::test::Fail;
use std::thread::Threads;

// How many clients there are: as many dumps as are written beside each other, and one behind them.
const CLIENTS: usize = 17;

// The configuration of these, whose names are the letters from `a` on.
fn setup(alloc: Global) -> Result<Setup, Fail>
    ensures { IfOk result (λ setup. length setup.plan.value.peers ≡ CLIENTS) }
{
    let mut text = String::from_str(alloc, "server = { as = 64500, address = \"192.0.2.1\" }\n")?;
    for number in 0..CLIENTS {
        let letter = char::from(b'a' + number as u8);
        let (asn, host) = (64501 + number, 11 + number);
        let peer = format!(in alloc;
            "[[peer]]\nname = \"{letter}\"\nas = {asn}\naddress = \"192.0.2.{host}\"\nfile = \"\"\n"
        )?;
        text.push_str(peer.as_str())?;
    }
    let setup = read_setup(alloc, text.as_bytes())?;
    if setup.plan.count() == CLIENTS {
        Ok(setup)
    } else {
        Err(Fail::new("another number of peers"))
    }
}

// A record with an UPDATE of a, and one of c, but for the last three octets, which are those of its prefix.
const OF_A: &str = "00000064 0010 0004 00000043 0000FBF5 0000FBF4 0000 0001 C000020B C0000201 \
    FFFFFFFF FFFFFFFF FFFFFFFF FFFFFFFF 002F 02 0000 0014 40010100 4002060201 0000FBF5 400304C000020B 18";

const OF_C: &str = "00000064 0010 0004 00000043 0000FBF7 0000FBF4 0000 0001 C000020D C0000201 \
    FFFFFFFF FFFFFFFF FFFFFFFF FFFFFFFF 002F 02 0000 0014 40010100 4002060201 0000FBF7 400304C000020D 18";

// A file of so many of these, each with a prefix of its own that begins with this octet.
fn file(alloc: Global, record: &str, first: u8, count: u16) -> Result<Vec<u8>, Fail> {
    let record = octets(alloc, &[record])?;
    let mut file = Vec::new(alloc);
    for number in 0..count {
        let [high, low] = number.to_be_bytes();
        file.extend_from_slice(&record)?;
        file.extend_from_slice(&[first, high, low])?;
    }
    Ok(file)
}

// On how many prefixes c has a route, each of them one on which a has none.
const OF_C_ALONE: u16 = 24;

// Runs over a file of a and one of c, and answers as the run does, and what is reported.
fn run_over<T: AllocGlobal + Threads + Wait + Sync, O: Outlet>(
    rt: &T,
    setup: &Setup,
    of_a: &[u8],
    of_c: &[u8],
    outlet: &mut O,
) -> Result<(Result<(), RunFault>, Vec<u8>), Fail>
    requires peers { length setup.now.plan.value.peers ≡ CLIENTS }
    requires failures { O.failures outlet.old < u64.MAX }
{
    let alloc = rt.alloc();
    let options = options(alloc, 64, 2)?;
    let none = ReadLimits::none();
    let readers = [
        MemoryReader::new(of_a, none),
        MemoryReader::new(&[], none),
        MemoryReader::new(of_c, none),
        MemoryReader::new(&[], none),
        MemoryReader::new(&[], none),
        MemoryReader::new(&[], none),
        MemoryReader::new(&[], none),
        MemoryReader::new(&[], none),
        MemoryReader::new(&[], none),
        MemoryReader::new(&[], none),
        MemoryReader::new(&[], none),
        MemoryReader::new(&[], none),
        MemoryReader::new(&[], none),
        MemoryReader::new(&[], none),
        MemoryReader::new(&[], none),
        MemoryReader::new(&[], none),
        MemoryReader::new(&[], none),
    ];
    let readers = Vec::from_array(alloc, readers)?;
    let mut report = MemoryWriter::new(alloc, Limits::none());
    let answer = run(rt, alloc, setup, readers, &options, outlet, &mut report);
    Ok((answer, report.into_octets()))
}

// Runs over files in which a has routes on so many prefixes.
fn run_with<T: AllocGlobal + Threads + Wait + Sync, O: Outlet>(
    rt: &T,
    count: u16,
    outlet: &mut O,
) -> Result<(Result<(), RunFault>, Vec<u8>), Fail>
    requires { O.failures outlet.old < u64.MAX }
{
    let alloc = rt.alloc();
    let setup = setup(alloc)?;
    let of_a = file(alloc, OF_A, 20, count)?;
    let of_c = file(alloc, OF_C, 21, OF_C_ALONE)?;
    run_over(rt, &setup, &of_a, &of_c, outlet)
}

// Where the outlet fails, and what comes of the run: its answer; whether its report is whole; the letters of the dumps
// that were kept, started in their turn, given ahead and lost; how many failures were counted.
const AHEAD: &str = "
One started in its turn, the others but the last ahead.
none - | Ok(()) report whole kept abcdefghijklmnopq started aq ahead bcdefghijklmnop lost - failures 0
None is given ahead for one client: it is started in its turn, and the last one is given ahead.
not_ahead b | Ok(()) report whole kept abcdefghijklmnopq started ab ahead cdefghijklmnopq lost - failures 0
not_ahead f | Ok(()) report whole kept abcdefghijklmnopq started af ahead bcdeghijklmnopq lost - failures 0
not_ahead p | Ok(()) report whole kept abcdefghijklmnopq started ap ahead bcdefghijklmnoq lost - failures 0
";

const STOPPED: &str = "
A writer fails after 1,000 octets: it is lost, and so are those behind it, whole. It is that of the first dump, of one
behind it, of the last but one and the last of those beside it, and of the one behind them all.
failing a | Err(Dump(0)) report none kept - started a ahead bcdefghijklmnop lost abcdefghijklmnop failures 16
failing b | Err(Dump(1)) report none kept a started a ahead bcdefghijklmnop lost bcdefghijklmnop failures 15
failing o | Err(Dump(14)) report none kept abcdefghijklmn started a ahead bcdefghijklmnop lost op failures 2
failing p | Err(Dump(15)) report none kept abcdefghijklmno started a ahead bcdefghijklmnop lost p failures 1
failing q | Err(Dump(16)) report none kept abcdefghijklmnop started aq ahead bcdefghijklmnop lost q failures 1
So do two of them.
failing mo | Err(Dump(12)) report none kept abcdefghijkl started a ahead bcdefghijklmnop lost mnop failures 4
One can't be kept: those behind it are lost.
not_kept a | Err(Dump(0)) report none kept - started a ahead bcdefghijklmnop lost bcdefghijklmnop failures 16
not_kept b | Err(Dump(1)) report none kept a started a ahead bcdefghijklmnop lost cdefghijklmnop failures 15
not_kept o | Err(Dump(14)) report none kept abcdefghijklmn started a ahead bcdefghijklmnop lost p failures 2
not_kept p | Err(Dump(15)) report none kept abcdefghijklmno started a ahead bcdefghijklmnop lost - failures 1
not_kept q | Err(Dump(16)) report none kept abcdefghijklmnop started aq ahead bcdefghijklmnop lost - failures 1
";

// The same of 1,024 prefixes, those of c among them, and of one more.
const FEW: &str =
    "none - | Ok(()) report whole kept abcdefghijklmnopq started abcdefghijklmnopq ahead - lost - failures 0";

const ENOUGH: &str =
    "none - | Ok(()) report whole kept abcdefghijklmnopq started aq ahead bcdefghijklmnop lost - failures 0";

// What comes of a run with an outlet that gives none ahead: its dumps, in order, and its report.
#[derive(Drop)]
struct Whole {
    outlet: MemoryOutlet,
    report: Vec<u8>,
}

// Runs over files in which a has routes on so many prefixes, with that outlet.
fn run_in_turn(rt: &(impl AllocGlobal + Threads + Wait + Sync), count: u16) -> Result<Whole, Fail> {
    let mut outlet = MemoryOutlet::new(rt.alloc(), OutletLimits::none());
    let (answer, report) = run_with(rt, count, &mut outlet)?;
    if (answer, outlet.kept().len()) != (Ok(()), CLIENTS) {
        return Err(Fail::new(format_args!("with none ahead: {answer:?}")));
    }
    Ok(Whole { outlet, report })
}

// What comes of a run with an outlet that gives writers ahead.
#[derive(Drop)]
struct Ran {
    answer: Result<(), RunFault>,
    outlet: OutletAhead,
    report: Vec<u8>,
}

// Runs over files in which a has routes on so many prefixes, with an outlet that fails so.
fn run_ahead(
    rt: &(impl AllocGlobal + Threads + Wait + Sync),
    count: u16,
    faults: Faults,
) -> Result<Ran, Fail> {
    let mut outlet = OutletAhead::new(rt.alloc(), faults);
    let (answer, report) = run_with(rt, count, &mut outlet)?;
    Ok(Ran {
        answer,
        outlet,
        report,
    })
}

// Appends the letters of dumps, a dash if there are none.
fn push_letters(text: &mut String, word: &str, dumps: &[Kept]) -> Result<(), AllocError> {
    write!(text, " {word} ")?;
    for dump in dumps {
        if let Some(letter) = dump.name.chars().next() {
            text.push(letter)?;
        }
    }
    if dumps.is_empty() {
        text.push('-')
    } else {
        Ok(())
    }
}

// Whether a report is whole, or nothing of it is written.
fn part_of(report: &[u8], whole: &[u8]) -> &'static str {
    if report == whole {
        "whole"
    } else if report.is_empty() {
        "none"
    } else {
        "a part"
    }
}

// What came of a run.
fn told(alloc: Global, ran: &Ran, whole: &[u8]) -> Result<String, AllocError> {
    let (answer, outlet) = (ran.answer, &ran.outlet);
    let part = part_of(&ran.report, whole);
    let mut text = format!(in alloc; "{answer:?} report {part}")?;
    push_letters(&mut text, "kept", &outlet.kept)?;
    push_letters(&mut text, "started", &outlet.started)?;
    push_letters(&mut text, "ahead", &outlet.ahead)?;
    push_letters(&mut text, "lost", &outlet.lost)?;
    write!(text, " failures {}", outlet.failures)?;
    Ok(text)
}

// The octets of the dump of a client, whose name is a letter.
fn octets_of<'a>(dumps: &'a [Kept], name: &str) -> &'a [u8] {
    for dump in dumps {
        if dump.name.chars().next() == name.chars().next() {
            return &dump.octets;
        }
    }
    &[]
}

// Whether these are those dumps, each whole.
fn are_whole(given: &[Kept], dumps: &[Kept]) -> bool {
    for one in given {
        if one.octets.as_slice() != octets_of(dumps, &one.name) {
            return false;
        }
    }
    true
}

// Whether a dump that was lost is written whole, or a beginning of it where its writer fails.
fn is_lost(lost: &Kept, dumps: &[Kept], failing: &str) -> bool {
    let whole = octets_of(dumps, &lost.name);
    if failing.contains(lost.name.trim_end_matches(".mrt")) {
        lost.octets.as_slice() == &whole[..1000.min(whole.len())]
    } else {
        lost.octets.as_slice() == whole
    }
}

// Whether dumps that were lost are such.
fn are_lost(lost: &[Kept], dumps: &[Kept], failing: &str) -> bool {
    for one in lost {
        if !is_lost(one, dumps, failing) {
            return false;
        }
    }
    true
}

// The outlet that fails as these words say.
fn faults_of(words: &'static str) -> Faults {
    let mut faults = Faults::none();
    match words.split_once(' ') {
        Some(("failing", clients)) => faults.failing = clients,
        Some(("not_kept", clients)) => faults.not_kept = clients,
        Some(("not_ahead", clients)) => faults.not_ahead = clients,
        _ => {}
    }
    faults
}

// What comes of the run of a row is what it says, unless it is a remark.
fn check_row(
    rt: &(impl AllocGlobal + Threads + Wait + Sync),
    count: u16,
    whole: &Whole,
    row: &'static str,
) -> Result<(), Fail> {
    let Some((words, wanted)) = row.split_once(" | ") else {
        return Ok(());
    };
    let faults = faults_of(words);
    let ran = run_ahead(rt, count, faults)?;
    check(&told(rt.alloc(), &ran, &whole.report)?, wanted, words)?;
    let (outlet, dumps) = (&ran.outlet, whole.outlet.kept());
    if are_whole(&outlet.kept, dumps) && are_lost(&outlet.lost, dumps, faults.failing) {
        return Ok(());
    }
    Err(Fail::new(format_args!("{words}: other octets")))
}

// So it is with each row, over files in which a has routes on so many prefixes.
fn check_rows(
    rt: &(impl AllocGlobal + Threads + Wait + Sync),
    count: u16,
    rows: &'static str,
) -> Result<(), Fail> {
    let whole = run_in_turn(rt, count)?;
    for row in rows.lines() {
        check_row(rt, count, &whole, row)?;
    }
    Ok(())
}

// On how many prefixes a has a route where dumps are so long that some of it is written before the last row is spelled.
const MANY: u16 = 1400;

#[test]
fn dumps_that_are_given_ahead_are_the_same_in_the_same_order(rt: HostRuntime) -> Result<(), Fail> {
    check_rows(&rt, MANY, AHEAD)
}

#[test]
fn a_dump_that_fails_loses_those_behind_it(rt: HostRuntime) -> Result<(), Fail> {
    check_rows(&rt, MANY, STOPPED)
}

#[test]
fn few_prefixes_give_no_dump_ahead(rt: HostRuntime) -> Result<(), Fail> {
    check_rows(&rt, 1000, FEW)?;
    check_rows(&rt, 1001, ENOUGH)
}
