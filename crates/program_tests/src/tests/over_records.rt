//! A run over the records that are read of octets in memory: up to a time, without a record that is cut short, and with a
//! loss that the records show.

use super::runs::options;
use rs_losses::{PeerId, Sought};
use rs_mrt::{Bounds, FileReading, Losses, Tail};
use rs_run::run_over_records;
use rs_setup::read_setup;
use spelled_in_hex::octets;
use std::sync::Wait;
use std::test::Fail;
use std::thread::Threads;

// Two peers, each with a file.
const EXCHANGE: &str = r#"
server = { as = 64500, address = "192.0.2.1", subnet = "192.0.2.0/24" }
peer = [
    { name = "a", as = 64501, address = "192.0.2.11", file = "" },
    { name = "b", as = 64502, address = "192.0.2.12", file = "" },
]
"#;

// In hexadecimal: an UPDATE of a with 203.0.113.0/24 at time 100, a change of a's state to Established at time 101, and
// an UPDATE of b with 198.51.100.0/24 at time 101.
const UPDATE_OF_A: &str =
    "0000006400100004000000430000FBF50000FBF400000001C000020BC0000201FFFFFFFFFFFFFFFFFFFFFFFFFFFFFFFF\
    002F02000000144001010040020602010000FBF5400304C000020B18CB0071";

const STATE_OF_A: &str = "0000006500100005000000180000FBF50000FBF400000001C000020BC000020100010006";

const UPDATE_OF_B: &str =
    "0000006500100004000000430000FBF60000FBF400000001C000020CC0000201FFFFFFFFFFFFFFFFFFFFFFFFFFFFFFFF\
    002F02000000144001010040020602010000FBF6400304C000020C18C63364";

// The peers whose losses are looked for.
const WHOSE: [Sought; 2] = [
    Sought {
        peer: PeerId {
            address: 0xc000_020b,
            asn: 64501,
        },
        alone: true,
    },
    Sought {
        peer: PeerId {
            address: 0xc000_020c,
            asn: 64502,
        },
        alone: true,
    },
];

// How the files are read, how many octets of b's file are cut off at its end, and the report.
const ROWS: [(Option<u32>, Tail, Losses, usize, &str); 5] = [
    (
        None,
        Tail::Strict,
        Losses::Recorded,
        0,
        "peer a changes 2 passed 0 close end\npeer b changes 2 passed 0 close end\n\
        table a rows 1\ntable b rows 1\n",
    ),
    (
        Some(100),
        Tail::Strict,
        Losses::Recorded,
        0,
        "peer a changes 2 passed 0 close end\npeer b changes 1 passed 0 close end\n\
        table a rows 0\ntable b rows 1\n",
    ),
    (
        None,
        Tail::Strict,
        Losses::Recorded,
        3,
        "peer a changes 2 passed 0 close end\npeer b changes 1 passed 0 close mrt M2\n\
        table a rows 0\ntable b rows 1\n",
    ),
    (
        None,
        Tail::Lenient,
        Losses::Recorded,
        3,
        "peer a changes 2 passed 0 close end\npeer b changes 1 passed 0 close end\n\
        table a rows 0\ntable b rows 1\n",
    ),
    (
        None,
        Tail::Strict,
        Losses::Inferred,
        0,
        "peer a changes 3 passed 0 close end\npeer b changes 2 passed 0 close end\n\
        table a rows 1\ntable b rows 0\n",
    ),
];

// How many octets the files have at most.
const MOST: usize = 1000;

// The report of a run over these files that are read so.
fn reported<T: AllocGlobal + Threads + Wait + Sync>(
    rt: &T,
    reading: FileReading,
    of_a: &[u8],
    of_b: &[u8],
) -> Result<Vec<u8>, Fail> {
    let alloc = rt.alloc();
    let setup = read_setup(alloc, EXCHANGE.as_bytes())?;
    if setup.plan.count() != 2 || of_a.len() > MOST || of_b.len() > MOST {
        return Err(Fail::new("another number of peers, or longer files"));
    }
    let options = options(alloc, 1, 1)?;
    match run_over_records(rt, alloc, &setup, &[of_a, of_b], &WHOSE, reading, &options) {
        Ok(ran) => Ok(ran.report),
        Err(_) => Err(Fail::new("the run fails")),
    }
}

#[test]
fn a_run_over_records_gives_what_is_read_of_the_octets(rt: HostRuntime) -> Result<(), Fail> {
    let alloc = rt.alloc();
    let of_a = octets(alloc, &[UPDATE_OF_A, STATE_OF_A])?;
    let of_b = octets(alloc, &[UPDATE_OF_B])?;
    for (until, tail, losses, cut, report) in ROWS {
        let reading = FileReading {
            bounds: Bounds { until, tail },
            losses,
        };
        let len = of_b.len().saturating_sub(cut);
        let found = reported(&rt, reading, &of_a, &of_b[..len])?;
        assert_eq!(rt; found.as_slice(), report.as_bytes());
    }
    Ok(())
}
