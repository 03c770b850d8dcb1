//! A run over octets in memory: the smallest exchange in which each client gets a route.

use super::runs::{are_kept, options};
use rs_run::run_over_octets;
use rs_setup::read_setup;
use spelled_in_hex::octets;
use std::test::Fail;

// Two peers, each with a file.
const EXCHANGE: &str = r#"
server = { as = 64500, address = "192.0.2.1", subnet = "192.0.2.0/24" }
peer = [
    { name = "a", as = 64501, address = "192.0.2.11", file = "" },
    { name = "b", as = 64502, address = "192.0.2.12", file = "" },
]
"#;

// An UPDATE of a with 203.0.113.0/24 at time 100, and one of b with 198.51.100.0/24 at time 101. In hexadecimal, as the
// dumps.
const FILES: [&str; 2] = [
    "0000006400100004000000430000FBF50000FBF400000001C000020BC0000201FFFFFFFFFFFFFFFFFFFFFFFFFFFFFFFF\
    002F02000000144001010040020602010000FBF5400304C000020B18CB0071",
    "0000006500100004000000430000FBF60000FBF400000001C000020CC0000201FFFFFFFFFFFFFFFFFFFFFFFFFFFFFFFF\
    002F02000000144001010040020602010000FBF6400304C000020C18C63364",
];

const REPORT: &str = "peer a changes 2 passed 0 close end\n\
    peer b changes 2 passed 0 close end\n\
    table a rows 1\n\
    table b rows 1\n";

// The dumps, in order, each with the name that it is kept under: each client has the other one's route.
const DUMPS: [(&str, &str); 2] = [
    (
        "a.mrt",
        "00000000000D000100000023C0000201000161000202C000020BC000020B0000FBF502C000020CC000020C0000FB\
        F600000000000D0002000000260000000018C63364000100010000006500144001010040020602010000FBF64003\
        04C000020C",
    ),
    (
        "b.mrt",
        "00000000000D000100000023C0000201000162000202C000020BC000020B0000FBF502C000020CC000020C0000FB\
        F600000000000D0002000000260000000018CB0071000100000000006400144001010040020602010000FBF54003\
        04C000020B",
    ),
];

#[test]
fn a_run_over_octets_gives_their_dumps_and_their_report(rt: HostRuntime) -> Result<(), Fail> {
    let alloc = rt.alloc();
    let setup = read_setup(alloc, EXCHANGE.as_bytes())?;
    if setup.plan.count() != 2 {
        return Err(Fail::new("another number of peers"));
    }
    let [of_a, of_b] = FILES;
    let (of_a, of_b) = (octets(alloc, &[of_a])?, octets(alloc, &[of_b])?);
    let files = [of_a.as_slice(), of_b.as_slice()];
    let Ok(ran) = run_over_octets(&rt, alloc, &setup, &files, &options(alloc, 1, 1)?) else {
        return Err(Fail::new("the run fails"));
    };
    let kept = ran.dumps.kept();
    let are_kept = are_kept(alloc, kept, &DUMPS);
    assert_eq!(rt;
        (kept.len(), are_kept, ran.report.as_slice()),
        (2, true, REPORT.as_bytes())
    );
    Ok(())
}
