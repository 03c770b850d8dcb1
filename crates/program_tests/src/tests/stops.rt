//! The status and the line with which the program ends where it fails.

ghost use Rattle.std.specs.Prelude.{IsTrue, Some};
ghost use Rattle.rs_program.specs.Texts.{CanTell};

use super::check;
use super::command_lines::words;
use rs_options::{Options, WordsFault, read_words};
use rs_outlet::RunFault;
use rs_program::{Ended, line, status};
use rs_setup::{Setup, SetupFault, read_setup};
use std::alloc::Global;
use std::test::Fail;

// Two peers.
const CONFIGURATION: &str = r#"
peer = [
    { name = "a", as = 64501, address = "192.0.2.11", file = "a.mrt" },
    { name = "b", as = 64502, address = "192.0.2.12", file = "b\n.mrt" },
]
server.as = 64500
server.address = "192.0.2.1"
"#;

// The status and the line of each way to end.
const ENDS: &str = r"0 help
1 refused
3 route_server: out of memory
1 route_server: configuration is not TOML
2 route_server: cannot read b\n.mrt
3 route_server: out of memory
3 route_server: out of memory
4 route_server: peer b unsettled
2 route_server: cannot write d/b.mrt
2 route_server: cannot write standard output
2 route_server: cannot read b\n.mrt
";

// A text of a caller's; where memory is refused it is empty, and the test fails.
fn text_of(alloc: Global, text: &str) -> String {
    String::from_str(alloc, text).unwrap_or(String::new(alloc))
}

// The ways to end. A run names the second peer.
fn ends(alloc: Global) -> [Ended; 11] {
    [
        Ended::Words(WordsFault::Help(text_of(alloc, "help"))),
        Ended::Words(WordsFault::Refused(text_of(alloc, "refused"))),
        Ended::Words(WordsFault::Memory),
        Ended::Setup(SetupFault::NotToml),
        Ended::Unread(text_of(alloc, "b\n.mrt")),
        Ended::Memory,
        Ended::Run(RunFault::Memory),
        Ended::Run(RunFault::Unsettled(1)),
        Ended::Run(RunFault::Dump(1)),
        Ended::Run(RunFault::Report),
        Ended::Run(RunFault::Read(1)),
    ]
}

// Whether the peer that a run names is set up.
fn is_known(ended: &Ended, setup: &Setup, options: &Options) -> bool
    ensures { IsTrue result → CanTell ended.now (Some setup.entry) (Some options.entry) }
{
    let _ = options;
    match ended {
        Ended::Run(RunFault::Unsettled(peer) | RunFault::Dump(peer)) => *peer < setup.plan.count(),
        Ended::Run(RunFault::Read(peer)) => *peer < setup.files.len(),
        Ended::Run(RunFault::Memory | RunFault::Report) => true,
        Ended::Words(_) | Ended::Setup(_) | Ended::Unread(_) | Ended::Memory => true,
    }
}

#[test]
fn each_way_to_end_has_a_status_and_a_line(rt: HostRuntime) -> Result<(), Fail> {
    let alloc = rt.alloc();
    let setup = read_setup(alloc, CONFIGURATION.as_bytes())?;
    let options = read_words(alloc, words(alloc, "--config c --out d")?)?;
    let mut text = String::new(alloc);
    for ended in &ends(alloc) {
        if is_known(ended, &setup, &options) {
            let (status, line) = (
                status(ended),
                line(alloc, ended, Some(&setup), Some(&options))?,
            );
            writeln!(text, "{status} {line}")?;
        }
    }
    check(&text, ENDS, "ways to end")
}
