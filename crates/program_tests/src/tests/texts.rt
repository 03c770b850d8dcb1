//! What faults say of themselves to a caller of their crates.

use super::check;
use rs_choice::PlanFault;
use rs_host::WordsFault;
use rs_outlet::RunFault;
use rs_program::Ended;
use rs_setup::SetupFault;
use std::alloc::Global;
use std::fmt::Display;
use std::test::Fail;

// A text of a caller's in a fault; if memory is refused it is empty, and the test fails.
fn key(alloc: Global) -> String {
    String::from_str(alloc, "server.as").unwrap_or(String::new(alloc))
}

// Faults say this of themselves, a line each.
fn check_texts<F: Display>(alloc: Global, faults: &[F], wanted: &str) -> Result<(), Fail> {
    let mut text = String::new(alloc);
    for fault in faults {
        writeln!(text, "{fault}")?;
    }
    check(&text, wanted, "texts")
}

#[test]
fn a_refused_configuration_says_why(rt: HostRuntime) -> Result<(), Fail> {
    let alloc = rt.alloc();
    let faults = [
        SetupFault::NotToml,
        SetupFault::Unknown(key(alloc)),
        SetupFault::Missing(key(alloc)),
        SetupFault::NotValid(key(alloc)),
        SetupFault::Plan(PlanFault::NoPeer),
        SetupFault::Memory,
    ];
    check_texts(
        alloc,
        &faults,
        "the text is neither UTF-8 nor TOML
no configuration has the key server.as
the configuration lacks the key server.as
the key server.as has a value of another type or out of its range
there is no peer
memory was refused while the configuration was read
",
    )
}

#[test]
fn a_run_that_stopped_says_where(rt: HostRuntime) -> Result<(), Fail> {
    check_texts(
        rt.alloc(),
        &[
            RunFault::Memory,
            RunFault::Unsettled(1),
            RunFault::Dump(2),
            RunFault::Report,
            RunFault::Read(3),
        ],
        "memory was refused during the run
peer 1 is unsettled
the dump of client 2 cannot be made or written
the report cannot be written
the recorded file of peer 3 cannot be read
",
    )
}

#[test]
fn a_refused_command_line_says_why(rt: HostRuntime) -> Result<(), Fail> {
    let alloc = rt.alloc();
    let faults = [
        WordsFault::Help(key(alloc)),
        WordsFault::Refused(key(alloc)),
        WordsFault::Memory,
    ];
    check_texts(
        alloc,
        &faults,
        "server.as
server.as
memory was refused while the command line was read
",
    )
}

#[test]
fn what_stops_the_program_says_so(rt: HostRuntime) -> Result<(), Fail> {
    let alloc = rt.alloc();
    let faults = [
        Ended::Words(WordsFault::Refused(key(alloc))),
        Ended::Setup(SetupFault::NotToml),
        Ended::Unread(key(alloc)),
        Ended::Memory,
        Ended::Run(RunFault::Report),
    ];
    check_texts(
        alloc,
        &faults,
        "server.as
the text is neither UTF-8 nor TOML
the file server.as cannot be read whole
memory was refused while a file was read
the report cannot be written
",
    )
}
