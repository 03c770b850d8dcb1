//! The line that says why the program fails.

ghost use Rattle.std.specs.Prelude.{◌≡◌, ◌<◌, IfOk, length, string_bytes};
ghost use Rattle.rs_program.specs.Texts.{CanTell, NamesPeer, dump_path, line_of, run_line};

use crate::ended::Ended;
use crate::paths::path_in;
use rs_host::{
    MEMORY_TEXT, OUTPUT_TEXT, Options, on_one_line, program_line, setup_line, unread_line,
    words_text,
};
use rs_outlet::RunFault;
use rs_setup::Setup;
use std::alloc::{AllocError, Global};

/// The program's name, as its lines begin.
pub const PROGRAM: &str = "route_server";

/// The line that says why the program fails, without a line break at its end. For help, the version and a refused
/// command line it is the whole text of `clap`.
///
/// Of a run that stopped short, `setup` and `options` are those that it was given. Line breaks in a key or a path
/// are shown as `\n` and `\r`, other control characters as `\u{1b}`.
pub fn line(
    alloc: Global,
    ended: &Ended,
    setup: Option<&Setup>,
    options: Option<&Options>,
) -> Result<String, AllocError>
    requires { CanTell ended.now setup options }
    ensures { IfOk result (λ line. string_bytes line ≡ line_of ended.now setup.entry options.entry) }
{
    match ended {
        Ended::Words(fault) => words_text(alloc, PROGRAM, fault),
        Ended::Setup(fault) => setup_line(alloc, PROGRAM, fault),
        Ended::Unread(path) => unread_line(alloc, PROGRAM, path),
        Ended::Memory => program_line(alloc, PROGRAM, MEMORY_TEXT),
        Ended::Run(fault) => match (setup, options) {
            (Some(setup), Some(options)) => run_line(alloc, fault, setup, options),
            _ => unreachable!(),
        },
    }
}

// Why the run stopped short.
fn run_line(
    alloc: Global,
    fault: &RunFault,
    setup: &Setup,
    options: &Options,
) -> Result<String, AllocError>
    requires { NamesPeer fault.now setup.now }
    ensures { IfOk result (λ line. string_bytes line ≡ run_line fault.now setup.now options.now) }
{
    match fault {
        RunFault::Memory => program_line(alloc, PROGRAM, MEMORY_TEXT),
        RunFault::Dump(client) => {
            let path = dump_path(alloc, setup, options, *client)?;
            let path = on_one_line(alloc, &path)?;
            format!(in alloc; "route_server: cannot write {path}")
        }
        RunFault::Unsettled(peer) => {
            let name = &setup.plan.peer(*peer).name;
            format!(in alloc; "route_server: peer {name} unsettled")
        }
        RunFault::Report => program_line(alloc, PROGRAM, OUTPUT_TEXT),
        RunFault::Read(peer) => unread_line(alloc, PROGRAM, &setup.files[*peer]),
    }
}

/// The path of a client's dump.
pub fn dump_path(
    alloc: Global,
    setup: &Setup,
    options: &Options,
    client: usize,
) -> Result<String, AllocError>
    requires { client < length setup.now.plan.value.peers }
    ensures { IfOk result (λ path. string_bytes path ≡ dump_path setup.now options.now client) }
{
    let name = &setup.plan.peer(client).name;
    let file = format!(in alloc; "{name}.mrt")?;
    path_in(alloc, &options.out, &file)
}
