//! What the program does before the run, and how it ends: all but the run itself.

ghost use Rattle.std.specs.Prelude.{◌≤◌, Some, IfErr, IfOk};
ghost use Rattle.std.specs.Borrow.{Bor};
ghost use Rattle.rs_options.specs.declared.options.Options.{Options};
ghost use Rattle.rs_program.specs.Texts.{CanTell, NamesPeer};

use crate::ended::{Ended, status};
use crate::files::octets_of_setup;
use crate::progress::Progress;
use crate::texts::{PROGRAM, line};
use crate::tried::first_unwritable;
use rs_host::{Reached, each_on_one_line, end_with, read_arguments, unread_at};
use rs_options::{CommandLine, Options, WordsFault, read_command_line};
use rs_outlet::RunFault;
use rs_setup::Setup;
use std::alloc::Global;
use std::env::Env;
use std::fs::Files;
use std::io::Stderr;
use std::process::ExitCode;

// How the text begins that refuses a command line, as those of `clap` do.
const HEAD: &str = "error";

/// What the command line asks for.
pub fn command_line<R: AllocGlobal + Env>(rt: &R) -> Result<CommandLine, WordsFault>
    ensures ring { IfOk result (λ line. (1 ≤ line.options.ring) × (line.options.ring ≤ 65536)) }
    ensures shards { IfOk result (λ line. (1 ≤ line.options.shards) × (line.options.shards ≤ 16)) }
{
    match read_command_line(rt.alloc(), read_arguments(rt, HEAD)?) {
        Ok(line) => Ok(line),
        Err(fault) => Err(fault_on_one_line(rt, fault)?),
    }
}

// Why the command line asks for nothing that can be done, with a text that shows its words with their control characters
// escaped: it is the text of words that are escaped before they are read.
fn fault_on_one_line<R: AllocGlobal + Env>(
    rt: &R,
    fault: WordsFault,
) -> Result<WordsFault, WordsFault> {
    let alloc = rt.alloc();
    let escaped = each_on_one_line(alloc, &read_arguments(rt, HEAD)?)?;
    match read_command_line(alloc, escaped) {
        Ok(_) => Ok(fault),
        Err(told) => Ok(told),
    }
}

/// How much of the recordings of a setup was read, shown if there is a terminal.
pub fn progress_on<R: Files>(rt: &R, terminal: Option<Stderr>, setup: &Setup) -> Progress {
    let total = match terminal {
        Some(_) => octets_of_setup(rt, setup),
        None => None,
    };
    Progress::new(terminal, total)
}

/// Fails with the first client whose dump can't be written: it would take the place of a file that is read, or the folder
/// takes no files. Nothing is written. It also fails if memory is refused.
pub fn refuse_unwritable<R: AllocGlobal + Files>(
    rt: &R,
    setup: &Setup,
    options: &Options,
) -> Result<(), Ended>
    ensures { IfErr result (λ ended. CanTell ended (Some setup.entry) (Some options.entry)) }
{
    match first_unwritable(rt, setup, options)? {
        Some(client) => Err(Ended::Run(RunFault::Dump(client))),
        None => Ok(()),
    }
}

/// How the program ends if a run over the recordings of a setup doesn't succeed. If a read failed, `reached` tells which
/// file of the recording was being read. It is named, unless memory for that is refused.
pub fn ended_by(alloc: Global, setup: &Setup, reached: &[Reached], fault: RunFault) -> Ended
    requires { NamesPeer fault setup.now }
    ensures { (options : Bor Options) → CanTell result (Some setup.entry) (Some options) }
{
    let RunFault::Read(peer) = fault else {
        return Ended::Run(fault);
    };
    match setup.begins.get(peer) {
        Some(begin) if !begin.is_empty() => Ended::from(unread_at(alloc, setup, reached, peer)),
        _ => Ended::Run(fault),
    }
}

/// Says why the program fails, and gives its status.
pub fn end<R: AllocGlobal + Print + Eprint>(
    rt: &R,
    ended: &Ended,
    setup: Option<&Setup>,
    options: Option<&Options>,
) -> ExitCode
    requires { CanTell ended.now setup options }
{
    let words = match ended {
        Ended::Words(fault) => Some(fault),
        _ => None,
    };
    let text = line(rt.alloc(), ended, setup, options);
    end_with(rt, PROGRAM, words, text, status(ended))
}
