//! The program's command, as `clap` knows it: a table of its options.

ghost use Rattle.std.specs.Prelude.{◌≡◌, IfOk, false, map};
ghost use Rattle.std.specs.List.{AllByRecursion};
ghost use Rattle.clap.specs.Words.{app_of, rule_of};
ghost use Rattle.rs_options.specs.Argument.{rule_for};
ghost use Rattle.rs_options.specs.CommandLine.{program};

use crate::argument::{FLAG, OPTION, Row};
use crate::version::VERSION;
use clap::builder::ValueParser;
use clap::{Arg, Command};
use std::alloc::{AllocError, Global};

// What the program does, at the head of its help.
const ABOUT: &str =
    "Replays recorded BGP sessions through a BGP-4 route server: which routes does each client get?

Reads the configuration of an exchange and the recorded session of each peer (MRT, BGP4MP), applies
the export policy and the decision process for each client, and writes each client's table
(MRT, TABLE_DUMP_V2) and a report.";

// An example, the report and the statuses, at the foot of its help.
const AFTER_HELP: &str = "Example:
  route_server --config exchange.toml --out tables

writes tables/NAME.mrt for each client NAME of exchange.toml, and prints, for each peer and then for
each client, in configured order:
  peer NAME changes N passed N close REASON
  table NAME rows N

Status:
  0  all dumps and the report are written, or help or the version was asked for
  1  the command line or the configuration is refused
  2  a file, a folder or a device failed
  3  memory or a thread was refused
  4  not all changes of a peer are known to have been applied: the fault is the program's own
  5  with --strict or --strict-after: a session closed before the end of its file, or there is a note";

// The options, in the order of the help.
static ROWS: [Row; 11] = [
    Row {
        name: "config",
        value: &["FILE"],
        required: true,
        help: "Configuration of the exchange: a TOML file of the server, its peers and their recorded files",
        ..OPTION
    },
    Row {
        name: "out",
        value: &["DIR"],
        parser: Some(ValueParser::NonEmptyString),
        required: true,
        help: "Folder that takes the dumps, one NAME.mrt for each client; it has to be there",
        ..OPTION
    },
    Row {
        name: "time",
        value: &["N"],
        parser: Some(ValueParser::Signed(0, 4_294_967_295)),
        help: "Timestamp of every record of the dumps, in seconds since 1970, from 0 to 4294967295 [default: 0]",
        ..OPTION
    },
    Row {
        name: "ring",
        value: &["N"],
        parser: Some(ValueParser::Unsigned(1, 65_536)),
        default: &["1024"],
        help: "How many changes of routes wait at most between two threads, from 1 to 65536",
        ..OPTION
    },
    Row {
        name: "shards",
        value: &["N"],
        parser: Some(ValueParser::Unsigned(1, 16)),
        default: &["1"],
        help: "How many threads keep the tables, each of them some of the prefixes, from 1 to 16",
        ..OPTION
    },
    Row {
        name: "errors",
        value: &["STANDARD"],
        default: &["rfc4271"],
        help: "Standard by which faults in path attributes are handled: rfc4271 (the first closes \
        the session) or rfc7606 (a route is withdrawn where that is enough)",
        ..OPTION
    },
    Row {
        name: "until",
        value: &["TIME"],
        help: "Reads each file up to the first record that is later, and is the default of --time: seconds since \
        1970, or as 2026-11-22T06:36:20Z",
        ..OPTION
    },
    Row {
        name: "tail",
        value: &["TAIL"],
        default: &["strict"],
        help: "What becomes of a record that the end of its file cuts short: strict (the session closes and its \
        routes are gone) or lenient (the record is left out)",
        ..OPTION
    },
    Row {
        name: "losses",
        value: &["LOSSES"],
        default: &["recorded"],
        help: "Which losses of a session count: recorded (those that records of the peer tell) or inferred (those \
        too that are recorded without its address, and before a session that begins again while it is up)",
        ..OPTION
    },
    Row {
        name: "strict",
        help: "Writes nothing and ends with status 5 if a session closed before the end of its file, or there \
        is a note",
        ..FLAG
    },
    Row {
        name: "strict-after",
        help: "Writes all, and then ends with status 5 as --strict does",
        ..FLAG
    },
];

// The program's command.
pub(crate) fn program<'a>(alloc: Global) -> Result<Command<'a>, AllocError>
    ensures { IfOk result (λ command. app_of command ≡ program) }
{
    let arguments = arguments(alloc, &ROWS)?;
    Command::new(alloc, "route_server")
        .version(VERSION)
        .about(ABOUT)
        .after_help(AFTER_HELP)
        .args(arguments)
}

// The options of these rows.
fn arguments<'a>(alloc: Global, rows: &[Row]) -> Result<Vec<Arg<'a>>, AllocError>
    ensures rules { IfOk result (λ arguments. map rule_of arguments.items ≡ map rule_for rows.now) }
    ensures local { IfOk result (λ arguments. AllByRecursion (λ argument. argument.global ≡ false) arguments.items) }
{
    let mut arguments = Vec::new(alloc);
    for row in rows {
        arguments.push(row.argument(alloc))?;
    }
    Ok(arguments)
}
