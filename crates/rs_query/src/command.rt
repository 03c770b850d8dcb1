//! The program's command, as `clap` knows it: a table of commands, each with a table of its options.

use crate::argument::{FLAG, Given, Row, Takes, Tie};
use crate::reasons::REASONS;
use clap::Command;
use rs_host::VERSION;
use std::alloc::{AllocError, Global};

// What the program does, at the head of its help.
const ABOUT: &str =
    "Answers questions about a route server's tables from recorded BGP sessions, without a router.";

// The text at the foot of the help.
const AFTER_HELP: &str = "Example:
  looking_glass why --config exchange.toml --client b --prefix 192.0.2.0/24

Status:
  0  the question is answered, or help or the version was asked for; by diff: nothing differs
  1  the command line or the configuration is refused; by diff: something differs
  2  a file or a device failed; by diff also: the command line or a configuration is refused
  3  memory was refused
  5  by check: a session closes before the end of its file, or there is a note on more than a
     tail that is left out, or large communities without an effect";

// A command: its name, what help says of it, and its options in the order of its help.
type Entry = (&'static str, &'static str, &'static [Row]);

// The commands, in the order of the program's help.
const COMMANDS: [Entry; 10] = [
    (
        "why",
        "Why does a client get each peer's route to a prefix, or not?",
        &[
            CONFIG,
            CLIENT,
            DESTINATION,
            UNTIL,
            ERRORS,
            LOSSES,
            ALL,
            ATTRIBUTES,
            JSON,
        ],
    ),
    (
        "history",
        "What happened to a prefix, in the order of time, and what did a client get from then on?",
        &[
            CONFIG,
            DESTINATION,
            ANY_CLIENT,
            SINCE,
            UNTIL,
            ERRORS,
            LOSSES,
            ENDS,
            ATTRIBUTES,
            JSON,
            SVG,
        ],
    ),
    (
        "peers",
        "What is in recorded files: which peers, sessions and prefixes?",
        &[FILES, FILES_BEHIND_NOT_JSON, JSON_OR_TOML, TOML],
    ),
    (
        "check",
        "What would a run of route_server over a configuration meet?",
        &[CONFIG, UNTIL, TAIL, ERRORS, LOSSES],
    ),
    (
        "start",
        "Writes the beginning of each peer's session, of a collector's table.",
        &[TABLE, FOLDER, PEER, AT, TOML, FILES_BEHIND],
    ),
    (
        "table",
        "Which routes does a client get?",
        &[
            CONFIG, CLIENT, FROM, PREFIX, LONGER, COUNT, UNTIL, ERRORS, LOSSES, SHARDS, CSV, JSON,
        ],
    ),
    (
        "missing",
        "Which routes of other peers does a client not get, and why?",
        &[
            CONFIG, CLIENT, FROM, BECAUSE, GETS, COUNT, UNTIL, ERRORS, LOSSES, SHARDS, CSV, JSON,
        ],
    ),
    (
        "diff",
        "Which routes of clients differ between two configurations, times, standards or losses?",
        &[
            CONFIGS, ANY_CLIENT, UNTILS, STANDARDS, ANY_LOSSES, COUNT, SHARDS, CSV, JSON,
        ],
    ),
    (
        "summary",
        "What becomes of the routes of all peers, in numbers?",
        &[CONFIG, UNTIL, ERRORS, LOSSES, SHARDS, CSV, JSON],
    ),
    (
        "page",
        "How does the exchange look, in pictures on one page?",
        &[CONFIG, PAGE, UNTIL, ERRORS, LOSSES, SHARDS],
    ),
];

// The program's command, with its subcommands.
pub(crate) fn program<'a>(alloc: Global) -> Result<Command<'a>, AllocError> {
    let mut command = Command::new(alloc, "looking_glass")
        .version(VERSION)
        .about(ABOUT)
        .after_help(AFTER_HELP)
        .subcommand_required(true)
        .arg_required_else_help(true);
    for entry in &COMMANDS {
        command = command.subcommand(subcommand(alloc, entry)?)?;
    }
    Ok(command)
}

// A command.
fn subcommand<'a>(alloc: Global, entry: &Entry) -> Result<Command<'a>, AllocError> {
    let (name, about, rows) = *entry;
    let mut command = Command::new(alloc, name).about(about);
    for row in rows {
        command = command.arg(row.argument(alloc)?)?;
    }
    Ok(command)
}

const CONFIG: Row = Row {
    name: "config",
    takes: Takes::Value("FILE"),
    given: Given::Once,
    help: "Configuration of the exchange, as route_server takes it",
    ..FLAG
};

const CONFIGS: Row = Row {
    given: Given::OnceOrMore,
    ..CONFIG
};

const ANY_CLIENT: Row = Row {
    name: "client",
    takes: Takes::Value("NAME"),
    help: "Name of the client, or its address or AS number",
    ..FLAG
};

const CLIENT: Row = Row {
    given: Given::Once,
    ..ANY_CLIENT
};

const PREFIX: Row = Row {
    name: "prefix",
    takes: Takes::Value("PREFIX"),
    help: "IPv4 prefix, as 192.0.2.0/24",
    ..FLAG
};

const DESTINATION: Row = Row {
    name: "prefix",
    takes: Takes::Value("PREFIX"),
    given: Given::Once,
    help: "IPv4 prefix, as 192.0.2.0/24, or an address: the longest prefix with a route to it",
    ..FLAG
};

const ALL: Row = Row {
    name: "all",
    help: "Shows each peer that never announced the prefix",
    ..FLAG
};

const ATTRIBUTES: Row = Row {
    name: "attributes",
    help: "Shows all path attributes of the routes",
    ..FLAG
};

const ENDS: Row = Row {
    name: "ends",
    help: "Shows the ends of the files",
    ..FLAG
};

const SINCE: Row = Row {
    name: "from",
    takes: Takes::Value("TIME"),
    help: "Shows changes from this time on: seconds since 1970, or as 2026-11-22T06:36:20Z",
    ..FLAG
};

const UNTIL: Row = Row {
    name: "until",
    takes: Takes::Value("TIME"),
    help: "Stops reading at the first later record: seconds since 1970, or as 2026-11-22T06:36:20Z",
    ..FLAG
};

const UNTILS: Row = Row {
    given: Given::Often,
    ..UNTIL
};

const TAIL: Row = Row {
    name: "tail",
    takes: Takes::Choice("TAIL", &["strict", "lenient"]),
    help: "What becomes of a record that the end of its file cuts short: a fault, or left out",
    ..FLAG
};

const ERRORS: Row = Row {
    name: "errors",
    takes: Takes::Choice("STANDARD", &["rfc4271", "rfc7606"]),
    help: "How faults in path attributes are handled",
    ..FLAG
};

const STANDARDS: Row = Row {
    given: Given::Often,
    ..ERRORS
};

const LOSSES: Row = Row {
    name: "losses",
    takes: Takes::Choice("LOSSES", &["recorded", "inferred"]),
    help: "Which losses of a session count",
    ..FLAG
};

const ANY_LOSSES: Row = Row {
    given: Given::Often,
    ..LOSSES
};

const JSON: Row = Row {
    name: "json",
    help: "Writes the answer as JSON",
    ..FLAG
};

const JSON_OR_TOML: Row = Row {
    tie: Tie::Against("toml"),
    ..JSON
};

const TOML: Row = Row {
    name: "toml",
    help: "Writes a configuration to start from",
    ..FLAG
};

const CSV: Row = Row {
    name: "csv",
    tie: Tie::Against("json"),
    help: "Writes the list as CSV",
    ..FLAG
};

const TABLE: Row = Row {
    name: "table",
    takes: Takes::Value("FILE"),
    given: Given::Once,
    help: "Table of a collector (MRT, TABLE_DUMP_V2)",
    ..FLAG
};

const FOLDER: Row = Row {
    name: "out",
    takes: Takes::Path("DIR"),
    given: Given::Once,
    help: "Folder that takes a file for each peer",
    ..FLAG
};

const PEER: Row = Row {
    name: "peer",
    takes: Takes::Value("ADDRESS"),
    given: Given::Often,
    help: "Address of a peer whose session is written; all peers if left out",
    ..FLAG
};

const AT: Row = Row {
    name: "at",
    takes: Takes::Value("TIME"),
    help: "Takes the last table up to this time: seconds since 1970, or as 2026-11-22T06:36:20Z; the last one if left out",
    ..FLAG
};

const PAGE: Row = Row {
    name: "out",
    takes: Takes::Path("FILE"),
    given: Given::Once,
    help: "File that is written (HTML)",
    ..FLAG
};

const SVG: Row = Row {
    name: "svg",
    takes: Takes::Path("FILE"),
    help: "File that takes a picture of the history too (SVG)",
    ..FLAG
};

const FILES: Row = Row {
    name: "recorded",
    takes: Takes::Paths,
    given: Given::OnceOrMore,
    help: "Recorded files (MRT)",
    ..FLAG
};

const FILES_BEHIND: Row = Row {
    name: "file",
    takes: Takes::PathsBehind,
    given: Given::Often,
    tie: Tie::With("toml"),
    help: "Recorded files that the configuration names behind, in this order",
};

const FILES_BEHIND_NOT_JSON: Row = Row {
    tie: Tie::WithNot("toml", "json"),
    ..FILES_BEHIND
};

const FROM: Row = Row {
    name: "from",
    takes: Takes::Value("NAME"),
    help: "Name of the peer whose routes are listed",
    ..FLAG
};

const LONGER: Row = Row {
    name: "longer",
    tie: Tie::With("prefix"),
    help: "Lists more specific prefixes too",
    ..FLAG
};

const BECAUSE: Row = Row {
    name: "because",
    takes: Takes::OneOf("REASON", &REASONS),
    help: "Answer or reason for which routes are listed",
    ..FLAG
};

const GETS: Row = Row {
    name: "gets",
    takes: Takes::OneOf("WHAT", &["none"]),
    help: "Lists only routes to prefixes for which the client gets no route at all",
    ..FLAG
};

const COUNT: Row = Row {
    name: "count",
    help: "Counts the routes and lists none",
    ..FLAG
};

const SHARDS: Row = Row {
    name: "shards",
    takes: Takes::Threads,
    help: "How many threads keep the tables, from 1 to 16",
    ..FLAG
};
