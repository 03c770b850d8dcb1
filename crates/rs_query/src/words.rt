//! Reads the words of the command line, with `clap`.

use crate::command::program;
use crate::diff_words::diff_of;
use crate::list_words::{missing_of, optional, page_of, summary_of, table_of};
use crate::query::{
    CheckQuery, Destination, HistoryQuery, PeersQuery, Query, Span, StartQuery, WhyQuery,
};
use crate::values::{
    ADDRESS_FORM, DESTINATION_FORM, PREFIX_FORM, TIME_FORM, address_of, destination_of, prefix_of,
    time_of,
};
use clap::error::ErrorKind;
use clap::{ArgMatches, Error};
use rs_host::{WordsFault, each_on_one_line, losses_of, standard_of};
use rs_mrt::{Bounds, Losses, Tail};
use rs_update::{Errors, Prefix};
use std::alloc::{AllocError, Global};

// The text if `clap` gives less than it promises.
const INCOMPLETE: &str = "error: an option has no value\n";

/// Why the words of the command line ask no question.
#[derive(Drop)]
pub struct QueryFault {
    /// They ask for help or the version, they are refused, or memory is.
    pub fault: WordsFault,
    /// Whether the command is `diff`, as the first word behind the program's name says.
    pub of_diff: bool,
}

/// Reads the words of the command line, which begin with the program's own name. Fails with `Help` if they ask for
/// help or the version, with `Refused` if they ask no question, with `Memory` if memory is refused. Control
/// characters of a word are escaped in the text that tells why.
pub fn read_query(alloc: Global, words: Vec<String>) -> Result<Query, QueryFault> {
    match query_in(alloc, &words) {
        Ok(query) => Ok(query),
        Err(fault) => Err(QueryFault {
            fault,
            of_diff: is_of_diff(&words),
        }),
    }
}

// Whether the command of some words is `diff`.
fn is_of_diff(words: &[String]) -> bool {
    match words.get(1) {
        Some(command) => command.as_str() == "diff",
        None => false,
    }
}

// The question that some words ask.
fn query_in(alloc: Global, words: &[String]) -> Result<Query, WordsFault> {
    match program(alloc)?.try_get_matches_from(words) {
        Ok(matches) => query_of(alloc, &matches),
        Err(error) => Err(fault_on_one_line(alloc, words, &error)?),
    }
}

// Why the words ask no question, with a text that shows them with their control characters escaped: it is the text of
// words that are escaped before they are read.
fn fault_on_one_line(
    alloc: Global,
    words: &[String],
    error: &Error,
) -> Result<WordsFault, WordsFault> {
    let escaped = each_on_one_line(alloc, words)?;
    match program(alloc)?.try_get_matches_from(escaped.as_slice()) {
        Ok(_) => Ok(fault_of(alloc, error)),
        Err(told) => Ok(fault_of(alloc, &told)),
    }
}

// The question that the matches hold.
fn query_of(alloc: Global, matches: &ArgMatches<'_>) -> Result<Query, WordsFault> {
    match matches.subcommand() {
        Some(("why", matches)) => Ok(Query::Why(why_of(alloc, matches)?)),
        Some(("history", matches)) => Ok(Query::History(history_of(alloc, matches)?)),
        Some(("peers", matches)) => Ok(Query::Peers(peers_of(alloc, matches)?)),
        Some(("check", matches)) => Ok(Query::Check(check_of(alloc, matches)?)),
        Some(("start", matches)) => Ok(Query::Start(start_of(alloc, matches)?)),
        Some(("table", matches)) => Ok(Query::Table(table_of(alloc, matches)?)),
        Some(("missing", matches)) => Ok(Query::Missing(missing_of(alloc, matches)?)),
        Some(("diff", matches)) => Ok(Query::Diff(diff_of(alloc, matches)?)),
        Some(("summary", matches)) => Ok(Query::Summary(summary_of(alloc, matches)?)),
        Some(("page", matches)) => Ok(Query::Page(page_of(alloc, matches)?)),
        _ => Err(WordsFault::Refused(String::from_str(alloc, INCOMPLETE)?)),
    }
}

fn why_of(alloc: Global, matches: &ArgMatches<'_>) -> Result<WhyQuery, WordsFault> {
    Ok(WhyQuery {
        config: text(alloc, matches, "config")?,
        client: text(alloc, matches, "client")?,
        prefix: destination(alloc, matches)?,
        span: span(alloc, matches)?,
        all: matches.get_flag("all"),
        attributes: matches.get_flag("attributes"),
        json: matches.get_flag("json"),
    })
}

fn history_of(alloc: Global, matches: &ArgMatches<'_>) -> Result<HistoryQuery, WordsFault> {
    Ok(HistoryQuery {
        config: text(alloc, matches, "config")?,
        prefix: destination(alloc, matches)?,
        client: optional(alloc, matches, "client")?,
        from: time(alloc, matches, "from")?,
        span: span(alloc, matches)?,
        ends: matches.get_flag("ends"),
        svg: optional(alloc, matches, "svg")?,
        attributes: matches.get_flag("attributes"),
        json: matches.get_flag("json"),
    })
}

fn peers_of(alloc: Global, matches: &ArgMatches<'_>) -> Result<PeersQuery, WordsFault> {
    Ok(PeersQuery {
        files: texts(alloc, matches, "recorded")?,
        behind: texts(alloc, matches, "file")?,
        json: matches.get_flag("json"),
        toml: matches.get_flag("toml"),
    })
}

fn check_of(alloc: Global, matches: &ArgMatches<'_>) -> Result<CheckQuery, WordsFault> {
    Ok(CheckQuery {
        config: text(alloc, matches, "config")?,
        bounds: Bounds {
            until: time(alloc, matches, "until")?,
            tail: tail_of(matches),
        },
        errors: errors(alloc, matches)?,
        losses: losses(alloc, matches)?,
    })
}

// What becomes of a record that is cut short. `clap` takes no other word than these two.
fn tail_of(matches: &ArgMatches<'_>) -> Tail {
    match matches.get_str("tail") {
        Some("lenient") => Tail::Lenient,
        _ => Tail::Strict,
    }
}

fn start_of(alloc: Global, matches: &ArgMatches<'_>) -> Result<StartQuery, WordsFault> {
    Ok(StartQuery {
        table: text(alloc, matches, "table")?,
        out: text(alloc, matches, "out")?,
        peers: peer_addresses(alloc, matches)?,
        at: time(alloc, matches, "at")?,
        toml: matches.get_flag("toml"),
        behind: texts(alloc, matches, "file")?,
    })
}

// The addresses of the peers that are asked for.
fn peer_addresses(alloc: Global, matches: &ArgMatches<'_>) -> Result<Vec<u32>, WordsFault> {
    let mut addresses = Vec::new(alloc);
    if let Some(values) = matches.get_strs("peer") {
        for value in values {
            let Some(address) = address_of(value) else {
                return Err(not_a(alloc, "peer", value, ADDRESS_FORM));
            };
            addresses.push(address).map_err(|_| WordsFault::Memory)?;
        }
    }
    Ok(addresses)
}

// The texts that are given for a name, in their order.
fn texts(alloc: Global, matches: &ArgMatches<'_>, name: &str) -> Result<Vec<String>, WordsFault> {
    let mut found = Vec::new(alloc);
    if let Some(values) = matches.get_strs(name) {
        for value in values {
            found
                .push(String::from_str(alloc, value)?)
                .map_err(|_| WordsFault::Memory)?;
        }
    }
    Ok(found)
}

// The text of an option that `clap` gives a value.
pub(crate) fn text(
    alloc: Global,
    matches: &ArgMatches<'_>,
    name: &str,
) -> Result<String, WordsFault> {
    match matches.get_str(name) {
        Some(value) => Ok(String::from_str(alloc, value)?),
        None => Err(WordsFault::Refused(String::from_str(alloc, INCOMPLETE)?)),
    }
}

pub(crate) fn prefix(alloc: Global, matches: &ArgMatches<'_>) -> Result<Prefix, WordsFault> {
    let value = matches.get_str("prefix").unwrap_or("");
    match prefix_of(value) {
        Some(prefix) => Ok(prefix),
        None => Err(not_a(alloc, "prefix", value, PREFIX_FORM)),
    }
}

// The prefix or the address that is asked about.
fn destination(alloc: Global, matches: &ArgMatches<'_>) -> Result<Destination, WordsFault> {
    let value = matches.get_str("prefix").unwrap_or("");
    match destination_of(value) {
        Some(destination) => Ok(destination),
        None => Err(not_a(alloc, "prefix", value, DESTINATION_FORM)),
    }
}

// Of which recorded sessions it is asked.
fn span(alloc: Global, matches: &ArgMatches<'_>) -> Result<Span, WordsFault> {
    Ok(Span {
        until: time(alloc, matches, "until")?,
        errors: errors(alloc, matches)?,
        losses: losses(alloc, matches)?,
    })
}

pub(crate) fn time(
    alloc: Global,
    matches: &ArgMatches<'_>,
    name: &str,
) -> Result<Option<u32>, WordsFault> {
    time_in(alloc, name, matches.get_str(name))
}

// The time that the value of an option writes, if it has one.
pub(crate) fn time_in(
    alloc: Global,
    name: &str,
    value: Option<&str>,
) -> Result<Option<u32>, WordsFault> {
    let Some(value) = value else {
        return Ok(None);
    };
    match time_of(value) {
        Some(time) => Ok(Some(time)),
        None => Err(not_a(alloc, name, value, TIME_FORM)),
    }
}

pub(crate) fn errors(alloc: Global, matches: &ArgMatches<'_>) -> Result<Errors, WordsFault> {
    errors_in(alloc, matches.get_str("errors").unwrap_or(""))
}

// The standard that the value of an option names.
pub(crate) fn errors_in(alloc: Global, value: &str) -> Result<Errors, WordsFault> {
    match standard_of(value) {
        Some(errors) => Ok(errors),
        None => Err(not_a(alloc, "errors", value, "rfc4271 or rfc7606")),
    }
}

pub(crate) fn losses(alloc: Global, matches: &ArgMatches<'_>) -> Result<Losses, WordsFault> {
    losses_in(alloc, matches.get_str("losses").unwrap_or(""))
}

// The losses that the value of an option names.
pub(crate) fn losses_in(alloc: Global, value: &str) -> Result<Losses, WordsFault> {
    match losses_of(value) {
        Some(losses) => Ok(losses),
        None => Err(not_a(alloc, "losses", value, "recorded or inferred")),
    }
}

// The text that refuses a value.
pub(crate) fn not_a(alloc: Global, name: &str, value: &str, form: &str) -> WordsFault {
    match format!(in alloc; "looking_glass: --{name} {value:?} is not {form}\n") {
        Ok(text) => WordsFault::Refused(text),
        Err(_) => WordsFault::Memory,
    }
}

// Why the words ask no question, with the text of `clap`.
fn fault_of(alloc: Global, error: &Error) -> WordsFault {
    let Ok(text) = error.to_string(alloc) else {
        return WordsFault::Memory;
    };
    match error.kind() {
        ErrorKind::OutOfMemory => WordsFault::Memory,
        ErrorKind::DisplayHelp | ErrorKind::DisplayVersion => WordsFault::Help(text),
        _ => WordsFault::Refused(text),
    }
}
