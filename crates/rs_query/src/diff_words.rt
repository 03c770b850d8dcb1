//! The question about two tables that the words of the command line ask.

use crate::list_words::{form_of, optional};
use crate::query::{DiffQuery, TablesQuery};
use crate::words::{errors_in, losses_in, time_in};
use clap::ArgMatches;
use rs_host::WordsFault;
use std::alloc::Global;

// The text if not exactly one of four options is there twice.
const NOT_ONE_TWICE: &str =
    "looking_glass: diff takes one of --config, --until, --errors and --losses twice, and the others once\n";

// `diff`
pub(crate) fn diff_of(alloc: Global, matches: &ArgMatches<'_>) -> Result<DiffQuery, WordsFault> {
    if !is_one_twice(matches) {
        return Err(WordsFault::Refused(String::from_str(alloc, NOT_ONE_TWICE)?));
    }
    Ok(DiffQuery {
        old: tables_at(alloc, matches, 0)?,
        new: tables_at(alloc, matches, 1)?,
        client: optional(alloc, matches, "client")?,
        count: matches.get_flag("count"),
        form: form_of(matches),
    })
}

// Whether just one of the four options is there twice, and none more often.
fn is_one_twice(matches: &ArgMatches<'_>) -> bool {
    matches!(
        (
            count_of(matches, "config"),
            count_of(matches, "until"),
            count_of(matches, "errors"),
            count_of(matches, "losses"),
        ),
        (2, 0 | 1, 0 | 1, 0 | 1)
            | (1, 2, 0 | 1, 0 | 1)
            | (1, 0 | 1, 2, 0 | 1)
            | (1, 0 | 1, 0 | 1, 2)
    )
}

// How often an option is there.
fn count_of(matches: &ArgMatches<'_>, name: &str) -> usize {
    match matches.get_strs(name) {
        Some(values) => values.len(),
        None => 0,
    }
}

// Of which exchange the old tables (0) or the new ones (1) are built, and how.
fn tables_at(
    alloc: Global,
    matches: &ArgMatches<'_>,
    place: usize,
) -> Result<TablesQuery, WordsFault> {
    Ok(TablesQuery {
        config: String::from_str(alloc, value_at(matches, "config", place).unwrap_or(""))?,
        errors: errors_in(alloc, value_at(matches, "errors", place).unwrap_or(""))?,
        until: time_in(alloc, "until", value_at(matches, "until", place))?,
        losses: losses_in(
            alloc,
            value_at(matches, "losses", place).unwrap_or("recorded"),
        )?,
        shards: matches.get_one::<usize>("shards").unwrap_or(1),
    })
}

// The value at a place of those of an option, or the last one before it.
fn value_at<'a>(matches: &'a ArgMatches<'_>, name: &str, place: usize) -> Option<&'a str> {
    let values = matches.get_strs(name)?;
    let last = values.len().saturating_sub(1);
    match values.get(place.min(last)) {
        Some(value) => Some(*value),
        None => None,
    }
}
