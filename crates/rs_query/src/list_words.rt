//! The questions about whole tables that the words of the command line ask.

use crate::query::{MissingQuery, PageQuery, SummaryQuery, TableQuery, TablesQuery};
use crate::reasons::AskedReason;
use crate::words::{errors, losses, not_a, prefix, text, time};
use clap::ArgMatches;
use rs_host::WordsFault;
use rs_rows::Form;
use std::alloc::Global;

// `table`
pub(crate) fn table_of(alloc: Global, matches: &ArgMatches<'_>) -> Result<TableQuery, WordsFault> {
    Ok(TableQuery {
        tables: tables_of(alloc, matches)?,
        client: text(alloc, matches, "client")?,
        from: optional(alloc, matches, "from")?,
        prefix: match matches.get_str("prefix") {
            Some(_) => Some(prefix(alloc, matches)?),
            None => None,
        },
        longer: matches.get_flag("longer"),
        count: matches.get_flag("count"),
        form: form_of(matches),
    })
}

// `missing`
pub(crate) fn missing_of(
    alloc: Global,
    matches: &ArgMatches<'_>,
) -> Result<MissingQuery, WordsFault> {
    Ok(MissingQuery {
        tables: tables_of(alloc, matches)?,
        client: text(alloc, matches, "client")?,
        from: optional(alloc, matches, "from")?,
        because: because(alloc, matches)?,
        gets_none: matches.get_str("gets") == Some("none"),
        count: matches.get_flag("count"),
        form: form_of(matches),
    })
}

// `page`
pub(crate) fn page_of(alloc: Global, matches: &ArgMatches<'_>) -> Result<PageQuery, WordsFault> {
    Ok(PageQuery {
        tables: tables_of(alloc, matches)?,
        out: text(alloc, matches, "out")?,
    })
}

// `summary`
pub(crate) fn summary_of(
    alloc: Global,
    matches: &ArgMatches<'_>,
) -> Result<SummaryQuery, WordsFault> {
    Ok(SummaryQuery {
        tables: tables_of(alloc, matches)?,
        form: form_of(matches),
    })
}

// The answer or the reason for which routes are listed, if one is asked for.
fn because(alloc: Global, matches: &ArgMatches<'_>) -> Result<Option<AskedReason>, WordsFault> {
    let Some(name) = matches.get_str("because") else {
        return Ok(None);
    };
    match AskedReason::of(name) {
        Some(reason) => Ok(Some(reason)),
        None => Err(not_a(alloc, "because", name, "an answer or a reason")),
    }
}

// Of which exchange the tables are built, and how.
fn tables_of(alloc: Global, matches: &ArgMatches<'_>) -> Result<TablesQuery, WordsFault> {
    Ok(TablesQuery {
        config: text(alloc, matches, "config")?,
        errors: errors(alloc, matches)?,
        until: time(alloc, matches, "until")?,
        losses: losses(alloc, matches)?,
        shards: matches.get_one::<usize>("shards").unwrap_or(1),
    })
}

// The text of an option that may be left out.
pub(crate) fn optional(
    alloc: Global,
    matches: &ArgMatches<'_>,
    name: &str,
) -> Result<Option<String>, WordsFault> {
    match matches.get_str(name) {
        Some(value) => Ok(Some(String::from_str(alloc, value)?)),
        None => Ok(None),
    }
}

// How the list is written.
pub(crate) fn form_of(matches: &ArgMatches<'_>) -> Form {
    if matches.get_flag("csv") {
        Form::Csv
    } else if matches.get_flag("json") {
        Form::Json
    } else {
        Form::Text
    }
}
