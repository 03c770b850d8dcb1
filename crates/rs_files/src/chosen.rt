//! Which table of a file is taken.
//!
//! Our choice: the last whole one, or the last whole one up to a time. The file is read twice: first to find its tables. So
//! it is a file on a disk; of a pipe only one table is read.

use crate::listed::Table;
use crate::table_faults::{by_table, none_until};
use rs_glass_shell::Unanswered;
use rs_host::{Unready, Utc, open_file};
use rs_notes::is_file;
use rs_query::StartQuery;
use rs_start::{TableReader, Tables};
use std::alloc::AllocError;
use std::fs::Files;

/// The table of a file that is taken.
#[derive(Clone, Copy, Debug, PartialEq, Eq, Drop)]
pub(crate) struct Chosen {
    /// Its place in the file, from 0 on.
    pub(crate) place: usize,
    /// How many tables the file has.
    pub(crate) count: usize,
    /// Whether the last one of them is whole.
    pub(crate) whole: bool,
    /// Whether the file can be read once alone, so that its tables weren't counted.
    pub(crate) piped: bool,
}

// The first table of a file.
const FIRST: Chosen = Chosen {
    place: 0,
    count: 1,
    whole: true,
    piped: false,
};

/// The table that a question takes. Fails if the file can't be read, or if all its tables are later than is asked for.
pub(crate) fn take_table<R: AllocGlobal + Files>(
    rt: &R,
    query: &StartQuery,
) -> Result<Chosen, Unanswered> {
    if !is_file(rt, &query.table)? {
        return Ok(Chosen {
            piped: true,
            ..FIRST
        });
    }
    let tables = tables_of(rt, query)?;
    let Some(first) = tables.times.first() else {
        return Ok(FIRST);
    };
    let until = query.at.unwrap_or(u32::MAX);
    match tables.last_until(until) {
        Some(place) => Ok(Chosen {
            place,
            count: tables.times.len(),
            whole: tables.whole,
            piped: false,
        }),
        None => Err(none_until(rt.alloc(), &query.table, until, *first)),
    }
}

// The tables of the file.
fn tables_of<R: AllocGlobal + Files>(rt: &R, query: &StartQuery) -> Result<Tables, Unanswered> {
    let alloc = rt.alloc();
    let file = match open_file(rt, &query.table) {
        Ok(file) => file,
        Err(fault) => return Err(Unready::by_file(alloc, fault, &query.table).into()),
    };
    let mut reader = TableReader::new(alloc, file);
    match reader.read_tables() {
        Ok(tables) => Ok(tables),
        Err(fault) => Err(by_table(alloc, &query.table, fault)),
    }
}

/// Adds the line of the table that is taken, behind a mark, if the file has several, or if the table names a view.
pub(crate) fn add_chosen_line(
    text: &mut String,
    mark: &str,
    table: &Table,
) -> Result<(), AllocError> {
    let (count, view) = (table.chosen.count, &table.view);
    if count < 2 && view.is_empty() {
        return Ok(());
    }
    write!(text, "{mark}table")?;
    if count > 1 {
        let number = table.chosen.place.saturating_add(1);
        write!(text, " {number} of {count},")?;
    }
    let time = Utc(table.time);
    write!(text, " of {time} UTC")?;
    if !view.is_empty() {
        write!(text, ", view {view}")?;
    }
    if !table.chosen.whole {
        write!(text, "; the last one is cut short")?;
    }
    writeln!(text)
}
