//! Why no session is written.

use crate::listed::{Part, Table};
use crate::session_files::session_path;
use rs_glass_shell::Unanswered;
use rs_host::{Unready, Utc};
use rs_query::StartQuery;
use rs_start::{Broken, RoutesFault, TableFault};
use std::alloc::{AllocError, Global};

/// A fault of the table at a path: the text says at which octet.
pub(crate) fn by_table(alloc: Global, path: &str, fault: TableFault) -> Unanswered {
    match fault {
        TableFault::Memory => Unanswered::Memory,
        TableFault::Read => Unready::by_path(alloc, path).into(),
        TableFault::Broken { at, what } => {
            at_fault(format!(in alloc; "{path}: octet {at}: {what}"))
        }
    }
}

/// All tables of the file at a path are later than a time; the first one is of another time.
pub(crate) fn none_until(alloc: Global, path: &str, until: u32, first: u32) -> Unanswered {
    let (until, first) = (Utc(until), Utc(first));
    at_fault(format!(in alloc;
        "{path}: no table is of {until} UTC or earlier; the first one is of {first} UTC"
    ))
}

/// A second table stands behind that of a pipe: the body of its index begins at this octet.
pub(crate) fn second_table(alloc: Global, path: &str, at: u64) -> Unanswered {
    let what = Broken::SecondIndex;
    by_table(alloc, path, TableFault::Broken { at, what })
}

/// A fault at which the sessions of a table end.
pub(crate) fn by_routes(
    alloc: Global,
    query: &StartQuery,
    table: &Table,
    fault: RoutesFault,
) -> Unanswered {
    match fault {
        RoutesFault::Memory => Unanswered::Memory,
        RoutesFault::Table(fault) => by_table(alloc, &query.table, fault),
        RoutesFault::Write(place) => match path_at(alloc, query, table, place) {
            Ok(path) => unwritten(alloc, &path),
            Err(_) => Unanswered::Memory,
        },
    }
}

// The path of the session of the peer at a place of the index.
fn path_at(
    alloc: Global,
    query: &StartQuery,
    table: &Table,
    place: usize,
) -> Result<String, AllocError> {
    if let Some(listed) = table.peers.get(place) {
        if let Part::Written(address) = listed.part {
            return session_path(alloc, &query.out, address);
        }
    }
    String::from_str(alloc, &query.out)
}

/// The session at a path can't be written.
pub(crate) fn unwritten(alloc: Global, path: &str) -> Unanswered {
    match String::from_str(alloc, path) {
        Ok(path) => Unanswered::Unwritten(path),
        Err(_) => Unanswered::Memory,
    }
}

// A file is at fault, as a text says.
fn at_fault(text: Result<String, AllocError>) -> Unanswered {
    match text {
        Ok(text) => Unanswered::AtFault(text),
        Err(_) => Unanswered::Memory,
    }
}
