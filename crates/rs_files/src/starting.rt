//! Answers with the beginning of each peer's session, in files.

use crate::chosen::{Chosen, take_table};
use crate::configuration::as_toml;
use crate::listed::{Listed, Table, first_unknown, listed_peers};
use crate::peer_lines::as_text;
use crate::session_files::{SessionFile, put_in_place, remove_parts};
use crate::sessions::{begin_sessions, counts_of};
use crate::table_faults::{by_routes, by_table, none_until, second_table};
use rs_glass_shell::{Reply, Unanswered, answer_with};
use rs_host::{Unready, on_one_line, open_file};
use rs_mrt::Read;
use rs_query::StartQuery;
use rs_start::{Counts, LeftOut, TableEnd, TableReader};
use std::fs::Files;
use std::net::Ipv4Addr;

/// Writes the beginning of the session of each peer of a table to a file, and answers how many routes each has. Of several
/// tables in a file one is taken. If anything fails, no file is left of those that were begun.
pub fn start<R: AllocGlobal + Files>(rt: &R, query: &StartQuery) -> Result<Reply, Unanswered> {
    let mut files = Vec::new(rt.alloc());
    match written(rt, query, &mut files) {
        Ok(text) => Ok(answer_with(text, Vec::new(rt.alloc()))),
        Err(unanswered) => {
            remove_parts(rt, &files);
            Err(unanswered)
        }
    }
}

// Writes the sessions, and puts their files in place once all are whole. The text says how many routes each session
// has.
fn written<R: AllocGlobal + Files>(
    rt: &R,
    query: &StartQuery,
    files: &mut Vec<SessionFile>,
) -> Result<String, Unanswered> {
    let alloc = rt.alloc();
    let chosen = take_table(rt, query)?;
    let file = match open_file(rt, &query.table) {
        Ok(file) => file,
        Err(fault) => return Err(Unready::by_file(alloc, fault, &query.table).into()),
    };
    let mut left_out = LeftOut::nothing();
    let mut reader = TableReader::new(alloc, file);
    let table = table_of(rt, query, chosen, (&mut reader, &mut left_out))?;
    let counts = counted(rt, query, &table, (&mut reader, &mut left_out), files)?;
    put_in_place(rt, files)?;
    if query.toml {
        Ok(as_toml(alloc, query, &table, &counts, &left_out)?)
    } else {
        Ok(as_text(alloc, query, &table, &counts, &left_out)?)
    }
}

// The peers of the table that is taken: reads up to its index.
fn table_of<R: AllocGlobal, F: Read>(
    rt: &R,
    query: &StartQuery,
    chosen: Chosen,
    (reader, left_out): (&mut TableReader<F>, &mut LeftOut),
) -> Result<Table, Unanswered> {
    let alloc = rt.alloc();
    let (time, index) = match reader.read_index(chosen.place, left_out) {
        Ok(read) => read,
        Err(fault) => return Err(by_table(alloc, &query.table, fault)),
    };
    let until = query.at.unwrap_or(u32::MAX);
    if time > until {
        return Err(none_until(alloc, &query.table, until, time));
    }
    if let Some(address) = first_unknown(&index.peers, &query.peers) {
        let address = Ipv4Addr::from_bits(address);
        return Err(Unanswered::NoPeer(format!(in alloc; "{address}")?));
    }
    let peers: Vec<Listed> = listed_peers(alloc, &index.peers, &query.peers)?;
    let view = String::from_utf8_lossy(alloc, &index.view_name)?;
    Ok(Table {
        time,
        chosen,
        collector: index.collector,
        view: on_one_line(alloc, &view)?,
        peers,
    })
}

// Writes the sessions to files that wait to be put in place. Answers what became of the entries of each peer.
fn counted<R: AllocGlobal + Files, F: Read>(
    rt: &R,
    query: &StartQuery,
    table: &Table,
    (reader, left_out): (&mut TableReader<F>, &mut LeftOut),
    files: &mut Vec<SessionFile>,
) -> Result<Vec<Counts>, Unanswered> {
    let alloc = rt.alloc();
    let mut sessions = begin_sessions(rt, query, table, files)?;
    match reader.write_sessions(&mut sessions, left_out) {
        Ok(TableEnd::NextIndex(at)) if table.chosen.piped => {
            return Err(second_table(alloc, &query.table, at));
        }
        Ok(_) => {}
        Err(fault) => return Err(by_routes(alloc, query, table, fault)),
    }
    Ok(counts_of(alloc, &sessions)?)
}
