//! Answers the questions about whole tables: lists routes as they are found, or counts them.

ghost use Rattle.std.specs.Prelude.{◌<◌, length};

use crate::counted_row::counts_text;
use crate::missing_list::list_missing;
use crate::summary_text::summary_answer;
use crate::table_row::{hand_table_row, table_columns};
use crate::wanted::Wanted;
use rs_choice::Exchange;
use rs_glass_shell::{
    Down, Known, Reply, Unanswered, Whose, add_down, answer_with, peer_named, served,
};
use rs_host::configuration;
use rs_query::{MissingQuery, SummaryQuery, TableQuery};
use rs_rows::{Column, Form, RowWriter};
use rs_setup::Setup;
use rs_survey::{AskedRows, count_missing, count_rows, count_unserved, summary_on_threads};
use rs_table::Tables;
use std::alloc::{AllocError, Global};
use std::fs::Files;
use std::io::Print;
use std::sync::Wait;
use std::thread::Threads;

// How many octets of rows are gathered before they are printed.
const PAGE: usize = 65_536;

/// Lists the routes of a client's table; what is answered is the last part of the list, which isn't printed yet.
pub fn table<R: AllocGlobal + Files + Threads + Wait + Sync + Print>(
    rt: &R,
    query: &TableQuery,
) -> Result<Reply, Unanswered>
where
    R::File: Send,
    R::Dir: Send,
{
    let setup = configuration(rt, &query.tables.config)?;
    let client = peer_named(rt, &setup, &query.client)?;
    let rows = AskedRows {
        from: sender(rt, &setup, &query.from)?,
        prefix: query.prefix,
        longer: query.longer,
    };
    let served = served(rt, &setup, &query.tables)?;
    let known = served.known(rt, &setup, query.tables.losses, Whose::Of(client))?;
    let text = if query.count {
        count_table(rt.alloc(), served.tables(), client, &rows, query.form)?
    } else {
        list_table(rt, served.tables(), &known, client, &rows, query.form)?
    };
    Ok(answer_with(text, known.notes))
}

/// Lists the routes that a client does not get, in the same way.
pub fn missing<R: AllocGlobal + Files + Threads + Wait + Sync + Print>(
    rt: &R,
    query: &MissingQuery,
) -> Result<Reply, Unanswered>
where
    R::File: Send,
    R::Dir: Send,
{
    let setup = configuration(rt, &query.tables.config)?;
    let client = peer_named(rt, &setup, &query.client)?;
    let from = sender(rt, &setup, &query.from)?;
    let served = served(rt, &setup, &query.tables)?;
    let known = served.known(rt, &setup, query.tables.losses, Whose::Of(client))?;
    let text = missing_text(rt, served.tables(), &known, client, from, query)?;
    Ok(answer_with(text, known.notes))
}

// The last part of the list, or the counts. `from` is the sender that is asked for.
fn missing_text<R: AllocGlobal + Threads + Sync + Print>(
    rt: &R,
    tables: &Tables,
    known: &Known,
    client: usize,
    from: Option<usize>,
    query: &MissingQuery,
) -> Result<String, Unanswered>
    requires { client < length tables.now.plan.peers }
{
    let wanted = Wanted {
        from,
        because: query.because,
        gets_none: query.gets_none,
    };
    if query.count {
        let counts = if query.gets_none {
            count_unserved(rt, rt.alloc(), tables, client, from)?
        } else {
            count_missing(rt, rt.alloc(), tables, client, from)?
        };
        return Ok(counts_text(rt.alloc(), tables.plan(), query.form, wanted, &counts)?);
    }
    list_missing(rt, tables, &known.sessions, client, query.form, wanted)
}

/// What becomes of the routes of all peers, in numbers.
pub fn summary<R: AllocGlobal + Files + Threads + Wait + Sync + Print>(
    rt: &R,
    query: &SummaryQuery,
) -> Result<Reply, Unanswered>
where
    R::File: Send,
    R::Dir: Send,
{
    let alloc = rt.alloc();
    let setup = configuration(rt, &query.tables.config)?;
    let served = served(rt, &setup, &query.tables)?;
    let tables = served.tables();
    let tally = summary_on_threads(rt, alloc, tables)?;
    let known = served.known(rt, &setup, query.tables.losses, Whose::All)?;
    let text = summary_answer(alloc, tables.plan(), &known.sessions, query.form, &tally)?;
    Ok(answer_with(text, known.notes))
}

// The number of the sender that is asked for, if one is.
fn sender<R: AllocGlobal>(
    rt: &R,
    setup: &Setup,
    name: &Option<String>,
) -> Result<Option<usize>, Unanswered> {
    match name {
        Some(name) => Ok(Some(peer_named(rt, setup, name)?)),
        None => Ok(None),
    }
}

// Prints rows that were gathered, if they are many.
pub(crate) fn print_page<R: Print>(rt: &R, page: &mut String) -> Result<(), Unanswered> {
    if page.len() < PAGE {
        return Ok(());
    }
    rt.write_all(page.as_bytes())?;
    page.clear();
    Ok(())
}

// Prints the rows that were written, if they are many.
pub(crate) fn print_rows<R: Print>(rt: &R, rows: &mut RowWriter<'_>) -> Result<(), Unanswered> {
    if rows.len() < PAGE {
        return Ok(());
    }
    print_page(rt, &mut rows.take()?)
}

// Lists the rows of a client's table.
fn list_table<R: AllocGlobal + Print>(
    rt: &R,
    tables: &Tables,
    known: &Known,
    client: usize,
    asked: &AskedRows,
    form: Form,
) -> Result<String, Unanswered> {
    let columns = table_columns(tables.plan());
    let mut rows = RowWriter::new(rt.alloc(), form, &columns);
    if let Some(down) = known.session(client).down {
        rows.sentence(down_line(rt.alloc(), tables.plan(), client, down));
    }
    rows.titles();
    for row in tables.iter_rows(client) {
        if asked.asks_for(&row) {
            let again = known.session(row.route.peer).again_after(row.route.time);
            hand_table_row(&mut rows, tables.plan(), &row, again);
            print_rows(rt, &mut rows)?;
        }
    }
    Ok(rows.take()?)
}

// That the session of a client is down.
fn down_line(
    alloc: Global,
    plan: &Exchange,
    client: usize,
    down: Down,
) -> Result<String, AllocError> {
    let mut text = String::new(alloc);
    add_down(&mut text, plan, client, down)?;
    Ok(text)
}

// Counts them. The text is the number alone.
fn count_table(
    alloc: Global,
    tables: &Tables,
    client: usize,
    asked: &AskedRows,
    form: Form,
) -> Result<String, AllocError> {
    let columns = [Column::new("routes", "", 0)];
    let mut rows = RowWriter::new(alloc, form, &columns);
    if form == Form::Csv {
        rows.titles();
    }
    rows.number("routes", count_rows(tables, client, asked));
    rows.end_row();
    rows.take()
}
