//! Answers where the tables of clients differ.

ghost use Rattle.std.specs.Prelude.{◌≡◌, length};

use crate::diff_row::{
    CHANGES, Side, Sides, change_columns, change_of, diff_columns, hand_count, hand_difference,
};
use crate::list_answering::print_rows;
use rs_choice::Exchange;
use rs_glass_shell::{
    Built, PeerSession, Reply, Unanswered, Whose, answer_with, name_at, name_width, peer_named,
    peer_of_name, served, sessions_of,
};
use rs_host::{DONE, Unready, configurations, first_unreadable};
use rs_query::DiffQuery;
use rs_rows::{Column, Form, RowWriter};
use rs_setup::Setup;
use rs_survey::Differences;
use rs_table::Tables;
use std::alloc::{AllocError, Global};
use std::fs::Files;
use std::io::Print;
use std::sync::Wait;
use std::thread::Threads;

// The status if something differs, as of `diff`.
const DIFFERS: u8 = 1;

// How wide the column of clients is at least.
const CLIENT_WIDTH: usize = 8;

// A client by its name, and by its numbers in both tables; none in the one from which it is absent.
#[derive(Clone, Copy)]
struct Client<'a> {
    name: &'a str,
    old: Option<usize>,
    new: Option<usize>,
}

// The tables of one side, and what is known of the sessions of its peers.
#[derive(Clone, Copy)]
struct Left<'a> {
    tables: &'a Tables,
    sessions: &'a [PeerSession],
}

/// Lists where the tables of clients differ; what is answered is the last part of the list, which isn't printed yet.
pub fn diff<R: AllocGlobal + Files + Threads + Wait + Sync + Print>(
    rt: &R,
    query: &DiffQuery,
) -> Result<Reply, Unanswered>
where
    R::File: Send,
    R::Dir: Send,
{
    let (old, new) = configurations(rt, &query.old.config, &query.new.config)?;
    let (text, notes, differs) = compared(rt, &old, &new, query)?;
    let mut reply = answer_with(text, notes);
    reply.status = if differs { DIFFERS } else { DONE };
    Ok(reply)
}

// The last part of the list of two setups, the notes on the files of the new one, and whether something differs.
fn compared<R: AllocGlobal + Files + Threads + Wait + Sync + Print>(
    rt: &R,
    old: &Setup,
    new: &Setup,
    query: &DiffQuery,
) -> Result<(String, Vec<String>, bool), Unanswered>
where
    R::File: Send,
    R::Dir: Send,
    requires old { length old.now.files.items ≡ length old.now.plan.value.peers }
    requires new { length new.now.files.items ≡ length new.now.plan.value.peers }
{
    let clients = clients(rt, old, new, &query.client)?;
    refuse_unreadable(rt, old, new)?;
    let before = served(rt, old, &query.old)?;
    let after = served(rt, new, &query.new)?;
    let sessions = old_sessions(rt, old, &before, query)?;
    let known = after.known(rt, new, query.new.losses, Whose::Nobody)?;
    let left = Left {
        tables: before.tables(),
        sessions: &sessions,
    };
    let left_now = Left {
        tables: after.tables(),
        sessions: &known.sessions,
    };
    let (text, differs) = listed(rt, left, left_now, &clients, query)?;
    Ok((text, known.notes, differs))
}

// What is known of the sessions of the old setup's peers, if the answer has a place for it.
fn old_sessions<R: AllocGlobal + Files>(
    rt: &R,
    old: &Setup,
    before: &Built,
    query: &DiffQuery,
) -> Result<Vec<PeerSession>, AllocError> {
    if query.form != Form::Json || query.count {
        return Ok(Vec::new(rt.alloc()));
    }
    let outlines = before.outlines();
    let contents = outlines.contents(rt, old);
    sessions_of(
        rt,
        old,
        outlines,
        &contents,
        query.old.losses,
        Whose::Nobody,
    )
}

// Refuses the first recorded file of two setups that isn't there, or that gives its octets only once and is named
// before.
fn refuse_unreadable<R: AllocGlobal + Files>(
    rt: &R,
    old: &Setup,
    new: &Setup,
) -> Result<(), Unready> {
    let mut recordings = old.recordings(rt.alloc())?;
    for recording in new.recordings(rt.alloc())? {
        recordings.push(recording).map_err(|_| Unready::Memory)?;
    }
    match first_unreadable(rt, &recordings)? {
        Some(file) => Err(Unready::by_path(rt.alloc(), file.path)),
        None => Ok(()),
    }
}

// The last part of the list of two sides, and whether something differs.
fn listed<R: AllocGlobal + Print>(
    rt: &R,
    old: Left<'_>,
    new: Left<'_>,
    clients: &[Client<'_>],
    query: &DiffQuery,
) -> Result<(String, bool), Unanswered> {
    let names = name_width(old.tables.plan(), "peer").max(name_width(new.tables.plan(), "peer"));
    let width = names.max(CLIENT_WIDTH);
    let (rows, counts) = (diff_columns(names, width), change_columns(width));
    let columns: &[Column] = if query.count { &counts } else { &rows };
    let mut rows = RowWriter::new(rt.alloc(), query.form, columns);
    rows.titles();
    let mut differs = false;
    for client in clients {
        differs = add_client(rt, &mut rows, old, new, client, query.count)? || differs;
    }
    Ok((rows.take()?, differs))
}

// Adds the differences of a client, or how many there are. Answers whether there is any.
fn add_client<R: AllocGlobal + Print>(
    rt: &R,
    rows: &mut RowWriter<'_>,
    old: Left<'_>,
    new: Left<'_>,
    client: &Client<'_>,
    count: bool,
) -> Result<bool, Unanswered> {
    let sides = Sides {
        client: client.name,
        old: side_of(old),
        new: side_of(new),
    };
    let differences = Differences::new(rt.alloc(), old.tables, client.old, new.tables, client.new)?;
    if count {
        return Ok(hand_counts(rows, differences, &sides));
    }
    add_rows(rt, rows, differences, &sides)
}

// A side, as its rows need it.
fn side_of(left: Left<'_>) -> Side<'_> {
    Side {
        plan: left.tables.plan(),
        sessions: left.sessions,
    }
}

// Adds them.
fn add_rows<R: AllocGlobal + Print>(
    rt: &R,
    rows: &mut RowWriter<'_>,
    differences: Differences<'_>,
    sides: &Sides<'_>,
) -> Result<bool, Unanswered> {
    let mut differs = false;
    for one in differences {
        differs = true;
        hand_difference(rows, sides, &one);
        print_rows(rt, rows)?;
    }
    Ok(differs)
}

// Hands over how many there are of each kind.
fn hand_counts(rows: &mut RowWriter<'_>, differences: Differences<'_>, sides: &Sides<'_>) -> bool {
    let mut counts = [0; 4];
    for one in differences {
        let change = change_of(sides, &one);
        for (place, kind) in CHANGES.iter().enumerate() {
            if *kind == change {
                counts[place] = more(counts[place]);
            }
        }
    }
    for (place, kind) in CHANGES.iter().enumerate() {
        if counts[place] > 0 {
            hand_count(rows, sides.client, *kind, counts[place]);
        }
    }
    counts.iter().any(|count| *count > 0)
}

// One more.
fn more(count: u64) -> u64 {
    count.saturating_add(1)
}

// The clients that are compared: the one that is asked for, or all.
fn clients<'a, R: AllocGlobal>(
    rt: &R,
    old: &'a Setup,
    new: &'a Setup,
    asked: &Option<String>,
) -> Result<Vec<Client<'a>>, Unanswered> {
    match asked {
        Some(word) => {
            let name = name_asked(rt, old, new, word)?;
            Ok(one_client(rt.alloc(), &old.plan, &new.plan, name)?)
        }
        None => Ok(all_clients(rt.alloc(), &old.plan, &new.plan)?),
    }
}

// The client of a name alone.
fn one_client<'a>(
    alloc: Global,
    old: &Exchange,
    new: &Exchange,
    name: &'a str,
) -> Result<Vec<Client<'a>>, AllocError> {
    let mut clients = Vec::new(alloc);
    clients.push(client_named(old, new, name))?;
    Ok(clients)
}

// The clients of the old tables in their order, then those that the new ones alone have.
fn all_clients<'a>(
    alloc: Global,
    old: &'a Exchange,
    new: &'a Exchange,
) -> Result<Vec<Client<'a>>, AllocError> {
    let mut clients = Vec::new(alloc);
    for number in 0..old.count() {
        clients.push(client_named(old, new, name_at(old, number)))?;
    }
    for number in 0..new.count() {
        let name = name_at(new, number);
        if peer_of_name(old, name).is_none() {
            clients.push(client_named(old, new, name))?;
        }
    }
    Ok(clients)
}

// The name of the client that a word names, in the one setup or in the other.
fn name_asked<'a, R: AllocGlobal>(
    rt: &R,
    old: &'a Setup,
    new: &'a Setup,
    word: &str,
) -> Result<&'a str, Unanswered> {
    match peer_named(rt, old, word) {
        Ok(number) => Ok(name_at(&old.plan, number)),
        Err(Unanswered::NoPeer(_)) => {
            let number = peer_named(rt, new, word)?;
            Ok(name_at(&new.plan, number))
        }
        Err(unanswered) => Err(unanswered),
    }
}

// The client of a name.
fn client_named<'a>(old: &Exchange, new: &Exchange, name: &'a str) -> Client<'a> {
    Client {
        name,
        old: peer_of_name(old, name),
        new: peer_of_name(new, name),
    }
}
