//! Answers a question about a prefix: reads the recorded files of a configuration, and writes what comes of it.

ghost use Rattle.std.specs.Prelude.{◌≡◌, IfOk, length};

use crate::history_answer::{HistoryView, history_json, history_text};
use crate::picture::history_picture;
use crate::starts::starts;
use crate::unread::by_reading;
use crate::why_answer::{WhyView, why_json, why_text};
use rs_glass::{
    History, Question, Reading, explain_all, fill_history, longest_announced, read_happenings,
    read_sessions,
};
use rs_glass_shell::{
    Reply, Unanswered, Whose, answer_with, check_place, known_of, peer_named, write_whole,
};
use rs_host::{Reached, WordsFault, configuration, first_unreadable, on_one_line};
use rs_mrt::{Bounds, FileReading, Losses, Tail};
use rs_notes::Outlines;
use rs_opening::{Beside, open_files};
use rs_query::{Destination, HistoryQuery, Span, WhyQuery};
use rs_setup::Setup;
use rs_update::Prefix;
use std::fs::Files;
use std::net::Ipv4Addr;
use std::thread::Threads;

/// Why a client has each peer's route, or not.
pub fn why<R: AllocGlobal + Files + Threads + Sync>(
    rt: &R,
    query: &WhyQuery,
) -> Result<Reply, Unanswered>
where
    R::File: Send,
    R::Dir: Send,
{
    let setup = configuration(rt, &query.config)?;
    let outlines = Outlines::new(rt.alloc(), &setup, query.span.until);
    explained(rt, query, &setup, &outlines)
}

// The answer about a prefix over the files of a setup. The outlines of the files are made too.
fn explained<R: AllocGlobal + Files + Threads + Sync>(
    rt: &R,
    query: &WhyQuery,
    setup: &Setup,
    outlines: &Outlines,
) -> Result<Reply, Unanswered>
where
    R::File: Send,
    R::Dir: Send,
    requires { length setup.now.files.items ≡ length setup.now.plan.value.peers }
{
    let alloc = rt.alloc();
    let client = peer_named(rt, setup, &query.client)?;
    let question = asked(rt, setup, query.prefix, query.span)?;
    let reading = read(rt, setup, &question, query.span.losses, outlines)?;
    let answers = explain_all(alloc, &reading, client, &question)?;
    let starts = starts(rt, setup, &answers, query.span.until)?;
    let known = known_of(rt, setup, outlines, query.span.losses, Whose::Of(client))?;
    let view = WhyView {
        plan: &setup.plan,
        tables: &reading.tables,
        starts: &starts,
        known: &known,
        until: query.span.until,
        all: query.all,
        attributes: query.attributes,
    };
    let text = if query.json {
        why_json(alloc, &view, &answers)?
    } else {
        why_text(alloc, &view, &answers)?
    };
    Ok(answer_with(text, known.notes))
}

/// What happened on a prefix. A picture over a file that is read is refused, and nothing is written.
pub fn history<R: AllocGlobal + Files + Threads + Sync>(
    rt: &R,
    query: &HistoryQuery,
) -> Result<Reply, Unanswered>
where
    R::File: Send,
    R::Dir: Send,
{
    let setup = configuration(rt, &query.config)?;
    let outlines = Outlines::new(rt.alloc(), &setup, query.span.until);
    let text = happened(rt, query, &setup, &outlines)?;
    let known = known_of(rt, &setup, &outlines, query.span.losses, Whose::Nobody)?;
    Ok(answer_with(text, known.notes))
}

// The text of that. The outlines of the files are made too.
fn happened<R: AllocGlobal + Files + Threads + Sync>(
    rt: &R,
    query: &HistoryQuery,
    setup: &Setup,
    outlines: &Outlines,
) -> Result<String, Unanswered>
where
    R::File: Send,
    R::Dir: Send,
    requires { length setup.now.files.items ≡ length setup.now.plan.value.peers }
{
    if let Some(place) = &query.svg {
        check_place(rt, place, &query.config, setup)?;
    }
    let client = match &query.client {
        Some(word) => Some(peer_named(rt, setup, word)?),
        None => None,
    };
    let mut history = replayed(rt, setup, client, query, outlines)?;
    show_from(&mut history, query.from);
    shown(rt, query, setup, &history)
}

// A history as it is asked for. Its picture is written, if one is asked for.
fn shown<R: AllocGlobal + Files>(
    rt: &R,
    query: &HistoryQuery,
    setup: &Setup,
    history: &History,
) -> Result<String, Unanswered> {
    let view = HistoryView {
        plan: &setup.plan,
        from: query.from,
        until: query.span.until,
        ends: query.ends,
        attributes: query.attributes,
    };
    if let Some(path) = &query.svg {
        write_picture(rt, path, &view, history)?;
    }
    if query.json {
        Ok(history_json(rt.alloc(), &view, history)?)
    } else {
        Ok(history_text(rt.alloc(), &view, history)?)
    }
}

// Writes the picture of a history to the file at a path.
fn write_picture<R: AllocGlobal + Files>(
    rt: &R,
    path: &str,
    view: &HistoryView<'_>,
    history: &History,
) -> Result<(), Unanswered> {
    let lines = history_text(rt.alloc(), view, history)?;
    let picture = history_picture(rt.alloc(), view, history, &lines)?;
    write_whole(rt, path, &picture)
}

// What is asked of the recorded sessions: of an address, about the longest prefix with a route that covers it; if
// there is none, about the address alone.
fn asked<R: AllocGlobal + Files + Threads + Sync>(
    rt: &R,
    setup: &Setup,
    destination: Destination,
    span: Span,
) -> Result<Question, Unanswered>
where
    R::File: Send,
    R::Dir: Send,
    requires { length setup.now.files.items ≡ length setup.now.plan.value.peers }
{
    let errors = span.errors;
    let prefix = match destination {
        Destination::Prefix(prefix) => prefix,
        Destination::Address(address) => {
            refuse_read_once(rt, setup, address)?;
            let prefix = host(address);
            let outlines = Outlines::none(
                rt.alloc(),
                Bounds {
                    until: span.until,
                    tail: Tail::Strict,
                },
            );
            let question = Question { prefix, errors };
            let reading = read(rt, setup, &question, span.losses, &outlines)?;
            longest_announced(&reading.tables, prefix).unwrap_or(prefix)
        }
    };
    Ok(Question { prefix, errors })
}

// The prefix of one address.
fn host(address: u32) -> Prefix {
    match Prefix::new(address, 32) {
        Some(prefix) => prefix,
        None => unreachable!(),
    }
}

// Refuses a question about an address if a file gives its octets only once: the file is read twice for such a
// question.
fn refuse_read_once<R: AllocGlobal + Files>(
    rt: &R,
    setup: &Setup,
    address: u32,
) -> Result<(), Unanswered> {
    let alloc = rt.alloc();
    let mut recordings = setup.recordings(alloc)?;
    for recording in setup.recordings(alloc)? {
        recordings.push(recording).map_err(|_| Unanswered::Memory)?;
    }
    match first_unreadable(rt, &recordings)? {
        Some(file) if file.number >= setup.files.len() => {
            let path = on_one_line(alloc, file.path)?;
            let address = Ipv4Addr::from_bits(address);
            let text = format!(in alloc;
                "looking_glass: --prefix {address} is an address, and {path} can be read only once\n"
            )?;
            Err(Unanswered::Words(WordsFault::Refused(text)))
        }
        _ => Ok(()),
    }
}

// What the recorded sessions of a configuration say. The outlines of the files are made too.
fn read<R: AllocGlobal + Files + Threads + Sync>(
    rt: &R,
    setup: &Setup,
    question: &Question,
    losses: Losses,
    outlines: &Outlines,
) -> Result<Reading, Unanswered>
where
    R::File: Send,
    R::Dir: Send,
    requires { length setup.now.files.items ≡ length setup.now.plan.value.peers }
    ensures plan { IfOk result (λ reading. reading.tables.plan ≡ setup.now.plan.value) }
    ensures as_many { IfOk result (λ reading.
        length reading.said.items ≡ length setup.now.plan.value.peers) }
{
    let alloc = rt.alloc();
    let reading = FileReading {
        bounds: outlines.bounds(),
        losses,
    };
    let reached = Reached::first_of_each(alloc, setup)?;
    let beside = Beside {
        outlines: outlines.slots(),
        reached: &reached,
    };
    let files = open_files(rt, setup, reading, |octets| octets, beside)?;
    match read_sessions(rt, alloc, &setup.plan, files, question) {
        Ok(reading) => Ok(reading),
        Err(fault) => Err(by_reading(alloc, fault, setup, &reached)),
    }
}

// The history of a configuration: for a picture also what happened before what is shown. The outlines of the files are
// made too.
fn replayed<R: AllocGlobal + Files + Threads + Sync>(
    rt: &R,
    setup: &Setup,
    client: Option<usize>,
    query: &HistoryQuery,
    outlines: &Outlines,
) -> Result<History, Unanswered>
where
    R::File: Send,
    R::Dir: Send,
    requires { length setup.now.files.items ≡ length setup.now.plan.value.peers }
{
    let alloc = rt.alloc();
    let question = asked(rt, setup, query.prefix, query.span)?;
    let reading = FileReading {
        bounds: outlines.bounds(),
        losses: query.span.losses,
    };
    let reached = Reached::first_of_each(alloc, setup)?;
    let beside = Beside {
        outlines: outlines.slots(),
        reached: &reached,
    };
    let files = open_files(rt, setup, reading, |octets| octets, beside)?;
    match read_happenings(rt, alloc, &setup.plan, files, &question) {
        Ok(happenings) => {
            let from = if query.svg.is_some() {
                None
            } else {
                query.from
            };
            let asked = History::of(alloc, &question, client, from);
            Ok(fill_history(alloc, &setup.plan, happenings, asked)?)
        }
        Err(fault) => Err(by_reading(alloc, fault, setup, &reached)),
    }
}

// Has a history begin at a time, if one is given, and notes what the client gets before that.
fn show_from(history: &mut History, from: Option<u32>) {
    let Some(from) = from else {
        return;
    };
    history.from = Some(from);
    let mut before = history.before;
    for gets in &history.events {
        if gets.time < from {
            before = gets.best;
        }
    }
    history.before = before;
}
