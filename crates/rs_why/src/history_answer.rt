//! The history of a prefix, as a text and as JSON: a row for each thing that happened.

use crate::attribute_fields::hand_rare;
use crate::attribute_lines::attribute_lines;
use crate::clock::Clock;
use crate::treatment::{TREATED_AS_WITHDRAW, fault_text, treated_text};
use rs_choice::Exchange;
use rs_glass::{Event, Gets, History};
use rs_glass_shell::{
    PrefixText, add_gets, attributes_text, close_text, hand_attributes, hand_peer, name_at,
    name_width, peer_name,
};
use rs_host::Utc;
use rs_rows::{Column, Form, RowWriter};
use rs_session::Reason;
use serde_json::Value;
use std::alloc::{AllocError, Global};

// How wide a point and six digits are.
const MICROSECONDS_WIDTH: usize = 7;

/// What is shown of a history.
#[derive(Clone, Copy)]
pub struct HistoryView<'a> {
    /// The exchange, whose peers are named.
    pub plan: &'a Exchange,
    /// From when on changes are shown, in seconds since 1970, if that was asked for.
    pub from: Option<u32>,
    /// Up to when records were read, in seconds since 1970, if that was asked for.
    pub until: Option<u32>,
    /// Whether the ends of files are shown.
    pub ends: bool,
    /// Whether all attributes of the routes are shown.
    pub attributes: bool,
}

impl HistoryView<'_> {
    // Whether a thing that happened is shown.
    pub(crate) fn shows(&self, one: &Gets) -> bool {
        let is_early = match self.from {
            Some(from) => one.time < from,
            None => false,
        };
        !is_early && (self.ends || !matches!(one.event, Event::Closed(Reason::EndOfFile)))
    }
}

/// The history as a text of several lines: for each thing that happened the time, the peer, whose route the client
/// gets from then on if one is asked for, and what happened.
pub fn history_text(
    alloc: Global,
    view: &HistoryView<'_>,
    history: &History,
) -> Result<String, AllocError> {
    let clock = clock_of(view, history);
    let gets = gets_title(alloc, view.plan, history)?;
    let columns = columns(view, history, clock, &gets);
    let mut rows = RowWriter::new(alloc, Form::Text, &columns);
    hand_head(&mut rows, view, history, clock);
    hand_titles(&mut rows, &gets);
    hand_changes(&mut rows, view, history, clock);
    rows.take()
}

/// The history as one JSON object on one line, with a line break behind it.
pub fn history_json(
    alloc: Global,
    view: &HistoryView<'_>,
    history: &History,
) -> Result<String, AllocError> {
    let plan = view.plan;
    let mut object = RowWriter::object(alloc);
    object.shown("prefix", &PrefixText(history.prefix));
    object.text_or("client", peer_name(plan, history.client), "");
    object.number_or_none("from", history.from);
    object.number_or_none("until", view.until);
    object.text_or("before", peer_name(plan, history.before), "");
    let mut changes = RowWriter::objects(alloc);
    hand_changes(&mut changes, view, history, Clock::none());
    object.value("changes", changes.into_value());
    object.end_row();
    object.take()
}

// The columns of the text. That of what the client gets, under this title, is there if a client is asked for.
fn columns(view: &HistoryView<'_>, history: &History, clock: Clock, gets: &str) -> [Column; 4] {
    let microseconds = microseconds_width(view, history);
    [
        Column::new("time", "time", clock.width().saturating_add(microseconds)),
        Column::new("peer", "peer", name_width(view.plan, "peer")),
        match history.client {
            Some(_) => Column::new("best", "", name_width(view.plan, gets)),
            None => Column::of_csv("best"),
        },
        Column::broken("change", "what happened"),
    ]
}

// Hands over the titles of the text.
fn hand_titles(row: &mut RowWriter<'_>, gets: &str) {
    row.words("time", "time");
    row.words("peer", "peer");
    row.words("best", gets);
    row.words("change", "what happened");
    row.end_row();
}

// Hands over what happened and is shown.
fn hand_changes(rows: &mut RowWriter<'_>, view: &HistoryView<'_>, history: &History, clock: Clock) {
    for one in &history.events {
        if view.shows(one) {
            hand_change(rows, view, clock, one);
        }
    }
}

// Hands over one thing that happened.
fn hand_change(row: &mut RowWriter<'_>, view: &HistoryView<'_>, clock: Clock, one: &Gets) {
    let alloc = row.alloc();
    hand_time(row, clock, one);
    hand_peer(row, view.plan, one.peer);
    row.text_or("best", peer_name(view.plan, one.best), "none");
    if row.form() == Form::Json {
        hand_event(row, view, &one.event);
        return row.end_row();
    }
    row.made_words("change", event_text(alloc, view, &one.event));
    row.end_row();
    match &one.event {
        Event::Announced(attributes) if view.attributes => {
            row.lines(attribute_lines(alloc, attributes));
        }
        _ => {}
    }
}

// Hands over when a thing happened: as it is shown, to the microsecond if that is known, or in seconds.
fn hand_time(row: &mut RowWriter<'_>, clock: Clock, one: &Gets) {
    let alloc = row.alloc();
    if row.form() == Form::Json {
        row.number("time", u64::from(one.time));
        if let Some(microseconds) = one.microseconds {
            row.number("microseconds", u64::from(microseconds));
        }
    } else if let Some(time) = time_of(one) {
        let time = clock.text_to_microseconds(alloc, time, one.microseconds);
        row.made_words("time", time);
    }
}

// Hands over what happened, and what belongs to it, in JSON.
fn hand_event(row: &mut RowWriter<'_>, view: &HistoryView<'_>, event: &Event) {
    let alloc = row.alloc();
    match event {
        Event::Announced(attributes) => {
            row.text("change", "announced");
            hand_attributes(row, attributes);
            if view.attributes {
                hand_rare(row, attributes);
            }
        }
        Event::Withdrawn => row.text("change", "withdrawn"),
        Event::Treated(fault) => {
            row.text("change", TREATED_AS_WITHDRAW);
            row.made("by", fault_text(alloc, *fault));
        }
        Event::Lost(loss) => {
            row.text("change", "session_lost");
            match loss {
                Some(loss) => row.shown("by", loss),
                None => row.value("by", Ok(Value::Null)),
            }
        }
        Event::Closed(reason) => {
            row.text("change", "session_closed");
            row.made("by", close_text(alloc, *reason));
        }
    }
}

// What happened, in words; the attributes of an announcement are left out if they have lines of their own.
pub(crate) fn event_text(
    alloc: Global,
    view: &HistoryView<'_>,
    event: &Event,
) -> Result<String, AllocError> {
    match event {
        Event::Announced(_) if view.attributes => String::from_str(alloc, "announced"),
        Event::Announced(attributes) => {
            let route = attributes_text(alloc, attributes)?;
            format!(in alloc; "announced: {route}")
        }
        Event::Withdrawn => String::from_str(alloc, "withdrawn"),
        Event::Treated(fault) => treated_text(alloc, *fault),
        Event::Lost(Some(loss)) => {
            let loss = *loss;
            format!(in alloc; "session lost: {loss}")
        }
        Event::Lost(None) => String::from_str(alloc, "session lost"),
        Event::Closed(Reason::EndOfFile) => String::from_str(alloc, end_text(view.until)),
        Event::Closed(reason) => {
            let reason = close_text(alloc, *reason)?;
            format!(in alloc; "session closed: {reason}")
        }
    }
}

// What ends at the end of a file. If there is a time up to which records are read, it may be the part that is read.
fn end_text(until: Option<u32>) -> &'static str {
    match until {
        None => "end of the file",
        Some(_) => "end of what is read",
    }
}

// How wide the microseconds are that are shown: a point and six digits, if there are any.
fn microseconds_width(view: &HistoryView<'_>, history: &History) -> usize {
    for gets in &history.events {
        if view.shows(gets) && gets.microseconds.is_some() {
            return MICROSECONDS_WIDTH;
        }
    }
    0
}

// When a thing happened; a close of a session without any change before it has no time.
pub(crate) fn time_of(one: &Gets) -> Option<u32> {
    match one.event {
        Event::Closed(_) if one.time == 0 => None,
        _ => Some(one.time),
    }
}

// The title of the column of what the client gets, as `b gets`; empty if no client is asked for.
pub(crate) fn gets_title(
    alloc: Global,
    plan: &Exchange,
    history: &History,
) -> Result<String, AllocError> {
    match history.client {
        Some(client) => {
            let name = name_at(plan, client);
            format!(in alloc; "{name} gets")
        }
        None => Ok(String::new(alloc)),
    }
}

// How the times are shown.
fn clock_of(view: &HistoryView<'_>, history: &History) -> Clock {
    let mut clock = Clock::none();
    if let Some(from) = history.from {
        clock = clock.with(from);
    }
    if let Some(until) = view.until {
        clock = clock.with(until);
    }
    for gets in &history.events {
        match time_of(gets) {
            Some(time) if view.shows(gets) => clock = clock.with(time),
            _ => {}
        }
    }
    clock
}

// Hands over the first line of the text, and the second if something before it counts.
fn hand_head(rows: &mut RowWriter<'_>, view: &HistoryView<'_>, history: &History, clock: Clock) {
    let alloc = rows.alloc();
    rows.sentence(head(alloc, view, history, clock));
    if let (Some(client), Some(_)) = (history.client, history.from) {
        let gets = (client, history.before);
        rows.sentence(before(alloc, view.plan, gets, history));
    }
}

// The first line.
fn head(
    alloc: Global,
    view: &HistoryView<'_>,
    history: &History,
    clock: Clock,
) -> Result<String, AllocError> {
    let prefix = PrefixText(history.prefix);
    let mut head = format!(in alloc; "history of {prefix}")?;
    if let Some(from) = history.from {
        let from = Utc(from);
        write!(head, " from {from}")?;
    }
    if let Some(until) = view.until {
        let until = Utc(until);
        write!(head, " until {until}")?;
    }
    clock.add_day(&mut head)?;
    Ok(head)
}

// The line of what the client gets before what is shown.
fn before(
    alloc: Global,
    plan: &Exchange,
    gets: (usize, Option<usize>),
    history: &History,
) -> Result<String, AllocError> {
    let mut line = String::from_str(alloc, "before that ")?;
    add_gets(&mut line, plan, gets, history.prefix)?;
    Ok(line)
}
