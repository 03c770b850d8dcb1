//! An answer to `why`, as a text and as JSON: what the client gets, and a row for each other peer.

use crate::attribute_fields::attributes_object;
use crate::attribute_lines::{attribute_lines, rpki_line};
use crate::because::{Answered, fault_of, hand_because};
use crate::clock::Clock;
use crate::starts::Start;
use rs_choice::Exchange;
use rs_explain::LastSaid;
use rs_glass::{Answer, Answers, LessSpecific};
use rs_glass_shell::{
    Down, Known, PrefixText, add_down, add_gets, answer_name, hand_peer, name_at, name_width,
    peer_name,
};
use rs_host::Utc;
use rs_rows::{Column, Form, RowWriter};
use rs_table::{Route, Tables};
use rs_update::Prefix;
use serde_json::Value;
use std::alloc::{AllocError, Global};

// How wide the columns of AS numbers and of answers are.
const AS_WIDTH: usize = 12;

const ANSWER_WIDTH: usize = 11;

/// What is shown together with the answers.
#[derive(Clone, Copy)]
pub struct WhyView<'a> {
    /// The exchange, whose peers are named.
    pub plan: &'a Exchange,
    /// The tables that the answers are about.
    pub tables: &'a Tables,
    /// Since when the recording of each peer runs that never announced a route.
    pub(crate) starts: &'a [Option<Start>],
    /// What is known of the recorded files.
    pub(crate) known: &'a Known,
    /// Up to when records were read, in seconds since 1970, if that was asked for.
    pub until: Option<u32>,
    /// Whether each peer that never announced the prefix has a line of its own.
    pub all: bool,
    /// Whether all attributes of the routes are shown.
    pub attributes: bool,
}

impl WhyView<'_> {
    // Since when the recording of a peer runs.
    pub(crate) fn start(&self, peer: usize) -> Option<Start> {
        *self.starts.get(peer)?
    }

    // The route that a peer has left on a prefix; none if no peer has this number.
    fn route(&self, peer: usize, prefix: Prefix) -> Option<Route<'_>> {
        if peer < self.tables.count() {
            self.tables.route(peer, prefix)
        } else {
            None
        }
    }
}

/// The answers as a text of several lines. It begins with what the client gets. For each other peer it gives the AS,
/// the time at which the peer's route was announced or taken away, the answer and the reason. The peer whose route
/// the client gets comes first. If several peers never announced the prefix, one line counts them, unless all are
/// asked for.
pub fn why_text(
    alloc: Global,
    view: &WhyView<'_>,
    answers: &Answers,
) -> Result<String, AllocError> {
    let clock = clock_of(view, answers);
    let columns = columns(view.plan, clock);
    let mut rows = RowWriter::new(alloc, Form::Text, &columns);
    rows.sentence(head(alloc, view, answers, clock));
    rows.titles();
    hand_others(&mut rows, view, answers, clock);
    if let Some(wide) = &answers.less_specific {
        rows.sentence(less_specific(alloc, view.plan, answers.client, wide));
    }
    rows.take()
}

/// The answers as one JSON object on one line, with a line break behind it.
pub fn why_json(
    alloc: Global,
    view: &WhyView<'_>,
    answers: &Answers,
) -> Result<String, AllocError> {
    let plan = view.plan;
    let mut object = RowWriter::object(alloc);
    object.text("client", name_at(plan, answers.client));
    object.shown("prefix", &PrefixText(answers.prefix));
    object.number_or_none("until", view.until);
    object.text_or("best", peer_name(plan, answers.best), "");
    if let Some(down) = view.known.session(answers.client).down {
        object.value("session", down_value(alloc, down));
    }
    let mut peers = RowWriter::objects(alloc);
    for peer in 0..answers.peers.len() {
        hand_answer(&mut peers, view, answers, peer, Clock::none());
    }
    object.value("peers", peers.into_value());
    object.value("less_specific", less_specific_value(alloc, plan, answers));
    object.end_row();
    object.take()
}

// The columns of the text.
fn columns(plan: &Exchange, clock: Clock) -> [Column; 5] {
    [
        Column::new("peer", "peer", name_width(plan, "peer")),
        Column::new("as", "AS", AS_WIDTH),
        Column::new("time", "time", clock.width()),
        Column::new("answer", "answer", ANSWER_WIDTH),
        Column::broken("because", "because"),
    ]
}

// Hands over the answer about a peer, if there is a peer of this number.
fn hand_answer(
    row: &mut RowWriter<'_>,
    view: &WhyView<'_>,
    answers: &Answers,
    peer: usize,
    clock: Clock,
) {
    let Some(answer) = answers.peers.get(peer) else {
        return;
    };
    hand_peer(row, view.plan, peer);
    clock.hand(row, answer.said.time());
    row.text("answer", answer_name(&answer.explanation));
    let answered = Answered {
        plan: view.plan,
        client: answers.client,
        peer,
        prefix: answers.prefix,
        answer,
        start: view.start(peer),
        again: again_behind(view, answer, peer),
        clock,
    };
    hand_because(row, &answered);
    let route = view.route(peer, answers.prefix);
    if view.attributes && row.form() == Form::Json {
        row.value(
            "attributes",
            attributes_value(row.alloc(), view.plan, answers.prefix, &route),
        );
    }
    row.end_row();
    match route {
        Some(route) if view.attributes => {
            row.lines(attribute_lines(row.alloc(), route.attributes));
            row.lines(rpki_line(row.alloc(), view.plan, answers.prefix, route.attributes));
        }
        _ => {}
    }
}

// All attributes of a route on a prefix and its validity by RPKI, or null.
fn attributes_value(
    alloc: Global,
    plan: &Exchange,
    prefix: Prefix,
    route: &Option<Route<'_>>,
) -> Result<Value, AllocError> {
    match route {
        Some(route) => attributes_object(alloc, plan, prefix, route.attributes),
        None => Ok(Value::Null),
    }
}

// Hands over the answers about all peers but the client, the one whose route it gets first.
fn hand_others(rows: &mut RowWriter<'_>, view: &WhyView<'_>, answers: &Answers, clock: Clock) {
    let silent = silent_peers(view, answers);
    if let Some(best) = answers.best {
        hand_answer(rows, view, answers, best, clock);
    }
    for peer in 0..answers.peers.len() {
        let is_counted = silent.is_some() && is_silent(view, answers, peer);
        if peer != answers.client && answers.best != Some(peer) && !is_counted {
            hand_answer(rows, view, answers, peer, clock);
        }
    }
    if let Some(silent) = silent {
        rows.lines(silent.line(rows.alloc(), clock));
    }
}

// The peers that one line counts, as they never announced the prefix: how many, and since when all are recorded.
#[derive(Clone, Copy, Debug, PartialEq, Eq)]
struct Silent {
    count: usize,
    since: u32,
}

impl Silent {
    // Their line.
    fn line(self, alloc: Global, clock: Clock) -> Result<String, AllocError> {
        let (count, since) = (self.count, clock.text(alloc, self.since)?);
        format!(in alloc; "{count} peers never announced it since {since}\n")
    }
}

// Those peers; none if they would be less than two.
fn silent_peers(view: &WhyView<'_>, answers: &Answers) -> Option<Silent> {
    let mut silent = Silent { count: 0, since: 0 };
    for peer in 0..answers.peers.len() {
        if let Some(Start::InTime(time)) = view.start(peer) {
            if is_silent(view, answers, peer) {
                silent = Silent {
                    count: silent.count.saturating_add(1),
                    since: silent.since.max(time),
                };
            }
        }
    }
    if silent.count > 1 { Some(silent) } else { None }
}

// Whether a peer is one of them: one that is recorded and whose session did not close by a fault.
fn is_silent(view: &WhyView<'_>, answers: &Answers, peer: usize) -> bool {
    let Some(answer) = answers.peers.get(peer) else {
        return false;
    };
    let is_recorded = matches!(view.start(peer), Some(Start::InTime(_)));
    !view.all && peer != answers.client && is_recorded && fault_of(&answer.said).is_none()
}

// How the times of answers are shown.
fn clock_of(view: &WhyView<'_>, answers: &Answers) -> Clock {
    let mut clock = Clock::none();
    if let Some(until) = view.until {
        clock = clock.with(until);
    }
    for (peer, answer) in answers.peers.iter().enumerate() {
        if peer != answers.client {
            clock = clock.with_all(&answer.said).with_start(view.start(peer));
        }
    }
    clock
}

// The first line.
fn head(
    alloc: Global,
    view: &WhyView<'_>,
    answers: &Answers,
    clock: Clock,
) -> Result<String, AllocError> {
    let mut head = String::new(alloc);
    let gets = (answers.client, answers.best);
    add_gets(&mut head, view.plan, gets, answers.prefix)?;
    match view.until {
        Some(until) => {
            let until = Utc(until);
            write!(head, " (until {until} UTC)")?;
        }
        None => clock.add_day(&mut head)?,
    }
    if let Some(down) = view.known.session(answers.client).down {
        head.push_str("; ")?;
        add_down(&mut head, view.plan, answers.client, down)?;
    }
    Ok(head)
}

// That the session of the client is down, in JSON.
fn down_value(alloc: Global, down: Down) -> Result<Value, AllocError> {
    let mut object = RowWriter::object(alloc);
    match down {
        Down::Since(time) => {
            object.text("state", "down");
            object.number("since", u64::from(time));
        }
        Down::NotBegun => {
            object.text("state", "not_begun");
            object.value("since", Ok(Value::Null));
        }
    }
    object.into_value()
}

// When the session of a peer began again behind its route, without a recorded loss between them.
fn again_behind(view: &WhyView<'_>, answer: &Answer, peer: usize) -> Option<u32> {
    match answer.said.last {
        LastSaid::Announced(time) => view.known.session(peer).again_after(time),
        _ => None,
    }
}

// The line of a less specific prefix.
fn less_specific(
    alloc: Global,
    plan: &Exchange,
    client: usize,
    wide: &LessSpecific,
) -> Result<String, AllocError> {
    let mut line = String::from_str(alloc, "less specific: ")?;
    add_gets(&mut line, plan, (client, wide.best), wide.prefix)?;
    Ok(line)
}

// The less specific prefix and what the client gets there, or null.
fn less_specific_value(
    alloc: Global,
    plan: &Exchange,
    answers: &Answers,
) -> Result<Value, AllocError> {
    let Some(LessSpecific { prefix, best }) = answers.less_specific else {
        return Ok(Value::Null);
    };
    let mut object = RowWriter::object(alloc);
    object.shown("prefix", &PrefixText(prefix));
    object.text_or("best", peer_name(plan, best), "");
    object.into_value()
}
