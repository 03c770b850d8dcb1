//! The reasons of answers, with what a peer's changes say last: as words, and as fields of JSON.

use crate::clock::Clock;
use crate::starts::{Start, never_announced};
use crate::treatment::{TREATED_AS_WITHDRAW, fault_text, treated_text};
use rs_choice::Exchange;
use rs_explain::{EndedBy, Ending, Explanation, LastSaid};
use rs_glass::{Answer, Cause, Said};
use rs_glass_shell::{
    Because, add_again, close_text, hand_doubt, hand_reason, name_at, names_text,
};
use rs_rows::{Form, RowWriter};
use rs_session::Reason;
use rs_update::Prefix;
use serde_json::Value;
use std::alloc::{AllocError, Global};

// The answer about a peer, and how it is shown.
#[derive(Clone, Copy)]
pub(crate) struct Answered<'a> {
    // The exchange, whose peers are named.
    pub(crate) plan: &'a Exchange,
    // The number of the client.
    pub(crate) client: usize,
    // The number of the peer.
    pub(crate) peer: usize,
    // The prefix.
    pub(crate) prefix: Prefix,
    // The answer.
    pub(crate) answer: &'a Answer,
    // Since when the peer's recording runs, if it never announced a route.
    pub(crate) start: Option<Start>,
    // When the peer's session began again behind its route, without a recorded loss between them.
    pub(crate) again: Option<u32>,
    // How times are shown.
    pub(crate) clock: Clock,
}

// Hands over the reason of an answer: as words in one field, or in JSON with what belongs to it.
pub(crate) fn hand_because(row: &mut RowWriter<'_>, it: &Answered<'_>) {
    if row.form() == Form::Json {
        return hand_values(row, it);
    }
    row.made_words("because", because_text(row.alloc(), it));
}

// The reason in words, and behind it whether the session began again behind the route.
fn because_text(alloc: Global, it: &Answered<'_>) -> Result<String, AllocError> {
    let mut text = match &it.answer.explanation {
        Explanation::Own => String::from_str(alloc, "its own")?,
        Explanation::Absent => absent_text(alloc, it)?,
        Explanation::Best(beaten) => beat_text(alloc, it.plan, beaten)?,
        explanation => {
            let because = Because {
                plan: it.plan,
                client: it.client,
                peer: it.peer,
                prefix: it.prefix,
                explanation,
            };
            because.to_string(alloc)?
        }
    };
    if let Some(again) = it.again {
        text.push_str("; ")?;
        add_again(&mut text, again)?;
    }
    Ok(text)
}

// Hands over the reason of an answer and what belongs to it, in JSON.
fn hand_values(row: &mut RowWriter<'_>, it: &Answered<'_>) {
    match &it.answer.explanation {
        Explanation::Own => row.value("reason", Ok(Value::Null)),
        Explanation::Absent => hand_absence(row, &it.answer.said),
        Explanation::Best(beaten) => {
            row.text("reason", if beaten.is_empty() { "alone" } else { "beat" });
            row.value("beat", names_value(row.alloc(), it.plan, beaten));
        }
        explanation => hand_reason(row, it.plan, it.peer, it.prefix, explanation),
    }
    if never_announced(it.answer) {
        let since = it.start.map(|start| start.time());
        row.number_or_none("recorded_since", since);
    }
    hand_doubt(row, it.again);
}

// Which routes a route beat.
fn beat_text(alloc: Global, plan: &Exchange, beaten: &[usize]) -> Result<String, AllocError> {
    if beaten.is_empty() {
        return String::from_str(alloc, "alone");
    }
    let names = names_text(alloc, plan, beaten)?;
    format!(in alloc; "beat {names}")
}

// The names of peers.
fn names_value(alloc: Global, plan: &Exchange, peers: &[usize]) -> Result<Value, AllocError> {
    let mut names = Vec::with_capacity(alloc, peers.len())?;
    for peer in peers {
        names.push(Value::try_from_str(alloc, name_at(plan, *peer))?)?;
    }
    Ok(Value::Array(names))
}

// Why a peer has no route.
fn absent_text(alloc: Global, it: &Answered<'_>) -> Result<String, AllocError> {
    let LastSaid::Ended(announced, ending) = it.answer.said.last else {
        return never_text(alloc, it);
    };
    match (ending.by, it.answer.said.cause) {
        (EndedBy::Withdrawal, Some(Cause::Treated(fault))) => treated_text(alloc, fault),
        (EndedBy::Withdrawal, _) => {
            let announced = it.clock.text(alloc, announced)?;
            format!(in alloc; "withdrawn (announced {announced})")
        }
        (EndedBy::Loss, Some(Cause::Lost(loss))) => format!(in alloc; "session lost: {loss}"),
        (EndedBy::Loss, _) => String::from_str(alloc, "session lost"),
        (EndedBy::Close(reason), _) => {
            let reason = close_text(alloc, reason)?;
            format!(in alloc; "session closed: {reason}")
        }
    }
}

// That a peer never announced a route: since when that is known. If its session closed before the end of its file,
// it is also said why. A recording that begins later says nothing.
fn never_text(alloc: Global, it: &Answered<'_>) -> Result<String, AllocError> {
    let mut text = String::from_str(alloc, "never announced")?;
    match it.start {
        Some(Start::InTime(time)) => {
            let time = it.clock.text(alloc, time)?;
            write!(text, " since {time}")?;
        }
        Some(Start::Later(time)) => {
            let time = it.clock.text(alloc, time)?;
            return format!(in alloc; "not recorded before {time}");
        }
        None => {}
    }
    if let Some(reason) = fault_of(&it.answer.said) {
        let reason = close_text(alloc, reason)?;
        write!(text, ", session closed: {reason}")?;
    }
    Ok(text)
}

// Hands over why a peer has no route, in JSON.
fn hand_absence(row: &mut RowWriter<'_>, said: &Said) {
    let alloc = row.alloc();
    match said.last {
        LastSaid::Ended(announced, ending) => {
            row.text("reason", ending_key(said, &ending));
            row.number("announced", u64::from(announced));
            row.value("by", ended_by(alloc, said, &ending));
        }
        _ => {
            row.text("reason", "never_announced");
            row.value("announced", Ok(Value::Null));
            row.value("by", close_value(alloc, fault_of(said)));
        }
    }
}

// How a route was taken away.
fn ending_key(said: &Said, ending: &Ending) -> &'static str {
    match (ending.by, said.cause) {
        (EndedBy::Withdrawal, Some(Cause::Treated(_))) => TREATED_AS_WITHDRAW,
        (EndedBy::Withdrawal, _) => "withdrawn",
        (EndedBy::Loss, _) => "session_lost",
        (EndedBy::Close(_), _) => "session_closed",
    }
}

// By what a session was lost or closed that took a route away, or the fault of an UPDATE that did, or null.
fn ended_by(alloc: Global, said: &Said, ending: &Ending) -> Result<Value, AllocError> {
    match (ending.by, said.cause) {
        (EndedBy::Withdrawal, Some(Cause::Treated(fault))) => {
            Ok(Value::String(fault_text(alloc, fault)?))
        }
        (EndedBy::Loss, Some(Cause::Lost(loss))) => Ok(Value::String(loss.to_string(alloc)?)),
        (EndedBy::Close(reason), _) => close_value(alloc, Some(reason)),
        _ => Ok(Value::Null),
    }
}

// Why a session closed, or null.
fn close_value(alloc: Global, reason: Option<Reason>) -> Result<Value, AllocError> {
    match reason {
        Some(reason) => Ok(Value::String(close_text(alloc, reason)?)),
        None => Ok(Value::Null),
    }
}

// Why a session closed, if that was not at the end of its file.
pub(crate) fn fault_of(said: &Said) -> Option<Reason> {
    match said.close {
        Some(Reason::EndOfFile) => None,
        close => close,
    }
}
