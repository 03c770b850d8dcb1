//! A difference between two tables, as rows of a list: in JSON one, and else one for the old route and one for the new.

use crate::layout::{ANSWER_WIDTH, AS_WIDTH, PREFIX_WIDTH};
use rs_choice::Exchange;
use rs_glass_shell::{PeerSession, PrefixText, hand_doubt, hand_route, name_at};
use rs_rows::{Column, Form, RowWriter};
use rs_survey::Choices;
use rs_table::Route;
use serde_json::Value;
use std::alloc::{AllocError, Global};

// How wide the mark before an old and a new route is.
const MARK_WIDTH: usize = 2;

// The columns of differences, with those of peers and of clients so wide. In text the change stands before the prefix.
pub(crate) fn diff_columns(names: usize, clients: usize) -> [Column; 16] {
    [
        Column::of_text("mark", "", MARK_WIDTH),
        Column::new("client", "client", clients),
        Column::of_text("change", "change", ANSWER_WIDTH),
        Column::new("prefix", "prefix", PREFIX_WIDTH),
        Column::of_csv("change"),
        Column::of_csv("side"),
        Column::new("peer", "peer", names),
        Column::new("as", "AS", AS_WIDTH),
        Column::of_csv("time"),
        Column::of_csv("next_hop"),
        Column::of_csv("path"),
        Column::of_csv("origin"),
        Column::of_csv("med"),
        Column::of_csv("communities"),
        Column::of_csv("large_communities"),
        Column::of_text("route", "route", 0),
    ]
}

// The columns of counts, with that of clients so wide.
pub(crate) fn change_columns(clients: usize) -> [Column; 3] {
    [
        Column::new("client", "client", clients),
        Column::new("change", "change", ANSWER_WIDTH),
        Column::new("routes", "routes", 0),
    ]
}

// What differs.
#[derive(Clone, Copy, Debug, PartialEq, Eq)]
pub(crate) enum Change {
    // The client gets a route that it did not get.
    Gained,
    // It gets none any more.
    Lost,
    // It gets that of another sender.
    Peer,
    // It gets the route of the same sender with other attributes.
    Attributes,
}

// The changes, in the order in which they are counted.
pub(crate) const CHANGES: [Change; 4] = [
    Change::Gained,
    Change::Lost,
    Change::Peer,
    Change::Attributes,
];

impl Change {
    // The word for it.
    pub(crate) fn word(self) -> &'static str {
        match self {
            Change::Gained => "gained",
            Change::Lost => "lost",
            Change::Peer => "peer",
            Change::Attributes => "attributes",
        }
    }
}

// One side of differences: its exchange, and what is known of the session of each of its peers.
#[derive(Clone, Copy)]
pub(crate) struct Side<'a> {
    pub(crate) plan: &'a Exchange,
    pub(crate) sessions: &'a [PeerSession],
}

// The client of differences, and both sides.
#[derive(Clone, Copy)]
pub(crate) struct Sides<'a> {
    pub(crate) client: &'a str,
    pub(crate) old: Side<'a>,
    pub(crate) new: Side<'a>,
}

// What differs on a prefix.
pub(crate) fn change_of(sides: &Sides, one: &Choices) -> Change {
    match (&one.before, &one.after) {
        (None, _) => Change::Gained,
        (_, None) => Change::Lost,
        (Some(old), Some(new)) => {
            if name_at(sides.old.plan, old.peer) == name_at(sides.new.plan, new.peer) {
                Change::Attributes
            } else {
                Change::Peer
            }
        }
    }
}

// Hands over a difference.
pub(crate) fn hand_difference(rows: &mut RowWriter<'_>, sides: &Sides, one: &Choices) {
    if rows.form() == Form::Json {
        let alloc = rows.alloc();
        hand_change(rows, "", sides, one);
        rows.value("old", route_value(alloc, &sides.old, &one.before));
        rows.value("new", route_value(alloc, &sides.new, &one.after));
        return rows.end_row();
    }
    if let Some(route) = &one.before {
        hand_change(rows, "-", sides, one);
        hand_side(rows, "old", sides.old.plan, route);
    }
    if let Some(route) = &one.after {
        hand_change(rows, "+", sides, one);
        hand_side(rows, "new", sides.new.plan, route);
    }
}

// Hands over the fields of a difference before those of a route.
fn hand_change(rows: &mut RowWriter<'_>, mark: &str, sides: &Sides, one: &Choices) {
    let (is_text, word) = (rows.form() == Form::Text, change_of(sides, one).word());
    rows.words("mark", mark);
    rows.text("client", sides.client);
    if is_text {
        rows.text("change", word);
    }
    rows.shown("prefix", &PrefixText(one.prefix));
    if !is_text {
        rows.text("change", word);
    }
}

// Hands over the route of one side.
fn hand_side(rows: &mut RowWriter<'_>, side: &str, plan: &Exchange, route: &Route) {
    rows.words("side", side);
    hand_route(rows, plan, route);
    rows.end_row();
}

// The route of a side as a value of JSON: null if there is none. If the session of its sender began again behind it, the
// value says so, as a row of a table does.
fn route_value(alloc: Global, side: &Side, route: &Option<Route<'_>>) -> Result<Value, AllocError> {
    match route {
        Some(route) => {
            let mut object = RowWriter::object(alloc);
            hand_route(&mut object, side.plan, route);
            hand_doubt(&mut object, again_after(side.sessions, route));
            object.into_value()
        }
        None => Ok(Value::Null),
    }
}

// When the session of a route's sender began again behind the route, if that is known.
fn again_after(sessions: &[PeerSession], route: &Route) -> Option<u32> {
    sessions.get(route.peer)?.again_after(route.time)
}

// Hands over how many differences of one kind a client has.
pub(crate) fn hand_count(rows: &mut RowWriter<'_>, client: &str, change: Change, count: u64) {
    rows.text("client", client);
    rows.text("change", change.word());
    rows.number("routes", count);
    rows.end_row();
}
