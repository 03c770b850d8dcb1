//! A route that a client does not get, as a row of a list. As a text it is short: the path attributes are in CSV and JSON.

use crate::layout::{ANSWER_WIDTH, AS_WIDTH, PREFIX_WIDTH, rpki_column};
use rs_choice::Exchange;
use rs_glass_shell::{
    Because, DOUBT, PrefixText, answer_name, hand_attributes, hand_doubt, hand_peer, hand_reason,
    hand_rpki, name_width, peer_name,
};
use rs_rows::{Column, Form, RowWriter};
use rs_survey::{MissingOn, MissingRoute};
use rs_table::Route;

// The columns.
pub(crate) fn missing_columns(plan: &Exchange) -> [Column; 16] {
    let names = name_width(plan, "peer");
    [
        Column::new("prefix", "prefix", PREFIX_WIDTH),
        Column::new("peer", "peer", names),
        Column::new("as", "AS", AS_WIDTH),
        Column::of_csv("time"),
        Column::new("best", "gets", names),
        Column::new("answer", "answer", ANSWER_WIDTH),
        Column::of_csv("reason"),
        Column::new("because", "because", 0),
        Column::of_csv("next_hop"),
        Column::of_csv("path"),
        Column::of_csv("origin"),
        Column::of_csv("med"),
        Column::of_csv("communities"),
        Column::of_csv("large_communities"),
        rpki_column(plan),
        Column::of_text(DOUBT, "", 0),
    ]
}

// Hands over a route that the client of a number does not get. If the session of its sender began again behind it, the
// row says so.
pub(crate) fn hand_missing(
    rows: &mut RowWriter<'_>,
    plan: &Exchange,
    client: usize,
    on: &MissingOn,
    one: &MissingRoute,
    again: Option<u32>,
) {
    let (peer, explanation) = (one.route.peer, &one.explanation);
    rows.shown("prefix", &PrefixText(on.prefix));
    hand_peer(rows, plan, peer);
    rows.number("time", u64::from(one.route.time));
    rows.text_or("best", peer_name(plan, best_peer(&on.best)), "none");
    rows.text("answer", answer_name(explanation));
    hand_reason(rows, plan, peer, on.prefix, explanation);
    let because = Because {
        plan,
        client,
        peer,
        prefix: on.prefix,
        explanation,
    };
    rows.shown_words("because", &because);
    if rows.form() != Form::Text {
        hand_attributes(rows, one.route.attributes);
        hand_rpki(rows, plan, on.prefix, one.route.attributes);
    }
    hand_doubt(rows, again);
    rows.end_row();
}

// The number of the peer whose route the client gets, if any.
fn best_peer(best: &Option<Route>) -> Option<usize> {
    match best {
        Some(route) => Some(route.peer),
        None => None,
    }
}
