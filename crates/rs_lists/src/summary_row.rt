//! The rows of a summary: each has a key that tells its kind.

ghost use Rattle.std.specs.Prelude.{◌<◌};

use crate::layout::{AS_WIDTH, REASON_WIDTH, shown_if};
use crate::summary_numbers::{at_all_clients, filtered, of_pair, of_peer};
use rs_choice::{Exchange, Step};
use rs_glass_shell::{hand_peer, name_at, name_width, reason_key, step_key};
use rs_query::reason_names::{
    FILTERED, NEXT_HOP_OFF_EXCHANGE, SERVER_ADDRESS_AS_NEXT_HOP, SERVER_AS_IN_PATH,
};
use rs_rows::{Column, RowWriter};
use rs_survey::{FILTERS, Finding, MissingReason, Tally};

// How wide a column of numbers is.
pub(crate) const NUMBER_WIDTH: usize = 11;

// The columns. In text they are those of the table of peers.
pub(crate) fn summary_columns(plan: &Exchange) -> [Column; 15] {
    let names = name_width(plan, "peer");
    let filters = plan.import().is_configured();
    [
        Column::of_csv("kind"),
        Column::of_csv("client"),
        Column::new("peer", "peer", names),
        Column::new("as", "AS", AS_WIDTH),
        Column::of_csv("step"),
        shown_if(filters, Column::of_csv("reason")),
        Column::new("left", "left", NUMBER_WIDTH),
        Column::new(SERVER_AS_IN_PATH, "server AS", NUMBER_WIDTH),
        Column::new(SERVER_ADDRESS_AS_NEXT_HOP, "server hop", NUMBER_WIDTH),
        Column::new(NEXT_HOP_OFF_EXCHANGE, "off subnet", NUMBER_WIDTH),
        shown_if(filters, Column::new(FILTERED, "filtered", NUMBER_WIDTH)),
        Column::new("refused", "refused", NUMBER_WIDTH),
        Column::new("lost", "lost", NUMBER_WIDTH),
        Column::new("best", "best", 0),
        Column::of_csv("prefixes"),
    ]
}

// Hands over what becomes of the routes of a peer.
pub(crate) fn hand_sender(rows: &mut RowWriter<'_>, plan: &Exchange, tally: &Tally, peer: usize)
    requires { peer < tally.now.peers }
{
    rows.text("kind", "peer");
    hand_peer(rows, plan, peer);
    for (key, number) in of_peer(tally, peer) {
        rows.number(key, number);
    }
    if plan.import().is_configured() {
        rows.number(FILTERED, filtered(tally, peer));
    }
    for (key, number) in at_all_clients(tally, peer) {
        rows.number(key, number);
    }
    rows.end_row();
}

// The columns of the table of filters, in text.
pub(crate) fn filter_columns(plan: &Exchange) -> [Column; 4] {
    [
        Column::new("peer", "peer", name_width(plan, "peer")),
        Column::new("as", "AS", AS_WIDTH),
        Column::new("reason", "reason", REASON_WIDTH),
        Column::new(FILTERED, "routes", 0),
    ]
}

// Hands over how many routes of a peer each filter does not take in, if there are any.
pub(crate) fn hand_filters(rows: &mut RowWriter<'_>, plan: &Exchange, tally: &Tally, peer: usize)
    requires { peer < tally.now.peers }
{
    for filter in FILTERS {
        let count = tally.count(Finding::Filtered(peer, filter));
        if count > 0 {
            rows.text("kind", "filter");
            hand_peer(rows, plan, peer);
            rows.text("reason", reason_key(MissingReason::Filtered(filter)));
            rows.number(FILTERED, count);
            rows.end_row();
        }
    }
}

// Hands over what becomes of the routes of a peer at a client.
pub(crate) fn hand_pair(
    rows: &mut RowWriter<'_>,
    plan: &Exchange,
    tally: &Tally,
    client: usize,
    peer: usize,
)
    requires client_known { client < tally.now.peers }
    requires peer_known { peer < tally.now.peers }
{
    rows.text("kind", "pair");
    rows.text("client", name_at(plan, client));
    hand_peer(rows, plan, peer);
    for (key, number) in of_pair(tally, client, peer) {
        rows.number(key, number);
    }
    rows.end_row();
}

// Hands over how many routes a step removed.
pub(crate) fn hand_step(rows: &mut RowWriter<'_>, tally: &Tally, step: Step) {
    rows.text("kind", "step");
    rows.text("step", step_key(step));
    rows.number("lost", tally.count(Finding::Removed(step)));
    rows.end_row();
}

// Hands over how many paths one decision for all clients would hide.
pub(crate) fn hand_hidden(rows: &mut RowWriter<'_>, tally: &Tally) {
    rows.text("kind", "hidden");
    rows.number("prefixes", tally.count(Finding::Hidden));
    rows.end_row();
}
