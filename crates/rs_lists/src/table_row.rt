//! A row of a client's table, as a row of a list.

use crate::layout::{AS_WIDTH, PREFIX_WIDTH, rpki_column};
use rs_choice::Exchange;
use rs_glass_shell::{DOUBT, PrefixText, hand_doubt, hand_route, hand_rpki, name_width};
use rs_rows::{Column, RowWriter};
use rs_table::Row;

// How wide the column of times is.
const TIME_WIDTH: usize = 21;

// The columns.
pub(crate) fn table_columns(plan: &Exchange) -> [Column; 14] {
    [
        Column::new("prefix", "prefix", PREFIX_WIDTH),
        Column::new("peer", "peer", name_width(plan, "peer")),
        Column::new("as", "AS", AS_WIDTH),
        Column::of_csv("time"),
        Column::of_text("since", "since (UTC)", TIME_WIDTH),
        Column::of_csv("next_hop"),
        Column::of_csv("path"),
        Column::of_csv("origin"),
        Column::of_csv("med"),
        Column::of_csv("communities"),
        Column::of_csv("large_communities"),
        rpki_column(plan),
        Column::of_text("route", "route", 0),
        Column::of_text(DOUBT, "", 0),
    ]
}

// Hands over a row of the table. If the session of the route's sender began again behind it, the row says so.
pub(crate) fn hand_table_row(
    rows: &mut RowWriter<'_>,
    plan: &Exchange,
    row: &Row,
    again: Option<u32>,
) {
    rows.shown("prefix", &PrefixText(row.prefix));
    hand_route(rows, plan, &row.route);
    hand_rpki(rows, plan, row.prefix, row.route.attributes);
    hand_doubt(rows, again);
    rows.end_row();
}
