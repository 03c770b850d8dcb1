//! Which routes import policy filters, by sender and filter.
//!
//! Our choice: a filter has a short name here, since bars have little room for one.

ghost use Rattle.std.specs.Prelude.{◌<◌};

use crate::bars::{Bar, NO_BAR, add_figure, scale};
use crate::elements::{add_number, close_row, close_table, name_of, open_row, open_table};
use crate::shown::Shown;
use rs_survey::{FILTERS, Filter, Finding, Tally};
use std::alloc::AllocError;

// How many filters there are.
const COUNT: usize = FILTERS.len();

/// How many routes of a peer import policy filters.
pub(crate) fn filtered_of(tally: &Tally, peer: usize) -> u64
    requires { peer < tally.now.peers }
{
    let mut filtered: u64 = 0;
    for filter in FILTERS {
        filtered = filtered.saturating_add(tally.count(Finding::Filtered(peer, filter)));
    }
    filtered
}

/// Adds a picture of how many routes of all peers each filter finds, and the table behind it: those of each peer.
pub(crate) fn add_filters(text: &mut String, shown: &Shown<'_>) -> Result<(), AllocError> {
    add_figure(
        text,
        "Eligible routes that are filtered, each counted once",
        &bars_of(shown.tally),
    )?;
    let mut titles = ["peer"; COUNT + 1];
    for place in 0..COUNT {
        titles[place + 1] = label(FILTERS[place]);
    }
    open_table(text, &titles)?;
    add_rows(text, shown)?;
    close_table(text)
}

// Adds the rows of the table.
fn add_rows(text: &mut String, shown: &Shown<'_>) -> Result<(), AllocError> {
    for peer in 0..shown.tally.peers() {
        add_row(text, shown, peer)?;
    }
    Ok(())
}

// Adds the row of a peer.
fn add_row(text: &mut String, shown: &Shown<'_>, peer: usize) -> Result<(), AllocError>
    requires { peer < shown.now.tally.now.peers }
{
    open_row(text, name_of(shown, peer))?;
    for filter in FILTERS {
        add_number(text, shown.tally.count(Finding::Filtered(peer, filter)))?;
    }
    close_row(text)
}

// The bars of the filters.
fn bars_of(tally: &Tally) -> [Bar; COUNT] {
    let mut bars = [NO_BAR; COUNT];
    for place in 0..COUNT {
        bars[place] = Bar {
            label: label(FILTERS[place]),
            number: count_of(tally, FILTERS[place]),
            class: "ko",
            ..NO_BAR
        };
    }
    scale(&mut bars);
    bars
}

// How many routes of all peers a filter finds.
fn count_of(tally: &Tally, filter: Filter) -> u64 {
    let mut count: u64 = 0;
    for peer in 0..tally.peers() {
        count = count.saturating_add(tally.count(Finding::Filtered(peer, filter)));
    }
    count
}

// The name of a filter.
fn label(filter: Filter) -> &'static str {
    match filter {
        Filter::PrefixLength => "prefix length",
        Filter::RefusedPrefix => "refused prefix",
        Filter::PathLengthLimit => "path length",
        Filter::RefusedAs => "refused AS",
        Filter::FirstAs => "first AS",
        Filter::PrefixList => "prefix list",
        Filter::OriginAs => "origin AS",
        Filter::RpkiInvalid => "RPKI invalid",
    }
}
