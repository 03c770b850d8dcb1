//! Why routes are missing, how often each step of the decision process decided, and what one decision would hide.

use crate::bars::{Bar, NO_BAR, add_figure, scale};
use crate::elements::{
    add_number, close_row, close_section, close_table, name_of, open_row, open_section, open_table,
};
use crate::filters::add_filters;
use crate::members::{Measure, most_of, total_of};
use crate::shown::Shown;
use rs_explain::STEPS;
use rs_glass_shell::step_name;
use rs_picture::Grouped;
use rs_survey::Finding;
use std::alloc::AllocError;

const CAUSES_ABOUT: &str =
    "Routes that are not eligible, by the first condition that fails, and eligible ones that are refused or lost, of all peers together.";

const FILTERED_ABOUT: &str =
    " Between them stand eligible ones that import policy filters, by the first condition that fails.";

const STEPS_ABOUT: &str =
    "How many candidates each step of the decision process removed, at all clients together. \
A route that loses at two clients counts twice.";

// What a picture of bars shows: its title, which says what is counted, and the titles of its two columns.
struct Titles {
    picture: &'static str,
    columns: [&'static str; 2],
}

const INELIGIBLE: Titles = Titles {
    picture: "Routes that are not eligible, each counted once",
    columns: ["condition", "routes"],
};

const REFUSED_OR_LOST: Titles = Titles {
    picture: "Routes refused or lost, each counted once for each client",
    columns: ["cause", "routes, for each client"],
};

const REMOVED: Titles = Titles {
    picture: "Routes lost, each counted once for each client",
    columns: ["step", "routes, for each client"],
};

/// Adds the sections of the causes and of the steps.
pub(crate) fn add_causes(text: &mut String, shown: &Shown<'_>) -> Result<(), AllocError> {
    let about = shown.about(CAUSES_ABOUT, FILTERED_ABOUT)?;
    open_section(text, "Why routes are missing", &about)?;
    add_measured(
        text,
        shown,
        &INELIGIBLE,
        &[
            Measure::OwnAs,
            Measure::ServerAsNextHop,
            Measure::NextHopOffSubnet,
        ],
    )?;
    if shown.has_import() {
        add_filters(text, shown)?;
    }
    add_measured(
        text,
        shown,
        &REFUSED_OR_LOST,
        &[Measure::Refused, Measure::Lost],
    )?;
    let client = name_of(shown, 0);
    close_section(text, shown, "missing", &["--client", client, "--count"])?;
    open_section(text, "What decides", STEPS_ABOUT)?;
    add_pictured(text, &REMOVED, &steps_of(shown))?;
    let hidden = Grouped(shown.tally.count(Finding::Hidden));
    writeln!(
        text,
        "<p>Hidden paths: on <b>{hidden}</b> prefixes one decision for all clients would leave a client none.</p>"
    )?;
    close_section(text, shown, "summary", &[])
}

// Adds a picture of some numbers of all peers together.
fn add_measured(
    text: &mut String,
    shown: &Shown<'_>,
    titles: &Titles,
    measures: &[Measure],
) -> Result<(), AllocError> {
    let total = total_of(shown.members);
    let most = most_of(&[total], measures);
    let bars = total.bars(shown.alloc, measures, most)?;
    add_pictured(text, titles, &bars)
}

// Adds a picture of bars, and the table behind it.
fn add_pictured(text: &mut String, titles: &Titles, bars: &[Bar]) -> Result<(), AllocError> {
    add_figure(text, titles.picture, bars)?;
    open_table(text, &titles.columns)?;
    for bar in bars {
        open_row(text, bar.label)?;
        add_number(text, bar.number)?;
        close_row(text)?;
    }
    close_table(text)
}

// The bars of the steps.
fn steps_of(shown: &Shown<'_>) -> [Bar; 6] {
    let mut bars = [NO_BAR; 6];
    for place in 0..STEPS.len() {
        bars[place] = Bar {
            label: step_name(STEPS[place]),
            number: shown.tally.count(Finding::Removed(STEPS[place])),
            class: "kg",
            ..NO_BAR
        };
    }
    scale(&mut bars);
    bars
}
