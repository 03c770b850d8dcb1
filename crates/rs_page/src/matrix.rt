//! How many routes each client gets from each sender, as a table whose cells have the stronger colour the more they
//! are.
//!
//! Our choices: numbers are seen at up to 32 peers; beyond, a cell shows its number while it is pointed at, and one of
//! 0 is empty. On paper the table is made as small as the width of A4 needs.

ghost use Rattle.std.specs.Prelude.{◌<◌, ◌≤◌};

use crate::elements::{add_number, close_section, name_of, open_section};
use crate::members::{Measure, Member};
use crate::shown::Shown;
use rs_picture::{Grouped, add_text, bar_length};
use rs_survey::Finding;
use std::alloc::AllocError;

const ABOUT: &str =
    "Each row is a client, each column a sender: how many routes the client gets from it. The stronger the colour of a cell, the more. \
The sum of a row is the length of the client's table. \
<span class=\"own\">&#8211;</span> stands for a client as its own sender: a client never gets its own routes.";

// Up to how many peers all numbers are seen.
const NUMBERED: usize = 32;

// The classes of cells, by how much of the greatest number is in them: none, then eight equal parts.
const LEVELS: u32 = 8;

const CLASSES: [&str; 9] = ["", "a", "b", "c", "d", "e", "f", "g", "h"];

// Names of up to so many letters stand upright above their columns.
const SHORT: usize = 5;

// How wide a letter, a cell with a number, a cell without and the sums are at most, and A4 between its margins, in
// pixels.
const LETTER: usize = 9;

const CELL: usize = 58;

const SMALL_CELL: usize = 16;

const SUMS: usize = 100;

const PAPER: usize = 690;

// How the table is laid out.
#[derive(Clone, Copy, Debug, PartialEq, Eq, Drop)]
struct Form {
    // How many peers there are.
    peers: usize,
    // How long the longest name is.
    longest: usize,
    // Whether cells show no numbers.
    is_small: bool,
    // The greatest number.
    most: u64,
}

impl Form {
    // The classes of the table.
    fn classes(self) -> &'static str {
        if self.is_small {
            "heat tall small"
        } else if self.longest > SHORT {
            "heat tall"
        } else {
            "heat"
        }
    }

    // By how many hundredths it is made smaller on paper.
    fn zoom(self) -> usize {
        let cell = if self.is_small { SMALL_CELL } else { CELL };
        let names = self.longest.saturating_mul(LETTER);
        let width = self
            .peers
            .saturating_mul(cell)
            .saturating_add(names)
            .saturating_add(SUMS);
        (100 * PAPER / width.max(1)).clamp(5, 100)
    }
}

// A cell of the table.
#[derive(Clone, Copy, Debug, PartialEq, Eq, Drop)]
struct Cell {
    // The number of the client.
    client: usize,
    // The number of the sender.
    sender: usize,
    // How many routes of the sender the client gets.
    routes: u64,
}

// How the table of an exchange is laid out, whose greatest number is given.
fn form_of(shown: &Shown<'_>, most: u64) -> Form {
    let mut longest = 0;
    for peer in 0..shown.tally.peers() {
        longest = longest.max(name_of(shown, peer).len());
    }
    let peers = shown.tally.peers();
    Form {
        peers,
        longest,
        is_small: peers > NUMBERED,
        most,
    }
}

/// Adds the section.
pub(crate) fn add_matrix(text: &mut String, shown: &Shown<'_>) -> Result<(), AllocError> {
    open_section(text, "Who gets whose routes", ABOUT)?;
    let fullest = fullest_of(shown);
    let form = form_of(shown, fullest.routes);
    let (classes, zoom) = (form.classes(), form.zoom());
    write!(
        text,
        "<div class=\"wide\"><table class=\"{classes}\" style=\"--print:{zoom}%\">\n"
    )?;
    text.push_str("<caption>Routes that each client gets from each sender</caption>\n")?;
    add_senders(text, shown)?;
    text.push_str("<tbody>\n")?;
    for client in 0..shown.tally.peers() {
        add_client(text, shown, client, form)?;
    }
    text.push_str("</tbody>\n")?;
    add_sums(text, shown.members, form)?;
    text.push_str("</table></div>\n")?;
    let (client, sender) = (
        name_of(shown, fullest.client),
        name_of(shown, fullest.sender),
    );
    close_section(
        text,
        shown,
        "table",
        &["--client", client, "--from", sender],
    )
}

// Adds the line of senders.
fn add_senders(text: &mut String, shown: &Shown<'_>) -> Result<(), AllocError> {
    text.push_str("<thead><tr><th scope=\"col\">client</th>")?;
    for peer in 0..shown.tally.peers() {
        text.push_str("<th scope=\"col\"><span>")?;
        add_text(text, name_of(shown, peer))?;
        text.push_str("</span></th>")?;
    }
    text.push_str("<th scope=\"col\">all</th></tr></thead>\n")
}

// The first cell with the greatest number; that of the first client and the first sender if all are 0.
fn fullest_of(shown: &Shown<'_>) -> Cell {
    let mut fullest = Cell {
        client: 0,
        sender: 0,
        routes: 0,
    };
    for client in 0..shown.tally.peers() {
        for sender in 0..shown.tally.peers() {
            let routes = shown.tally.count(Finding::Best(client, sender));
            if routes > fullest.routes {
                fullest = Cell {
                    client,
                    sender,
                    routes,
                };
            }
        }
    }
    fullest
}

// Adds the line of a client.
fn add_client(
    text: &mut String,
    shown: &Shown<'_>,
    client: usize,
    form: Form,
) -> Result<(), AllocError>
    requires { client < shown.now.tally.now.peers }
{
    text.push_str("<tr><th scope=\"row\">")?;
    add_text(text, name_of(shown, client))?;
    text.push_str("</th>")?;
    let mut all: u64 = 0;
    for peer in 0..shown.tally.peers() {
        let routes = shown.tally.count(Finding::Best(client, peer));
        all = all.saturating_add(routes);
        if peer == client {
            add_own(text, form)?;
        } else {
            add_heat(text, name_of(shown, peer), routes, form)?;
        }
    }
    add_number(text, all)?;
    text.push_str("</tr>\n")
}

// Adds the cell of a client as its own sender.
fn add_own(text: &mut String, form: Form) -> Result<(), AllocError> {
    text.push_str(if form.is_small {
        "<td class=\"own\"></td>"
    } else {
        "<td class=\"own\">&#8211;</td>"
    })
}

// Adds the cell of a number of routes from a sender.
fn add_heat(text: &mut String, sender: &str, routes: u64, form: Form) -> Result<(), AllocError> {
    if routes == 0 {
        return text.push_str(if form.is_small {
            "<td></td>"
        } else {
            "<td>0</td>"
        });
    }
    text.push_str("<td class=\"")?;
    text.push_str(CLASSES[bar_length(routes, form.most, LEVELS) as usize])?;
    text.push_str("\" title=\"")?;
    add_text(text, sender)?;
    let routes = Grouped(routes);
    if form.is_small {
        write!(text, ": {routes}\"></td>")
    } else {
        write!(text, "\">{routes}</td>")
    }
}

// Adds the line of sums: how many routes all clients together get from each sender, and from all.
fn add_sums(text: &mut String, members: &[Member], form: Form) -> Result<(), AllocError> {
    text.push_str("<tfoot><tr><th scope=\"row\">all</th>")?;
    let mut all: u64 = 0;
    for member in members {
        let sum = member.number(Measure::Best);
        all = all.saturating_add(sum);
        if form.is_small {
            let sum = Grouped(sum);
            write!(text, "<td><span>{sum}</span></td>")?;
        } else {
            add_number(text, sum)?;
        }
    }
    add_number(text, all)?;
    text.push_str("</tr></tfoot>\n")
}
