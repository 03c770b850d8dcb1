//! Pictures of the numbers of each peer.
//!
//! Our choice: a picture has one scale. So what counts a route once has pictures of its own, and so has what counts a
//! route once for each client.

use crate::bars::add_bars;
use crate::elements::{
    add_number, close_row, close_section, close_table, name_of, open_row, open_section, open_table,
};
use crate::members::{Measure, Member, most_of};
use crate::shown::Shown;
use rs_glass_shell::asn_at;
use rs_picture::add_text;
use std::alloc::{AllocError, Global};

const ABOUT: &str =
    "The numbers of each peer, in two parts. The bars of a part have one scale at all peers.";

// Pictures of one scale.
#[derive(Clone, Copy)]
struct Part<'a> {
    // What they show, in the heading.
    title: &'static str,
    // What they show, in sentences, and what more they show if import policy is configured.
    about: &'static str,
    filtered: &'static str,
    // What is counted.
    label: &'static str,
    // The numbers.
    measures: &'a [Measure],
}

const ONCE: Part<'static> = Part {
    title: "Prefixes and routes, each counted once",
    about: "How many prefixes the peer announced, repeated ones too, and on how many it left a route. \
Of these routes those that are not eligible, since AS_PATH has the server's AS, NEXT_HOP is the server, or NEXT_HOP is off the subnet.",
    filtered: " Of the eligible ones those that import policy filters.",
    label: "each counted once",
    measures: &[
        Measure::Announced,
        Measure::Left,
        Measure::OwnAs,
        Measure::ServerAsNextHop,
        Measure::NextHopOffSubnet,
        Measure::Filtered,
    ],
};

const FOR_EACH_CLIENT: Part<'static> = Part {
    title: "Routes, counted once for each client",
    about: "What becomes of the eligible routes of the peer at all other peers as clients: refused, candidates, and of these the best ones. \
A route that two clients get counts twice.",
    filtered: " Filtered routes are not among them.",
    label: "counted for each client",
    measures: &[Measure::Refused, Measure::Candidates, Measure::Best],
};

/// Adds the section.
pub(crate) fn add_cards(text: &mut String, shown: &Shown<'_>) -> Result<(), AllocError> {
    open_section(text, "Peers", ABOUT)?;
    add_part(text, shown, &ONCE)?;
    add_part(text, shown, &FOR_EACH_CLIENT)?;
    close_section(text, shown, "summary", &[])
}

// Adds those pictures of one scale that are shown, and the table behind them.
fn add_part(text: &mut String, shown: &Shown<'_>, part: &Part<'_>) -> Result<(), AllocError> {
    let measures = shown.measures(part.measures)?;
    let part = Part {
        measures: &measures,
        ..*part
    };
    add_pictures(text, shown, &part)
}

// Adds the pictures of one scale, and the table behind them.
fn add_pictures(text: &mut String, shown: &Shown<'_>, part: &Part<'_>) -> Result<(), AllocError> {
    add_title(text, shown, part)?;
    text.push_str("<div class=\"cards\">\n")?;
    let most = most_of(shown.members, part.measures);
    for (peer, member) in shown.members.iter().enumerate() {
        add_card(text, shown, (peer, member), part, most)?;
    }
    text.push_str("</div>\n")?;
    add_table(text, shown, part)
}

// Adds the title of some pictures, and what they show.
fn add_title(text: &mut String, shown: &Shown<'_>, part: &Part<'_>) -> Result<(), AllocError> {
    text.push_str("<h3>")?;
    text.push_str(part.title)?;
    text.push_str("</h3>\n<p>")?;
    text.push_str(&shown.about(part.about, part.filtered)?)?;
    text.push_str("</p>\n")
}

// Adds the picture of a peer.
fn add_card(
    text: &mut String,
    shown: &Shown<'_>,
    (peer, member): (usize, &Member),
    part: &Part<'_>,
    most: u64,
) -> Result<(), AllocError> {
    let (name, asn) = (name_of(shown, peer), asn_at(&shown.setup.plan, peer));
    text.push_str("<figure><figcaption><b>")?;
    add_text(text, name)?;
    let label = part.label;
    writeln!(text, "</b> AS {asn}: {label}</figcaption>")?;
    let bars = member.bars(shown.alloc, part.measures, most)?;
    add_bars(text, name, part.title, &bars)?;
    text.push_str("</figure>\n")
}

// Adds the table behind the pictures.
fn add_table(text: &mut String, shown: &Shown<'_>, part: &Part<'_>) -> Result<(), AllocError> {
    open_table(text, &titles_of(shown.alloc, part.measures)?)?;
    for (peer, member) in shown.members.iter().enumerate() {
        open_row(text, name_of(shown, peer))?;
        add_numbers(text, member, part.measures)?;
        close_row(text)?;
    }
    close_table(text)
}

// The titles of the columns.
fn titles_of(alloc: Global, measures: &[Measure]) -> Result<Vec<&'static str>, AllocError> {
    let mut titles = Vec::new(alloc);
    titles.push("peer")?;
    for measure in measures {
        titles.push(measure.label())?;
    }
    Ok(titles)
}

// Adds the numbers of a peer.
fn add_numbers(text: &mut String, member: &Member, measures: &[Measure]) -> Result<(), AllocError> {
    for measure in measures {
        add_number(text, member.number(*measure))?;
    }
    Ok(())
}
