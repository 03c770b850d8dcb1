//! The history of a prefix as a picture of SVG 1.1.
//!
//! Our choices: there is a lane for what the client gets, and one for each peer that ever announced the prefix. The
//! same history as a text stands in the description.

use crate::canvas::{BASE, Canvas, EDGE, HEAD, ROW, STYLE, WIDTH};
use crate::history_answer::HistoryView;
use crate::lives::{PeerLives, lives_of};
use crate::picture_lanes::{add_cross, add_lanes};
use rs_glass::History;
use rs_glass_shell::{PrefixText, name_at};
use rs_picture::{
    Grouped, Mark, PALETTE, add_rectangle, add_text, close_picture, marks, open_picture,
};
use std::alloc::{AllocError, Global};

// How many other peers are named.
const FEW: usize = 4;

// What the description says of the picture, before and behind the words for routes whose bars are hollow.
const ABOUT: &str =
    "Time goes from left to right, in UTC. Each peer that announced the prefix has a lane with a bar for each of its routes. \
A bar is high while the client gets the route, or if no client is asked for, and else low. It is hollow if the route is ";

const ABOUT_OTHERS: &str =
    ", and a line if it is the client's own route. The lane of the client shows whose route it gets.\n";

/// The picture of a history, which has all that happened before what is shown too. `lines` is the history as a text.
pub(crate) fn history_picture(
    alloc: Global,
    view: &HistoryView<'_>,
    history: &History,
    lines: &str,
) -> Result<String, AllocError> {
    let peers = lives_of(alloc, history, view.plan.count())?;
    let canvas = Canvas::of(alloc, view, history, &peers);
    let mut text = String::new(alloc);
    let height = canvas.height();
    let prefix = PrefixText(history.prefix).to_string(alloc)?;
    text.push_str("<?xml version=\"1.0\" encoding=\"UTF-8\"?>\n")?;
    open_picture(
        &mut text,
        (WIDTH, height),
        " version=\"1.1\"",
        &format!(in alloc; "History of {prefix}")?,
        &description(alloc, has_import(view), lines)?,
    )?;
    text.push_str("<style>")?;
    text.push_str(PALETTE)?;
    text.push_str(STYLE)?;
    text.push_str("</style>\n")?;
    add_rectangle(&mut text, "back", (0, 0), (WIDTH, height))?;
    text.push('\n')?;
    add_head(&mut text, &canvas, &prefix)?;
    add_lanes_and_times(&mut text, &canvas)?;
    close_picture(&mut text)?;
    Ok(text)
}

// Whether import policy is configured: only then a route may be filtered.
fn has_import(view: &HistoryView<'_>) -> bool {
    view.plan.import().is_configured()
}

// The description: what is drawn, and the history line by line.
fn description(alloc: Global, has_import: bool, lines: &str) -> Result<String, AllocError> {
    let mut text = String::from_str(alloc, ABOUT)?;
    text.push_str(if has_import {
        "refused to the client, filtered or ineligible"
    } else {
        "refused to the client or ineligible"
    })?;
    text.push_str(ABOUT_OTHERS)?;
    for line in lines.split('\n') {
        add_text(&mut text, line)?;
        text.push('\n')?;
    }
    Ok(text)
}

// Adds the head line.
fn add_head(text: &mut String, canvas: &Canvas<'_>, prefix: &str) -> Result<(), AllocError> {
    write!(
        text,
        "<text class=\"head\" x=\"{EDGE}\" y=\"24\">History of {prefix}"
    )?;
    if canvas.lanes.count > 0 {
        canvas.clock.add_day(text)?;
    }
    text.push_str("</text>\n")
}

// Adds all that stands below the head.
fn add_lanes_and_times(text: &mut String, canvas: &Canvas<'_>) -> Result<(), AllocError> {
    writeln!(text, "<g transform=\"translate({EDGE},{HEAD})\">")?;
    let mut below = canvas.lanes.picture_height();
    if canvas.lanes.count > 0 {
        add_times(text, canvas, below)?;
        add_lanes(text, canvas)?;
        below = below.saturating_add(ROW);
        if canvas.history.client.is_some() {
            add_key_to_bars(text, has_import(canvas.view), below)?;
            below = below.saturating_add(ROW);
        }
        add_key_to_marks(text, below)?;
        below = below.saturating_add(ROW);
    }
    add_others(text, canvas, below)?;
    text.push_str("</g>\n")
}

// Adds the axis below the lanes, with a line through them at each round time.
fn add_times(text: &mut String, canvas: &Canvas<'_>, below: u32) -> Result<(), AllocError> {
    text.push_str("<g>\n")?;
    for mark in marks(canvas.alloc, &canvas.axis)? {
        add_time(text, &mark, below)?;
    }
    add_rectangle(text, "line", (0, below), (canvas.axis.width, 1))?;
    text.push_str("\n</g>\n")
}

// Adds a round time.
fn add_time(text: &mut String, mark: &Mark, below: u32) -> Result<(), AllocError> {
    text.push_str("<g class=\"time\">")?;
    add_rectangle(text, "line thin", (mark.place, 0), (1, below))?;
    add_rectangle(text, "line", (mark.place, below), (1, BASE))?;
    let (mark, x, base) = (
        *mark,
        mark.place.saturating_add(4),
        below.saturating_add(BASE),
    );
    writeln!(text, "<text x=\"{x}\" y=\"{base}\">{mark}</text></g>")
}

// Adds the key to bars: what becomes of a route at the client.
fn add_key_to_bars(text: &mut String, has_import: bool, top: u32) -> Result<(), AllocError> {
    let base = top.saturating_add(BASE);
    let (hollow, own) = if has_import {
        ("refused, filtered or ineligible", 640)
    } else {
        ("refused or ineligible", 560)
    };
    text.push_str("<g>")?;
    add_rectangle(text, "kb", (0, top.saturating_add(4)), (20, 20))?;
    add_word(text, "chosen", (26, base))?;
    add_rectangle(text, "line", (130, top.saturating_add(10)), (20, 8))?;
    add_word(text, "not chosen", (156, base))?;
    add_rectangle(text, "hollow", (290, top.saturating_add(11)), (20, 6))?;
    add_word(text, hollow, (316, base))?;
    add_rectangle(text, "line", (own, top.saturating_add(13)), (20, 2))?;
    add_word(text, "own route", (own.saturating_add(26), base))?;
    text.push_str("</g>\n")
}

// Adds the key to marks.
fn add_key_to_marks(text: &mut String, top: u32) -> Result<(), AllocError> {
    let base = top.saturating_add(BASE);
    text.push_str("<g>")?;
    add_rectangle(text, "km", (0, top.saturating_add(2)), (2, 24))?;
    add_word(text, "announced", (10, base))?;
    add_rectangle(text, "open", (130, top.saturating_add(9)), (10, 10))?;
    add_word(text, "withdrawn", (148, base))?;
    add_cross(text, 297, top.saturating_sub(20))?;
    add_word(text, "session lost", (316, base))?;
    add_rectangle(text, "km edge", (468, top.saturating_add(8)), (12, 12))?;
    add_word(text, "session closed", (488, base))?;
    text.push_str("</g>\n")
}

// Adds a word of the key.
fn add_word(text: &mut String, word: &str, (x, base): (u32, u32)) -> Result<(), AllocError> {
    write!(text, "<text x=\"{x}\" y=\"{base}\">{word}</text>")
}

// Adds the line of the peers without a lane: their names if they are few, else how many they are.
fn add_others(text: &mut String, canvas: &Canvas<'_>, top: u32) -> Result<(), AllocError> {
    let others = canvas.others();
    if others == 0 {
        return Ok(());
    }
    let base = top.saturating_add(BASE);
    write!(text, "<text x=\"0\" y=\"{base}\">")?;
    if canvas.peers.is_empty() {
        text.push_str("No peer")?;
    } else if others <= FEW {
        add_names(text, canvas)?;
    } else {
        let others = Grouped(others as u64);
        write!(text, "{others} peers")?;
    }
    text.push_str(if canvas.peers.is_empty() {
        " announced it</text>\n"
    } else {
        " never announced it</text>\n"
    })
}

// Adds the names of the peers without a lane.
fn add_names(text: &mut String, canvas: &Canvas<'_>) -> Result<(), AllocError> {
    let mut is_first = true;
    for peer in 0..canvas.view.plan.count() {
        if has_lane(canvas.peers, peer) {
            continue;
        }
        if !is_first {
            text.push_str(", ")?;
        }
        is_first = false;
        add_text(text, name_at(canvas.view.plan, peer))?;
    }
    Ok(())
}

// Whether a peer has a lane.
fn has_lane(peers: &[PeerLives], peer: usize) -> bool {
    peers.iter().any(|one| one.peer == peer)
}
