//! The sessions of each peer over time.

ghost use Rattle.std.specs.Prelude.{◌<◌};

use crate::axis::{PARTS, add_ticks, axis_of};
use crate::elements::{
    add_cell, close_row, close_section, close_table, name_of, open_row, open_section, open_table,
};
use crate::shown::Shown;
use crate::spans::{End, Span};
use crate::times::PeerTimes;
use rs_glass_shell::close_text;
use rs_host::Utc;
use rs_picture::{
    Lanes, MOST_LANES, TimeAxis, add_mark, add_stretch, add_text, close_picture, open_picture,
};
use std::alloc::{AllocError, Global};

const ABOUT: &str =
    "When the session of each peer was up. A session that is up behind the last record of its peer is up until the end of all recordings. \
A mark at the end of a bar is a loss or a close. Times are in UTC.";

// How many peers one picture has: as many as fit on a page of A4.
const BLOCK: usize = 40;

// How high a lane is, and the gap behind it, in pixels: as high as the lines of the names beside.
const HEIGHT: u32 = 14;

const GAP: u32 = 6;

// How far below the top of its lane a bar begins, and how high it is. A mark has the whole lane.
const INDENT: u32 = 3;

const BAR: u32 = 8;

// How wide a mark is, in parts of the picture.
const MARK: u32 = 5;

/// Adds the section.
pub(crate) fn add_sessions(
    text: &mut String,
    alloc: Global,
    shown: &Shown<'_>,
) -> Result<(), AllocError> {
    open_section(text, "Sessions", ABOUT)?;
    if shown.times.any {
        let mut first = 0;
        for peers in shown.times.peers.chunks(BLOCK) {
            add_block(text, alloc, shown, (first, peers))?;
            first = first.saturating_add(BLOCK);
        }
        add_table(text, alloc, shown)?;
    } else {
        text.push_str("<p>No record of a peer was read again.</p>\n")?;
    }
    close_section(text, shown, "check", &[])
}

// Adds the names of some peers, which begin with this one, beside the picture of their sessions.
fn add_block(
    text: &mut String,
    alloc: Global,
    shown: &Shown<'_>,
    (first, peers): (usize, &[PeerTimes]),
) -> Result<(), AllocError> {
    text.push_str("<div class=\"plot\"><div class=\"names\">\n")?;
    for place in 0..peers.len() {
        text.push_str("<div>")?;
        add_text(text, name_of(shown, first.saturating_add(place)))?;
        text.push_str("</div>\n")?;
    }
    text.push_str("</div><div class=\"area\">\n")?;
    let axis = axis_of(shown.times.changes.first, shown.times.changes.last);
    add_lanes(text, alloc, shown, (first, peers), &axis)?;
    add_ticks(text, alloc, &axis)?;
    text.push_str("</div></div>\n")
}

// Adds the picture: a lane for each of these peers.
fn add_lanes(
    text: &mut String,
    alloc: Global,
    shown: &Shown<'_>,
    (first, peers): (usize, &[PeerTimes]),
    axis: &TimeAxis,
) -> Result<(), AllocError> {
    let lanes = Lanes {
        count: peers.len().min(MOST_LANES as usize) as u32,
        height: HEIGHT,
        gap: GAP,
    };
    open_picture(
        text,
        (PARTS, lanes.picture_height()),
        " preserveAspectRatio=\"none\"",
        "Sessions of the peers",
        "A lane for each peer, with a bar for each of its sessions.",
    )?;
    let mut lane = 0;
    for (place, one) in peers.iter().enumerate() {
        if lane < lanes.count {
            let (name, top) = (name_of(shown, first.saturating_add(place)), lanes.top(lane));
            add_lane(text, alloc, axis, (name, top), &one.spans)?;
            lane += 1;
        }
    }
    close_picture(text)
}

// Adds the sessions of a peer on its lane.
fn add_lane(
    text: &mut String,
    alloc: Global,
    axis: &TimeAxis,
    (name, top): (&str, u32),
    spans: &[Span],
) -> Result<(), AllocError> {
    for span in spans {
        add_span(text, alloc, axis, (name, top), span)?;
    }
    Ok(())
}

// Adds a session, with a mark at its end.
fn add_span(
    text: &mut String,
    alloc: Global,
    axis: &TimeAxis,
    (name, top): (&str, u32),
    span: &Span,
) -> Result<(), AllocError> {
    text.push_str("<g><title>")?;
    add_text(text, name)?;
    let (since, until) = (Utc(span.from), Utc(span.to));
    write!(text, ": {since} to {until}, ")?;
    add_text(text, &end_text(alloc, span.end)?)?;
    text.push_str("</title>")?;
    let bar = (top.saturating_add(INDENT), BAR);
    add_stretch(text, "kb", axis, (span.from, span.to), bar)?;
    match span.end {
        End::Up | End::Unrecorded => {}
        _ => add_mark(text, "km", axis, span.to, top, (MARK, HEIGHT))?,
    }
    text.push_str("</g>\n")
}

// How a session ended.
fn end_text(alloc: Global, end: End) -> Result<String, AllocError> {
    match end {
        End::Up => String::from_str(alloc, "up"),
        End::Unrecorded => String::from_str(alloc, "no end recorded"),
        End::Lost(Some(loss)) => format!(in alloc; "lost: {loss}"),
        End::Lost(None) => String::from_str(alloc, "lost"),
        End::Closed(reason) => {
            let reason = close_text(alloc, reason)?;
            format!(in alloc; "closed: {reason}")
        }
    }
}

// Adds the table behind the picture.
fn add_table(text: &mut String, alloc: Global, shown: &Shown<'_>) -> Result<(), AllocError> {
    open_table(text, &["peer", "from (UTC)", "to (UTC)", "end"])?;
    for (peer, one) in shown.times.peers.iter().enumerate() {
        add_rows(text, alloc, name_of(shown, peer), &one.spans)?;
    }
    close_table(text)
}

// Adds the rows of a peer.
fn add_rows(
    text: &mut String,
    alloc: Global,
    name: &str,
    spans: &[Span],
) -> Result<(), AllocError> {
    for span in spans {
        open_row(text, name)?;
        let (from, to) = (Utc(span.from), Utc(span.to));
        write!(text, "<td>{from}</td><td>{to}</td>")?;
        add_cell(text, &end_text(alloc, span.end)?)?;
        close_row(text)?;
    }
    Ok(())
}
