//! The lanes of the picture of a history: what a client gets, and the routes of each peer.

ghost use Rattle.std.specs.Prelude.{◌<◌};

use crate::canvas::{BASE, Canvas};
use crate::fates::Fate;
use crate::history_answer::{event_text, gets_title, time_of};
use crate::lives::{Life, PeerLives};
use rs_glass::{Event, Gets};
use rs_glass_shell::{asn_at, attributes_text, name_at};
use rs_picture::{add_mark, add_stretch, add_text};
use rs_session::Reason;
use std::alloc::AllocError;

// How far below the top of its lane a bar begins, and how high the bar is. There are bars of a route that the client
// gets, that it does not get, that it may not get, and of its own route.
const BAR: (u32, u32) = (24, 20);

const THIN_BAR: (u32, u32) = (30, 8);

const HOLLOW_BAR: (u32, u32) = (31, 6);

const LINE: (u32, u32) = (33, 2);

// How far below the top of its lane the mark of an announcement begins, and its size.
const TICK_TOP: u32 = 22;

const TICK: (u32, u32) = (2, 24);

// Where the mark of a close is in its lane.
const CLOSE_TOP: u32 = 28;

const CLOSE: (u32, u32) = (12, 12);

// Where the mark of a withdrawal is in its lane.
const OPEN_TOP: u32 = 29;

const OPEN: (u32, u32) = (10, 10);

// Where the centre of the mark of a loss is.
const LOSS: u32 = 34;

// A cross around its centre.
const CROSS: &str = "M-7,-4l3,-3 4,4 4,-4 3,3 -4,4 4,4 -3,3 -4,-4 -4,4 -3,-3 4,-4z";

// How wide a letter is at most, and how much room a text on a bar needs at its sides.
const LETTER: u32 = 11;

const BESIDE: u32 = 12;

// Where the line of a text on a bar lies, below the top of its lane.
const BAR_BASE: u32 = 40;

/// Adds the lanes.
pub(crate) fn add_lanes(text: &mut String, canvas: &Canvas<'_>) -> Result<(), AllocError> {
    let mut lane = 0;
    if canvas.history.client.is_some() && lane < canvas.lanes.count {
        let top = canvas.lanes.top(lane);
        add_client_lane(text, canvas, top)?;
        lane += 1;
    }
    for peer in canvas.peers {
        if lane < canvas.lanes.count {
            let top = canvas.lanes.top(lane);
            add_peer_lane(text, canvas, peer, top)?;
            lane += 1;
        }
    }
    Ok(())
}

// Adds the label of a lane.
fn add_label(text: &mut String, label: &str, top: u32) -> Result<(), AllocError> {
    let base = top.saturating_add(BASE);
    write!(text, "<text x=\"0\" y=\"{base}\">")?;
    add_text(text, label)?;
    text.push_str("</text>\n")
}

// Adds the lane of what the client gets.
fn add_client_lane(text: &mut String, canvas: &Canvas<'_>, top: u32) -> Result<(), AllocError> {
    let label = gets_title(canvas.alloc, canvas.view.plan, canvas.history)?;
    add_label(text, &label, top)?;
    for peer in canvas.peers {
        add_choices(text, canvas, peer, top)?;
    }
    Ok(())
}

// Adds the times in which the client gets the routes of a peer.
fn add_choices(
    text: &mut String,
    canvas: &Canvas<'_>,
    peer: &PeerLives,
    top: u32,
) -> Result<(), AllocError> {
    for life in &peer.lives {
        if life.chosen && is_drawn(canvas, life) {
            text.push_str("<g>")?;
            add_life_title(text, canvas, peer.peer, life, Fate::Best)?;
            add_life(text, canvas, life, "kg", (top, BAR))?;
            add_tick(text, canvas, life.from, top)?;
            add_sender(text, canvas, peer.peer, life, top)?;
            text.push_str("</g>\n")?;
        }
    }
    Ok(())
}

// Adds the name of the sender on its bar, if there is room for it.
fn add_sender(
    text: &mut String,
    canvas: &Canvas<'_>,
    peer: usize,
    life: &Life,
    top: u32,
) -> Result<(), AllocError> {
    let name = name_at(canvas.view.plan, peer);
    let letters = name.len().min(u16::MAX as usize) as u32;
    let bar = canvas.axis.stretch(life.from, end_of(canvas, life));
    if bar.length < letters * LETTER + BESIDE {
        return Ok(());
    }
    let (x, base) = (
        bar.begin.saturating_add(BESIDE / 2),
        top.saturating_add(BAR_BASE),
    );
    write!(text, "<text class=\"on\" x=\"{x}\" y=\"{base}\">")?;
    add_text(text, name)?;
    text.push_str("</text>")
}

// Adds the lane of a peer.
fn add_peer_lane(
    text: &mut String,
    canvas: &Canvas<'_>,
    peer: &PeerLives,
    top: u32,
) -> Result<(), AllocError> {
    let (name, asn) = (
        name_at(canvas.view.plan, peer.peer),
        asn_at(canvas.view.plan, peer.peer),
    );
    let label = format!(in canvas.alloc; "{name} AS {asn}")?;
    add_label(text, &label, top)?;
    for life in &peer.lives {
        add_route_of(text, canvas, peer.peer, life, top)?;
    }
    for place in &peer.ends {
        if let Some(gets) = canvas.history.events.get(*place) {
            add_end(text, canvas, gets, top)?;
        }
    }
    Ok(())
}

// Adds the bar of a route, by what becomes of it at the client.
fn add_route_of(
    text: &mut String,
    canvas: &Canvas<'_>,
    peer: usize,
    life: &Life,
    top: u32,
) -> Result<(), AllocError> {
    if !is_drawn(canvas, life) {
        return Ok(());
    }
    let fate = Fate::of(canvas, peer, life);
    let (class, bar) = match fate {
        Fate::Unasked | Fate::Best => ("kb", BAR),
        Fate::Lost => ("line", THIN_BAR),
        Fate::Refused | Fate::Filtered | Fate::Ineligible => ("hollow", HOLLOW_BAR),
        Fate::Own => ("line", LINE),
    };
    text.push_str("<g>")?;
    add_life_title(text, canvas, peer, life, fate)?;
    add_life(text, canvas, life, class, (top, bar))?;
    if life.begins {
        add_tick(text, canvas, life.from, top)?;
    }
    text.push_str("</g>\n")
}

// Whether a time is shown: if it has any length on the axis, or begins there with an announcement.
fn is_drawn(canvas: &Canvas<'_>, life: &Life) -> bool {
    let (first, end) = (canvas.axis.first, end_of(canvas, life));
    end > life.from.max(first) || (life.begins && life.from >= first)
}

// Up to when a route is drawn.
fn end_of(canvas: &Canvas<'_>, life: &Life) -> u32 {
    life.to.unwrap_or(canvas.axis.last)
}

// Adds the bar of a time.
fn add_life(
    text: &mut String,
    canvas: &Canvas<'_>,
    life: &Life,
    class: &str,
    (top, (below, height)): (u32, (u32, u32)),
) -> Result<(), AllocError> {
    let times = (life.from, end_of(canvas, life));
    let bar = (top.saturating_add(below), height);
    add_stretch(text, class, &canvas.axis, times, bar)
}

// Adds the mark of an announcement, or of a choice, if its time is shown.
fn add_tick(text: &mut String, canvas: &Canvas<'_>, time: u32, top: u32) -> Result<(), AllocError> {
    if time < canvas.axis.first {
        return Ok(());
    }
    let y = top.saturating_add(TICK_TOP);
    add_mark(text, "km", &canvas.axis, time, y, TICK)
}

// Adds the title of a time: whose route, from when to when, which route, and who gets it.
fn add_life_title(
    text: &mut String,
    canvas: &Canvas<'_>,
    peer: usize,
    life: &Life,
    fate: Fate,
) -> Result<(), AllocError> {
    let alloc = canvas.alloc;
    let mut title = String::from_str(alloc, name_at(canvas.view.plan, peer))?;
    let from = canvas.clock.text(alloc, life.from)?;
    match life.to {
        Some(to) => {
            let to = canvas.clock.text(alloc, to)?;
            write!(title, ", {from} to {to}: ")?;
        }
        None => write!(title, ", from {from} on: ")?,
    }
    if let Some(gets) = canvas.history.events.get(life.announced) {
        if let Event::Announced(attributes) = &gets.event {
            title.push_str(&attributes_text(alloc, attributes)?)?;
        }
    }
    if let (Some(client), Some(words)) = (canvas.history.client, fate.words()) {
        let client = name_at(canvas.view.plan, client);
        write!(title, "; {client} {words}")?;
    }
    add_title(text, &title)
}

// Adds a title.
fn add_title(text: &mut String, title: &str) -> Result<(), AllocError> {
    text.push_str("<title>")?;
    add_text(text, title)?;
    text.push_str("</title>")
}

// Adds the mark of a withdrawal, a loss or a close, if that is shown.
fn add_end(
    text: &mut String,
    canvas: &Canvas<'_>,
    gets: &Gets,
    top: u32,
) -> Result<(), AllocError> {
    let Some(time) = time_of(gets) else {
        return Ok(());
    };
    if !canvas.view.shows(gets) {
        return Ok(());
    }
    let (name, shown) = (
        name_at(canvas.view.plan, gets.peer),
        canvas
            .clock
            .text_to_microseconds(canvas.alloc, time, gets.microseconds)?,
    );
    let event = event_text(canvas.alloc, canvas.view, &gets.event)?;
    text.push_str("<g>")?;
    add_title(text, &format!(in canvas.alloc; "{name}, {shown}: {event}")?)?;
    match gets.event {
        Event::Lost(_) => add_cross(text, canvas.axis.place(time), top)?,
        Event::Withdrawn | Event::Treated(_) => {
            let y = top.saturating_add(OPEN_TOP);
            add_mark(text, "open", &canvas.axis, time, y, OPEN)?;
        }
        Event::Closed(Reason::EndOfFile) => add_square(text, canvas, "line edge", time, top)?,
        _ => add_square(text, canvas, "km edge", time, top)?,
    }
    text.push_str("</g>\n")
}

// Adds a cross at a place.
pub(crate) fn add_cross(text: &mut String, x: u32, top: u32) -> Result<(), AllocError> {
    let y = top.saturating_add(LOSS);
    write!(
        text,
        "<path class=\"kr edge\" transform=\"translate({x},{y})\" d=\"{CROSS}\"/>"
    )
}

// Adds a square at a time.
fn add_square(
    text: &mut String,
    canvas: &Canvas<'_>,
    class: &str,
    time: u32,
    top: u32,
) -> Result<(), AllocError> {
    let y = top.saturating_add(CLOSE_TOP);
    add_mark(text, class, &canvas.axis, time, y, CLOSE)
}
