//! The measures of the picture of a history, and its style.
//!
//! Our choices: pixels are those of a picture 800 wide, which grows and shrinks with its place. Below 600 its texts are
//! larger, and every second time is left out. The axis goes on behind the last event for a twentieth of its time: so
//! the route that came last is seen to stay. Behind the axis there is room for the text of its last round time.

use crate::clock::Clock;
use crate::history_answer::{HistoryView, time_of};
use crate::lives::PeerLives;
use rs_glass::History;
use rs_picture::{Lanes, MOST_LANES, TimeAxis};
use std::alloc::Global;

/// How wide the picture is, and how far its parts are from its edges.
pub(crate) const WIDTH: u32 = 800;

pub(crate) const EDGE: u32 = 10;

// How wide the text of a round time is at most, with the gap before it.
const TIME: u32 = 100;

/// How high the head is.
pub(crate) const HEAD: u32 = 44;

/// How high a row of text is, and how far below its top the line lies on which it stands.
pub(crate) const ROW: u32 = 30;

pub(crate) const BASE: u32 = 20;

// How high a lane is with its label, and the gap behind it.
const LANE: u32 = 46;

const GAP: u32 = 6;

// The least part of its time that the axis goes on behind the last event.
const REST: u32 = 20;

/// The style sheet, but for the palette.
pub(crate) const STYLE: &str =
    "svg{display:block;width:100%;max-width:1200px;height:auto;margin:0 auto}
text{font:15px system-ui,sans-serif}
.head{font-weight:600}
.thin{opacity:.35}
.edge{stroke:#fff;stroke-width:1.5px}
.hollow{fill:none;stroke:#9c4f00;stroke-width:2px}
.open{fill:#fff;stroke:#1b2126;stroke-width:2px}
@media (prefers-color-scheme:dark){:root{background:#11161b}.edge{stroke:#11161b}.hollow{stroke:#f0a04b}.open{fill:#11161b;stroke:#e7ecf0}}
@media (max-width:600px){text{font-size:20px}.time:nth-last-of-type(even) text{display:none}}
@media print{svg{max-width:none;max-height:100vh}}
";

/// What is drawn, and where.
#[derive(Drop)]
pub(crate) struct Canvas<'a> {
    /// The allocator.
    pub(crate) alloc: Global,
    /// What is shown.
    pub(crate) view: &'a HistoryView<'a>,
    /// The history, with all that happened before what is shown.
    pub(crate) history: &'a History,
    /// What happened to each peer with a lane.
    pub(crate) peers: &'a [PeerLives],
    /// The axis.
    pub(crate) axis: TimeAxis,
    /// How times are shown.
    pub(crate) clock: Clock,
    /// The lanes.
    pub(crate) lanes: Lanes,
}

impl<'a> Canvas<'a> {
    // The canvas of a history: with a lane for what the client gets, and one for each of these peers.
    pub(crate) fn of(
        alloc: Global,
        view: &'a HistoryView<'a>,
        history: &'a History,
        peers: &'a [PeerLives],
    ) -> Canvas<'a> {
        let axis = axis_of(view, history);
        let rows = if peers.is_empty() {
            0
        } else {
            peers
                .len()
                .saturating_add(usize::from(history.client.is_some()))
        };
        Canvas {
            alloc,
            view,
            history,
            peers,
            axis,
            clock: Clock::none().with(axis.first).with(axis.last),
            lanes: Lanes {
                count: rows.min(MOST_LANES as usize) as u32,
                height: LANE,
                gap: GAP,
            },
        }
    }

    // How many peers have no lane.
    pub(crate) fn others(&self) -> usize {
        self.view.plan.count().saturating_sub(self.peers.len())
    }

    // How high the picture is: the head, the lanes, the times and the rows of the key, and the line of the other peers.
    pub(crate) fn height(&self) -> u32 {
        let mut height = HEAD.saturating_add(self.lanes.picture_height());
        if self.lanes.count > 0 {
            height = height.saturating_add(2 * ROW);
        }
        if self.lanes.count > 0 && self.history.client.is_some() {
            height = height.saturating_add(ROW);
        }
        if self.others() > 0 {
            height = height.saturating_add(ROW);
        }
        height.saturating_add(EDGE)
    }
}

// The axis of a history: from the first event that is shown, or the time from which on they are, to behind the last.
fn axis_of(view: &HistoryView<'_>, history: &History) -> TimeAxis {
    let mut range: Option<(u32, u32)> = match view.from {
        Some(from) => Some((from, from)),
        None => None,
    };
    for gets in &history.events {
        match time_of(gets) {
            Some(time) if view.shows(gets) => range = Some(widened(range, time)),
            _ => {}
        }
    }
    let (first, event) = range.unwrap_or((0, 0));
    let rest = (event.saturating_sub(first) / REST).max(1);
    let last = event.saturating_add(rest);
    TimeAxis {
        first,
        last: match view.until {
            Some(until) => last.min(until.max(event)),
            None => last,
        },
        width: WIDTH - 2 * EDGE - TIME,
    }
}

// A range of times, with a time more.
fn widened(range: Option<(u32, u32)>, time: u32) -> (u32, u32) {
    match range {
        Some((first, last)) => (first.min(time), last.max(time)),
        None => (time, time),
    }
}
