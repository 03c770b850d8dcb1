//! Bars, one below the other, each between its label and its number.

ghost use Rattle.std.specs.Prelude.{◌<◌};

use rs_picture::{
    Grouped, Lanes, MOST_LANES, add_rectangle, bar_length, close_picture, open_picture,
};
use std::alloc::AllocError;

// How wide the picture is, where bars begin in it, and how long the longest is, in pixels.
const WIDTH: u32 = 320;

const BEGIN: u32 = 92;

const LENGTH: u32 = 150;

// How high a bar is, and the gap behind it.
const HEIGHT: u32 = 12;

const GAP: u32 = 4;

// How far below the top of a bar the line lies on which its texts stand.
const BASE: u32 = 10;

/// A bar of a picture.
#[derive(Clone, Copy, Drop)]
pub(crate) struct Bar {
    /// What it stands for.
    pub(crate) label: &'static str,
    /// The number.
    pub(crate) number: u64,
    /// The number of the longest bar.
    pub(crate) most: u64,
    /// The class of its colour.
    pub(crate) class: &'static str,
}

/// No bar.
pub(crate) const NO_BAR: Bar = Bar {
    label: "",
    number: 0,
    most: 0,
    class: "",
};

/// Puts bars on one scale: the longest of them has the greatest number.
pub(crate) fn scale(bars: &mut [Bar]) {
    let most = greatest(bars);
    for place in 0..bars.len() {
        bars[place].most = most;
    }
}

// The greatest number of some bars.
fn greatest(bars: &[Bar]) -> u64 {
    let mut most = 0;
    for bar in bars {
        most = most.max(bar.number);
    }
    most
}

/// Adds a picture of bars under its title, before the table of their numbers.
pub(crate) fn add_figure(text: &mut String, title: &str, bars: &[Bar]) -> Result<(), AllocError> {
    text.push_str("<figure><figcaption>")?;
    text.push_str(title)?;
    text.push_str("</figcaption>\n")?;
    add_bars(text, title, "Bars of the numbers in the table below.", bars)?;
    text.push_str("</figure>\n")
}

/// Adds a picture of bars.
pub(crate) fn add_bars(
    text: &mut String,
    title: &str,
    about: &str,
    bars: &[Bar],
) -> Result<(), AllocError> {
    let lanes = Lanes {
        count: bars.len().min(MOST_LANES as usize) as u32,
        height: HEIGHT,
        gap: GAP,
    };
    open_picture(text, (WIDTH, lanes.picture_height()), "", title, about)?;
    let mut lane = 0;
    for bar in bars {
        if lane < lanes.count {
            add_bar(text, &lanes, lane, bar)?;
            lane += 1;
        }
    }
    close_picture(text)
}

// Adds a bar on its lane.
fn add_bar(text: &mut String, lanes: &Lanes, lane: u32, bar: &Bar) -> Result<(), AllocError>
    requires { lane < lanes.now.count }
{
    let top = lanes.top(lane);
    let base = top.saturating_add(BASE);
    let length = bar_length(bar.number, bar.most, LENGTH);
    let (before, behind) = (BEGIN - 4, BEGIN + 4 + length);
    write!(text, "<text class=\"l\" x=\"{before}\" y=\"{base}\">")?;
    text.push_str(bar.label)?;
    text.push_str("</text>")?;
    add_rectangle(text, bar.class, (BEGIN, top), (length, HEIGHT))?;
    let number = Grouped(bar.number);
    writeln!(text, "<text x=\"{behind}\" y=\"{base}\">{number}</text>")
}
