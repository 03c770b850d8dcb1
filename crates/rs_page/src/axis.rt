//! The times below a picture.

use rs_picture::{Mark, TimeAxis, marks};
use std::alloc::{AllocError, Global};

/// How many parts a picture has from its left to its right, whatever its width on the page.
pub(crate) const PARTS: u32 = 1000;

/// The axis of these times.
pub(crate) fn axis_of(first: u32, last: u32) -> TimeAxis {
    TimeAxis {
        first,
        last,
        width: PARTS,
    }
}

/// Adds the round times of an axis, below a picture of its width.
pub(crate) fn add_ticks(
    text: &mut String,
    alloc: Global,
    axis: &TimeAxis,
) -> Result<(), AllocError> {
    text.push_str("<div class=\"ticks\">")?;
    for mark in marks(alloc, axis)? {
        add_tick(text, &mark)?;
    }
    text.push_str("</div>\n")
}

// Adds a round time.
fn add_tick(text: &mut String, mark: &Mark) -> Result<(), AllocError> {
    let (mark, whole, tenth) = (*mark, mark.place / 10, mark.place % 10);
    write!(text, "<span style=\"left:{whole}.{tenth}%\">{mark}</span>")
}
