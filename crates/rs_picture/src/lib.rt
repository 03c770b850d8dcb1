//! How pictures are laid out and written: bars, lanes, axes of time, and texts in markup.
//! The characters of markup are those of XML 1.0, sections 2.2 and 2.4, elements those of SVG 1.1; all else is our
//! choice.
//!
//! Reading order: `bars` (how long a bar is), `lanes` (where a lane lies), `time_axis` (where a time lies, and the
//! round times on an axis), `marking` (how they are shown). Then `grouped` (numbers), `markup` (texts that no reader
//! takes for markup), `elements` (the parts of a picture) and `palette` (its colours).
#![tactic(auto)]

mod bars;
mod elements;
mod grouped;
mod lanes;
mod marking;
mod markup;
mod palette;
mod time_axis;

pub use bars::bar_length;
pub use elements::{add_mark, add_rectangle, add_stretch, close_picture, open_picture};
pub use grouped::Grouped;
pub use lanes::{Lanes, MOST_LANES, MOST_PIXELS, lanes_lie_apart};
pub use marking::{Mark, marks};
pub use markup::add_text;
pub use palette::PALETTE;
pub use time_axis::{Stretch, TimeAxis, first_tick, tick_step};
