//! The marks of an axis of time: its round times, and how each is shown.

ghost use Rattle.std.specs.Prelude.{◌≡◌, ◌≤◌, All, IfOk};
ghost use Rattle.rs_picture.specs.Marks.{mark_of, marks_of};
ghost use Rattle.rs_picture.specs.Ticks.{IsOnAxis};

use crate::time_axis::{MOST_TICKS, TimeAxis, first_tick, tick_step};
use rs_host::civil_time;
use std::alloc::{AllocError, Global};
use std::fmt;

// A day, in seconds.
const DAY: u32 = 86_400;

/// A round time on an axis. It is shown as a date where a day begins, or where marks lie days apart, else as a time of
/// day.
#[derive(Clone, Copy, Debug, PartialEq, Eq, Drop)]
pub struct Mark {
    /// The time, in seconds since 1970.
    pub time: u32,
    /// Where it lies, in pixels from the beginning of the axis.
    pub place: u32,
}

impl fmt::Display for Mark {
    fn fmt<W: fmt::Write>(&self, f: &mut fmt::Formatter<W>) -> fmt::Result {
        let shown = civil_time(self.time);
        if self.time % DAY == 0 {
            let date = shown.date();
            write!(f, "{date}")
        } else {
            let time = shown.time();
            write!(f, "{time}")
        }
    }
}

/// The marks of an axis, in the order of time: one of each round time on it. Fails where memory is refused.
pub fn marks(alloc: Global, axis: &TimeAxis) -> Result<Vec<Mark>, AllocError>
    ensures all { IfOk result (λ marks. marks.items ≡ marks_of axis.now) }
    ensures on_axis { IfOk result (λ marks.
        All (λ mark. IsOnAxis axis.now.first axis.now.last axis.now.width mark.time mark.place) marks.items) }
{
    let step = tick_step(axis.last.saturating_sub(axis.first));
    let first = first_tick(axis.first, step);
    let mut marks = Vec::new(alloc);
    for number in 0..MOST_TICKS {
        let time = first + u64::from(number) * u64::from(step);
        if time <= u64::from(axis.last) {
            marks.push(mark_at(axis, time as u32))?;
        }
    }
    Ok(marks)
}

// The mark of a time of an axis.
fn mark_at(axis: &TimeAxis, time: u32) -> Mark
    requires no_earlier { axis.now.first ≤ time }
    requires no_later { time ≤ axis.now.last }
    ensures value { result ≡ mark_of axis.now time }
    ensures on_axis { IsOnAxis axis.now.first axis.now.last axis.now.width result.time result.place }
{
    Mark {
        time,
        place: axis.place(time),
    }
}
