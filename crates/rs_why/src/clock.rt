//! How times are shown: those of one day by the clock, and else with their dates, in UTC.

use crate::starts::Start;
use rs_explain::LastSaid;
use rs_glass::Said;
use rs_host::{Utc, civil_time};
use rs_rows::{Form, RowWriter};
use std::alloc::{AllocError, Global};

// The seconds of a day.
const DAY: u32 = 86_400;

// How times are shown together.
#[derive(Clone, Copy, Debug, PartialEq, Eq)]
pub(crate) enum Clock {
    // There is none.
    NoTime,
    // All of one day, which has this time: by the clock.
    OneDay(u32),
    // With their dates.
    Days,
}

impl Clock {
    // Without any time.
    pub(crate) fn none() -> Clock {
        Clock::NoTime
    }

    // With a time more.
    pub(crate) fn with(self, time: u32) -> Clock {
        match self {
            Clock::NoTime => Clock::OneDay(time),
            Clock::OneDay(other) if other / DAY == time / DAY => self,
            _ => Clock::Days,
        }
    }

    // With the times of what a peer's changes say last.
    pub(crate) fn with_all(self, said: &Said) -> Clock {
        match (said.last, said.time()) {
            (LastSaid::Ended(announced, _), Some(time)) => self.with(announced).with(time),
            (LastSaid::Ended(announced, _), None) => self.with(announced),
            (_, Some(time)) => self.with(time),
            (_, None) => self,
        }
    }

    // With the time since when a recording runs, if that is known.
    pub(crate) fn with_start(self, start: Option<Start>) -> Clock {
        match start {
            Some(start) => self.with(start.time()),
            None => self,
        }
    }

    // A time, as it is shown.
    pub(crate) fn text(self, alloc: Global, time: u32) -> Result<String, AllocError> {
        match self {
            Clock::OneDay(_) => {
                let clock = civil_time(time).time();
                format!(in alloc; "{clock}")
            }
            _ => {
                let utc = Utc(time);
                format!(in alloc; "{utc}")
            }
        }
    }

    // A time with its microseconds in six digits, if they are known.
    pub(crate) fn text_to_microseconds(
        self,
        alloc: Global,
        time: u32,
        microseconds: Option<u32>,
    ) -> Result<String, AllocError> {
        let mut text = self.text(alloc, time)?;
        if let Some(microseconds) = microseconds {
            write!(text, ".{microseconds:06}")?;
        }
        Ok(text)
    }

    // Adds to a head line how the times below it are shown: with the day if all are of one, and in UTC.
    pub(crate) fn add_day(self, text: &mut String) -> Result<(), AllocError> {
        match self {
            Clock::OneDay(time) => {
                let date = civil_time(time).date();
                write!(text, " (times of {date} UTC)")
            }
            _ => text.push_str(" (times in UTC)"),
        }
    }

    // Hands over a time, if there is one: in text as it is shown, and in JSON in seconds.
    pub(crate) fn hand(self, row: &mut RowWriter<'_>, time: Option<u32>) {
        match time {
            Some(time) if row.form() == Form::Text => {
                row.made_words("time", self.text(row.alloc(), time));
            }
            _ => row.number_or_none("time", time),
        }
    }

    // How wide a column of times is: three spaces stand behind a time.
    pub(crate) fn width(self) -> usize {
        match self {
            Clock::Days => 22,
            _ => 11,
        }
    }
}
