//! When something happened: seconds since 1970, and microseconds if a record has them.

ghost use Rattle.std.specs.Prelude.{◌≡◌, None};
ghost use Rattle.rs_glass.specs.Moments.{in_microseconds, later_of};

use crate::microseconds::SECOND;

/// When something happened.
#[derive(Clone, Copy, Debug, PartialEq, Eq, Drop)]
pub(crate) struct Moment {
    /// Seconds since 1970.
    pub(crate) seconds: u32,
    /// Microseconds behind the beginning of that second, if they are known.
    pub(crate) microseconds: Option<u32>,
}

impl Moment {
    // The first one.
    pub(crate) fn first() -> Moment
        ensures { result ≡ record { seconds = 0; microseconds = None } }
    {
        Moment {
            seconds: 0,
            microseconds: None,
        }
    }

    // The later one of two; the other one if neither is later.
    pub(crate) fn or_later(self, other: Moment) -> Moment
        ensures { result ≡ later_of self other }
    {
        if other.in_microseconds() < self.in_microseconds() {
            self
        } else {
            other
        }
    }

    // In microseconds since 1970; if none are known, as the beginning of its second.
    pub(crate) fn in_microseconds(self) -> u64
        ensures { result ≡ in_microseconds self }
    {
        u64::from(self.seconds) * u64::from(SECOND) + u64::from(self.microseconds.unwrap_or(0))
    }
}
