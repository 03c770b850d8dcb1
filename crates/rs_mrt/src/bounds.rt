//! How a recorded file is read.

ghost use Rattle.std.specs.Prelude.{◌≡◌};
ghost use Rattle.rs_mrt.specs.declared.bounds.Tail.TheVariants.{Strict};
ghost use Rattle.rs_mrt.specs.Bounds.{is_time_later};

use crate::losses::Losses;

/// What becomes of a record that the end of a file cuts short (RFC 6396, section 2).
#[derive(Clone, Copy, Debug, PartialEq, Eq, Drop)]
pub enum Tail {
    /// Its octets are read: they are a fault of the file.
    Strict,
    /// It is left out: the file ends before it.
    Lenient,
}

/// How much of a recorded file is read.
#[derive(Clone, Copy, Debug, PartialEq, Eq, Drop)]
pub struct Bounds {
    /// Up to when records are read, in seconds since 1970: the file ends before the first one that is later. All of
    /// them if it isn't given.
    pub until: Option<u32>,
    /// What becomes of a record that the end of the file cuts short.
    pub tail: Tail,
}

/// How a recorded file is read.
#[derive(Clone, Copy, Debug, PartialEq, Eq, Drop)]
pub struct FileReading {
    /// How much of it is read.
    pub bounds: Bounds,
    /// Which losses of a session count.
    pub losses: Losses,
}

impl Bounds {
    /// Bounds within which all octets are read.
    pub fn none() -> Bounds
        ensures { result ≡ record { until = None; tail = Strict } }
    {
        Bounds {
            until: None,
            tail: Tail::Strict,
        }
    }
}

// Whether a Timestamp is later than a time.
pub(crate) fn is_later(until: Option<u32>, timestamp: u32) -> bool
    ensures { result ≡ is_time_later until timestamp }
{
    match until {
        Some(time) => timestamp > time,
        None => false,
    }
}
