//! How much of all files was read, and the line that says it.
//!
//! Our choices: the line is shown at marks. Files of a known length have a hundred marks at most, and marks are a MiB
//! apart at least.

ghost use Rattle.std.specs.Prelude.{◌≡◌, Some};
ghost use Rattle.rs_program.specs.Amount.{line_of, marks_of, marks_within};

use std::fmt;
use std::fmt::{Display, Formatter};

/// How much of all files was read.
#[derive(Clone, Copy, Debug, PartialEq, Eq)]
pub struct Amount {
    /// How many octets were read.
    pub read: u64,
    /// How many octets all files have, if that is known.
    pub total: Option<u64>,
}

// How many octets a MiB has.
const MIB: u64 = 1_048_576;

// How many marks there are at most.
const MARKS: u64 = 100;

impl Amount {
    /// How many marks were passed: of a known total as many of its equal parts as were read whole, else
    /// each MiB.
    pub fn marks(self) -> u128
        ensures { result ≡ marks_of self.total self.read }
    {
        match self.total {
            Some(total) => marks_within(total, self.read),
            None => u128::from(self.read / MIB),
        }
    }
}

// How many marks were passed of a total.
fn marks_within(total: u64, read: u64) -> u128
    ensures { result ≡ marks_within total read }
{
    if total == 0 {
        return 0;
    }
    u128::from(read) * u128::from(MARKS.min(total / MIB)) / u128::from(total)
}

impl Display for Amount {
    ghost output = { λ amount. Some (line_of amount.total amount.read) };

    fn fmt<W: fmt::Write>(&self, f: &mut Formatter<W>) -> fmt::Result {
        let read = self.read;
        match self.total {
            Some(total) if total > 0 => {
                let percent = u128::from(read) * 100 / u128::from(total);
                let total = total / MIB;
                write!(f, "route_server: {percent} % of {total} MiB read")
            }
            _ => {
                let read = read / MIB;
                write!(f, "route_server: {read} MiB read")
            }
        }
    }
}
