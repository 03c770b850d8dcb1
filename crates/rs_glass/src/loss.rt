//! How a session was lost (RFC 4271, sections 4.5 and 8.2.2).

ghost use Rattle.std.specs.Prelude.{◌≡◌};
ghost use Rattle.rs_mrt.specs.Record.{record_of};
ghost use Rattle.rs_glass.specs.Losses.{loss_by};

use rs_mrt::{Entry, Record, entry};
use std::fmt;

/// How a session was lost.
#[derive(Clone, Copy, Debug, PartialEq, Eq, Drop)]
pub enum Loss {
    /// Its state went from Established to this one (RFC 6396, section 4.4.1).
    State(u16),
    /// The peer sent a NOTIFICATION (RFC 4271, section 4.5) with this error code and subcode.
    Notification(u8, u8),
    /// No record of the peer has the loss. The loss was inserted before a record that shows it, and its source knows that.
    Inferred,
}

impl fmt::Display for Loss {
    fn fmt<W: fmt::Write>(&self, f: &mut fmt::Formatter<W>) -> fmt::Result {
        match self {
            Loss::State(_) => f.write_str("change of state"),
            Loss::Inferred => f.write_str("inferred"),
            Loss::Notification(code, subcode) => {
                let (code, subcode) = (*code, *subcode);
                write!(f, "NOTIFICATION {code}/{subcode}")
            }
        }
    }
}

// Where the error code and subcode stand in a NOTIFICATION (RFC 4271, section 4.5).
const CODE_AT: usize = 19;

/// How a session was lost, by the record that says so; none if it says something else.
pub fn loss_of(recorded: &Record<'_>) -> Option<Loss>
    ensures { result ≡ loss_by (record_of recorded.now) }
{
    match entry(recorded) {
        Ok(Entry::State { new, .. }) => Some(Loss::State(new)),
        Ok(Entry::Message { message, .. }) => match message.get(CODE_AT..) {
            Some([code, subcode, ..]) => Some(Loss::Notification(*code, *subcode)),
            _ => None,
        },
        _ => None,
    }
}
