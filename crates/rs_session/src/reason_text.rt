//! The text of the reason for which a session closed, as a report and a program's lines have it. All of it is our
//! choice.

ghost use Rattle.std.specs.Prelude.{Some};
ghost use Rattle.rs_session.specs.ReasonText.{reason_text};

use rs_change::Reason;
use std::fmt;
use std::fmt::{Display, Formatter};

/// The text of the reason for which a session closed. The codes of a message at fault are those of its NOTIFICATION
/// (RFC 4271, section 4.5).
#[derive(Clone, Copy)]
pub struct ReasonText(pub Reason);

impl Display for ReasonText {
    ghost output = { λ text. Some (reason_text text.0) };

    fn fmt<W: fmt::Write>(&self, f: &mut Formatter<W>) -> fmt::Result {
        match self.0 {
            Reason::EndOfFile => f.write_str("end"),
            Reason::Bgp { code, subcode } => write!(f, "bgp {code}/{subcode}"),
            Reason::Mrt(number) => write!(f, "mrt M{number}"),
            Reason::Memory => f.write_str("memory"),
            Reason::Read => f.write_str("read"),
        }
    }
}
