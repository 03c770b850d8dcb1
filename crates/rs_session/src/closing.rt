//! Where a session closed.

ghost use Rattle.std.specs.Prelude.{◌≡◌};
ghost use Rattle.rs_session.specs.Closing.{is_cut_short};

use rs_change::Reason;
use rs_mrt::MrtFault;

/// Whether a session closed because the end of its file cuts a record short, in its header or in its body (RFC 6396,
/// section 2).
pub fn is_cut_short(reason: Reason) -> bool
    ensures { result ≡ is_cut_short reason }
{
    match reason {
        Reason::Mrt(number) => {
            number == MrtFault::HeaderCutShort.number() || number == MrtFault::BodyCutShort.number()
        }
        _ => false,
    }
}
