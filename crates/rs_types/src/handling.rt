//! What RFC 7606 does for what it finds in the path attributes of an UPDATE (section 2).

use crate::fault::UpdateFault;

/// How what is found in a section of path attributes is handled (RFC 7606, section 2), the weakest first.
#[derive(Clone, Copy)]
pub enum Handling {
    /// Nothing is at fault.
    Keep,
    /// The attribute is discarded, as though it had not been received.
    AttributeDiscard,
    /// All routes of the UPDATE are treated as withdrawn.
    TreatAsWithdraw,
    /// The session is closed by this fault.
    SessionReset(UpdateFault),
}
