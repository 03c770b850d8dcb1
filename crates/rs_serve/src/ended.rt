//! How one peer's session ended.

use rs_session::Reason;

/// How one peer's session ended.
#[derive(Clone, Copy, Debug, PartialEq, Eq, Drop)]
pub struct PeerEnd {
    /// How many changes its file gave; its close is one of them.
    pub changes: u64,
    /// How many records of its file were passed over before the close.
    pub passed: u64,
    /// Why it closed.
    pub reason: Reason,
}
