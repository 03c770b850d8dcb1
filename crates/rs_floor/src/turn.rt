//! One step of a schedule.

/// One step of a schedule: a peer is named by its number.
#[derive(Clone, Copy, Debug, PartialEq, Eq)]
pub enum Turn {
    /// The peer's next change is sent into its ring, if one is left and the ring has room.
    Send(usize),
    /// A change that waits in the peer's ring is received, and the tables take it.
    Receive(usize),
}
