//! The changes of one peer's routes (RFC 4271, sections 3.1 and 4.3), and why its session ended.

use rs_types::{Attributes, Prefix};
use std::sync::Arc;

/// One change of a peer's routes, as a recorded session says it.
#[derive(Drop)]
pub struct Word {
    /// When it was recorded: the Timestamp of its record, in seconds since 1970. 0 for a close that no whole
    /// record gave (our choice).
    pub time: u32,
    /// What changed.
    pub body: Body,
}

/// What changed.
#[derive(Drop)]
pub enum Body {
    /// The peer announces the prefix with these attributes. All announcements of one UPDATE share their attributes.
    Announce(Prefix, Arc<Attributes>),
    /// The peer withdraws the prefix.
    Withdraw(Prefix),
    /// The session goes down and all its routes with it (RFC 4271, section 8.2.2): its state left
    /// Established, or the peer sent a NOTIFICATION. It may come up again.
    Down,
    /// The session ends, and nothing follows.
    Close(Reason),
}

/// Why a session ended.
#[derive(Clone, Copy, Debug, PartialEq, Eq, Drop)]
pub enum Reason {
    /// The records ended.
    EndOfFile,
    /// The peer sent a message at fault, which a NOTIFICATION with these codes answers (RFC 4271, section 6).
    Bgp {
        /// The error code: 1 for the header, 3 for an UPDATE.
        code: u8,
        /// The error subcode.
        subcode: u8,
    },
    /// The recording is at fault: 1 to 4, the number of the fault (RFC 6396; the numbers are our choice).
    Mrt(u8),
    /// Memory was refused. No session says so by itself: the worker that reads it does.
    Memory,
    /// The recording could not be read to its end.
    Read,
}
