//! Of whom a session is, and since when.

use rs_session::PeerId;

/// The peer whose session begins with a table, and the table's time.
#[derive(Clone, Copy, Debug, PartialEq, Eq, Drop)]
pub struct Start {
    /// The Timestamp of each record, in seconds since 1970.
    pub time: u32,
    /// The peer.
    pub peer: PeerId,
    /// The collector, as the Local AS and the Local IP Address of each record. Sessions are read without them.
    pub local: PeerId,
}
