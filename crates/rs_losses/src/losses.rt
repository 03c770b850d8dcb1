//! Whose losses are looked for.

use rs_types::PeerId;

/// The peer whose losses are looked for.
#[derive(Clone, Copy, Debug, PartialEq, Eq, Drop)]
pub struct Sought {
    /// The peer, as records name it.
    pub peer: PeerId,
    /// Whether no other peer of the recording has this AS number. Only then a loss that is recorded with the Peer IP
    /// Address 0.0.0.0 is the peer's.
    pub alone: bool,
}
