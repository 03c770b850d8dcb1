//! Patterns of prefixes, as those of BIRD's prefix sets.

use crate::prefix::Prefix;

/// The prefixes inside one prefix whose lengths lie within bounds.
#[derive(Clone, Copy, Debug, PartialEq, Eq)]
pub struct Pattern {
    /// The prefix that covers all that match.
    pub prefix: Prefix,
    /// The least length that matches, in bits.
    pub least: u8,
    /// The greatest length that matches, in bits.
    pub most: u8,
}
