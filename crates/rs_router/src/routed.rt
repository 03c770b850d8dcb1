//! The items that a shard is sent.

ghost use Rattle.rs_router.specs.RoutedItems.{is_last};

use rs_change::Word;
use rs_ring::Closing;

/// What a shard is sent.
#[derive(Drop)]
pub enum Routed {
    /// A change of a peer.
    Word {
        /// The number of the peer, from 0.
        peer: usize,
        /// Its change.
        word: Word,
    },
    /// Every peer's session closed, and nothing follows.
    Last,
}

impl Closing for Routed {
    ghost LIMIT = { 1152921504606846976 };

    ghost closes = { is_last };

    // 2^60: more than 256 peers' changes.
    const LIMIT: u64 = 1_152_921_504_606_846_976;

    fn is_close(&self) -> bool {
        matches!(self, Routed::Last)
    }
}
