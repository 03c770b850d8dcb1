//! A change as an item of a ring: the close of a session closes its ring.

ghost use Rattle.rs_change.specs.Change.{change_of, is_close};

use crate::word::{Body, Word};
use rs_ring::Closing;

impl Closing for Word {
    ghost LIMIT = { 2251799813685248 };

    ghost closes = { λ word. is_close (change_of word) };

    // 2^51: a file of fewer than 2^50 octets says fewer changes.
    const LIMIT: u64 = 2_251_799_813_685_248;

    fn is_close(&self) -> bool {
        matches!(self.body, Body::Close(_))
    }
}
