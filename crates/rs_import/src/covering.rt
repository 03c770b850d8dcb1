//! The VRPs that cover a prefix (RFC 6811, section 2).

ghost use Rattle.std.specs.Prelude.{◌≡◌, filter, reverse};
ghost use Rattle.rs_import.specs.Rpki.{is_covering};

use crate::vrps::Vrps;
use rs_types::{Prefix, Vrp};
use std::marker::Model;

/// The VRPs that cover a prefix: an iterator over them, the most specific ones first, that takes no memory.
#[derive(Debug, Drop)]
pub struct Covering<'a> {
    vrps: &'a Vrps,
    prefix: Prefix,
    count: usize,
}

impl<'a> Model for Covering<'a> {
    ghost use Rattle.std.specs.Prelude.{List};
    ghost use Rattle.rs_types.specs.declared.vrp.Vrp.{Vrp};
    ghost use Rattle.rs_import.specs.CoveringView.{IsAtCover, covering_view};

    ghost Value = { List Vrp };

    ghost view = { covering_view };

    ghost invariant = { IsAtCover };
}

impl<'a> Iterator for Covering<'a> {
    ghost use Rattle.std.specs.Iterator.{YieldsFirstBy, item_count};

    type Item = Vrp;

    ghost next_gives = { YieldsFirstBy (λ vrp. vrp) (λ vrps. vrps) };

    ghost remaining = { item_count (λ vrps. vrps) };

    fn next(&mut self) -> Option<Vrp> {
        if self.count == 0 {
            return None;
        }
        let place = self.count - 1;
        let vrp = self.vrps.vrp(place);
        self.count = self.vrps.next(self.prefix, place);
        Some(vrp)
    }
}

impl Vrps {
    /// The VRPs that cover a prefix, the last in the table's order first: the most specific ones. It takes no memory.
    pub fn covering(&self, prefix: Prefix) -> Covering<'_>
        ensures { result ≡ filter (is_covering prefix) (reverse self.now) }
    {
        Covering {
            vrps: self,
            prefix,
            count: self.first(prefix),
        }
    }
}
