//! The prefixes on which some peer has left a route, one after another.

ghost use Rattle.std.specs.Prelude.{◌≡◌, ℕ, All, IfNone, IfSome, None, map};
ghost use Rattle.rs_table.specs.PrefixRoutes.{AreRoutesOf, entry_of};
ghost use Rattle.rs_table.specs.Table.{prefixes_held, route_from};

use crate::cell::Cell;
use crate::prefix_routes::PrefixRoutes;
use crate::tables::Tables;
use rs_types::Prefix;
use std::collections::btree_map::Iter;
use std::marker::Model;

/// The prefixes on which some peer has left a route: an iterator over them, in ascending order, that takes no memory.
#[derive(Drop)]
pub struct Prefixes<'a> {
    // The cells of the prefixes to come.
    cells: Iter<'a, Prefix, Cell>,
}

impl<'a> Model for Prefixes<'a> {
    ghost use Rattle.rs_table.specs.Cells.{Entries};
    ghost use Rattle.rs_table.specs.PrefixRoutes.{entries_code};

    ghost Value = { Entries };

    ghost coded = { entries_code };

    ghost view = { λ fields. fields.cells };
}

impl<'a> Iterator for Prefixes<'a> {
    ghost use Rattle.std.specs.Iterator.{YieldsFirstBy, item_count};
    ghost use Rattle.rs_table.specs.PrefixRoutes.{entry_of};

    type Item = PrefixRoutes<'a>;

    ghost next_gives = { YieldsFirstBy entry_of (λ entries. entries) };

    ghost remaining = { item_count (λ entries. entries) };

    fn next(&mut self) -> Option<PrefixRoutes<'a>> {
        let entry = self.cells.next()?;
        Some(PrefixRoutes {
            prefix: *entry.0,
            cell: entry.1,
        })
    }

    fn size_hint(&self) -> (usize, Option<usize>) {
        self.cells.size_hint()
    }
}

impl Tables {
    /// The routes on one prefix, and what each client gets of them; none if no peer has left a route there. It takes
    /// no memory.
    pub fn on_prefix(&self, prefix: Prefix) -> Option<PrefixRoutes<'_>>
        ensures some { IfSome result (λ on. (on.prefix ≡ prefix) × AreRoutesOf self.now (entry_of on)) }
        ensures none { IfNone result ((peer : ℕ) → route_from self.now prefix peer ≡ None) }
    {
        let cell = self.cells().get(&prefix)?;
        Some(PrefixRoutes { prefix, cell })
    }

    /// The prefixes on which some peer has left a route, one after another, in ascending order, each once, with the
    /// routes there. It takes no memory.
    pub fn iter_prefixes(&self) -> Prefixes<'_>
        ensures prefixes { map (λ entry. entry.0) result ≡ prefixes_held self.now.ribs }
        ensures routes { All (AreRoutesOf self.now) result }
    {
        let cells = self.cells();
        Prefixes {
            cells: cells.iter(),
        }
    }
}
