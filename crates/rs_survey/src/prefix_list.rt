//! The prefixes on which some peer has a route, as a list: so several threads can take parts of it.

ghost use Rattle.std.specs.Prelude.{◌≡◌, IfOk, map};
ghost use Rattle.std.specs.List.{All};
ghost use Rattle.rs_table.specs.PrefixRoutes.{AreRoutesOf, entry_of};
ghost use Rattle.rs_table.specs.Table.{prefixes_held};

use rs_table::{PrefixRoutes, Tables};
use std::alloc::{AllocError, Global};

/// The prefixes on which some peer has left a route, in ascending order, each once, with the routes there.
pub fn every_prefix<'a>(
    alloc: Global,
    tables: &'a Tables,
) -> Result<Vec<PrefixRoutes<'a>>, AllocError>
    ensures prefixes { IfOk result (λ all. map (λ on. on.prefix) all.items ≡ prefixes_held tables.now.ribs) }
    ensures routes { IfOk result (λ all. All (λ on. AreRoutesOf tables.now (entry_of on)) all.items) }
{
    tables.iter_prefixes().collect(alloc)
}
