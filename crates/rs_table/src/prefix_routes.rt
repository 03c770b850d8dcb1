//! The routes on one prefix, and what each client gets of them (RFC 4271, section 9.1; RFC 7947, section 2.3).

ghost use Rattle.std.specs.Prelude.{◌≡◌};
ghost use Rattle.std.specs.Option.{option_map};
ghost use Rattle.rs_table.specs.PrefixRoutes.{best_on, entry_of, route_on};
ghost use Rattle.rs_table.specs.RouteView.{sent_route_of};

use crate::cell::Cell;
use crate::route::Route;
use rs_types::Prefix;

/// A prefix with the routes that peers have left on it, and what each client gets of them. What it answers is at
/// hand: no map is searched.
#[derive(Clone, Copy)]
pub struct PrefixRoutes<'a> {
    /// The prefix.
    pub prefix: Prefix,
    pub(crate) cell: &'a Cell,
}

impl<'a> PrefixRoutes<'a> {
    /// The route that the peer of number `peer` has left on the prefix, eligible or not; none if it has none.
    pub fn route(&self, peer: usize) -> Option<Route<'a>>
        ensures { option_map sent_route_of result ≡ route_on (entry_of self.now) peer }
    {
        self.cell.route(peer)
    }

    /// The route that the peer of number `client` gets on the prefix, as `Tables::best` answers.
    pub fn best(&self, client: usize) -> Option<Route<'a>>
        ensures { option_map sent_route_of result ≡ best_on (entry_of self.now) client }
    {
        self.cell.best(client)
    }
}
