//! Why a client has the route of a peer on a prefix, or not.

ghost use Rattle.std.specs.Prelude.{◌≡◌, ◌<◌, length};
ghost use Rattle.rs_table.specs.Table.{best_of, is_from, why_of};

use crate::tables::Tables;
use rs_types::Prefix;

/// The first case that holds of a client, a peer and a prefix.
#[derive(Clone, Copy, Debug, PartialEq, Eq)]
pub enum Why {
    /// The client is the peer: it never gets a route of its own.
    Own,
    /// The peer has no route left on the prefix.
    Absent,
    /// The peer's route isn't eligible (RFC 4271, sections 6.3 and 9.1.2).
    Ineligible,
    /// Import policy doesn't take the peer's route in (RFC 4271, section 9.1.1).
    Filtered,
    /// Export policy refuses the peer's route to the client (RFC 7947, section 2.3).
    Refused,
    /// The client's table has the peer's route.
    Best,
    /// The decision process chose another peer's route (RFC 4271, section 9.1.2.2).
    Lost,
}

impl Tables {
    /// Why the peer of number `client` has the route of the peer of number `peer` on a prefix, or not. It
    /// takes no memory.
    pub fn why(&self, client: usize, peer: usize, prefix: Prefix) -> Why
        requires client_known { client < length self.now.plan.peers }
        requires peer_known { peer < length self.now.plan.peers }
        ensures { result ≡ why_of self.now client peer prefix }
    {
        if client == peer {
            return Why::Own;
        }
        let Some(held) = self.route(peer, prefix) else {
            return Why::Absent;
        };
        if !self.plan().eligible(peer, held.attributes) {
            return Why::Ineligible;
        }
        if !self.plan().accepts(peer, prefix, held.attributes) {
            return Why::Filtered;
        }
        if !self.plan().permits(client, peer, held.attributes) {
            return Why::Refused;
        }
        if self.gets_from(client, peer, prefix) {
            Why::Best
        } else {
            Why::Lost
        }
    }

    // Whether what a client gets on a prefix is a peer's route.
    fn gets_from(&self, client: usize, peer: usize, prefix: Prefix) -> bool
        ensures { result ≡ is_from peer (best_of self.now client prefix) }
    {
        match self.best(client, prefix) {
            Some(route) => route.peer == peer,
            None => false,
        }
    }
}
