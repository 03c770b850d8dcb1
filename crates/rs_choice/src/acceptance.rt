//! Which routes import policy takes in (RFC 4271, section 9.1.1). Others are candidates of nobody, and the session stays.
//!
//! A route that isn't taken in still takes the place of the peer's earlier route (our choice), as an ineligible one does.

ghost use Rattle.std.specs.Prelude.{◌≡◌, ◌<◌, length};
ghost use Rattle.rs_choice.specs.Acceptance.{accepts, filter_on};

use crate::exchange::Exchange;
use rs_import::Filter;
use rs_types::{Attributes, Prefix};

impl Exchange {
    /// Whether import policy takes in a route of the peer of number `peer` on a prefix. Eligibility is not asked. It
    /// takes no memory.
    pub fn accepts(&self, peer: usize, prefix: Prefix, attributes: &Attributes) -> bool
        requires { peer < length self.now.peers }
        ensures { result ≡ accepts self.now peer prefix attributes.now }
    {
        self.filter(peer, prefix, attributes).is_none()
    }

    /// The filter that doesn't take in a route of the peer of number `peer` on a prefix: the first condition of import
    /// policy that the route fails. None if it is taken in. It takes no memory.
    pub fn filter(&self, peer: usize, prefix: Prefix, attributes: &Attributes) -> Option<Filter>
        requires { peer < length self.now.peers }
        ensures { result ≡ filter_on self.now peer prefix attributes.now }
    {
        let sender = self.peer(peer);
        self.import()
            .filter(self.local().asn, peer, sender.asn, prefix, attributes)
    }
}
