//! Which routes may be candidates at all: those without an AS loop (RFC 4271, section 9.1.2) whose NEXT_HOP is
//! semantically correct (section 6.3). The others are ignored, and the session stays.
//!
//! The subnet that the server shares with its peers is configured, and without one any address may be on the
//! exchange (our choice). A route that isn't eligible still takes the place of the peer's earlier route (our choice).

ghost use Rattle.std.specs.Prelude.{◌≡◌, ◌<◌, length};
ghost use Rattle.rs_choice.specs.Eligibility.{is_eligible, is_inside, is_on_exchange};

use crate::exchange::Exchange;
use rs_types::{Attributes, Prefix};

impl Exchange {
    /// Whether a route of the peer of number `peer` is eligible. It takes no memory.
    ///
    /// All of these must be so:
    /// - The server's AS isn't in its AS_PATH (RFC 4271, section 9.1.2).
    /// - Its NEXT_HOP isn't the server's address (section 6.3).
    /// - If a subnet is configured, its NEXT_HOP is the peer's address or inside the subnet (section 6.3).
    pub fn eligible(&self, peer: usize, attributes: &Attributes) -> bool
        requires { peer < length self.now.peers }
        ensures { result ≡ is_eligible self.now peer attributes.now }
    {
        let local = self.local();
        let next_hop = attributes.next_hop();
        !attributes.holds_as(local.asn)
            && next_hop != local.address
            && on_exchange(local.subnet, self.peer(peer).address, next_hop)
    }
}

// Whether an address is on the exchange: the sender's own or inside the subnet, if one is configured.
fn on_exchange(subnet: Option<Prefix>, sender_address: u32, address: u32) -> bool
    ensures { result ≡ is_on_exchange subnet sender_address address }
{
    match subnet {
        None => true,
        Some(subnet) => address == sender_address || inside(&subnet, address),
    }
}

// Whether an address is inside a prefix.
fn inside(prefix: &Prefix, address: u32) -> bool
    ensures { result ≡ is_inside prefix.now address }
{
    match Prefix::new(address, prefix.len()) {
        Some(network) => network.address() == prefix.address(),
        None => false,
    }
}
