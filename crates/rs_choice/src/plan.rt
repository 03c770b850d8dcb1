//! The plan of an exchange: the server and its peers, as they are configured.

ghost use Rattle.std.specs.Prelude.{◌≡◌};
ghost use Rattle.rs_choice.specs.Plan.{id_of, peer_of};

use rs_types::{PeerId, Prefix};

/// The most peers that a plan may have.
pub const MAX_PEERS: usize = 256;

/// The most octets that a peer's name may have.
pub const MAX_NAME_LEN: usize = 64;

// The two marks that a peer's name may hold beside letters and digits.
pub(crate) const HYPHEN: u8 = b'-';

pub(crate) const UNDERSCORE: u8 = b'_';

/// The route server itself. Addresses and identifiers are IPv4 addresses in host order.
#[derive(Clone, Copy, Debug, PartialEq, Eq)]
pub struct Local {
    /// Its AS number.
    pub asn: u32,
    /// Its address on the exchange.
    pub address: u32,
    /// Its BGP Identifier (RFC 4271, section 4.2).
    pub id: u32,
    /// The subnet of the exchange, in which a NEXT_HOP must lie, if one is configured.
    pub subnet: Option<Prefix>,
}

impl Local {
    /// The server as a recording identifies it: by its address and its AS number (RFC 6396, section 4.4).
    pub fn peer_id(&self) -> PeerId
        ensures { result ≡ record { address = self.now.address; asn = self.now.asn } }
    {
        PeerId {
            address: self.address,
            asn: self.asn,
        }
    }
}

/// A peer: a neighbour that sends routes, and a client with a table of its own. Peers are numbered from 0 in
/// their order.
#[derive(Debug, Drop)]
pub struct PeerSpec {
    /// Its name: 1 to 64 ASCII letters, digits, `-` and `_`.
    pub name: String,
    /// Its AS number.
    pub asn: u32,
    /// Its address on the exchange, in host order.
    pub address: u32,
    /// Its BGP Identifier, an IPv4 address in host order. Several peers may have the same one.
    pub id: u32,
    /// How much its routes are preferred: more is better (RFC 4271, section 9.1.1).
    pub preference: u32,
    /// The names of the peers whose routes it refuses. Its own name and repeated names have no effect.
    pub refuse_from: Vec<String>,
}

impl PeerSpec {
    /// The peer as a recording identifies it: by its address and its AS number (RFC 6396, section 4.4).
    pub fn peer_id(&self) -> PeerId
        ensures { result ≡ id_of (peer_of self.now) }
    {
        PeerId {
            address: self.address,
            asn: self.asn,
        }
    }
}
