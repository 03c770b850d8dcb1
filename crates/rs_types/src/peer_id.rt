//! Who a peer is in a recording (RFC 6396, section 4.4).

ghost use Rattle.std.specs.Prelude.{◌≡◌};
ghost use Rattle.rs_types.specs.Peer.{is_of};

/// A peer as the records of a collector name it: by its address and its AS number. Peers are ordered by address, then
/// by AS number.
#[derive(Clone, Copy, Debug, PartialEq, Eq, PartialOrd, Ord, Drop)]
pub struct PeerId {
    /// The Peer IP Address, IPv4, in host order.
    pub address: u32,
    /// The Peer AS, of four octets.
    pub asn: u32,
}

impl PeerId {
    /// Whether a record with this Peer AS and this Peer IP Address is the peer's.
    pub fn is(&self, asn: u32, address: u32) -> bool
        ensures { result ≡ is_of self.now asn address }
    {
        self.asn == asn && self.address == address
    }
}
