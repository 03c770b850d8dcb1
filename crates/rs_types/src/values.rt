//! Values of path attributes, and what they must be (RFC 4271, sections 4.3 and 6.3).
//!
//! A NEXT_HOP is at fault if its first octet is 0, or 224 or more (our choice).

ghost use Rattle.std.specs.Prelude.{◌≡◌};
ghost use Rattle.rs_types.specs.Section.{origin_of, is_origin as is_origin_value, is_next_hop as is_next_hop_value};

// The least first octet but 0 of an address that isn't a host's: multicast begins here.
const MULTICAST: u8 = 224;

/// The origin of a route's path information (RFC 4271, section 5.1.1). Lower is preferred, in this order.
#[derive(Clone, Copy, Debug, PartialEq, Eq, PartialOrd, Ord, Hash)]
pub enum Origin {
    /// Interior to the originating AS, code 0.
    Igp,
    /// Learned by the EGP protocol, code 1.
    Egp,
    /// Learned by other means, code 2.
    Incomplete,
}

impl Origin {
    // The origin with a code.
    pub(crate) fn of(code: u8) -> Option<Origin>
        ensures { result ≡ origin_of code }
    {
        match code {
            0 => Some(Origin::Igp),
            1 => Some(Origin::Egp),
            2 => Some(Origin::Incomplete),
            _ => None,
        }
    }
}

/// AGGREGATOR (RFC 4271, section 5.1.7; RFC 6793): who formed an aggregate route.
#[derive(Clone, Copy, Debug, PartialEq, Eq)]
pub struct Aggregator {
    /// The AS number, four octets.
    pub asn: u32,
    /// The speaker's IPv4 address, in host order.
    pub address: u32,
    /// Whether the Partial bit was set when the attribute was received.
    pub partial: bool,
}

/// Whether a value is the code of an origin.
pub(crate) fn is_origin(value: &[u8]) -> bool
    ensures { result ≡ is_origin_value value.now }
{
    match value {
        [code] => Origin::of(*code).is_some(),
        _ => false,
    }
}

/// Whether a value begins as the address of a host.
pub(crate) fn is_next_hop(value: &[u8]) -> bool
    ensures { result ≡ is_next_hop_value value.now }
{
    match value {
        [first, ..] => *first != 0 && *first < MULTICAST,
        _ => false,
    }
}
