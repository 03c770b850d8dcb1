//! An IPv4 address prefix (RFC 4271, section 4.3).
//!
//! Bits past the length have no meaning in the standard; ours are cleared, so that equal prefixes are equal values.

ghost use Rattle.std.specs.Prelude.{◌≡◌, ◌<◌, ◌≤◌, ◌↔◌, length, slice_index, Some, IsSome, IfSome, IfOk};
ghost use Rattle.std.specs.Prelude.{OnErr};
ghost use Rattle.std.specs.Option.{option_map};
ghost use Rattle.byteorder.specs.Endian.{big_number};
ghost use Rattle.rs_types.specs.Covering.{covers};
ghost use Rattle.rs_types.specs.IpPrefix.{IsPrefix};
ghost use Rattle.rs_types.specs.Prefix as spec;

use byteorder::{BigEndian, ByteOrder};
use std::alloc::{AllocError, Global};
use std::marker::Model;

/// The most bits that a prefix can have.
pub const MAX_LEN: u8 = 32;

/// An address prefix: an IPv4 address in host order, and how many of its bits count. The other bits are 0.
///
/// Prefixes are ordered by address, then by length.
#[derive(Clone, Copy, Debug, PartialEq, Eq, PartialOrd, Ord, Hash)]
pub struct Prefix {
    address: u32,
    len: u8,
}

impl Model for Prefix {
    ghost use Rattle.rs_types.specs.IpPrefix.{IpPrefix, IsPrefix};

    ghost Value = { IpPrefix };

    ghost view = { λ p. record { address = p.address; len = p.len } };

    ghost invariant = { λ p. IsPrefix p.address p.len };

    ghost inverse = { λ p. record { address = p.address; len = p.len } };
}

impl Prefix {
    /// The prefix of the first `len` bits of `address`, or None if `len` is above 32. Host bits are cleared.
    pub fn new(address: u32, len: u8) -> Option<Prefix>
        ensures found { IsSome result ↔ (len ≤ MAX_LEN) }
        ensures value { IfSome result (λ prefix. prefix ≡ spec.network_of address len) }
    {
        if len > MAX_LEN {
            return None;
        }
        Some(Prefix::masked(address, len))
    }

    /// The address, its bits past the length 0, in host order.
    pub fn address(&self) -> u32
        ensures { result ≡ self.now.address }
    {
        self.address
    }

    /// How many bits of the address count, 0 to 32.
    pub fn len(&self) -> u8
        ensures value { result ≡ self.now.len }
        ensures bound { result ≤ MAX_LEN }
    {
        self.len
    }

    /// Whether the prefix lies inside 224.0.0.0/4, the multicast addresses: at least four bits count, and the
    /// first four are 1110.
    pub fn is_multicast(&self) -> bool
        ensures { result ≡ spec.is_multicast self.now }
    {
        self.len >= 4 && self.address >> 28 == 14
    }

    // The prefix of the first `len` bits.
    fn masked(address: u32, len: u8) -> Prefix
        requires { len ≤ MAX_LEN }
        ensures { result ≡ spec.network_of address len }
    {
        Prefix {
            address: network_address(address, len),
            len,
        }
    }
}

// Bits past the length are 0.
pub(crate) fn bits_past_the_length_are_cleared(prefix: Prefix)
    ensures { IsPrefix prefix.address prefix.len }
{
    let _address = prefix.address;
}

// The address with all bits past the first `len` cleared.
fn network_address(address: u32, len: u8) -> u32
    requires { len ≤ MAX_LEN }
    ensures { result ≡ (spec.network_of address len).address }
{
    let unit = 1u64 << (MAX_LEN - len);
    (u64::from(address) / unit * unit) as u32
}

/// Whether a prefix covers another, itself included: it is no longer, and has the other's first bits (RFC 4271,
/// section 9.1.4).
pub fn covers(wide: Prefix, prefix: Prefix) -> bool
    ensures { result ≡ covers wide prefix }
{
    if prefix.len < wide.len {
        return false;
    }
    Prefix::masked(prefix.address, wide.len) == wide
}
