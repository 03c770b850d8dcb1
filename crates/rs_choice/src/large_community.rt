//! Large communities (RFC 8092). `rs_types` stores them among the unrecognized attributes, and they are read there.
//!
//! An attribute whose length is no multiple of 12 has no large community (our choice).

ghost use Rattle.std.specs.Prelude.{◌≡◌, map};
ghost use Rattle.rs_choice.specs.LargeCommunity.{has_large_community, has_large_community_of, is_large, is_large_of};
ghost use Rattle.rs_choice.specs.LargeCommunity.{large_communities_in, large_communities_of, large_community_of};

use byteorder::{BigEndian, ByteOrder};
use rs_types::Attributes;

/// The type of LARGE_COMMUNITY (RFC 8092, section 3).
pub const LARGE_COMMUNITY: u8 = 32;

/// How many octets a large community has: three numbers of four octets (RFC 8092, section 3).
pub const LARGE_LEN: usize = 12;

// Where the two parts of Local Data begin.
const FIRST_AT: usize = 4;

const SECOND_AT: usize = 8;

// Whether the large community (`global`, `first`, `second`) was received: Global Administrator and the two parts of
// Local Data (RFC 8092, section 3).
pub(crate) fn has_large_community(
    attributes: &Attributes,
    global: u32,
    first: u32,
    second: u32,
) -> bool
    ensures { result ≡ has_large_community attributes.now global first second }
{
    let mut rest = large_communities(attributes);
    while let [octets, behind @ ..] = rest {
        if is_large(octets, global, first, second) {
            return true;
        }
        rest = behind;
    }
    false
}

// Whether some large community with this Global Administrator and this first part was received.
pub(crate) fn has_large_community_of(attributes: &Attributes, global: u32, first: u32) -> bool
    ensures { result ≡ has_large_community_of attributes.now global first }
{
    let mut rest = large_communities(attributes);
    while let [octets, behind @ ..] = rest {
        if is_large_of(octets, global, first) {
            return true;
        }
        rest = behind;
    }
    false
}

/// The large communities of a route, each as its 12 octets; none if it has no such attribute. It takes no memory.
pub fn large_communities(attributes: &Attributes) -> &[[u8; LARGE_LEN]]
    ensures { map large_community_of result.now ≡ large_communities_of attributes.now }
{
    let mut rest = attributes.others();
    while let Some(other) = rest.next() {
        if other.kind == LARGE_COMMUNITY {
            return large_communities_in(other.value);
        }
    }
    &[]
}

/// A value of LARGE_COMMUNITY as large communities, each as its 12 octets: three numbers of four octets, most
/// significant octet first (RFC 8092, section 3). None if the length of the value is no multiple of 12 (our choice).
pub fn large_communities_in(value: &[u8]) -> &[[u8; LARGE_LEN]]
    ensures { map large_community_of result.now ≡ large_communities_in value.now }
{
    let (communities, rest) = value.as_chunks::<LARGE_LEN>();
    if rest.is_empty() { communities } else { &[] }
}

// Whether 12 octets are the large community of these numbers.
pub(crate) fn is_large(octets: &[u8; LARGE_LEN], global: u32, first: u32, second: u32) -> bool
    ensures { result ≡ is_large (large_community_of octets.now) global first second }
{
    is_large_of(octets, global, first) && BigEndian::read_u32(&octets[SECOND_AT..]) == second
}

// Whether 12 octets are a large community with this Global Administrator and this first part.
fn is_large_of(octets: &[u8; LARGE_LEN], global: u32, first: u32) -> bool
    ensures { result ≡ is_large_of (large_community_of octets.now) global first }
{
    BigEndian::read_u32(octets) == global && BigEndian::read_u32(&octets[FIRST_AT..]) == first
}
