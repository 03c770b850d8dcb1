//! What holds of the definitions that the contracts cite: each law is the contract of a function that does nothing.

ghost use Rattle.std.specs.Prelude.{◌≡◌, ◌==◌, ◌&&◌, true};
ghost use Rattle.rs_types.specs.Covering.{covers};
ghost use Rattle.rs_types.specs.IpPrefix.{IpPrefix};
ghost use Rattle.rs_types.specs.OriginOrder.{origin_cmp};
ghost use Rattle.rs_types.specs.PrefixOrder.{prefix_cmp, same_prefix};

use crate::prefix::{Prefix, bits_past_the_length_are_cleared};
use crate::values::Origin;

/// Prefixes are ordered by address, then by length.
pub fn prefixes_are_ordered_by_address_then_length()
    ensures { (one other : IpPrefix) → ⟦<Prefix as Ord>⟧.cmp one other ≡ prefix_cmp one other }
{}

/// Two prefixes are the same if their addresses and their lengths are equal.
pub fn prefixes_are_the_same_by_address_and_length()
    ensures { (one other : IpPrefix) → same_prefix one other
        ≡ ((one.address == other.address) && (one.len == other.len)) }
{}

/// Origins are ordered by their codes: IGP, then EGP, then INCOMPLETE (RFC 4271, section 9.1.2.2, b).
pub fn origins_are_ordered_by_code()
    ensures { (one other : Origin) → ⟦<Origin as Ord>⟧.cmp one other ≡ origin_cmp one other }
{}

/// A prefix covers itself.
pub fn a_prefix_covers_itself(prefix: Prefix)
    ensures { covers prefix prefix ≡ true }
{
    bits_past_the_length_are_cleared(prefix);
}
