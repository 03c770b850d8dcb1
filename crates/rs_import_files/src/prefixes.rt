//! Prefixes as texts.

ghost use Rattle.std.specs.Prelude.{◌≡◌, ◌≤◌, IfNone, IfSome};
ghost use Rattle.rs_types.specs.IpPrefix.{IsPrefix};
ghost use Rattle.rs_import_files.specs.Texts.{IsDottedAddress, IsPrefixText, StandsForNone};

use crate::cuts::cut_at;
use crate::numbers::length;
use rs_types::Prefix;
use std::net::Ipv4Addr;

/// The prefix that a text is: an address, a slash and a length. It has no host bits.
pub fn read_prefix(text: &str) -> Option<Prefix>
    ensures found { IfSome result (IsPrefixText text.now) }
    ensures none { IfNone result (StandsForNone IsPrefixText text.now) }
{
    let (front, back) = cut_at(text, '/')?;
    let address = dotted_address(front)?;
    let len = length(back)?;
    exact_prefix(address, len)
}

// Whether a text is a prefix but for its host bits.
pub(crate) fn has_host_bits(text: &str) -> bool {
    let Some((address, len)) = cut_at(text, '/') else {
        return false;
    };
    match (dotted_address(address), length(len)) {
        (Some(address), Some(len)) => exact_prefix(address, len).is_none(),
        _ => false,
    }
}

// The address, in host order, that a text writes with dots.
pub(crate) fn dotted_address(text: &str) -> Option<u32>
    ensures found { IfSome result (IsDottedAddress text.now) }
    ensures none { IfNone result (StandsForNone IsDottedAddress text.now) }
{
    match text.parse::<Ipv4Addr>() {
        Ok(address) => Some(address.to_bits()),
        Err(_) => None,
    }
}

// The prefix of an address and a length, if the address has no host bits.
fn exact_prefix(address: u32, len: u8) -> Option<Prefix>
    ensures found { IfSome result (λ prefix. (prefix.address ≡ address) × (prefix.len ≡ len) × IsPrefix address len) }
    ensures none { IfNone result (¬ (IsPrefix address len)) }
{
    let prefix = Prefix::new(address, len)?;
    if prefix.address() != address {
        return None;
    }
    Some(prefix)
}
