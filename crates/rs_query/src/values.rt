//! What the texts of values stand for.

use crate::query::Destination;
use rs_host::read_time;
use rs_setup::slashed_subnet;
use rs_update::Prefix;
use std::net::Ipv4Addr;

// How a prefix is written.
pub(crate) const PREFIX_FORM: &str = "an IPv4 prefix, as 192.0.2.0/24";

// How a prefix or an address is written.
pub(crate) const DESTINATION_FORM: &str = "an IPv4 prefix or address, as 192.0.2.0/24";

// How an address is written.
pub(crate) const ADDRESS_FORM: &str = "an IPv4 address, as 192.0.2.1";

// How a time is written.
pub(crate) const TIME_FORM: &str = "seconds since 1970 or a time as 2026-11-22T06:36:20Z";

// The prefix that a text writes. Host bits are cleared.
pub(crate) fn prefix_of(text: &str) -> Option<Prefix> {
    slashed_subnet(text)
}

// The prefix or the address that a text writes.
pub(crate) fn destination_of(text: &str) -> Option<Destination> {
    if let Some(prefix) = prefix_of(text) {
        return Some(Destination::Prefix(prefix));
    }
    Some(Destination::Address(address_of(text)?))
}

// The address that a text writes, in host order.
pub(crate) fn address_of(text: &str) -> Option<u32> {
    let address = text.parse::<Ipv4Addr>().ok()?;
    Some(address.to_bits())
}

// The time that a text writes.
pub(crate) fn time_of(text: &str) -> Option<u32> {
    read_time(text)
}
