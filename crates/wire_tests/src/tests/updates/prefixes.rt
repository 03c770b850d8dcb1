//! Prefixes (RFC 4271, section 4.3): which are multicast, which cover 203.0.113.0/24, and which come before it.

use super::*;
use rs_update::covers;

// An address and a length, the prefix that they give, whether it is multicast, whether it covers 203.0.113.0/24, and
// where it is in the order by address, then by length.
const PREFIXES: &str = "
Multicast is 224.0.0.0/4 and what lies in it.
224.0.0.0/3 | 224.0.0.0/3 false false Greater
224.0.0.0/4 | 224.0.0.0/4 true false Greater
224.0.0.1/32 | 224.0.0.1/32 true false Greater
239.0.0.0/8 | 239.0.0.0/8 true false Greater
239.255.255.255/32 | 239.255.255.255/32 true false Greater
240.0.0.0/4 | 240.0.0.0/4 false false Greater
208.0.0.0/4 | 208.0.0.0/4 false false Greater
A prefix covers itself and more specific ones.
203.0.113.0/24 | 203.0.113.0/24 false true Equal
203.0.112.0/23 | 203.0.112.0/23 false true Less
0.0.0.0/0 | 0.0.0.0/0 false true Less
203.0.113.0/25 | 203.0.113.0/25 false false Greater
203.0.112.0/24 | 203.0.112.0/24 false false Less
202.0.0.0/8 | 202.0.0.0/8 false false Less
203.0.113.0/32 | 203.0.113.0/32 false false Greater
Host bits are cleared, and a length is at most 32.
10.0.0.1/8 | 10.0.0.0/8 false false Less
10.0.0.0/9 | 10.0.0.0/9 false false Less
9.0.0.0/32 | 9.0.0.0/32 false false Less
203.0.113.255/24 | 203.0.113.0/24 false true Equal
203.0.113.255/23 | 203.0.112.0/23 false true Less
203.0.113.0/33 | none
0.0.0.0/33 | none
";

/// The prefix 203.0.113.0/24.
pub fn narrow() -> Option<Prefix> {
    Prefix::new(0xCB00_7100, 24)
}

// Appends what is said of a prefix beside 203.0.113.0/24.
fn say_of(said: &mut Said, prefix: Prefix, narrow: Prefix) {
    let (address, len) = (Ipv4Addr::from_bits(prefix.address()), prefix.len());
    let (multicast, wide) = (prefix.is_multicast(), covers(prefix, narrow));
    let place = prefix.cmp(&narrow);
    said.add(format_args!("{address}/{len} {multicast} {wide} {place:?}"));
}

/// Appends what is said of the prefix of an address and a length.
pub fn say(said: &mut Said, text: &str) {
    let (address, len) = text.split_once('/').unwrap_or((text, ""));
    let (Ok(address), Ok(len)) = (address.parse::<Ipv4Addr>(), len.parse()) else {
        return said.add("no prefix");
    };
    match (Prefix::new(address.to_bits(), len), narrow()) {
        (Some(prefix), Some(narrow)) => say_of(said, prefix, narrow),
        _ => said.add("none"),
    }
}

#[test]
fn prefixes_have_no_host_bits_and_an_order(rt: HostRuntime) -> Result<(), Fail> {
    check_rows(rt.alloc(), Topic::Prefix, PREFIXES)
}
