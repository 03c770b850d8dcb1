//! Validated ROA payloads (RFC 6811, section 2).

use crate::prefix::Prefix;

/// A validated ROA payload: the AS may originate the prefixes that its prefix covers, up to a length.
#[derive(Clone, Copy, Debug, PartialEq, Eq)]
pub struct Vrp {
    /// The prefix that covers all of them.
    pub prefix: Prefix,
    /// The greatest length, in bits.
    pub max_len: u8,
    /// The AS that may originate them. AS 0 matches no route.
    pub asn: u32,
}
