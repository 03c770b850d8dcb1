//! The conditions of import policy.

/// A filter: the condition of import policy that a route fails. They are asked in this order.
#[derive(Clone, Copy, Debug, PartialEq, Eq, PartialOrd, Ord)]
pub enum Filter {
    /// Its prefix is shorter or longer than the bounds.
    PrefixLength,
    /// A pattern of refused prefixes matches its prefix.
    RefusedPrefix,
    /// Its AS_PATH is too long.
    PathLengthLimit,
    /// A refused AS number is in its AS_PATH.
    RefusedAs,
    /// Its AS_PATH does not begin with an AS_SEQUENCE whose first number is the sender's AS.
    FirstAs,
    /// No entry of the sender's prefix list matches its prefix.
    PrefixList,
    /// Its origin AS is not in the sender's list, or it has none.
    OriginAs,
    /// It is invalid by RPKI (RFC 6811, section 2).
    RpkiInvalid,
}
