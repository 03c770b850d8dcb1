//! What became of an entry of a table.

/// What became of an entry of a table.
#[derive(Clone, Copy, Debug, PartialEq, Eq, Drop)]
pub enum Added {
    /// It is announced in the session.
    Written,
    /// It is left out.
    LeftOut(Reason),
}

/// Why an entry of a table is left out.
#[derive(Clone, Copy, Debug, PartialEq, Eq, Drop)]
pub enum Reason {
    /// Its prefix lies inside 224.0.0.0/4. Sessions give no change for it.
    Multicast,
    /// No message of 4,096 octets holds its path attributes beside its prefix (RFC 4271, section 4.1).
    TooLong,
    /// Its path attributes are at fault, or a mandatory one is missing (RFC 4271, section 6.3).
    AttributesAtFault,
}
