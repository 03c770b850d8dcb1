//! What can be wrong with an UPDATE, as a NOTIFICATION names it (RFC 4271, section 6.3).

use thiserror::Error;

/// What is wrong with an UPDATE: error code 3, UPDATE Message Error (RFC 4271, section 6.3).
#[derive(Clone, Copy, Debug, PartialEq, Eq, Error)]
pub enum UpdateFault {
    /// Malformed Attribute List: lengths that pass the message, an attribute that passes the section, or a repeated
    /// type. Subcode 1.
    #[error("Malformed Attribute List")]
    MalformedAttributeList,
    /// Unrecognized Well-known Attribute. Subcode 2.
    #[error("Unrecognized Well-known Attribute")]
    UnrecognizedWellKnown,
    /// Missing Well-known Attribute: ORIGIN, AS_PATH or NEXT_HOP. Subcode 3.
    #[error("Missing Well-known Attribute")]
    MissingWellKnown,
    /// Attribute Flags Error: the Optional or the Transitive bit isn't the type's. Subcode 4.
    #[error("Attribute Flags Error")]
    AttributeFlags,
    /// Attribute Length Error. Subcode 5.
    #[error("Attribute Length Error")]
    AttributeLength,
    /// Invalid ORIGIN Attribute. Subcode 6.
    #[error("Invalid ORIGIN Attribute")]
    InvalidOrigin,
    /// Invalid NEXT_HOP Attribute. Subcode 8.
    #[error("Invalid NEXT_HOP Attribute")]
    InvalidNextHop,
    /// Invalid Network Field: withdrawn routes or NLRI that aren't prefixes. Subcode 10.
    #[error("Invalid Network Field")]
    InvalidNetworkField,
    /// Malformed AS_PATH. Subcode 11.
    #[error("Malformed AS_PATH")]
    MalformedAsPath,
}
