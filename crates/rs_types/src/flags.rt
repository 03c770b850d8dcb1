//! The flags of a path attribute (RFC 4271, section 4.3).
//!
//! The low four bits are ignored, as the standard asks.

ghost use Rattle.std.specs.Prelude.{◌≡◌};
ghost use Rattle.rs_types.specs.AttributeType.{is_optional, is_transitive, is_partial, is_extended};

// Not every speaker needs to recognize the attribute.
const OPTIONAL: u8 = 0x80;

// The attribute is passed on.
const TRANSITIVE: u8 = 0x40;

// A speaker on the way didn't recognize the attribute.
const PARTIAL: u8 = 0x20;

// The length of the value takes two octets.
const EXTENDED_LENGTH: u8 = 0x10;

/// The flags of an attribute, as the octet that was received.
#[derive(Clone, Copy)]
pub struct Flags {
    /// The octet.
    pub octet: u8,
}

impl Flags {
    /// Whether the Optional bit is set.
    pub fn is_optional(self) -> bool
        ensures { result ≡ is_optional self.octet }
    {
        self.octet & OPTIONAL != 0
    }

    /// Whether the Transitive bit is set.
    pub fn is_transitive(self) -> bool
        ensures { result ≡ is_transitive self.octet }
    {
        self.octet & TRANSITIVE != 0
    }

    /// Whether the Partial bit is set.
    pub fn is_partial(self) -> bool
        ensures { result ≡ is_partial self.octet }
    {
        self.octet & PARTIAL != 0
    }

    /// Whether the Extended Length bit is set.
    pub fn is_extended(self) -> bool
        ensures { result ≡ is_extended self.octet }
    {
        self.octet & EXTENDED_LENGTH != 0
    }
}
