//! The header of a message: Marker, Length, Type (RFC 4271, sections 4.1 and 6.1).
//!
//! The standard leaves the order of its tests open. Ours: whether there are octets for a header, the Marker,
//! the Length, the Type, and whether the Length suits the Type.

ghost use Rattle.std.specs.Prelude.{◌≡◌, ◌≤◌, length, Ok, OnOk};
ghost use Rattle.rs_update.specs.declared.header.MessageType.TheVariants.{Update};
ghost use Rattle.rs_update.specs.Header as spec;

use crate::fault::HeaderFault;
use byteorder::{BigEndian, ByteOrder};

/// How many octets a header has.
pub const HEADER_LEN: usize = 19;

/// The most octets of a message, its header counted.
pub const MOST_OCTETS: usize = 4096;

// Where the Length stands, behind the Marker.
const LENGTH_AT: usize = 16;

// Where the Type stands.
const TYPE_AT: usize = 18;

/// The type of a message (RFC 4271, section 4.1; RFC 2918).
#[derive(Clone, Copy, Debug, PartialEq, Eq)]
pub enum MessageType {
    /// OPEN, type 1.
    Open,
    /// UPDATE, type 2.
    Update,
    /// NOTIFICATION, type 3.
    Notification,
    /// KEEPALIVE, type 4.
    KeepAlive,
    /// ROUTE-REFRESH, type 5.
    Refresh,
}

impl MessageType {
    /// The type with this number, or None if no type has it.
    pub fn of(number: u8) -> Option<MessageType>
        ensures { result ≡ spec.type_of number }
    {
        match number {
            1 => Some(MessageType::Open),
            2 => Some(MessageType::Update),
            3 => Some(MessageType::Notification),
            4 => Some(MessageType::KeepAlive),
            5 => Some(MessageType::Refresh),
            _ => None,
        }
    }

    // Whether a message of this type can have so many octets.
    fn suits(self, count: usize) -> bool
        ensures { result ≡ spec.suits self count }
    {
        match self {
            MessageType::Open => count >= 29,
            MessageType::Update => count >= 23,
            MessageType::Notification => count >= 21,
            MessageType::KeepAlive => count == HEADER_LEN,
            MessageType::Refresh => count >= HEADER_LEN,
        }
    }
}

// Whether the Marker is all ones: its sixteen octets, read as one number.
fn is_marked(octets: &[u8]) -> bool
    requires { HEADER_LEN ≤ length octets.now }
    ensures { result ≡ spec.is_marked octets.now }
{
    BigEndian::read_u128(octets) == u128::MAX
}

// Whether the Length is lawful, and the number of octets that are there.
fn has_length(octets: &[u8]) -> bool
    requires { HEADER_LEN ≤ length octets.now }
    ensures { result ≡ spec.has_length octets.now }
{
    let length = usize::from(BigEndian::read_u16(&octets[LENGTH_AT..]));
    HEADER_LEN <= length && length <= MOST_OCTETS && length == octets.len()
}

/// Reads the header of a message, the octets of which are `octets`: the message's type, or the first fault of
/// the header.
pub(crate) fn read_header(octets: &[u8]) -> Result<MessageType, HeaderFault>
    ensures answer { result ≡ spec.header_of octets.now }
    ensures header { OnOk result (HEADER_LEN ≤ length octets.now) }
    ensures bound { OnOk result (length octets.now ≤ MOST_OCTETS) }
    ensures update { result ≡ Ok Update → 23 ≤ length octets.now }
{
    if octets.len() < HEADER_LEN {
        return Err(HeaderFault::BadLength);
    }
    if !is_marked(octets) {
        return Err(HeaderFault::NotSynchronized);
    }
    if !has_length(octets) {
        return Err(HeaderFault::BadLength);
    }
    let Some(kind) = MessageType::of(octets[TYPE_AT]) else {
        return Err(HeaderFault::BadType);
    };
    if !kind.suits(octets.len()) {
        return Err(HeaderFault::BadLength);
    }
    Ok(kind)
}
