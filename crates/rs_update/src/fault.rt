//! The faults of a message, as a NOTIFICATION names them (RFC 4271, sections 4.5, 6.1 and 6.3).

ghost use Rattle.std.specs.Prelude.{◌≡◌};
ghost use Rattle.rs_update.specs.declared.fault.MessageFault.TheVariants.{Memory};
ghost use Rattle.rs_update.specs.Fault.{header_subcode, update_subcode, of_header, of_update};

use rs_types::UpdateFault;
use std::alloc::{AllocError, AllocFailed};
use thiserror::Error;

/// What is wrong with the header of a message: error code 1, Message Header Error (RFC 4271, section 6.1).
#[derive(Clone, Copy, Debug, PartialEq, Eq, Error)]
pub enum HeaderFault {
    /// Connection Not Synchronized: an octet of the Marker isn't all ones. Subcode 1.
    #[error("Connection Not Synchronized")]
    NotSynchronized,
    /// Bad Message Length. Subcode 2.
    #[error("Bad Message Length")]
    BadLength,
    /// Bad Message Type. Subcode 3.
    #[error("Bad Message Type")]
    BadType,
}

/// Why a message could not be read.
#[derive(Clone, Copy, Debug, PartialEq, Eq, Error)]
pub enum MessageFault {
    /// The first fault of the message, as the code and subcode of a NOTIFICATION (RFC 4271, section 4.5).
    #[error("BGP error {code}/{subcode}")]
    Bgp {
        /// The error code: 1 for the header, 3 for an UPDATE.
        code: u8,
        /// The error subcode.
        subcode: u8,
    },
    /// Memory was refused. It says nothing of the message.
    #[error("out of memory")]
    Memory,
}

/// The error code of a fault of the header.
const HEADER_ERROR: u8 = 1;

/// The error code of a fault of an UPDATE.
const UPDATE_ERROR: u8 = 3;

impl HeaderFault {
    // The error subcode.
    fn subcode(self) -> u8
        ensures { result ≡ header_subcode self }
    {
        match self {
            HeaderFault::NotSynchronized => 1,
            HeaderFault::BadLength => 2,
            HeaderFault::BadType => 3,
        }
    }
}

// The error subcode of a fault of an UPDATE.
fn subcode_of(fault: UpdateFault) -> u8
    ensures { result ≡ update_subcode fault }
{
    match fault {
        UpdateFault::MalformedAttributeList => 1,
        UpdateFault::UnrecognizedWellKnown => 2,
        UpdateFault::MissingWellKnown => 3,
        UpdateFault::AttributeFlags => 4,
        UpdateFault::AttributeLength => 5,
        UpdateFault::InvalidOrigin => 6,
        UpdateFault::InvalidNextHop => 8,
        UpdateFault::InvalidNetworkField => 10,
        UpdateFault::MalformedAsPath => 11,
    }
}

impl From<HeaderFault> for MessageFault {
    ghost from_gives = { λ fault given. given ≡ of_header fault };

    fn from(fault: HeaderFault) -> MessageFault {
        MessageFault::Bgp {
            code: HEADER_ERROR,
            subcode: fault.subcode(),
        }
    }
}

impl From<UpdateFault> for MessageFault {
    ghost from_gives = { λ fault given. given ≡ of_update fault };

    fn from(fault: UpdateFault) -> MessageFault {
        MessageFault::Bgp {
            code: UPDATE_ERROR,
            subcode: subcode_of(fault),
        }
    }
}

impl From<AllocError> for MessageFault {
    ghost from_gives = { λ _ fault. fault ≡ Memory };

    fn from(_refused: AllocError) -> MessageFault {
        MessageFault::Memory
    }
}

impl<T: Drop> From<AllocFailed<T>> for MessageFault {
    ghost from_gives = { λ _ fault. fault ≡ Memory };

    fn from(_refused: AllocFailed<T>) -> MessageFault {
        MessageFault::Memory
    }
}
