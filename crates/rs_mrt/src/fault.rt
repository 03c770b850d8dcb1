//! What can be wrong with recorded octets, and with a source of records.

ghost use Rattle.std.specs.Prelude.{◌≡◌};
ghost use Rattle.rs_mrt.specs.Fault.{number_of};
ghost use Rattle.rs_mrt.specs.declared.fault.SourceFault.TheVariants.{Read};

use crate::stream::Failed;
use thiserror::Error;

/// What is wrong with the octets of a file or of a record.
#[derive(Clone, Copy, Debug, PartialEq, Eq, Drop, Error)]
pub enum MrtFault {
    /// The file ends in the header of a record: 1 to 11 octets are left (RFC 6396, section 2).
    #[error("the file ends in the header of a record")]
    HeaderCutShort,
    /// The file ends in the body of a record: fewer octets than its Length are left (RFC 6396, section 2).
    #[error("the file ends in the body of a record")]
    BodyCutShort,
    /// The body of a BGP4MP record is shorter than its fields (RFC 6396, sections 4.4.3 and 4.4.4).
    #[error("a BGP4MP record is shorter than its fields")]
    FieldsCutShort,
    /// The body of a BGP4MP_ET record is shorter than its Microsecond Timestamp (RFC 6396, section 3).
    #[error("a BGP4MP_ET record is shorter than its Microsecond Timestamp")]
    MicrosecondsCutShort,
}

impl MrtFault {
    /// Gives the fault's number, 1 to 4, in the order in which the faults stand above (our choice).
    pub fn number(&self) -> u8
        ensures { result ≡ number_of self.now }
    {
        match self {
            MrtFault::HeaderCutShort => 1,
            MrtFault::BodyCutShort => 2,
            MrtFault::FieldsCutShort => 3,
            MrtFault::MicrosecondsCutShort => 4,
        }
    }
}

/// Why a source stopped before the end of its records.
#[derive(Clone, Copy, Debug, PartialEq, Eq, Drop, Error)]
pub enum SourceFault {
    /// The octets that it read are at fault.
    #[error(transparent)]
    Mrt(MrtFault),
    /// A read failed, or the source takes no more octets.
    #[error("records could not be read")]
    Read,
}

impl From<Failed> for SourceFault {
    ghost from_gives = { λ _ fault. fault ≡ Read };

    fn from(_failed: Failed) -> SourceFault {
        SourceFault::Read
    }
}
