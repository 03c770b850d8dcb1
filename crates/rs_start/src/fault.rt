//! Why a table isn't read, and why the beginning of a session isn't written.

ghost use Rattle.std.specs.Prelude.{◌≡◌};
ghost use Rattle.rs_start.specs.declared.fault.RoutesFault.TheVariants.{Table};
ghost use Rattle.rs_start.specs.declared.fault.StartFault.TheVariants.{Memory};

use std::alloc::{AllocError, AllocFailed};
use thiserror::Error;

/// Why the beginning of a session wasn't written whole.
#[derive(Clone, Copy, Debug, PartialEq, Eq, Drop, Error)]
pub enum StartFault {
    /// A write failed: it answered an error, or took nothing.
    #[error("the session could not be written")]
    Write,
    /// Memory was refused.
    #[error("out of memory")]
    Memory,
}

impl From<AllocError> for StartFault {
    ghost from_gives = { λ _ e. e ≡ Memory };

    fn from(_refused: AllocError) -> StartFault {
        StartFault::Memory
    }
}

/// What is wrong with the octets of a table (RFC 6396, sections 2 and 4.3).
#[derive(Clone, Copy, Debug, PartialEq, Eq, Drop, Error)]
pub enum Broken {
    /// The file ends in the header of a record.
    #[error("the file ends in the header of a record")]
    HeaderCutShort,
    /// The file ends in the body of a record.
    #[error("the file ends in the body of a record")]
    BodyCutShort,
    /// A record has more than 16,777,216 octets (our choice).
    #[error("the record has more than 16777216 octets")]
    RecordTooLong,
    /// Routes stand before the index, or the file ends without one.
    #[error("no PEER_INDEX_TABLE stands before it")]
    NoIndex,
    /// An index stands behind another one, and the table before it can't be known as the last one.
    #[error("a second PEER_INDEX_TABLE: of a pipe one table is read")]
    SecondIndex,
    /// An index ends before its fields or peer entries do.
    #[error("the PEER_INDEX_TABLE ends before its peer entries do")]
    IndexCutShort,
    /// Octets stand behind the last peer entry of an index.
    #[error("octets stand behind the last peer entry of the PEER_INDEX_TABLE")]
    IndexTooLong,
    /// A record of routes ends before its fields or entries do.
    #[error("an entry reaches past the end of its record")]
    RibCutShort,
    /// Octets stand behind the last entry of a record of routes.
    #[error("octets stand behind the last entry of the record")]
    RibTooLong,
    /// A prefix has more than 32 bits.
    #[error("the prefix has more than 32 bits")]
    PrefixTooLong,
}

/// Why a table isn't read to its end.
#[derive(Clone, Copy, Debug, PartialEq, Eq, Drop, Error)]
pub enum TableFault {
    /// Memory was refused.
    #[error("out of memory")]
    Memory,
    /// A read failed.
    #[error("the table could not be read")]
    Read,
    /// The octets are at fault.
    #[error("octet {at}: {what}")]
    Broken {
        /// How many octets of the file stand before the place of the fault.
        at: u64,
        /// What is wrong.
        what: Broken,
    },
}

impl From<AllocError> for TableFault {
    fn from(_refused: AllocError) -> TableFault {
        TableFault::Memory
    }
}

impl<T: Drop> From<AllocFailed<T>> for TableFault {
    fn from(_refused: AllocFailed<T>) -> TableFault {
        TableFault::Memory
    }
}

// Why a part of a record isn't read.
#[derive(Clone, Copy, Debug, PartialEq, Eq, Drop)]
pub(crate) enum PartFault {
    Memory,
    // What is wrong, and how many octets of the part stand before it.
    Broken(Broken, usize),
}

impl PartFault {
    pub(crate) fn at(what: Broken, place: usize) -> PartFault {
        PartFault::Broken(what, place)
    }

    // The same, of a part that stands behind so many octets.
    pub(crate) fn behind(self, count: usize) -> PartFault {
        match self {
            PartFault::Memory => PartFault::Memory,
            PartFault::Broken(what, place) => PartFault::Broken(what, place.saturating_add(count)),
        }
    }

    // The same, of a record whose body begins at this octet of a file.
    pub(crate) fn in_file(self, begins: u64) -> TableFault {
        match self {
            PartFault::Memory => TableFault::Memory,
            PartFault::Broken(what, place) => TableFault::Broken {
                at: begins.saturating_add(place as u64),
                what,
            },
        }
    }
}

impl From<AllocError> for PartFault {
    fn from(_refused: AllocError) -> PartFault {
        PartFault::Memory
    }
}

impl<T: Drop> From<AllocFailed<T>> for PartFault {
    fn from(_refused: AllocFailed<T>) -> PartFault {
        PartFault::Memory
    }
}

/// Why the sessions that a table begins are not written.
#[derive(Clone, Copy, Debug, PartialEq, Eq, Drop, Error)]
pub enum RoutesFault {
    /// The table isn't read to its end.
    #[error("{0}")]
    Table(TableFault),
    /// Memory was refused.
    #[error("out of memory")]
    Memory,
    /// The session of the peer at this place of the index could not be written.
    #[error("the session of peer {0} could not be written")]
    Write(usize),
}

impl From<TableFault> for RoutesFault {
    ghost from_gives = { λ fault e. e ≡ Table fault };

    fn from(fault: TableFault) -> RoutesFault {
        RoutesFault::Table(fault)
    }
}
