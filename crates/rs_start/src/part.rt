//! Which part of a table a record is, by its Type and Subtype (RFC 6396, sections 4 and 4.3).

ghost use Rattle.std.specs.Prelude.{◌≡◌};
ghost use Rattle.rs_start.specs.TableFile.{part_by};

/// Which part of a table a record is.
#[derive(Clone, Copy, Debug, PartialEq, Eq, Drop)]
pub(crate) enum Part {
    /// The index.
    Index,
    /// The routes of an IPv4 unicast prefix.
    Routes,
    /// Neither.
    Other,
}

/// How a table ends.
#[derive(Clone, Copy, Debug, PartialEq, Eq, Drop)]
pub enum TableEnd {
    /// With the file.
    EndOfFile,
    /// Before the index of another one, the body of which begins at this octet of the file.
    NextIndex(u64),
}

// The Type of a table's records.
pub(crate) const TABLE_DUMP_V2: u16 = 13;

// The Subtypes of its index and of the routes of a prefix.
pub(crate) const PEER_INDEX_TABLE: u16 = 1;

pub(crate) const RIB_IPV4_UNICAST: u16 = 2;

/// The part that a record of this Type and Subtype is.
pub(crate) fn part_by(kind: u16, subtype: u16) -> Part
    ensures { result ≡ part_by kind subtype }
{
    if kind != TABLE_DUMP_V2 {
        return Part::Other;
    }
    if subtype == PEER_INDEX_TABLE {
        return Part::Index;
    }
    if subtype == RIB_IPV4_UNICAST {
        return Part::Routes;
    }
    Part::Other
}
