//! The types of path attributes, a row each: what an attribute must be, and what is done with it (RFC 4271,
//! sections 4.3, 5 and 6.3; RFC 1997; RFC 4760; RFC 6793; RFC 7606).

ghost use Rattle.std.specs.Prelude.{◌≡◌, if◌then◌else◌};
ghost use Rattle.rs_types.specs.AttributeType.{type_of, row, row_of, suits, admits, is_unrecognized};
ghost use Rattle.rs_types.specs.FirstFault.{first_fault};
ghost use Rattle.rs_types.specs.Section.{tests_by};

use crate::as_path::is_path;
use crate::fault::UpdateFault;
use crate::flags::Flags;
use crate::handling::Handling;
use crate::values::{is_next_hop, is_origin};

/// ORIGIN by its number.
pub const ORIGIN: u8 = 1;

/// AS_PATH by its number.
pub const AS_PATH: u8 = 2;

/// NEXT_HOP by its number.
pub const NEXT_HOP: u8 = 3;

// The numbers of the others that are asked for by themselves.
pub(crate) const MULTI_EXIT_DISC: u8 = 4;

pub(crate) const ATOMIC_AGGREGATE: u8 = 6;

pub(crate) const AGGREGATOR: u8 = 7;

pub(crate) const COMMUNITIES: u8 = 8;

/// The type of a path attribute.
#[derive(Clone, Copy)]
pub enum AttributeType {
    /// ORIGIN, type 1.
    Origin,
    /// AS_PATH, type 2.
    AsPath,
    /// NEXT_HOP, type 3.
    NextHop,
    /// MULTI_EXIT_DISC, type 4.
    MultiExitDisc,
    /// LOCAL_PREF, type 5: ignored from an external peer.
    LocalPref,
    /// ATOMIC_AGGREGATE, type 6.
    AtomicAggregate,
    /// AGGREGATOR, type 7.
    Aggregator,
    /// COMMUNITIES, type 8 (RFC 1997).
    Communities,
    /// MP_REACH_NLRI, type 14 (RFC 4760): dropped.
    MpReachNlri,
    /// MP_UNREACH_NLRI, type 15 (RFC 4760): dropped.
    MpUnreachNlri,
    /// AS4_PATH, type 17 (RFC 6793): dropped.
    As4Path,
    /// AS4_AGGREGATOR, type 18 (RFC 6793): dropped.
    As4Aggregator,
    /// Any other type.
    Unrecognized,
}

/// What the flags of an attribute must be, and so whether a route keeps it. The first three are kept, and written
/// with these flags. `Optional` is passed on if it is transitive. `Any` is dropped.
#[derive(Clone, Copy)]
pub enum WantedFlags {
    /// Well-known: Optional 0, Transitive 1.
    WellKnown,
    /// Optional 1, Transitive 0.
    OptionalNonTransitive,
    /// Optional 1, Transitive 1.
    OptionalTransitive,
    /// Optional 1, and Transitive of either value.
    Optional,
    /// Not looked at.
    Any,
}

/// How many octets a value may have.
#[derive(Clone, Copy)]
pub enum Lengths {
    /// Just so many.
    Exactly(usize),
    /// Some numbers of four octets.
    Fours,
    /// Not looked at.
    AnyLength,
}

/// What a value of such a length must be.
#[derive(Clone, Copy)]
pub enum ValueTest {
    /// The code of an origin.
    OriginCode,
    /// Segments, and nothing left over.
    Segments,
    /// The address of a host.
    HostAddress,
    /// Not looked at.
    AnyValue,
}

/// A row of the table of types: what an attribute of a type must be, and what is done with it.
#[derive(Clone, Copy)]
pub struct Row {
    /// What its flags must say.
    pub flags: WantedFlags,
    /// How many octets its value may have.
    pub lengths: Lengths,
    /// What its value must be.
    pub value: ValueTest,
    /// How RFC 7606 handles a wrong length (section 7).
    pub at_length: Handling,
    /// How RFC 7606 handles an attribute whose type stood earlier (section 3, g).
    pub again: Handling,
}

// How attributes are handled by RFC 7606.
const TREAT: Handling = Handling::TreatAsWithdraw;

const DISCARD: Handling = Handling::AttributeDiscard;

const RESET: Handling = Handling::SessionReset(UpdateFault::MalformedAttributeList);

// A row by its columns: flags, lengths, value, handling of a length at fault, handling of a type that stood earlier.
fn columns(
    flags: WantedFlags,
    lengths: Lengths,
    value: ValueTest,
    at_length: Handling,
    again: Handling,
) -> Row
    ensures { result ≡ row flags lengths value at_length again }
{
    Row {
        flags,
        lengths,
        value,
        at_length,
        again,
    }
}

impl AttributeType {
    /// The type with this number.
    pub fn of(number: u8) -> AttributeType
        ensures { result ≡ type_of number }
    {
        match number {
            1 => AttributeType::Origin,
            2 => AttributeType::AsPath,
            3 => AttributeType::NextHop,
            4 => AttributeType::MultiExitDisc,
            5 => AttributeType::LocalPref,
            6 => AttributeType::AtomicAggregate,
            7 => AttributeType::Aggregator,
            8 => AttributeType::Communities,
            14 => AttributeType::MpReachNlri,
            15 => AttributeType::MpUnreachNlri,
            17 => AttributeType::As4Path,
            18 => AttributeType::As4Aggregator,
            _ => AttributeType::Unrecognized,
        }
    }

    /// The row of the type: whoever adds a type adds one here.
    pub fn row(self) -> Row
        ensures { result ≡ row_of self }
    {
        use Lengths::{AnyLength, Exactly, Fours};
        use ValueTest::{AnyValue, HostAddress, OriginCode, Segments};
        use WantedFlags::{Any, Optional, OptionalNonTransitive, OptionalTransitive, WellKnown};
        match self {
            Self::Origin => columns(WellKnown, Exactly(1), OriginCode, TREAT, DISCARD),
            Self::AsPath => columns(WellKnown, AnyLength, Segments, TREAT, DISCARD),
            Self::NextHop => columns(WellKnown, Exactly(4), HostAddress, TREAT, DISCARD),
            Self::MultiExitDisc => columns(
                OptionalNonTransitive,
                Exactly(4),
                AnyValue,
                TREAT,
                DISCARD,
            ),
            Self::LocalPref => columns(Any, AnyLength, AnyValue, TREAT, DISCARD),
            Self::AtomicAggregate => columns(WellKnown, Exactly(0), AnyValue, DISCARD, DISCARD),
            Self::Aggregator => columns(OptionalTransitive, Exactly(8), AnyValue, DISCARD, DISCARD),
            Self::Communities => columns(OptionalTransitive, Fours, AnyValue, TREAT, DISCARD),
            Self::MpReachNlri => columns(Any, AnyLength, AnyValue, TREAT, RESET),
            Self::MpUnreachNlri => columns(Any, AnyLength, AnyValue, TREAT, RESET),
            Self::As4Path => columns(Any, AnyLength, AnyValue, TREAT, DISCARD),
            Self::As4Aggregator => columns(Any, AnyLength, AnyValue, TREAT, DISCARD),
            Self::Unrecognized => columns(Optional, AnyLength, AnyValue, TREAT, DISCARD),
        }
    }

    /// Whether no row names the type.
    pub fn is_unrecognized(self) -> bool
        ensures { result ≡ is_unrecognized self }
    {
        matches!(self, AttributeType::Unrecognized)
    }
}

impl Lengths {
    /// Whether a value may have `count` octets.
    pub fn admit(self, count: usize) -> bool
        ensures { result ≡ admits self count }
    {
        match self {
            Lengths::Exactly(wanted) => count == wanted,
            Lengths::Fours => count != 0 && count % 4 == 0,
            Lengths::AnyLength => true,
        }
    }
}

impl ValueTest {
    /// What is wrong with a value, the length of which suits its type.
    pub fn fault(self, value: &[u8]) -> Option<UpdateFault>
        ensures { result ≡ first_fault (tests_by self value.now) }
    {
        match self {
            ValueTest::OriginCode => unless(is_origin(value), UpdateFault::InvalidOrigin),
            ValueTest::Segments => unless(is_path(value), UpdateFault::MalformedAsPath),
            ValueTest::HostAddress => unless(is_next_hop(value), UpdateFault::InvalidNextHop),
            ValueTest::AnyValue => None,
        }
    }
}

impl WantedFlags {
    /// Whether the Optional and the Transitive bit are as wanted. The Partial bit is never looked at.
    pub fn suits(self, flags: Flags) -> bool
        ensures { result ≡ suits self flags.octet }
    {
        match self {
            WantedFlags::WellKnown => !flags.is_optional() && flags.is_transitive(),
            WantedFlags::OptionalNonTransitive => flags.is_optional() && !flags.is_transitive(),
            WantedFlags::OptionalTransitive => flags.is_optional() && flags.is_transitive(),
            WantedFlags::Optional => flags.is_optional(),
            WantedFlags::Any => true,
        }
    }
}

// A fault, unless a test holds.
fn unless(holds: bool, fault: UpdateFault) -> Option<UpdateFault>
    ensures { result ≡ (if holds then None else Some fault) }
{
    if holds { None } else { Some(fault) }
}
