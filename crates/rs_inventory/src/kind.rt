//! What kind of record it is (RFC 6396, sections 4.3 and 4.4; RFC 8050, section 3).
//!
//! Our choices: each record is of one kind. A route server reads the records of sessions with four-octet AS numbers and
//! IPv4 peers. What such a record says decides its kind. Type, Subtype and Address Family, in this order, decide the
//! kind of any other record.

ghost use Rattle.std.specs.Prelude.{◌≡◌, ◌<◌, Some, slice_get};
ghost use Rattle.std.specs.Option.{option_map};
ghost use Rattle.rs_mrt.specs.Record.{record_of};
ghost use Rattle.rs_inventory.specs.Kind.{fields_of, is_ipv6, kind_name, place_of, session_kind, unread_kind};

use byteorder::{BigEndian, ByteOrder};
use rs_mrt::{BGP4MP, BGP4MP_ET, MESSAGE_AS4, MICROSECONDS_LEN, Record, STATE_CHANGE_AS4};

/// What kind of record it is.
#[derive(Clone, Copy, Debug, PartialEq, Eq)]
pub enum Kind {
    /// An UPDATE without fault (RFC 4271, section 4.3).
    Update,
    /// An OPEN (RFC 4271, section 4.2).
    Open,
    /// A NOTIFICATION (RFC 4271, section 4.5).
    Notification,
    /// A KEEPALIVE (RFC 4271, section 4.4).
    KeepAlive,
    /// A ROUTE-REFRESH (RFC 2918).
    RouteRefresh,
    /// A message with a fault (RFC 4271, section 6).
    Faulty,
    /// A change of state (RFC 6396, section 4.4.4).
    StateChange,
    /// A message or a change of state of a session with two-octet AS numbers (RFC 6396, sections 4.4.1 and 4.4.2).
    TwoOctet,
    /// A message of a session with ADD-PATH (RFC 8050, section 3).
    AddPath,
    /// A message or a change of state of an IPv6 peer (RFC 6396, sections 4.4.3 and 4.4.4).
    Ipv6,
    /// A table, not a session (RFC 6396, section 4.3).
    TableDumpV2,
    /// A record of a session that is shorter than its fields.
    CutShort,
    /// Any other record.
    Other,
}

/// How many kinds there are.
pub(crate) const KINDS: usize = 13;

// The Type of TABLE_DUMP_V2 (RFC 6396, section 4.3).
const TABLE_DUMP_V2: u16 = 13;

// The Subtypes with AS numbers of two octets (RFC 6396, sections 4.4.1 and 4.4.2).
const STATE_CHANGE: u16 = 0;

/// The Subtype of a BGP message, with AS numbers of two octets (RFC 6396, section 4.4.2).
pub(crate) const MESSAGE: u16 = 1;

// The first and the last Subtype with ADD-PATH (RFC 8050, section 3).
const FIRST_ADD_PATH: u16 = 8;

const LAST_ADD_PATH: u16 = 11;

// The Address Family of IPv6, and where it stands in the fields of a session with four-octet AS numbers.
const AFI_IPV6: u16 = 2;

const FAMILY_AT: usize = 10;

const FAMILY_END: usize = 12;

impl Kind {
    /// All kinds, in the order in which they are listed.
    pub fn all() -> [Kind; KINDS]
        // Each kind stands at its place, so that none misses.
        ensures { (kind : Kind) → slice_get result (place_of kind) ≡ Some kind }
    {
        [
            Kind::Update,
            Kind::Open,
            Kind::Notification,
            Kind::KeepAlive,
            Kind::RouteRefresh,
            Kind::Faulty,
            Kind::StateChange,
            Kind::TwoOctet,
            Kind::AddPath,
            Kind::Ipv6,
            Kind::TableDumpV2,
            Kind::CutShort,
            Kind::Other,
        ]
    }

    /// The kind's name in lists for people.
    pub fn name(self) -> &'static str
        ensures { result.now ≡ kind_name self }
    {
        match self {
            Kind::Update => "UPDATE",
            Kind::Open => "OPEN",
            Kind::Notification => "NOTIFICATION",
            Kind::KeepAlive => "KEEPALIVE",
            Kind::RouteRefresh => "ROUTE-REFRESH",
            Kind::Faulty => "messages with a fault",
            Kind::StateChange => "changes of state",
            Kind::TwoOctet => "not read: two-octet AS numbers",
            Kind::AddPath => "not read: ADD-PATH",
            Kind::Ipv6 => "not read: IPv6 peers",
            Kind::TableDumpV2 => "not read: TABLE_DUMP_V2",
            Kind::CutShort => "shorter than their fields",
            Kind::Other => "not read: others",
        }
    }

    /// The kind's place among all, from 0.
    pub(crate) fn place(self) -> usize
        ensures value { result ≡ place_of self }
        ensures bound { result < KINDS }
    {
        self as usize
    }

    /// The kind of a record that a route server doesn't read: by its Type, Subtype and Address Family.
    #[tactic(auto, unfolding(crate::specs::Kind::unread_kind))]
    pub(crate) fn of_unread(record: &Record<'_>) -> Kind
        ensures { result ≡ unread_kind (record_of «record».now) }
    {
        if record.kind == TABLE_DUMP_V2 {
            return Kind::TableDumpV2;
        }
        match session_fields(record) {
            Some(fields) => Kind::of_session(record.subtype, fields),
            None => Kind::Other,
        }
    }

    // The kind of a record of a session that a route server doesn't read.
    fn of_session(subtype: u16, fields: &[u8]) -> Kind
        ensures { result ≡ session_kind subtype (Some fields.now) }
    {
        if subtype == STATE_CHANGE || subtype == MESSAGE {
            return Kind::TwoOctet;
        }
        if FIRST_ADD_PATH <= subtype && subtype <= LAST_ADD_PATH {
            return Kind::AddPath;
        }
        if (subtype == STATE_CHANGE_AS4 || subtype == MESSAGE_AS4) && is_ipv6(fields) {
            return Kind::Ipv6;
        }
        Kind::Other
    }
}

/// The fields of a record of a session, behind the microseconds; none if the record is of another Type, or shorter
/// than these.
pub(crate) fn session_fields<'a>(record: &Record<'a>) -> Option<&'a [u8]>
    ensures { option_map (λ fields. fields.now) result ≡ fields_of (record_of «record».now) }
{
    match record.kind {
        BGP4MP => Some(record.body),
        BGP4MP_ET => {
            if record.body.len() < MICROSECONDS_LEN {
                return None;
            }
            Some(&record.body[MICROSECONDS_LEN..])
        }
        _ => None,
    }
}

// Whether the Address Family of a session with four-octet AS numbers is IPv6.
fn is_ipv6(fields: &[u8]) -> bool
    ensures { result ≡ is_ipv6 fields.now }
{
    fields.len() >= FAMILY_END && BigEndian::read_u16(&fields[FAMILY_AT..]) == AFI_IPV6
}
