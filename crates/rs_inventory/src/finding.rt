//! What one record adds to an inventory.

ghost use Rattle.std.specs.Prelude.{◌≡◌, ◌≤◌, length, IfOk, IsTrue, Some};
ghost use Rattle.rs_mrt.specs.Record.{record_of};
ghost use Rattle.rs_update.specs.Message.{message_of};
ghost use Rattle.rs_inventory.specs.Finding.{finding_of, hold_behind, hold_of, is_ipv4_message, is_peer, kind_at};
ghost use Rattle.rs_inventory.specs.Finding.{kind_of_message, kind_of_type, known_octets, news_at, news_of_kind};
ghost use Rattle.rs_inventory.specs.Finding.{news_of_message, news_of_states, note_of, opener_of};
ghost use Rattle.rs_inventory.specs.Finding.{recorder_in, two_octet_hold, two_octet_note, two_octet_open, type_in};
ghost use Rattle.rs_inventory.specs.Kind.{fields_of};
ghost use Rattle.rs_inventory.specs.Opening.{sender_as};
ghost use Rattle.rs_inventory.specs.declared.finding.News.TheVariants as news;

use crate::depth::Depth;
use crate::kind::{Kind, MESSAGE, session_fields};
use crate::opening::{four_octet_as, hold_time, identifier};
use byteorder::{BigEndian, ByteOrder};
use rs_mrt::{AFI_IPV4, ESTABLISHED, Entry, FRONT_LEN, HEADER_LEN, Record, entry};
use rs_types::PeerId;
use rs_update::{Message, MessageFault, Update, read_message};
use std::alloc::{AllocError, Global};

/// What one record adds to an inventory.
#[derive(Clone, Copy, Debug, PartialEq, Eq)]
pub(crate) struct Finding {
    /// The record's Timestamp, in seconds since 1970.
    pub time: u32,
    /// What kind of record it is.
    pub kind: Kind,
    /// How many octets it has, its header counted; none if it is longer than any of a session, so that not all are
    /// there.
    pub octets: Option<u64>,
    /// Who recorded it, if it is a message of a session with four-octet AS numbers.
    pub recorder: Option<PeerId>,
    /// The Hold Time of an OPEN, in seconds; 0 if it is none.
    pub hold: u32,
    /// What it says of a peer.
    pub note: Option<Note>,
}

/// What a record says of a peer.
#[derive(Clone, Copy, Debug, PartialEq, Eq)]
pub struct Note {
    /// Of whom.
    pub peer: PeerId,
    /// What.
    pub news: News,
}

/// What a record can say of a peer.
#[derive(Clone, Copy, Debug, PartialEq, Eq)]
pub enum News {
    /// It sent an UPDATE that lists so many prefixes.
    Update {
        /// As routes that it announces.
        announced: u64,
        /// As routes that it withdraws.
        withdrawn: u64,
    },
    /// It sent an OPEN with this BGP Identifier.
    Open(u32),
    /// It sent a NOTIFICATION.
    Notification,
    /// It sent a KEEPALIVE or a ROUTE-REFRESH.
    Message,
    /// It sent a message with a fault.
    Faulty,
    /// Its session came up.
    Up,
    /// Its session went down.
    Down,
    /// Its session went from one state to another, neither of which is Established, or both.
    State,
    /// It sent an OPEN with this BGP Identifier, in a record of a session with two-octet AS numbers.
    TwoOctetOpen(u32),
}

// The AS number that stands for one that two octets can't hold (RFC 6793, section 9).
const AS_TRANS: u16 = 23456;

// Where the Local AS and the Local IP Address of BGP4MP_MESSAGE_AS4 begin, and its message (RFC 6396, section 4.4.3).
const LOCAL_AS_AT: usize = 4;

const LOCAL_AT: usize = 16;

const AS4_MESSAGE_AT: usize = 20;

// Where the type of a message stands, behind its Marker and Length (RFC 4271, section 4.1).
const TYPE_AT: usize = 18;

// Where the fields of BGP4MP_MESSAGE begin (RFC 6396, section 4.4.2).
const FAMILY_AT: usize = 6;

const PEER_AT: usize = 8;

const MESSAGE_AT: usize = 16;

impl Finding {
    /// What a record adds, if messages are read so deep. If memory is refused, nothing is known of the record.
    pub(crate) fn of(
        alloc: Global,
        record: &Record<'_>,
        depth: Depth,
    ) -> Result<Finding, AllocError>
        ensures { IfOk result (λ finding. finding ≡ finding_of depth (record_of «record».now)) }
    {
        let nothing = Finding {
            time: record.time,
            kind: Kind::CutShort,
            octets: octets_of(record),
            recorder: None,
            hold: 0,
            note: None,
        };
        match entry(record) {
            Ok(
                Entry::Message {
                    peer_as,
                    peer,
                    message,
                },
            ) => {
                let (kind, news) = news_at(alloc, message, depth)?;
                Ok(Finding {
                    kind,
                    recorder: recorder(record),
                    hold: hold_of(message),
                    note: Some(Note::of(peer, peer_as, news)),
                    ..nothing
                })
            }
            Ok(
                Entry::State {
                    peer_as,
                    peer,
                    old,
                    new,
                },
            ) => Ok(Finding {
                kind: Kind::StateChange,
                note: Some(Note::of(peer, peer_as, state_news(old, new))),
                ..nothing
            }),
            Ok(Entry::Other) => Ok(Finding {
                kind: Kind::of_unread(record),
                hold: two_octet_hold(record),
                note: two_octet_note(record),
                ..nothing
            }),
            Err(_) => Ok(nothing),
        }
    }
}

impl Note {
    // News of a peer.
    pub(crate) fn of(address: u32, asn: u32, news: News) -> Note
        ensures { result ≡ note_of address asn news }
    {
        Note {
            peer: PeerId { address, asn },
            news,
        }
    }
}

// How many octets a record has; none if it may be that not all are there.
fn octets_of(record: &Record<'_>) -> Option<u64>
    ensures { result ≡ known_octets «record».now.body.now }
{
    if record.body.len() < FRONT_LEN {
        Some((HEADER_LEN + record.body.len()) as u64)
    } else {
        None
    }
}

/// Who recorded a session with four-octet AS numbers: the Local IP Address and the Local AS of its record (RFC 6396,
/// sections 4.4.3 and 4.4.4). None if the record is of no session or is shorter than these fields.
pub fn recorder(record: &Record<'_>) -> Option<PeerId>
    ensures { result ≡ recorder_in (fields_of (record_of «record».now)) }
{
    let fields = session_fields(record)?;
    if fields.len() < AS4_MESSAGE_AT {
        return None;
    }
    Some(PeerId {
        address: BigEndian::read_u32(&fields[LOCAL_AT..]),
        asn: BigEndian::read_u32(&fields[LOCAL_AS_AT..]),
    })
}

// Whether two peers are equal.
pub(crate) fn is_peer(one: PeerId, other: PeerId) -> bool
    ensures { result ≡ is_peer one other }
{
    one.address == other.address && one.asn == other.asn
}

// What a message is, and what it says of its sender, if it is read so deep.
fn news_at(alloc: Global, octets: &[u8], depth: Depth) -> Result<(Kind, News), AllocError>
    ensures kind { IfOk result (λ (kind, news). kind ≡ kind_at depth octets.now) }
    ensures news { IfOk result (λ (kind, news). news ≡ news_at depth octets.now) }
{
    match depth {
        Depth::Whole => message_news(alloc, octets),
        Depth::Outline => {
            let kind = kind_of_type(octets);
            Ok((kind, news_of_kind(octets, kind)))
        }
    }
}

// What a message is by its type alone.
pub(crate) fn kind_of_type(octets: &[u8]) -> Kind
    ensures { result ≡ kind_of_type (type_in octets.now) }
{
    match octets.get(TYPE_AT).copied() {
        Some(1) => Kind::Open,
        Some(2) => Kind::Update,
        Some(3) => Kind::Notification,
        Some(4) => Kind::KeepAlive,
        Some(5) => Kind::RouteRefresh,
        _ => Kind::Faulty,
    }
}

// The Hold Time of a message, 0 if it is no OPEN by its type.
fn hold_of(octets: &[u8]) -> u32
    ensures { result ≡ hold_of octets.now }
{
    match kind_of_type(octets) {
        Kind::Open => hold_time(octets),
        _ => 0,
    }
}

// What a message says of its sender, of which no more than its type is read.
pub(crate) fn news_of_kind(octets: &[u8], kind: Kind) -> News
    ensures { result ≡ news_of_kind octets.now kind }
{
    match kind {
        Kind::Open => News::Open(identifier(octets)),
        Kind::Update => News::Update {
            announced: 0,
            withdrawn: 0,
        },
        Kind::Notification => News::Notification,
        Kind::KeepAlive => News::Message,
        Kind::RouteRefresh => News::Message,
        _ => News::Faulty,
    }
}

// What a message is, and what it says of its sender.
fn message_news(alloc: Global, octets: &[u8]) -> Result<(Kind, News), AllocError>
    ensures kind { IfOk result (λ (kind, news). kind ≡ kind_of_message (message_of octets.now)) }
    ensures news { IfOk result (λ (kind, news). news ≡ news_of_message octets.now (message_of octets.now)) }
{
    match read_message(alloc, octets) {
        Ok(Message::Open) => Ok((Kind::Open, News::Open(identifier(octets)))),
        Ok(Message::Update(update)) => Ok((Kind::Update, update_news(update))),
        Ok(Message::Notification) => Ok((Kind::Notification, News::Notification)),
        Ok(Message::KeepAlive) => Ok((Kind::KeepAlive, News::Message)),
        Ok(Message::Refresh) => Ok((Kind::RouteRefresh, News::Message)),
        // Only by RFC 7606 is an UPDATE treated.
        Ok(
            Message::Treated {
                withdrawn: _withdrawn,
                nlri: _nlri,
            },
        ) => Ok((Kind::Faulty, News::Faulty)),
        Err(MessageFault::Bgp { .. }) => Ok((Kind::Faulty, News::Faulty)),
        Err(MessageFault::Memory) => Err(AllocError),
    }
}

// What an UPDATE says.
fn update_news(update: Update) -> News
    ensures { result ≡ news.Update (length update.nlri.items) (length update.withdrawn.items) }
{
    News::Update {
        announced: update.nlri.len() as u64,
        withdrawn: update.withdrawn.len() as u64,
    }
}

// What a change of state says of the peer.
pub(crate) fn state_news(old: u16, new: u16) -> News
    ensures { result ≡ news_of_states old new }
{
    if new == ESTABLISHED && old != ESTABLISHED {
        News::Up
    } else if old == ESTABLISHED && new != ESTABLISHED {
        News::Down
    } else {
        News::State
    }
}

// What a record of a session with two-octet AS numbers says of a peer: only an OPEN is read, since some recorders
// write each OPEN so. However deep messages are read, it is one by its type, and so the peer's course is the same.
#[tactic(auto, unfolding(crate::specs::Finding::two_octet_note))]
pub(crate) fn two_octet_note(record: &Record<'_>) -> Option<Note>
    ensures { result ≡ two_octet_note (record_of «record».now) }
{
    if record.subtype != MESSAGE {
        return None;
    }
    match session_fields(record) {
        Some(fields) => two_octet_open(fields),
        None => None,
    }
}

// What the OPEN says that stands behind the fields of a session with two-octet AS numbers and an IPv4 peer.
fn two_octet_open(fields: &[u8]) -> Option<Note>
    ensures { result ≡ two_octet_open fields.now }
{
    if !is_ipv4_message(fields) {
        return None;
    }
    match kind_of_type(&fields[MESSAGE_AT..]) {
        Kind::Open => Some(opener(fields)),
        _ => None,
    }
}

// The Hold Time of an OPEN in a record of a session with two-octet AS numbers, 0 if it is none.
#[tactic(auto, unfolding(crate::specs::Finding::two_octet_hold))]
fn two_octet_hold(record: &Record<'_>) -> u32
    ensures { result ≡ two_octet_hold (record_of «record».now) }
{
    if record.subtype != MESSAGE {
        return 0;
    }
    match session_fields(record) {
        Some(fields) => hold_behind(fields),
        None => 0,
    }
}

// The Hold Time of the OPEN that stands behind such fields, 0 if it is none.
fn hold_behind(fields: &[u8]) -> u32
    ensures { result ≡ hold_behind (Some fields.now) }
{
    if is_ipv4_message(fields) {
        hold_of(&fields[MESSAGE_AT..])
    } else {
        0
    }
}

// Whether fields of a session with two-octet AS numbers are those of an IPv4 peer, with a message behind them.
fn is_ipv4_message(fields: &[u8]) -> bool
    ensures value { result ≡ is_ipv4_message fields.now }
    ensures bound { IsTrue result → 16 ≤ length fields.now }
{
    fields.len() >= MESSAGE_AT && BigEndian::read_u16(&fields[FAMILY_AT..]) == AFI_IPV4
}

// What an OPEN says behind the fields of a session with two-octet AS numbers.
#[tactic(auto, unfolding(crate::specs::Finding::opener_of))]
fn opener(fields: &[u8]) -> Note
    requires { 16 ≤ length fields.now }
    ensures { result ≡ opener_of fields.now }
{
    let message = &fields[MESSAGE_AT..];
    Note::of(
        BigEndian::read_u32(&fields[PEER_AT..]),
        sender_as(BigEndian::read_u16(fields), message),
        News::TwoOctetOpen(identifier(message)),
    )
}

// The AS number of the sender of an OPEN, recorded by two octets.
#[tactic(auto, unfolding(crate::specs::Opening::sender_as))]
fn sender_as(recorded: u16, octets: &[u8]) -> u32
    ensures { result ≡ sender_as recorded octets.now }
{
    if recorded != AS_TRANS {
        return u32::from(recorded);
    }
    match four_octet_as(octets) {
        Some(asn) => asn,
        None => u32::from(recorded),
    }
}
