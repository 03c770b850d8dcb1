//! Messages that a route server doesn't read: of sessions with ADD-PATH (RFC 8050, section 3) or with two-octet AS
//! numbers (RFC 6396, section 4.4.2), and IPv6 routes in UPDATEs (RFC 4760, sections 3 and 4). And UPDATEs with large
//! communities of the server (RFC 8092, section 3), of which a plan may read nothing.
//!
//! Our choices: only an UPDATE or a NOTIFICATION counts, since no other message changes a route. What the recorder sent
//! (RFC 8050, section 4) doesn't count. Large communities count only in an UPDATE that has NLRI.

use byteorder::{BigEndian, ByteOrder};
use rs_mrt::{AFI_IPV4, BGP4MP, BGP4MP_ET, MESSAGE_AS4, MICROSECONDS_LEN, Record};
use rs_types::{PeerId, split_item};
use std::alloc::{AllocError, Global};
use std::collections::BTreeMap;
use std::marker::Model;

// The Subtypes of a message with AS numbers of two octets, and of both with ADD-PATH.
const MESSAGE: u16 = 1;

const MESSAGE_ADD_PATH: u16 = 8;

const MESSAGE_AS4_ADD_PATH: u16 = 9;

// Where the Address Family, the Peer IP Address and the message stand behind AS numbers of two octets; of four octets
// they stand four octets behind.
const FAMILY_AT: usize = 6;

const PEER_AT: usize = 8;

const MESSAGE_AT: usize = 16;

const WIDER: usize = 4;

// Where the type of a message stands, and in an UPDATE the length of its withdrawn routes (RFC 4271, section 4).
const TYPE_AT: usize = 18;

const WITHDRAWN_AT: usize = 19;

const UPDATE: u8 = 2;

const NOTIFICATION: u8 = 3;

// The types of MP_REACH_NLRI and MP_UNREACH_NLRI, and how many octets the latter has without a route (RFC 4760).
const MP_REACH_NLRI: u8 = 14;

const MP_UNREACH_NLRI: u8 = 15;

const NO_ROUTE_LEN: usize = 3;

const AFI_IPV6: u16 = 2;

// The type of LARGE_COMMUNITY, and how many octets a large community has (RFC 8092, section 3).
const LARGE_COMMUNITY: u8 = 32;

const LARGE_LEN: usize = 12;

// The AS number that stands for one that two octets can't hold (RFC 6793, section 9).
const AS_TRANS: u32 = 23456;

/// How many messages of a peer aren't read.
#[derive(Clone, Copy, Debug, PartialEq, Eq)]
pub struct Unread {
    /// Those of sessions with ADD-PATH.
    pub add_path: u64,
    /// Those of sessions with two-octet AS numbers.
    pub two_octet: u64,
    /// The UPDATEs with IPv6 routes.
    pub ipv6: u64,
    /// The UPDATEs with NLRI and with large communities of the server.
    pub large: u64,
}

impl Unread {
    // No message.
    fn none() -> Unread {
        Unread {
            add_path: 0,
            two_octet: 0,
            ipv6: 0,
            large: 0,
        }
    }

    // The counts with those of another peer added.
    fn with(self, other: Unread) -> Unread {
        Unread {
            add_path: self.add_path.saturating_add(other.add_path),
            two_octet: self.two_octet.saturating_add(other.two_octet),
            ipv6: self.ipv6.saturating_add(other.ipv6),
            large: self.large.saturating_add(other.large),
        }
    }

    /// Whether each message is read, apart from large communities.
    pub fn is_none(self) -> bool {
        self.add_path == 0 && self.two_octet == 0 && self.ipv6 == 0
    }
}

/// The messages of a file that aren't read, by peer.
#[derive(Drop)]
pub struct UnreadMessages {
    peers: BTreeMap<PeerId, Unread>,
}

impl Model for UnreadMessages {
    ghost use Rattle.std.specs.Prelude.{List};
    ghost use Rattle.rs_types.specs.declared.peer_id.PeerId.{PeerId};
    ghost use Rattle.rs_inventory.specs.declared.unread.Unread.{Unread};

    ghost Value = { List (PeerId × Unread) };

    ghost view = { λ u. u.peers.entries };
}

impl UnreadMessages {
    /// No message.
    pub fn none(alloc: Global) -> UnreadMessages {
        UnreadMessages {
            peers: BTreeMap::new(alloc),
        }
    }

    /// Takes the next record of the file. The server has this AS number.
    pub fn take(&mut self, record: &Record<'_>, server: u32) -> Result<(), AllocError> {
        let Some((peer, found)) = unread_in(record, server) else {
            return Ok(());
        };
        let before = match self.peers.get(&peer) {
            Some(unread) => *unread,
            None => Unread::none(),
        };
        self.peers.insert(peer, before.with(found))?;
        Ok(())
    }

    /// How many messages of a peer aren't read. If its own AS number has four octets, messages with two-octet AS
    /// numbers are found by its address.
    pub fn of(&self, peer: PeerId) -> Unread {
        let own = self.count_of(peer);
        if peer.asn <= u32::from(u16::MAX) {
            return own;
        }
        let narrow = self.count_of(PeerId {
            address: peer.address,
            asn: AS_TRANS,
        });
        own.with(narrow)
    }

    // How many aren't read of a peer as records name it.
    fn count_of(&self, peer: PeerId) -> Unread {
        match self.peers.get(&peer) {
            Some(unread) => *unread,
            None => Unread::none(),
        }
    }
}

// Of whom a record has a message that isn't read, or not all of it, and which kind that is.
fn unread_in(record: &Record<'_>, server: u32) -> Option<(PeerId, Unread)> {
    let fields = session_fields(record)?;
    let is_wide = match record.subtype {
        MESSAGE => false,
        MESSAGE_ADD_PATH => false,
        MESSAGE_AS4_ADD_PATH => true,
        MESSAGE_AS4 => true,
        _ => return None,
    };
    let (peer, message) = split_message(fields, is_wide)?;
    let kind = *message.get(TYPE_AT)?;
    let none = Unread::none();
    let found = match record.subtype {
        MESSAGE_AS4 if kind == UPDATE => unread_of(message, server),
        MESSAGE_AS4 => none,
        _ if kind != UPDATE && kind != NOTIFICATION => none,
        MESSAGE => Unread {
            two_octet: 1,
            ..none
        },
        _ => Unread {
            add_path: 1,
            ..none
        },
    };
    if found == none {
        return None;
    }
    Some((peer, found))
}

// The fields of a record of a session, behind the microseconds.
fn session_fields<'a>(record: &Record<'a>) -> Option<&'a [u8]> {
    match record.kind {
        BGP4MP => Some(record.body),
        BGP4MP_ET => record.body.get(MICROSECONDS_LEN..),
        _ => None,
    }
}

// The peer that such fields name, with AS numbers of four octets or of two, and the message behind them. None if it is
// no IPv4 peer.
fn split_message(fields: &[u8], is_wide: bool) -> Option<(PeerId, &[u8])> {
    let moved = if is_wide { WIDER } else { 0 };
    let message = fields.get(MESSAGE_AT.saturating_add(moved)..)?;
    let rest = fields.get(moved..)?;
    if BigEndian::read_u16(rest.get(FAMILY_AT..PEER_AT)?) != AFI_IPV4 {
        return None;
    }
    let address = BigEndian::read_u32(rest.get(PEER_AT..MESSAGE_AT)?);
    let asn = if is_wide {
        BigEndian::read_u32(fields.get(..WIDER)?)
    } else {
        u32::from(BigEndian::read_u16(fields.get(..WIDER)?))
    };
    Some((PeerId { address, asn }, message))
}

// What isn't read of an UPDATE: IPv6 routes, and large communities of the server.
fn unread_of(message: &[u8], server: u32) -> Unread {
    let mut unread = Unread::none();
    let Some((attributes, nlri)) = split_update(message) else {
        return unread;
    };
    let mut rest = attributes;
    for _ in 0..message.len() {
        let Some((item, behind)) = split_item(rest) else {
            break;
        };
        if is_ipv6(item.kind, item.value) {
            unread.ipv6 = 1;
        } else if !nlri.is_empty() && is_large(item.kind, item.value, server) {
            unread.large = 1;
        }
        rest = behind;
    }
    unread
}

// Whether an attribute announces or withdraws IPv6 routes.
fn is_ipv6(kind: u8, value: &[u8]) -> bool {
    match kind {
        MP_REACH_NLRI => has_family(value),
        MP_UNREACH_NLRI => has_family(value) && value.len() > NO_ROUTE_LEN,
        _ => false,
    }
}

// Whether a value begins with the Address Family of IPv6.
fn has_family(value: &[u8]) -> bool {
    match value.get(..2) {
        Some(family) => BigEndian::read_u16(family) == AFI_IPV6,
        None => false,
    }
}

// Whether an attribute has a large community of the server, whose Global Administrator stands first (RFC 8092, section
// 3). One that isn't a list of large communities names nothing.
fn is_large(kind: u8, value: &[u8], server: u32) -> bool {
    if kind != LARGE_COMMUNITY {
        return false;
    }
    let (communities, rest) = value.as_chunks::<LARGE_LEN>();
    if !rest.is_empty() {
        return false;
    }
    for community in communities {
        if community.starts_with(&server.to_be_bytes()) {
            return true;
        }
    }
    false
}

// The path attributes of an UPDATE, behind its withdrawn routes, and its NLRI behind them.
fn split_update(message: &[u8]) -> Option<(&[u8], &[u8])> {
    let (_, behind) = split_field(message.get(WITHDRAWN_AT..)?)?;
    split_field(behind)
}

// A field whose length of two octets stands before it, and the octets behind it.
fn split_field(octets: &[u8]) -> Option<(&[u8], &[u8])> {
    let length = usize::from(BigEndian::read_u16(octets.get(..2)?));
    let rest = octets.get(2..)?;
    Some((rest.get(..length)?, rest.get(length..)?))
}
