//! What a record of Type BGP4MP or BGP4MP_ET says (RFC 6396, sections 4.4 and 4.5).
//!
//! Our choices: only the Subtypes for AS numbers of four octets are read, and only IPv4 peers. The length of a
//! record of another Subtype is not tested, except for the microseconds of BGP4MP_ET. A record of another Address
//! Family is tested only up to that field. Microseconds, Local AS, Interface Index, Local IP Address and octets
//! after the New State have no effect.

ghost use Rattle.std.specs.Prelude.{◌≡◌, ◌&&◌, ◌==◌, not};
ghost use Rattle.rs_mrt.specs.Record.{record_of};
ghost use Rattle.rs_mrt.specs.Entry.{answer_of, entry_of, fields_entry, message_entry, state_entry};
ghost use Rattle.rs_mrt.specs.Entry.{subtype_message_as4, subtype_state_change_as4};

use crate::fault::MrtFault;
use crate::meaning::Entry;
use crate::record::Record;
use byteorder::{BigEndian, ByteOrder};

/// The Type of records of BGP sessions (RFC 6396, section 4.4).
pub const BGP4MP: u16 = 16;

/// The Type of records of BGP sessions with microseconds (RFC 6396, section 4.5).
pub const BGP4MP_ET: u16 = 17;

/// The Subtype of a BGP message, with AS numbers of four octets (RFC 6396, section 4.4.3).
pub const MESSAGE_AS4: u16 = 4;

/// The Subtype of a change of state, with AS numbers of four octets (RFC 6396, section 4.4.4).
pub const STATE_CHANGE_AS4: u16 = 5;

/// The Address Family of IPv4.
pub const AFI_IPV4: u16 = 1;

/// How many octets at the front of a body suffice: 4 of microseconds, 20 of fields, and one more than the 4,096 of the
/// longest BGP message (RFC 4271, section 4.1).
pub const FRONT_LEN: usize = 4121;

/// How many octets of microseconds a BGP4MP_ET body begins with (RFC 6396, section 3).
pub const MICROSECONDS_LEN: usize = 4;

/// The state Established: the session is up (RFC 6396, section 4.4.1).
pub const ESTABLISHED: u16 = 6;

// Where fields begin and end.
const FAMILY_AT: usize = 10;

const FAMILY_END: usize = 12;

const PEER_AT: usize = 12;

const MESSAGE_AT: usize = 20;

const OLD_STATE_AT: usize = 20;

const NEW_STATE_AT: usize = 22;

const STATES_END: usize = 24;

/// Reads what a record says. Nothing is copied: a message is a part of the record's octets. The fault is
/// `MicrosecondsCutShort` if a BGP4MP_ET body has fewer than 4 octets. It is `FieldsCutShort` if a body of Subtype 4
/// or 5 is shorter than its fields.
// Part of its callers: as a call it would write the fields to memory, to be read again, for each record.
#[inline(always)]
#[tactic(auto, unfolding(crate::specs::Entry::entry_of))]
pub fn entry<'a>(recorded: &Record<'a>) -> Result<Entry<'a>, MrtFault>
    ensures { answer_of result ≡ entry_of (record_of recorded.now) }
{
    match recorded.kind {
        BGP4MP => read_fields(recorded.subtype, recorded.body),
        BGP4MP_ET => {
            if recorded.body.len() < MICROSECONDS_LEN {
                return Err(MrtFault::MicrosecondsCutShort);
            }
            read_fields(recorded.subtype, &recorded.body[MICROSECONDS_LEN..])
        }
        _ => Ok(Entry::Other),
    }
}

#[tactic(auto, unfolding(crate::specs::Entry::fields_entry))]
fn read_fields(subtype: u16, fields: &[u8]) -> Result<Entry<'_>, MrtFault>
    ensures { answer_of result ≡ fields_entry subtype fields.now }
{
    if is_other(subtype) {
        return Ok(Entry::Other);
    }
    if fields.len() < FAMILY_END {
        return Err(MrtFault::FieldsCutShort);
    }
    if BigEndian::read_u16(&fields[FAMILY_AT..]) != AFI_IPV4 {
        return Ok(Entry::Other);
    }
    if subtype == MESSAGE_AS4 {
        read_message_fields(fields)
    } else {
        read_state_fields(fields)
    }
}

// Whether a Subtype is neither of the two that are read.
fn is_other(subtype: u16) -> bool
    ensures { result ≡ (not (subtype == subtype_message_as4) && not (subtype == subtype_state_change_as4)) }
{
    subtype != MESSAGE_AS4 && subtype != STATE_CHANGE_AS4
}

fn read_message_fields(fields: &[u8]) -> Result<Entry<'_>, MrtFault>
    ensures { answer_of result ≡ message_entry fields.now }
{
    if fields.len() < MESSAGE_AT {
        return Err(MrtFault::FieldsCutShort);
    }
    Ok(Entry::Message {
        peer_as: BigEndian::read_u32(fields),
        peer: BigEndian::read_u32(&fields[PEER_AT..]),
        message: &fields[MESSAGE_AT..],
    })
}

fn read_state_fields(fields: &[u8]) -> Result<Entry<'_>, MrtFault>
    ensures { answer_of result ≡ state_entry fields.now }
{
    if fields.len() < STATES_END {
        return Err(MrtFault::FieldsCutShort);
    }
    Ok(Entry::State {
        peer_as: BigEndian::read_u32(fields),
        peer: BigEndian::read_u32(&fields[PEER_AT..]),
        old: BigEndian::read_u16(&fields[OLD_STATE_AT..]),
        new: BigEndian::read_u16(&fields[NEW_STATE_AT..]),
    })
}
