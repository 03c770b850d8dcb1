//! The record that is put in for a loss (RFC 6396, sections 2, 3 and 4.4.4).

ghost use Rattle.std.specs.Prelude.{◌≡◌};
ghost use Rattle.rs_mrt.specs.Record.{record_of};
ghost use Rattle.rs_losses.specs.Losses.{has_microseconds, loss_octets, loss_record};

use crate::losses::Sought;
use byteorder::{BigEndian, ByteOrder};
use rs_mrt::{
    AFI_IPV4, BGP4MP, BGP4MP_ET, ESTABLISHED, MICROSECONDS_LEN, Record, STATE_CHANGE_AS4,
};

/// How many octets are kept of a loss: four for microseconds, and its fields.
pub(crate) const LOSS_OCTETS: usize = 28;

// Where the fields of BGP4MP_STATE_CHANGE_AS4 that are not zero begin, behind four octets (RFC 6396, section 4.4.4).
const PEER_AS_AT: usize = 4;

const FAMILY_AT: usize = 14;

const PEER_AT: usize = 16;

const OLD_STATE_AT: usize = 24;

const NEW_STATE_AT: usize = 26;

// The number 0, which is no state (RFC 6396, section 4.4.1).
const NO_STATE: u16 = 0;

/// The octets of the loss that a record tells of: four of microseconds, which are zero if the record has none, and its
/// fields.
pub(crate) fn loss_octets(who: Sought, tells: &Record<'_>) -> [u8; LOSS_OCTETS]
    ensures { result ≡ loss_octets who (record_of tells.now) }
{
    let mut octets = [0; LOSS_OCTETS];
    BigEndian::write_u32(&mut octets[PEER_AS_AT..], who.peer.asn);
    BigEndian::write_u16(&mut octets[FAMILY_AT..], AFI_IPV4);
    BigEndian::write_u32(&mut octets[PEER_AT..], who.peer.address);
    BigEndian::write_u16(&mut octets[OLD_STATE_AT..], ESTABLISHED);
    BigEndian::write_u16(&mut octets[NEW_STATE_AT..], NO_STATE);
    if has_microseconds(tells) {
        octets[..MICROSECONDS_LEN].copy_from_slice(&tells.body[..MICROSECONDS_LEN]);
    }
    octets
}

impl Sought {
    /// The loss of the peer that a record tells of. These are its octets.
    pub(crate) fn loss_record<'a>(
        self,
        octets: &'a [u8; LOSS_OCTETS],
        tells: &Record<'_>,
    ) -> Record<'a>
        requires { octets.now ≡ loss_octets self (record_of tells.now) }
        ensures { record_of result ≡ loss_record self (record_of tells.now) }
    {
        if has_microseconds(tells) {
            Record {
                time: tells.time,
                kind: BGP4MP_ET,
                subtype: STATE_CHANGE_AS4,
                body: octets,
            }
        } else {
            Record {
                time: tells.time,
                kind: BGP4MP,
                subtype: STATE_CHANGE_AS4,
                body: &octets[MICROSECONDS_LEN..],
            }
        }
    }
}

// Whether a record has microseconds.
fn has_microseconds(recorded: &Record<'_>) -> bool
    ensures { result ≡ has_microseconds (record_of recorded.now) }
{
    recorded.kind == BGP4MP_ET && MICROSECONDS_LEN <= recorded.body.len()
}
