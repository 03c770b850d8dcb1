//! The microseconds of a record (RFC 6396, section 3).
//!
//! Our choice: a number that isn't less than a second counts as no microseconds.

ghost use Rattle.std.specs.Prelude.{◌≡◌};
ghost use Rattle.rs_mrt.specs.Record.{record_of};
ghost use Rattle.rs_glass.specs.Microseconds.{microseconds_in};

use byteorder::{BigEndian, ByteOrder};
use rs_mrt::{BGP4MP_ET, MICROSECONDS_LEN, Record};

// How many microseconds a second has.
pub(crate) const SECOND: u32 = 1_000_000;

/// The microseconds of a record, behind the second of its Timestamp; none if it has none.
pub fn microseconds_of(recorded: &Record<'_>) -> Option<u32>
    ensures { result ≡ microseconds_in (record_of recorded.now) }
{
    if recorded.kind != BGP4MP_ET || recorded.body.len() < MICROSECONDS_LEN {
        return None;
    }
    let microseconds = BigEndian::read_u32(recorded.body);
    if microseconds < SECOND {
        Some(microseconds)
    } else {
        None
    }
}
