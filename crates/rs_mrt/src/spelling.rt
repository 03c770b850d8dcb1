//! The header of a record that is written (RFC 6396, section 2).

ghost use Rattle.std.specs.Prelude.{◌≡◌, ◌+◌, ◌≤◌, ◌++◌, OnOk, OnErr, IsOk, vec_len, vec_capacity};
ghost use Rattle.std.specs.Vec.{VecUnchanged};
ghost use Rattle.rs_mrt.specs.Record.{header_len, header_spelling};

use crate::record::{HEADER_LEN, KIND_AT, LENGTH_AT, SUBTYPE_AT};
use byteorder::{BigEndian, ByteOrder};
use std::alloc::AllocError;

/// Appends the header of a record whose body has `body_len` octets. The header has 12 octets, which the Length
/// doesn't count. `time` is in seconds since 1970. If memory is refused, `out` is unchanged. If `out` has room, no
/// memory is taken and the call succeeds.
pub fn write_header(
    out: &mut Vec<u8>,
    time: u32,
    kind: u16,
    subtype: u16,
    body_len: u32,
) -> Result<(), AllocError>
    ensures ok { OnOk result (out.new.items ≡ out.old.items ++ header_spelling time kind subtype body_len) }
    ensures err { OnErr result (VecUnchanged out.old out.new) }
    // No memory is taken if there is room.
    ensures succeeds { vec_len out.old + header_len ≤ vec_capacity out.old → IsOk result }
    ensures capacity { vec_capacity out.old ≤ vec_capacity out.new }
{
    out.extend_from_slice(&header_octets(time, kind, subtype, body_len))
}

// The octets of a header.
fn header_octets(time: u32, kind: u16, subtype: u16, body_len: u32) -> [u8; HEADER_LEN]
    ensures { result ≡ header_spelling time kind subtype body_len }
{
    let mut header = [0; HEADER_LEN];
    BigEndian::write_u32(&mut header, time);
    BigEndian::write_u16(&mut header[KIND_AT..], kind);
    BigEndian::write_u16(&mut header[SUBTYPE_AT..], subtype);
    BigEndian::write_u32(&mut header[LENGTH_AT..], body_len);
    header
}
