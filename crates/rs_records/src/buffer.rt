//! The buffer in which records are spelled before they are written.
//!
//! Its memory is taken once, before the first write, and is enough for any record beside what waits to be written.

ghost use Rattle.std.specs.Prelude.{length};
ghost use Rattle.rs_mrt.specs.Endian.{big_bytes};
ghost use Rattle.rs_mrt.specs.Record.{header_spelling};
ghost use Rattle.rs_records.specs.Buffer.{HasRoom, Gains};
ghost use Rattle.rs_records.specs.DumpType.{TABLE_DUMP_V2 as the_type};

use rs_mrt::{HEADER_LEN, write_header};

// The Type of all records of a dump (RFC 6396, section 4).
pub(crate) const TABLE_DUMP_V2: u16 = 13;

// Appends octets for which there is room.
pub(crate) fn put(buffer: &mut Vec<u8>, octets: &[u8])
    requires { HasRoom buffer.old (length octets.now) }
    ensures { Gains buffer.old buffer.new octets.now }
{
    buffer.extend_from_slice(octets).unwrap();
}

// Appends a number of two octets.
pub(crate) fn put_u16(buffer: &mut Vec<u8>, number: u16)
    requires { HasRoom buffer.old 2 }
    ensures { Gains buffer.old buffer.new (big_bytes 2 number) }
{
    put(buffer, &number.to_be_bytes());
}

// Appends a number of four octets.
pub(crate) fn put_u32(buffer: &mut Vec<u8>, number: u32)
    requires { HasRoom buffer.old 4 }
    ensures { Gains buffer.old buffer.new (big_bytes 4 number) }
{
    put(buffer, &number.to_be_bytes());
}

// Appends the header of a record of a dump, whose body has `body_len` octets.
pub(crate) fn put_header(buffer: &mut Vec<u8>, time: u32, subtype: u16, body_len: u32)
    requires { HasRoom buffer.old HEADER_LEN }
    ensures { Gains buffer.old buffer.new (header_spelling time the_type subtype body_len) }
{
    write_header(buffer, time, TABLE_DUMP_V2, subtype, body_len).unwrap();
}
