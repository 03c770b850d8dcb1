//! The records of a table, one after another, each whole (RFC 6396, section 2).
//!
//! Our choice: a record has at most 16,777,216 octets; the memory of one record is kept for the next.

ghost use Rattle.std.specs.Prelude.{◌≡◌, ◌<◌, ◌≤◌, [], length, take, IfOk, IsFalse, OnOk};
ghost use Rattle.rs_start.specs.TableReading.{Came, Fills, Reads};

use crate::fault::{Broken, TableFault};
use byteorder::{BigEndian, ByteOrder};
use rs_mrt::{HEADER_LEN, KIND_AT, LENGTH_AT, Read, SUBTYPE_AT};
use std::alloc::Global;
use std::marker::Model;

// How many octets the body of a record has at most.
const MAX_BODY_LEN: usize = 16_777_216;

/// A record of a table, without its body.
#[derive(Clone, Copy, Debug, PartialEq, Eq, Drop)]
pub(crate) struct Head {
    /// The Timestamp, in seconds since 1970.
    pub(crate) time: u32,
    /// The Type.
    pub(crate) kind: u16,
    /// The Subtype.
    pub(crate) subtype: u16,
    /// How many octets of the file stand before its body.
    pub(crate) at: u64,
    /// How many octets the body has.
    pub(crate) len: usize,
}

/// Reads a table, record by record.
#[derive(Drop)]
pub struct TableReader<R: Read> {
    pub(crate) alloc: Global,
    reader: R,
    // Whether a read failed: no other one is tried then.
    failed: bool,
    // The body of the record read last, at the front.
    body: Vec<u8>,
    // How many octets were read.
    came: u64,
}

impl<R: Read> Model for TableReader<R> {
    ghost use Rattle.std.specs.Prelude.{◌<◌, IsFalse};
    ghost use Rattle.rs_start.specs.TableReading.{TableReading};

    ghost Value = { TableReading R };

    ghost view = { λ t. record { reader = t.reader; body = t.body.items } };

    ghost invariant = { λ t. IsFalse t.failed → R.failures t.reader < 18446744073709551615 };
}

impl<R: Read> TableReader<R> {
    /// Begins at the first octet. Nothing is read yet.
    pub fn new(alloc: Global, reader: R) -> TableReader<R>
        requires { R.failures reader < u64.MAX }
        ensures { result ≡ record { reader = reader; body = [] } }
    {
        TableReader {
            alloc,
            reader,
            failed: false,
            body: Vec::new(alloc),
            came: 0,
        }
    }

    // The next record; none at the end of the file.
    pub(crate) fn next(&mut self) -> Result<Option<Head>, TableFault>
        ensures { Reads R.gives self.old self.new result }
    {
        let mut header = [0; HEADER_LEN];
        let came = self.fill_header(&mut header)?;
        if came == 0 {
            return Ok(None);
        }
        if came < HEADER_LEN {
            return Err(self.broken(Broken::HeaderCutShort));
        }
        let len = BigEndian::read_u32(&header[LENGTH_AT..]) as usize;
        let at = self.came;
        self.read_body(len)?;
        Ok(Some(Head {
            time: BigEndian::read_u32(&header),
            kind: BigEndian::read_u16(&header[KIND_AT..]),
            subtype: BigEndian::read_u16(&header[SUBTYPE_AT..]),
            at,
            len,
        }))
    }

    // The body of the record read last.
    pub(crate) fn body(&self, head: &Head) -> &[u8]
        ensures { result.now ≡ take head.now.len self.now.body }
    {
        &self.body[..head.len.min(self.body.len())]
    }

    // Reads the header of a record. Answers how many octets came.
    fn fill_header(&mut self, header: &mut [u8; HEADER_LEN]) -> Result<usize, TableFault>
        ensures bound { IfOk result (λ n. n ≤ HEADER_LEN) }
        ensures fills { IfOk result (λ n. Fills (R.gives self.old.reader) (R.gives self.new.reader) header.new n) }
    {
        let came = fill(&mut self.reader, &mut self.failed, header, HEADER_LEN)?;
        self.came = self.came.saturating_add(came as u64);
        Ok(came)
    }

    // Reads the body of a record.
    fn read_body(&mut self, len: usize) -> Result<(), TableFault>
        ensures came { OnOk result (Came (R.gives self.old.reader) (R.gives self.new.reader) (take len self.new.body)) }
        ensures long { OnOk result (len ≤ length self.new.body) }
    {
        if len > MAX_BODY_LEN {
            return Err(self.broken(Broken::RecordTooLong));
        }
        self.make_room(len)?;
        let came = fill_buffer(&mut self.reader, &mut self.failed, &mut self.body, len)?;
        self.came = self.came.saturating_add(came as u64);
        if came < len {
            return Err(self.broken(Broken::BodyCutShort));
        }
        Ok(())
    }

    // Makes room for a body of so many octets.
    fn make_room(&mut self, len: usize) -> Result<(), TableFault>
        ensures room { OnOk result (len ≤ length self.new.body) }
        ensures reader { self.new.reader ≡ self.old.reader }
    {
        if self.body.len() < len {
            self.body.resize(len, 0)?;
        }
        Ok(())
    }

    // A fault behind the octets that were read.
    pub(crate) fn broken(&self, what: Broken) -> TableFault {
        TableFault::Broken {
            at: self.came,
            what,
        }
    }
}

// Reads so many octets to the front of a buffer that has room for them. Answers how many came.
fn fill_buffer<R: Read>(
    reader: &mut R,
    failed: &mut bool,
    buffer: &mut Vec<u8>,
    len: usize,
) -> Result<usize, TableFault>
    requires room { len ≤ length buffer.old.items }
    requires failures { IsFalse failed.old → R.failures reader.old < u64.MAX }
    ensures bound { IfOk result (λ n. n ≤ len) }
    ensures fills { IfOk result (λ n. Fills (R.gives reader.old) (R.gives reader.new) (take len buffer.new.items) n) }
    ensures long { IfOk result (λ _. len ≤ length buffer.new.items) }
    ensures failures { IsFalse failed.new → R.failures reader.new < u64.MAX }
{
    let came = fill(reader, failed, buffer, len)?;
    Ok(came)
}

// Reads so many octets to the front of a piece, or all up to the end of the file, unless a read failed. Answers how
// many came.
fn fill<R: Read>(
    reader: &mut R,
    failed: &mut bool,
    into: &mut [u8],
    len: usize,
) -> Result<usize, TableFault>
    requires room { len ≤ length into.old }
    requires failures { IsFalse failed.old → R.failures reader.old < u64.MAX }
    ensures bound { IfOk result (λ n. n ≤ len) }
    ensures fills { IfOk result (λ n. Fills (R.gives reader.old) (R.gives reader.new) (take len into.new) n) }
    ensures failures { IsFalse failed.new → R.failures reader.new < u64.MAX }
{
    if *failed {
        return Err(TableFault::Read);
    }
    let mut came = 0;
    while came < len {
        match reader.read(&mut into[came..len]) {
            Ok(0) => return Ok(came),
            Ok(count) => came += count,
            Err(_) => {
                *failed = true;
                return Err(TableFault::Read);
            }
        }
    }
    Ok(came)
}
