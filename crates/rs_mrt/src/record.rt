//! The records of a file, one after another (RFC 6396, section 2).
//!
//! Our choice: a file is the longest list of whole records at its front, and a rest. The rest is empty at the end of
//! the file; else the header or the body of a record is cut short there.

ghost use Rattle.std.specs.Prelude.{◌≡◌, ◌+◌, ◌≤◌, length, None, refl, ◌^◌, ◌<◌};
ghost use Rattle.rs_mrt.specs.Source.{IsLeft, source_end, stopped_at};
ghost use Rattle.rs_mrt.specs.Record.{header_len, headed, reading_of, next_of, after_next, record_of, octets_of, seen};
ghost use Rattle.rs_mrt.specs.Record.{taken_from};

use crate::fault::{MrtFault, SourceFault};
use crate::source::Source;
use byteorder::{BigEndian, ByteOrder};
use std::marker::Model;

/// How many octets the header of a record has (RFC 6396, section 2): Timestamp 4, Type 2, Subtype 2, Length 4.
pub const HEADER_LEN: usize = 12;

/// Where the Type begins in the header of a record (RFC 6396, section 2).
pub const KIND_AT: usize = 4;

/// Where the Subtype begins in the header of a record (RFC 6396, section 2).
pub const SUBTYPE_AT: usize = 6;

/// Where the Length begins in the header of a record (RFC 6396, section 2).
pub const LENGTH_AT: usize = 8;

/// A record, whose body is a part of the octets that it was read from.
#[derive(Clone, Copy, Debug, PartialEq, Eq, Drop)]
pub struct Record<'a> {
    /// The Timestamp, in seconds since 1970.
    pub time: u32,
    /// The Type, as 16 for BGP4MP.
    pub kind: u16,
    /// The Subtype, whose meaning depends on the Type.
    pub subtype: u16,
    /// The octets after the header, as many as its Length.
    pub body: &'a [u8],
}

/// The records of a file that is at hand as a whole.
#[derive(Debug, Drop)]
pub struct Records<'a> {
    left: &'a [u8],
    shown: Option<Record<'a>>,
}

impl<'a> Model for Records<'a> {
    ghost use Rattle.std.specs.Option.{option_map};
    ghost use Rattle.rs_mrt.specs.Record.{Reading, record_of, reading_of};

    ghost Value = { Reading };

    ghost view = { λ s. reading_of (option_map record_of s.shown) s.left.now };
}

impl<'a> Records<'a> {
    /// Begins at the first octet of the file.
    pub fn new(file: &'a [u8]) -> Records<'a>
        ensures { result ≡ reading_of None file.now }
    {
        Records {
            left: file,
            shown: None,
        }
    }

    /// Gives the next record. The fault is `HeaderCutShort` if 1 to 11 octets are left, and `BodyCutShort` if fewer
    /// octets follow a header than its Length says. After the end it always answers None, and after a fault it
    /// always answers that fault. Nothing is copied.
    pub fn next(&mut self) -> Result<Option<Record<'a>>, MrtFault>
        ensures answer { seen record_of result ≡ next_of self.old.left self.old.end }
        ensures left { self.new ≡ after_next self.old.left self.old }
        ensures room { self.new.octets + octets_of self.new.shown ≤ self.old.octets }
        ensures bound { self.old.octets < 2 ^ 64 }
    {
        self.shown = None;
        let Some((record, left)) = take_record(self.left)? else {
            return Ok(None);
        };
        self.left = left;
        self.shown = Some(record);
        Ok(Some(record))
    }
}

// The record at the front and the octets after it; none if no octets are left.
fn take_record(octets: &[u8]) -> Result<Option<(Record<'_>, &[u8])>, MrtFault>
    ensures value { seen (λ f. (record_of f.0, f.1.now)) result ≡ taken_from octets.now }
    ensures bound { length octets.now < 2 ^ 64 }
{
    if octets.is_empty() {
        return Ok(None);
    }
    if octets.len() < HEADER_LEN {
        return Err(MrtFault::HeaderCutShort);
    }
    let after_header = &octets[HEADER_LEN..];
    let length = BigEndian::read_u32(&octets[LENGTH_AT..]) as usize;
    if after_header.len() < length {
        return Err(MrtFault::BodyCutShort);
    }
    let (body, after) = after_header.split_at(length);
    Ok(Some((headed(octets, body), after)))
}

// The record whose header stands at the front, with this body.
pub(crate) fn headed<'a>(octets: &[u8], body: &'a [u8]) -> Record<'a>
    requires { header_len ≤ length octets.now }
    ensures { record_of result ≡ headed octets.now body.now }
{
    Record {
        time: BigEndian::read_u32(octets),
        kind: BigEndian::read_u16(&octets[KIND_AT..]),
        subtype: BigEndian::read_u16(&octets[SUBTYPE_AT..]),
        body,
    }
}

impl<'a> Source for Records<'a> {
    ghost shows = { λ s. s.shown };

    ghost comes = { λ s later end. IsLeft s later end };

    ghost stopped = { λ s. stopped_at s.shown s.left s.end };

    ghost failures = { λ _. 0 };

    ghost full = { λ _. ⊥ };

    ghost room = { λ s. s.octets };

    ghost may_come = { λ s. (s.left, source_end s.end, (refl, refl)) };

    fn advance(&mut self) -> Result<bool, SourceFault> {
        match self.next() {
            Ok(found) => Ok(found.is_some()),
            Err(fault) => Err(SourceFault::Mrt(fault)),
        }
    }

    fn shown(&self) -> Option<Record<'_>> {
        self.shown
    }
}
