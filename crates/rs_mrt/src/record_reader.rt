//! The records of a file that comes in pieces, through any reader (RFC 6396, section 2).
//!
//! Our choices: of a body no more than its first 4,121 octets are shown, and only once the whole body came. Every error
//! of a read ends the records, and the read isn't tried again. No more than 2^50 octets are taken. If there is a time,
//! the records end before the first one that is later. Nothing behind the header of that record is asked for.

ghost use Rattle.std.specs.Prelude.{◌≡◌, ◌+◌, ◌-◌, ◌^◌, ◌<◌, ◌≤◌, ℕ, List, None, length, true};
ghost use Rattle.rs_mrt.specs.Record.{MrtRecord, octets_of};
ghost use Rattle.rs_mrt.specs.Bounds.{rest_is_later};
ghost use Rattle.rs_mrt.specs.Cut.{cut_of, ends_in_record, time_in};
ghost use Rattle.rs_mrt.specs.Places.{HasPassed, SaysPlace};
ghost use Rattle.rs_mrt.specs.RecordReading.{unread, unread_until, MayCome, StaysStopped, room_left, read_limit};
ghost use Rattle.rs_mrt.specs.RecordReading.{something_comes};
ghost use Rattle.rs_mrt.specs.Source.{Advances, CountsFailure, Stays, Stops};
ghost use Rattle.rs_mrt.specs.Inflow.{Finds, GoesOn};

use crate::bgp4mp::FRONT_LEN;
use crate::bounds::is_later;
use crate::cut::Cut;
use crate::fault::{MrtFault, SourceFault};
use crate::inlet::Inlet;
use crate::reader::Read;
use crate::record::{HEADER_LEN, LENGTH_AT, Record, headed};
use crate::source::Source;
use crate::window::{WINDOW_LEN, Window};
use byteorder::{BigEndian, ByteOrder};
use std::marker::Model;

// How many octets a Timestamp has.
const TIME_LEN: usize = 4;

/// The records of the octets that a reader gives. It holds no more of them than its buffer of 4,133 octets,
/// which is part of the value, and takes no memory.
#[derive(Drop)]
pub struct RecordReader<R: Read> {
    inlet: Inlet<R>,
    window: Window,
    // The time, in seconds since 1970: the records end before the first one that is later.
    until: Option<u32>,
    // How many octets of its body are shown of the record that stands at the front of the window.
    shown: Option<usize>,
    // The answer that it repeats from now on, after an end or a fault.
    stopped: Option<Result<bool, SourceFault>>,
    // How many octets stand in the file before the record that was looked for last.
    place: u64,
}

impl<R: Read> Model for RecordReader<R> {
    ghost use Rattle.rs_mrt.specs.RecordReading.{RecordReading};
    ghost use Rattle.rs_mrt.specs.Inflow.{shown_in, held_behind, ReaderFits};

    ghost Value = { RecordReading R };

    ghost view = { λ r. record {
      inflow = r.inlet;
      until = r.until;
      held = held_behind r.shown r.window;
      shown = shown_in r.shown r.window;
      stopped = r.stopped;
      place = r.place;
    } };

    ghost invariant = { λ r. ReaderFits r.shown r.window r.stopped r.inlet.came (R.failures r.inlet.reader) };
}

impl<R: Read> RecordReader<R> {
    /// Begins with the first octet that the reader gives. It takes no memory, and doesn't read yet.
    pub fn new(reader: R) -> RecordReader<R>
        requires { R.failures reader < u64.MAX }
        ensures { result ≡ unread reader }
    {
        RecordReader::up_to(reader, None)
    }

    /// Begins with the first octet that the reader gives. The records end before the first one that is later than the
    /// time, in seconds since 1970; microseconds don't count. Without a time none is later. Behind the header of a
    /// later record nothing is asked for, so its body isn't waited for.
    pub fn up_to(reader: R, until: Option<u32>) -> RecordReader<R>
        requires { R.failures reader < u64.MAX }
        ensures { result ≡ unread_until until reader }
    {
        RecordReader {
            inlet: Inlet::new(reader),
            window: Window::new(),
            until,
            shown: None,
            stopped: None,
            place: 0,
        }
    }

    /// How many octets stand in the file before the record that is shown, or, at the end, before what is left of the
    /// file.
    pub fn place(&self) -> u64
        ensures { result ≡ self.now.place }
    {
        self.place
    }

    /// The record that the end of the file cuts short (RFC 6396, section 2): given once `advance` answered that its
    /// header or its body is cut short.
    pub fn cut(&self) -> Option<Cut>
        ensures { result ≡ cut_of self.now }
    {
        if !self.ends_in_record() {
            return None;
        }
        let octets = self.window.octets();
        Some(Cut {
            octet: self.place,
            len: self.inlet.came().saturating_sub(self.place),
            time: time_in(octets),
        })
    }

    // Whether the file ended in a record.
    fn ends_in_record(&self) -> bool
        ensures { result ≡ ends_in_record self.now.stopped }
    {
        matches!(
            self.stopped,
            Some(Err(SourceFault::Mrt(MrtFault::HeaderCutShort | MrtFault::BodyCutShort)))
        )
    }

    // Drops the record that is shown.
    fn drop_shown(&mut self)
        ensures { self.new ≡ record self.old { shown = None } }
    {
        if let Some(len) = self.shown {
            self.window.drop_front(HEADER_LEN + len);
            self.shown = None;
        }
    }

    // Goes to the next record. If there is none, its answer is repeated from now on.
    fn go_on(&mut self) -> Result<bool, SourceFault>
        requires asks { self.old.stopped ≡ None }
        requires shown { self.old.shown ≡ None }
        ensures goes_on { GoesOn R.gives R.failures self.old self.new result }
        ensures at_later { rest_is_later self.old.until self.old.held ≡ true
            → self.new.inflow.reader ≡ self.old.inflow.reader }
        ensures place { self.new.place ≡ self.old.inflow.came - length self.old.held }
    {
        let held = self.window.octets().len();
        self.place = self.inlet.came().saturating_sub(held as u64);
        let answer = match find_front(&mut self.inlet, &mut self.window, self.until) {
            Ok(Some(len)) => {
                self.shown = Some(len);
                return Ok(true);
            }
            Ok(None) => Ok(false),
            Err(fault) => Err(fault),
        };
        self.stopped = Some(answer);
        answer
    }
}

impl<R: Read> Source for RecordReader<R> {
    ghost shows = { λ r. r.shown };

    ghost comes = { λ r. MayCome R.gives r };

    ghost stopped = { λ r. r.stopped };

    ghost failures = { λ r. R.failures r.inflow.reader };

    ghost full = { λ r. r.inflow.came ≡ read_limit };

    ghost room = { λ r. room_left r };

    ghost may_come = { λ r. something_comes R.gives r (R.may_come r.inflow.reader) };

    fn advance(&mut self) -> Result<bool, SourceFault>
        ensures records { Advances (MayCome R.gives) self.old self.new self.new.shown result }
        ensures bound { room_left self.old < 2 ^ 64 }
        ensures room { room_left self.new + octets_of self.new.shown ≤ room_left self.old }
        // A read that fails is counted. Without a failed read, the answer is `Read` only at the limit, or if it was
        // given before.
        ensures failures { CountsFailure (R.failures self.old.inflow.reader) (R.failures self.new.inflow.reader)
            (self.new.inflow.came ≡ read_limit) self.old.stopped result }
        ensures stays { Stays self.old.stopped (R.failures self.old.inflow.reader)
            (R.failures self.new.inflow.reader) result }
        ensures stops { Stops self.new.stopped result }
        // After an end or a fault, the reader is never read again.
        ensures asks_no_more { StaysStopped self.old self.new result }
        // Nor is it once 2^50 octets came.
        ensures at_limit { self.old.inflow.came ≡ read_limit → self.new.inflow.reader ≡ self.old.inflow.reader }
        // Nor is it once the header of a record is at hand that is later than the time.
        ensures at_later { rest_is_later self.old.until self.old.held ≡ true
            → self.new.inflow.reader ≡ self.old.inflow.reader }
        // The next record begins where those octets begin that came and stand behind the record that was shown.
        ensures place { self.old.stopped ≡ None → self.new.place ≡ self.old.inflow.came - length self.old.held }
        // If the reader has passed the first records of a file, it shows the next one, at its place, or says how the
        // end of the file cuts it short.
        ensures next { (file : List ℕ) (before : List MrtRecord) → self.old.stopped ≡ None
            → HasPassed R.gives file before self.old → SaysPlace R.gives file before self.new result }
    {
        if let Some(answer) = self.stopped {
            return answer;
        }
        self.drop_shown();
        self.go_on()
    }

    fn shown(&self) -> Option<Record<'_>> {
        let len = self.shown?;
        let octets = self.window.octets();
        Some(headed(octets, &octets[HEADER_LEN..HEADER_LEN + len]))
    }
}

// The Timestamp of a header that begins with these octets, if they are four or more.
fn time_in(octets: &[u8]) -> Option<u32>
    ensures { result ≡ time_in octets.now }
{
    if octets.len() < TIME_LEN {
        return None;
    }
    Some(BigEndian::read_u32(octets))
}

// Reads until a record stands at the front of the window and its whole body came. Answers how many octets of the body
// stand there; none at the end of the file. It answers none too, and reads no further, if a later record's header
// stands there.
fn find_front<R: Read>(
    inlet: &mut Inlet<R>,
    window: &mut Window,
    until: Option<u32>,
) -> Result<Option<usize>, SourceFault>
    requires limit { inlet.old.came ≤ read_limit }
    requires failures { R.failures inlet.old.reader < u64.MAX }
    ensures finds { Finds R.gives R.failures until inlet.old inlet.new window.old window.new result }
    ensures room { length window.new ≤ WINDOW_LEN }
    ensures at_later { rest_is_later until window.old ≡ true → inlet.new.reader ≡ inlet.old.reader }
{
    if !window.fill(inlet, HEADER_LEN)? {
        if window.octets().is_empty() {
            return Ok(None);
        }
        return Err(SourceFault::Mrt(MrtFault::HeaderCutShort));
    }
    let header = window.octets();
    if is_later(until, BigEndian::read_u32(header)) {
        return Ok(None);
    }
    let length = BigEndian::read_u32(&header[LENGTH_AT..]) as usize;
    let front = length.min(FRONT_LEN);
    if !window.fill(inlet, HEADER_LEN + front)? {
        return Err(SourceFault::Mrt(MrtFault::BodyCutShort));
    }
    if !inlet.skip(length - front)? {
        return Err(SourceFault::Mrt(MrtFault::BodyCutShort));
    }
    Ok(Some(front))
}
