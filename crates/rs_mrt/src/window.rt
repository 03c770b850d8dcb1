//! The octets that a reader of records holds. Our choice: as many as a header and the front of a body that suffices, so
//! that it takes no memory.

ghost use Rattle.std.specs.Prelude.{◌≡◌, ◌<◌, ◌≤◌, ◌+◌, [], length, drop};
ghost use Rattle.rs_mrt.specs.RecordReading.{read_limit};
ghost use Rattle.rs_mrt.specs.Inflow.{Fills, Grows, IsEnough};

use crate::bgp4mp::FRONT_LEN;
use crate::inlet::Inlet;
use crate::reader::Read;
use crate::record::HEADER_LEN;
use crate::stream::Failed;
use std::marker::Model;

/// How many octets there is room for.
pub(crate) const WINDOW_LEN: usize = HEADER_LEN + FRONT_LEN;

/// The octets that came and weren't dropped yet, somewhere in a buffer.
#[derive(Drop)]
pub(crate) struct Window {
    buffer: [u8; WINDOW_LEN],
    start: usize,
    end: usize,
}

impl Model for Window {
    ghost use Rattle.std.specs.Prelude.{List, ℕ, ◌≤◌, slice_range};

    ghost Value = { List ℕ };

    ghost view = { λ w. slice_range w.buffer w.start w.end };

    ghost invariant = { λ w. (w.start ≤ w.end) × (w.end ≤ 4133) };
}

impl Window {
    pub(crate) fn new() -> Window
        ensures { result ≡ [] }
    {
        Window {
            buffer: [0; WINDOW_LEN],
            start: 0,
            end: 0,
        }
    }

    pub(crate) fn octets(&self) -> &[u8]
        ensures value { result.now ≡ self.now }
        ensures room { length self.now ≤ WINDOW_LEN }
    {
        &self.buffer[self.start..self.end]
    }

    pub(crate) fn drop_front(&mut self, count: usize)
        requires { count ≤ length self.old }
        ensures { self.new ≡ drop count self.old }
    {
        self.start += count;
    }

    // Reads once, into all the room that is left. Answers whether octets came.
    fn extend<R: Read>(&mut self, inlet: &mut Inlet<R>) -> Result<bool, Failed>
        requires room { length self.old < WINDOW_LEN }
        requires limit { inlet.old.came ≤ read_limit }
        requires failures { R.failures inlet.old.reader < u64.MAX }
        ensures fills { Fills R.gives R.failures inlet.old inlet.new self.old self.new result }
        ensures grows { Grows (length self.old) (length self.new) result }
    {
        self.buffer.copy_within(self.start..self.end, 0);
        self.end -= self.start;
        self.start = 0;
        let count = inlet.read(&mut self.buffer[self.end..])?;
        self.end += count;
        Ok(count > 0)
    }

    // Reads until it holds so many octets. Answers whether it does, or the file ended before.
    pub(crate) fn fill<R: Read>(
        &mut self,
        inlet: &mut Inlet<R>,
        wanted: usize,
    ) -> Result<bool, Failed>
        requires room { wanted ≤ WINDOW_LEN }
        requires limit { inlet.old.came ≤ read_limit }
        requires failures { R.failures inlet.old.reader < u64.MAX }
        ensures fills { Fills R.gives R.failures inlet.old inlet.new self.old self.new result }
        ensures enough { IsEnough wanted (length self.new) result }
        ensures room { length self.new ≤ WINDOW_LEN }
        // It doesn't read if they are at hand.
        ensures at_hand { wanted ≤ length self.old → inlet.new.reader ≡ inlet.old.reader }
    {
        while self.octets().len() < wanted {
            if !self.extend(inlet)? {
                return Ok(false);
            }
        }
        Ok(true)
    }
}
