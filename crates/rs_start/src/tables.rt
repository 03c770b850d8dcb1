//! The tables of a file, and which of them is taken.
//!
//! RFC 6396, section 4.3, has one table in a file. BIRD 2 appends a whole one each period. Our choice: the last whole one is
//! taken, or the last whole one up to a time.

ghost use Rattle.std.specs.Prelude.{IfOk};
ghost use Rattle.rs_start.specs.Tables.{IsLastUntil, ReadsTables, times_to_take};

use crate::fault::TableFault;
use crate::part::{Part, part_by};
use crate::table_reader::TableReader;
use rs_mrt::Read;

/// The tables of a file.
#[derive(Drop)]
pub struct Tables {
    /// The time of each, in seconds since 1970: the Timestamp of its index. Tables are in the order of the file.
    pub times: Vec<u32>,
    /// Whether the last one is whole: the file ends behind a record.
    pub whole: bool,
}

impl Tables {
    /// The place, counted from 0, of the last table that is whole and not later than a time; none if all are later. An only
    /// table counts as whole.
    pub fn last_until(&self, until: u32) -> Option<usize>
        ensures { IsLastUntil (times_to_take self.now.times.items self.now.whole) until result }
    {
        let times = &self.times;
        if self.whole || times.len() == 1 {
            return place_until(times, until);
        }
        place_until(&times[..times.len().saturating_sub(1)], until)
    }
}

// The place of the last time that is not later than another one.
fn place_until(times: &[u32], until: u32) -> Option<usize>
    ensures { IsLastUntil times.now until result }
{
    let mut last = None;
    for place in 0..times.len() {
        if times[place] <= until {
            last = Some(place);
        }
    }
    last
}

impl<R: Read> TableReader<R> {
    /// Reads the file to its end, or to a record that is cut short or too long, and answers which tables are whole.
    ///
    /// `Read` comes where a read fails, `Memory` where memory is refused.
    pub fn read_tables(&mut self) -> Result<Tables, TableFault>
        ensures { IfOk result (λ tables. ReadsTables R.gives self.old tables.times.items tables.whole) }
    {
        let mut times = Vec::new(self.alloc);
        for _record in 0..u64::MAX {
            let head = match self.next() {
                Ok(Some(head)) => head,
                Ok(None) => return Ok(Tables { times, whole: true }),
                Err(TableFault::Broken { at: _, what: _ }) => {
                    return Ok(Tables {
                        times,
                        whole: false,
                    });
                }
                Err(fault) => return Err(fault),
            };
            if let Part::Index = part_by(head.kind, head.subtype) {
                times.push(head.time)?;
            }
        }
        Err(TableFault::Read)
    }
}
