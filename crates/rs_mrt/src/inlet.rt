//! The octets that a reader of records takes from its reader, no more than a limit in all.

ghost use Rattle.std.specs.Prelude.{◌≡◌, ◌+◌, ◌-◌, ◌<◌, ◌≤◌, length, IfOk};
ghost use Rattle.rs_mrt.specs.RecordReading.{read_limit};
ghost use Rattle.rs_mrt.specs.Inflow.{Draws, Forgets, Skips, gave_some, given_of};

use crate::reader::Read;
use crate::stream::Failed;
use std::marker::Model;

/// How many octets a `RecordReader` takes from its reader in all (our choice).
pub const READ_LIMIT: u64 = 1_125_899_906_842_624;

// How many octets are passed over in one call.
const SKIP_LEN: usize = 4096;

/// A reader, and how many octets came of it.
#[derive(Drop)]
pub(crate) struct Inlet<R> {
    reader: R,
    came: u64,
}

impl<R> Model for Inlet<R> {
    ghost use Rattle.rs_mrt.specs.RecordReading.{Inflow};

    ghost Value = { Inflow R };

    ghost view = { λ i. record { reader = i.reader; came = i.came } };
}

impl<R> Inlet<R> {
    pub(crate) fn new(reader: R) -> Inlet<R>
        ensures { result ≡ record { reader = reader; came = 0 } }
    {
        Inlet { reader, came: 0 }
    }

    pub(crate) fn came(&self) -> u64
        ensures { result ≡ self.now.came }
    {
        self.came
    }
}

impl<R: Read> Inlet<R> {
    // Gives octets to the front of the piece, as the reader does. At the limit it fails, and doesn't ask.
    pub(crate) fn read(&mut self, into: &mut [u8]) -> Result<usize, Failed>
        requires some { 0 < length into.old }
        requires limit { self.old.came ≤ read_limit }
        requires failures { R.failures self.old.reader < u64.MAX }
        ensures bound { IfOk result (λ n. n ≤ length into.new) }
        ensures draws { Draws R.gives R.failures self.old self.new (given_of result into.new) (gave_some result) }
    {
        let left = READ_LIMIT - self.came;
        if left == 0 {
            return Err(Failed);
        }
        let most = into.len().min(left as usize);
        let count = self.reader.read(&mut into[..most])?;
        self.came += count as u64;
        Ok(count)
    }

    // Reads octets, at most so many, and forgets them. Answers how many they were.
    fn forget(&mut self, most: usize) -> Result<usize, Failed>
        requires some { 0 < most }
        requires limit { self.old.came ≤ read_limit }
        requires failures { R.failures self.old.reader < u64.MAX }
        ensures { Forgets R.gives R.failures self.old self.new most result }
    {
        let mut piece = [0; SKIP_LEN];
        self.read(&mut piece[..most.min(SKIP_LEN)])
    }

    // Reads so many octets and forgets them. Answers whether there were so many before the end of the file.
    pub(crate) fn skip(&mut self, count: usize) -> Result<bool, Failed>
        requires limit { self.old.came ≤ read_limit }
        requires failures { R.failures self.old.reader < u64.MAX }
        ensures { Skips R.gives R.failures self.old self.new count result }
    {
        let mut left = count;
        while left > 0 {
            let forgotten = self.forget(left)?;
            if forgotten == 0 {
                return Ok(false);
            }
            left -= forgotten;
        }
        Ok(true)
    }
}
