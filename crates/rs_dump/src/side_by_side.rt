//! Dumps that are written at the same time: what is read of a prefix for one client is still at hand when its row is
//! spelled for the next.
//!
//! Our choice: dumps are written on at most four threads, four or more of them on each, some rows of each in turn. If a
//! thread is refused, the calling thread writes them.

ghost use Rattle.std.specs.Prelude.{◌≡◌, ◌<◌, ℕ, length, slice_index_or};
ghost use Rattle.rs_dump.specs.SideBySide.{CanBegin, CanGo, Goes, IsWritten, IsWrittenFrom};

use crate::table_dump::TableDump;
use rs_mrt::Write;
use std::thread::{Threads, for_each_chunk_mut};

// On how many threads dumps are written at most.
const THREADS: usize = 4;

// How many dumps are written on one thread at least. The first of them waits for what is read of a prefix, and the
// others find it at hand.
const DUMPS_ON_A_THREAD: usize = 4;

/// A dump, and the writer that takes it.
#[derive(Drop)]
pub struct Writing<'a, W> {
    /// The dump.
    pub dump: TableDump<'a>,
    /// What takes its octets.
    pub out: W,
    /// Whether a write of it failed. Then no more of it is written.
    pub failed: bool,
}

/// Writes several dumps at the same time, each to its own writer, four or more of them on one thread. It flushes none.
///
/// Afterwards each dump is written whole, unless its writer failed; then a beginning of it is written.
pub fn write_side_by_side<T: Threads + Sync, W: Write + Send>(
    rt: &T,
    writings: &mut [Writing<'_, W>],
)
    requires { (k : ℕ) (d : Writing W) → k < length writings.old
        → CanBegin W.failures (slice_index_or writings.old k d) }
    ensures written { (k : ℕ) (d : Writing W) → k < length writings.old
        → IsWritten W.taken W.failures W.label (slice_index_or writings.old k d) (slice_index_or writings.new k d) }
    ensures count { length writings.new ≡ length writings.old }
{
    let write = |_first: usize, some: &mut [Writing<'_, W>]|
        requires { (k : ℕ) (d : Writing W) → k < length some.now → CanBegin W.failures (slice_index_or some.now k d) }
        ensures { (k : ℕ) (d : Writing W) → k < length some.entry.now
            → IsWritten W.taken W.failures W.label (slice_index_or some.entry.now k d)
            (slice_index_or some.exit.now k d) }
    { write_in_turns(some) };
    let on_a_thread = on_a_thread(writings.len());
    for_each_chunk_mut(rt, writings, on_a_thread, &write);
}

// How many of so many dumps are written on one thread.
fn on_a_thread(dumps: usize) -> usize
    ensures { 0 < result }
{
    dumps.div_ceil(THREADS).max(DUMPS_ON_A_THREAD)
}

// Writes dumps, some rows of each in turn.
fn write_in_turns<W: Write>(writings: &mut [Writing<'_, W>])
    requires { (k : ℕ) (d : Writing W) → k < length writings.old
        → CanBegin W.failures (slice_index_or writings.old k d) }
    ensures written { (k : ℕ) (d : Writing W) → k < length writings.old
        → IsWritten W.taken W.failures W.label (slice_index_or writings.old k d) (slice_index_or writings.new k d) }
    ensures count { length writings.new ≡ length writings.old }
{
    for _turn in 0..most_turns(writings) {
        write_turns(writings);
    }
    write_rests(writings);
}

// How many turns are written of each dump: at most as many as the longest dump has, perhaps without its last one.
// The last one is written behind them. There may also be more turns, which find no row.
fn most_turns<W>(writings: &[Writing<'_, W>]) -> usize {
    let mut most = 0;
    for writing in writings {
        most = most.max(writing.dump.most_turns());
    }
    most
}

// Writes a turn of each dump.
fn write_turns<W: Write>(writings: &mut [Writing<'_, W>])
    requires { (k : ℕ) (d : Writing W) → k < length writings.old → CanGo W.failures (slice_index_or writings.old k d) }
    ensures each { (k : ℕ) (d : Writing W) → k < length writings.old
        → Goes W.taken W.failures W.label (slice_index_or writings.old k d) (slice_index_or writings.new k d) }
    ensures count { length writings.new ≡ length writings.old }
{
    for number in 0..writings.len() {
        writings[number].write_turn();
    }
}

// Writes what is left of each dump.
fn write_rests<W: Write>(writings: &mut [Writing<'_, W>])
    requires { (k : ℕ) (d : Writing W) → k < length writings.old → CanGo W.failures (slice_index_or writings.old k d) }
    ensures each { (k : ℕ) (d : Writing W) → k < length writings.old
        → IsWrittenFrom W.taken W.failures W.label (slice_index_or writings.old k d) (slice_index_or writings.new k d) }
    ensures count { length writings.new ≡ length writings.old }
{
    for number in 0..writings.len() {
        writings[number].write_rest();
    }
}

impl<'a, W: Write> Writing<'a, W> {
    // Writes a turn, unless a write failed.
    fn write_turn(&mut self)
        requires { CanGo W.failures self.old }
        ensures { Goes W.taken W.failures W.label self.old self.new }
    {
        if !self.failed {
            match self.dump.write_turn(&mut self.out) {
                Ok(_) => {}
                Err(_) => self.failed = true,
            }
        }
    }

    // Writes what is left, unless a write failed.
    fn write_rest(&mut self)
        requires { CanGo W.failures self.old }
        ensures { IsWrittenFrom W.taken W.failures W.label self.old self.new }
    {
        if !self.failed {
            match self.dump.write_rest(&mut self.out) {
                Ok(()) => {}
                Err(_) => self.failed = true,
            }
        }
    }
}
