//! A writer over memory, which tells what it has taken. It can be made to fail, for tests of those who write.

ghost use Rattle.std.specs.Prelude.{◌≡◌, ◌+◌, ◌<◌, ◌≤◌, Option, Some, length, IfOk};
ghost use Rattle.std.specs.Io.KnownBytes.{WriteAppends};
ghost use Rattle.rs_mrt.specs.Stream.{failed_calls};
ghost use Rattle.rs_mrt.specs.Memory.{limits_of, begun, amount_of, amount_within, after_call, after_write, fewer};

use crate::stream::{Failed, Write};
use std::alloc::Global;
use std::marker::Model;

/// When a writer over memory refuses octets.
#[derive(Clone, Copy, Debug, Drop)]
pub struct Limits {
    /// How many calls go well before the one that fails; without a number none fails for this. Calls after it go well.
    pub calls_before_failure: Option<u64>,
    /// How many octets are taken in all. Once these are there, a call with a piece that isn't empty fails.
    pub room: usize,
    /// How many octets are taken in one call.
    pub piece: usize,
}

impl Limits {
    /// Gives no limit but that of memory.
    pub fn none() -> Limits
        ensures { limits_of result ≡ record { before_failure = None; room = usize.MAX; piece = usize.MAX } }
    {
        Limits {
            calls_before_failure: None,
            room: usize::MAX,
            piece: usize::MAX,
        }
    }
}

/// A writer that keeps the octets which it takes.
#[derive(Debug, Drop)]
pub struct MemoryWriter {
    taken: Vec<u8>,
    failures: u64,
    limits: Limits,
}

impl Model for MemoryWriter {
    ghost use Rattle.rs_mrt.specs.Memory.{InMemory, limits_of};

    ghost Value = { InMemory };

    ghost view = { λ w. record { taken = w.taken.items; failures = w.failures; limits = limits_of w.limits } };
}

impl MemoryWriter {
    /// Begins with no octets, within the limits. It takes no memory yet.
    pub fn new(alloc: Global, limits: Limits) -> MemoryWriter
        ensures { result ≡ begun (limits_of limits) }
    {
        MemoryWriter {
            taken: Vec::new(alloc),
            failures: 0,
            limits,
        }
    }

    /// Shows the octets that it has taken.
    pub fn octets(&self) -> &[u8]
        ensures { result.now ≡ self.now.taken }
    {
        &self.taken
    }

    /// Gives the octets that it has taken.
    pub fn into_octets(self) -> Vec<u8>
        ensures { result.items ≡ self.taken }
    {
        self.taken
    }
}

impl Write for MemoryWriter {
    ghost taken = { λ w. Some w.taken };

    ghost failures = { λ w. w.failures };

    fn write(&mut self, piece: &[u8]) -> Result<usize, Failed>
        requires { self.old.failures < u64.MAX }
        ensures bound { IfOk result (λ n. n ≤ length piece.now) }
        ensures taken { WriteAppends (Some self.old.taken) (Some self.new.taken) result piece.now }
        ensures failures { self.new.failures ≡ self.old.failures + failed_calls result piece.now }
        // If memory isn't refused either, it takes just this many.
        ensures amount { IfOk result (λ n. amount_of self.old (length piece.now) ≡ Some n) }
        ensures left { self.new ≡ after_write self.old piece.now result }
    {
        let amount = amount(&self.limits, self.taken.len(), piece.len());
        count_call(&mut self.limits);
        match amount {
            Some(count) if self.taken.extend_from_slice(&piece[..count]).is_ok() => {
                if count == 0 && !piece.is_empty() {
                    self.failures += 1;
                }
                Ok(count)
            }
            _ => {
                self.failures += 1;
                Err(Failed)
            }
        }
    }
}

// How many octets of a piece are taken if so many were taken before; None if the call is to fail.
fn amount(limits: &Limits, taken: usize, piece: usize) -> Option<usize>
    ensures { result ≡ amount_within (limits_of limits.now) taken piece }
{
    if limits.calls_before_failure == Some(0) {
        return None;
    }
    let left = limits.room.saturating_sub(taken);
    if left == 0 && piece > 0 {
        return None;
    }
    Some(piece.min(limits.piece).min(left))
}

// Counts a call on the way to the one that fails.
fn count_call(limits: &mut Limits)
    ensures { limits_of limits.new ≡ after_call (limits_of limits.old) }
{
    limits.calls_before_failure = fewer(limits.calls_before_failure);
}

// How many calls go well before the one that fails, after one more.
pub(crate) fn fewer(calls_before_failure: Option<u64>) -> Option<u64>
    ensures { result ≡ fewer calls_before_failure }
{
    match calls_before_failure {
        Some(calls) if calls > 0 => Some(calls - 1),
        _ => None,
    }
}
