//! A reader over memory, which tells what it will give. It can be made to give little at a time and to fail, for tests
//! of those who read.

ghost use Rattle.std.specs.Prelude.{◌≡◌, ◌+◌, ◌<◌, ◌≤◌, length, take, refl, min, max, Some, Option, IfOk};
ghost use Rattle.std.specs.Prelude.{MatchResult};
ghost use Rattle.rs_mrt.specs.Reader.{ReadGives, failed_reads};
ghost use Rattle.rs_mrt.specs.Memory.{fewer};
ghost use Rattle.rs_mrt.specs.MemoryReading.{Comes, after_read, amount_at, amount_given, once_failed, something_comes};
ghost use Rattle.rs_mrt.specs.MemoryReading.{sooner};

use crate::memory::fewer;
use crate::reader::Read;
use crate::stream::Failed;
use std::marker::Model;

/// When a reader over memory fails, and how much it gives.
#[derive(Clone, Copy, Debug, Drop)]
pub struct ReadLimits {
    /// How many calls go well before the one that fails; without a number none fails for this. Calls after it go well.
    pub calls_before_failure: Option<u64>,
    /// After how many octets a call fails; without a number none does. Calls after it go well.
    pub octets_before_failure: Option<usize>,
    /// How many octets are given in one call at most. 0 counts as 1, since a call that gives none is the end
    /// of the file.
    pub piece: usize,
}

impl ReadLimits {
    /// Gives no limit.
    pub fn none() -> ReadLimits
        ensures { result ≡ record { calls_before_failure = None; octets_before_failure = None; piece = usize.MAX } }
    {
        ReadLimits {
            calls_before_failure: None,
            octets_before_failure: None,
            piece: usize::MAX,
        }
    }
}

/// A reader that gives octets which are at hand.
#[derive(Debug, Drop)]
pub struct MemoryReader<'a> {
    left: &'a [u8],
    limits: ReadLimits,
    failures: u64,
}

impl<'a> Model for MemoryReader<'a> {
    ghost use Rattle.std.specs.Prelude.{max};
    ghost use Rattle.rs_mrt.specs.MemoryReading.{MemoryReading};

    ghost Value = { MemoryReading };

    ghost view = { λ r. record {
      left = r.left.now;
      calls = r.limits.calls_before_failure;
      before_failure = r.limits.octets_before_failure;
      most = max r.limits.piece 1;
      failures = r.failures;
    } };
}

impl<'a> MemoryReader<'a> {
    /// Begins at the first octet, within the limits.
    pub fn new(octets: &'a [u8], limits: ReadLimits) -> MemoryReader<'a>
        ensures { result ≡ record {
          left = octets.now;
          calls = limits.calls_before_failure;
          before_failure = limits.octets_before_failure;
          most = max limits.piece 1;
          failures = 0;
        } }
    {
        MemoryReader {
            left: octets,
            limits,
            failures: 0,
        }
    }
}

impl<'a> Read for MemoryReader<'a> {
    ghost gives = { λ r octets end. Comes r octets end };

    ghost failures = { λ r. r.failures };

    ghost may_come = { something_comes };

    fn read(&mut self, into: &mut [u8]) -> Result<usize, Failed>
        requires { self.old.failures < u64.MAX }
        ensures bound { IfOk result (λ n. n ≤ length into.new) }
        ensures gives { ReadGives (Comes self.old) (Comes self.new) result into.new }
        ensures failures { self.new.failures ≡ self.old.failures + failed_reads result }
        // It gives just this many, and just these.
        ensures amount { MatchResult result
            (λ n. amount_given self.old (length into.new) ≡ Some n)
            (λ _. amount_given self.old (length into.new) ≡ None) }
        ensures octets { IfOk result (λ n. take n into.new ≡ take n self.old.left) }
        ensures left { self.new ≡ after_read self.old result }
    {
        let wanted = into
            .len()
            .min(self.left.len())
            .min(self.limits.piece.max(1));
        let Some(count) = amount(&self.limits, wanted) else {
            count_failure(&mut self.limits);
            self.failures += 1;
            return Err(Failed);
        };
        let (given, left) = self.left.split_at(count);
        into[..count].copy_from_slice(given);
        self.left = left;
        count_call(&mut self.limits, count);
        Ok(count)
    }
}

// How many octets are given if so many are wanted; None if the call is to fail.
fn amount(limits: &ReadLimits, wanted: usize) -> Option<usize>
    ensures { result ≡ amount_at limits.now.calls_before_failure limits.now.octets_before_failure wanted }
{
    if limits.calls_before_failure == Some(0) {
        return None;
    }
    match limits.octets_before_failure {
        None => Some(wanted),
        Some(0) => None,
        Some(octets) => Some(wanted.min(octets)),
    }
}

// Counts a call that gave octets on the way to those that fail.
fn count_call(limits: &mut ReadLimits, count: usize)
    ensures calls { limits.new.calls_before_failure ≡ fewer limits.old.calls_before_failure }
    ensures octets { limits.new.octets_before_failure
        ≡ sooner limits.old.octets_before_failure count }
    ensures piece { limits.new.piece ≡ limits.old.piece }
{
    limits.calls_before_failure = fewer(limits.calls_before_failure);
    limits.octets_before_failure = limits
        .octets_before_failure
        .map(|octets| octets.saturating_sub(count));
}

// Counts a call that failed: it does so only once for each limit.
fn count_failure(limits: &mut ReadLimits)
    ensures calls { limits.new.calls_before_failure ≡ fewer limits.old.calls_before_failure }
    ensures octets { limits.new.octets_before_failure
        ≡ once_failed limits.old.calls_before_failure limits.old.octets_before_failure }
    ensures piece { limits.new.piece ≡ limits.old.piece }
{
    if limits.calls_before_failure != Some(0) {
        limits.octets_before_failure = None;
    }
    limits.calls_before_failure = fewer(limits.calls_before_failure);
}
