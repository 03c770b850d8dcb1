//! What gives octets: a trait over std's, whose contract names the octets that may come and counts the failed calls.
//!
//! Our choices: what may come is a relation. So it has a meaning for a file too, whose octets nobody knows before.
//! Every error is a failed call, also one after which std would let the caller try again.

ghost use Rattle.std.specs.Prelude.{◌≡◌, ◌+◌, ◌<◌, ◌≤◌, ℕ, List, length, IfOk};
ghost use Rattle.rs_mrt.specs.Reader.{ReadEnd, ReadGives, SomethingIsGiven, MayBeLeft, failed_reads, may_be_left};

use crate::stream::Failed;
use std::io;
use std::marker::Model;

/// What gives octets.
pub trait Read {
    // These octets may still come, and so they end.
    ghost gives: { Self → List ℕ → ReadEnd → Type 0 };

    // How many calls failed.
    ghost failures: { Self → ℕ };

    /// Puts octets into the beginning of the piece and answers how many. It answers 0 at the end of the file, or if
    /// the piece is empty. If the call fails, it has given no octets.
    fn read(&mut self, into: &mut [u8]) -> Result<usize, Failed>
        requires { failures self.old < u64.MAX }
        ensures bound { IfOk result (λ n. n ≤ length into.new) }
        ensures gives { ReadGives (gives self.old) (gives self.new) result into.new }
        ensures failures { failures self.new ≡ failures self.old + failed_reads result };

    // There is always something that may come.
    ghost may_come: { (reader : Self) → SomethingIsGiven (gives reader) };
}

/// A reader of std as a reader of ours, as a file is. It tells of the octets to come what that reader tells.
#[derive(Debug, Drop)]
pub struct IoReader<R> {
    inner: R,
    failures: u64,
}

impl<R> Model for IoReader<R> {
    ghost use Rattle.rs_mrt.specs.Device.{Device};

    ghost Value = { Device R };

    ghost view = { λ r. record { inner = r.inner; failures = r.failures } };
}

impl<R> IoReader<R> {
    /// Begins with a reader of std; no call has failed.
    pub fn new(inner: R) -> IoReader<R>
        ensures { result ≡ record { inner = inner; failures = 0 } }
    {
        IoReader { inner, failures: 0 }
    }

    /// Gives the reader of std back.
    pub fn into_inner(self) -> R
        ensures { result ≡ self.inner }
    {
        self.inner
    }
}

impl<R: io::Read> Read for IoReader<R> {
    ghost gives = { λ r. MayBeLeft (R.remaining r.inner) };

    ghost failures = { λ r. r.failures };

    ghost may_come = { λ r. may_be_left (R.remaining r.inner) };

    fn read(&mut self, into: &mut [u8]) -> Result<usize, Failed> {
        match self.inner.read(into) {
            Ok(count) => Ok(count),
            Err(_) => {
                self.failures += 1;
                Err(Failed)
            }
        }
    }
}
