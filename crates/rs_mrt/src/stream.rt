//! What takes octets: a trait over std's, whose contract names the octets that were taken and counts the failed calls.
//!
//! Our choices: a value may tell which octets it has taken, as one over memory does, or tell nothing, as a device does.
//! It may have a label, which tells for what it was given.

ghost use Rattle.std.specs.Prelude.{◌≡◌, ◌+◌, ◌<◌, ◌≤◌, ℕ, List, None, Option, length, IfOk, OnOk, OnErr};
ghost use Rattle.std.specs.Io.KnownBytes.{Appends, WriteAppends};
ghost use Rattle.rs_mrt.specs.Stream.{failed_calls, AppendsBeginning};

use std::error::Error;
use std::marker::Model;
use std::{fmt, io};

/// A call that failed. The writer or the reader knows why, and its caller need not.
#[derive(Clone, Copy, Debug, PartialEq, Eq, Drop)]
pub struct Failed;

impl fmt::Display for Failed {
    fn fmt<W: fmt::Write>(&self, f: &mut fmt::Formatter<W>) -> fmt::Result {
        f.write_str("the call failed")
    }
}

impl Error for Failed {}

/// What takes octets.
pub trait Write {
    // The octets that it has taken, if it says so.
    ghost taken: { Self → Option (List ℕ) };

    // The name for which it was given, if it says so. No write changes the name.
    ghost label: { Self → Option (List ℕ) } = { λ _. None };

    // How many calls failed: answered an error, or took nothing of a piece that isn't empty.
    ghost failures: { Self → ℕ };

    /// Takes octets from the beginning of the piece and answers how many. If the call fails, it has taken none.
    fn write(&mut self, piece: &[u8]) -> Result<usize, Failed>
        requires { failures self.old < u64.MAX }
        ensures bound { IfOk result (λ n. n ≤ length piece.now) }
        ensures taken { WriteAppends (taken self.old) (taken self.new) result piece.now }
        ensures label { label self.new ≡ label self.old }
        ensures failures { failures self.new ≡ failures self.old + failed_calls result piece.now };
}

/// Writes all octets of the piece, in as many calls as the writer wants. If a call fails, a beginning of the piece
/// was written.
pub fn write_all<W: Write>(out: &mut W, piece: &[u8]) -> Result<(), Failed>
    requires { W.failures out.old < u64.MAX }
    ensures ok { OnOk result (Appends (W.taken out.old) (W.taken out.new) piece.now) }
    ensures ok_failures { OnOk result (W.failures out.new ≡ W.failures out.old) }
    ensures err { OnErr result (AppendsBeginning (W.taken out.old) (W.taken out.new) piece.now) }
    ensures err_failures { OnErr result (W.failures out.new ≡ W.failures out.old + 1) }
    ensures label { W.label out.new ≡ W.label out.old }
{
    let mut rest = piece;
    while !rest.is_empty() {
        match out.write(rest) {
            Ok(0) => return Err(Failed),
            Ok(count) => rest = &rest[count..],
            Err(failed) => return Err(failed),
        }
    }
    Ok(())
}

/// A writer of std as a writer of ours, as a file is. It tells of the octets that it has taken what that writer tells.
#[derive(Debug, Drop)]
pub struct IoWriter<W> {
    inner: W,
    failures: u64,
}

impl<W> Model for IoWriter<W> {
    ghost use Rattle.rs_mrt.specs.Device.{Device};

    ghost Value = { Device W };

    ghost view = { λ w. record { inner = w.inner; failures = w.failures } };
}

impl<W> IoWriter<W> {
    /// Begins with a writer of std; no call has failed.
    pub fn new(inner: W) -> IoWriter<W>
        ensures { result ≡ record { inner = inner; failures = 0 } }
    {
        IoWriter { inner, failures: 0 }
    }

    /// Gives the writer of std back.
    pub fn into_inner(self) -> W
        ensures { result ≡ self.inner }
    {
        self.inner
    }
}

impl<W: io::Write> Write for IoWriter<W> {
    ghost taken = { λ w. W.contents w.inner };

    ghost failures = { λ w. w.failures };

    fn write(&mut self, piece: &[u8]) -> Result<usize, Failed> {
        match self.inner.write(piece) {
            Ok(0) if !piece.is_empty() => {
                self.failures += 1;
                Ok(0)
            }
            Ok(count) => Ok(count),
            Err(_) => {
                self.failures += 1;
                Err(Failed)
            }
        }
    }
}
