//! A writer that takes the line of a progress away first.

ghost use Rattle.std.specs.Prelude.{◌≡◌};

use crate::progress::Progress;
use std::io;
use std::io::Write;
use std::marker::Model;

/// A writer, as to the terminal on which a progress is shown: its line is taken away before anything is
/// written. It takes just what the writer takes.
#[derive(Drop)]
pub struct Cleared<'a, W> {
    inner: W,
    progress: &'a Progress,
}

impl<'a, W> Model for Cleared<'a, W> {
    ghost Value = { W };

    ghost view = { λ cleared. cleared.inner };
}

impl<'a, W> Cleared<'a, W> {
    /// Begins with a writer.
    pub fn new(inner: W, progress: &'a Progress) -> Cleared<'a, W>
        ensures { result ≡ inner }
    {
        Cleared { inner, progress }
    }
}

impl<'a, W: Write> Write for Cleared<'a, W> {
    ghost contents = { λ inner. W.contents inner };

    fn write(&mut self, buf: &[u8]) -> io::Result<usize> {
        self.progress.clear();
        self.inner.write(buf)
    }

    fn flush(&mut self) -> io::Result<()> {
        self.inner.flush()
    }
}
