//! A reader whose octets are counted.

ghost use Rattle.std.specs.Prelude.{◌≡◌};

use crate::progress::Progress;
use std::io;
use std::io::Read;
use std::marker::Model;

/// A reader whose octets are counted. It gives just what the reader gives, and a failed read counts nothing.
#[derive(Drop)]
pub struct Counted<'a, R> {
    inner: R,
    progress: &'a Progress,
}

impl<'a, R> Model for Counted<'a, R> {
    ghost Value = { R };

    ghost view = { λ counted. counted.inner };
}

impl<'a, R> Counted<'a, R> {
    /// Begins with a reader.
    pub fn new(inner: R, progress: &'a Progress) -> Counted<'a, R>
        ensures { result ≡ inner }
    {
        Counted { inner, progress }
    }
}

impl<'a, R: Read> Read for Counted<'a, R> {
    ghost remaining = { λ inner. R.remaining inner };

    fn read(&mut self, buf: &mut [u8]) -> io::Result<usize> {
        let count = self.inner.read(buf)?;
        self.progress.count(count);
        Ok(count)
    }
}
