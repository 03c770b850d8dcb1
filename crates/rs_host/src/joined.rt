//! The octets of a recording: those of its files, one behind the other.
//!
//! Our choice: a file is opened when the one before it has ended, so each reader has one file open.

use crate::fault::FileFault;
use crate::reached::Reached;
use crate::recorded::open;
use rs_setup::Recording;
use std::fs::{File, Files};
use std::io;
use std::io::Read;

/// The octets of a recording.
#[derive(Drop)]
pub struct Joined<'a, R: Files> {
    rt: &'a R,
    recording: Recording<'a>,
    reached: Option<&'a Reached>,
    // The place of the file that is read, and the file.
    place: usize,
    file: R::File,
}

impl<'a, R: Files> Joined<'a, R> {
    /// Opens the first file of a recording, and reads nothing yet. How far the reading comes is noted, if there is a
    /// place for that. Fails as `open` does.
    pub fn open(
        rt: &'a R,
        recording: Recording<'a>,
        reached: Option<&'a Reached>,
    ) -> Result<Joined<'a, R>, FileFault> {
        let file = open(rt, recording.path(0))?;
        Ok(Joined {
            rt,
            recording,
            reached,
            place: 0,
            file,
        })
    }

    // Opens the file at a place. It counts as reached even if it can't be opened.
    fn open_at(&mut self, place: usize) -> io::Result<()> {
        self.place = place;
        if let Some(reached) = self.reached {
            reached.set(place);
        }
        self.file = File::open(self.rt, self.recording.path(place))?;
        Ok(())
    }
}

impl<R: Files> Read for Joined<'_, R> {
    fn read(&mut self, buf: &mut [u8]) -> io::Result<usize> {
        let mut count = self.file.read(buf)?;
        for place in self.place.saturating_add(1)..self.recording.count() {
            if count > 0 || buf.is_empty() {
                break;
            }
            self.open_at(place)?;
            count = self.file.read(buf)?;
        }
        Ok(count)
    }
}
