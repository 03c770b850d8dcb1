//! A peer's recording: the files that are read as one.

ghost use Rattle.std.specs.Prelude.{◌≡◌, IfSome};
ghost use Rattle.rs_setup.specs.Recording.{IsRecordingOf, path_at};

use crate::setup::Setup;
use std::alloc::{AllocError, Global};
use std::fmt;

/// The files of a recording, by their paths. They are read in this order, as one file: a record may begin in one file and
/// end in the next. It is shown by the first and the last path.
#[derive(Clone, Copy, Debug, PartialEq, Eq, Drop)]
pub struct Recording<'a> {
    /// Those that are read before the last one.
    pub begin: &'a [String],
    /// The last one.
    pub file: &'a str,
}

impl<'a> Recording<'a> {
    /// The recording that is one file.
    pub fn of_file(file: &'a str) -> Recording<'a> {
        Recording { begin: &[], file }
    }

    /// The path of the file at a place: of the last one if there is none at that place.
    pub fn path(&self, place: usize) -> &'a str
        ensures { result.now ≡ path_at self.now place }
    {
        match self.begin.get(place) {
            Some(path) => path.as_str(),
            None => self.file,
        }
    }

    /// How many files there are.
    pub fn count(&self) -> usize {
        self.begin.len().saturating_add(1)
    }
}

impl fmt::Display for Recording<'_> {
    fn fmt<W: fmt::Write>(&self, f: &mut fmt::Formatter<W>) -> fmt::Result {
        match self.begin.first() {
            Some(first) => write!(f, "{first} to {}", self.file),
            None => f.write_str(self.file),
        }
    }
}

impl Setup {
    /// The recording of the peer of a number; none if there is no such peer.
    pub fn recording(&self, peer: usize) -> Option<Recording<'_>>
        ensures { IfSome result (IsRecordingOf self.now peer) }
    {
        let file = self.files.get(peer)?.as_str();
        let begin = match self.begins.get(peer) {
            Some(begin) => begin.as_slice(),
            None => &[],
        };
        Some(Recording { begin, file })
    }

    /// The recording of each peer, in the order of the peers.
    pub fn recordings(&self, alloc: Global) -> Result<Vec<Recording<'_>>, AllocError> {
        let mut recordings = Vec::new(alloc);
        for peer in 0..self.files.len() {
            if let Some(recording) = self.recording(peer) {
                recordings.push(recording)?;
            }
        }
        Ok(recordings)
    }
}
