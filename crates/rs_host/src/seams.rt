//! Where the files of a recording begin in it.

use crate::file_identity::found_at;
use rs_setup::Recording;
use std::alloc::AllocError;
use std::fs::Files;

/// Where the files of a recording begin in it, by their lengths.
#[derive(Drop)]
pub struct Seams<'a> {
    recording: Recording<'a>,
    // How many octets the recording has up to the end of each file but the last.
    ends: Vec<u64>,
}

/// An octet of a file.
#[derive(Clone, Copy, Debug, PartialEq, Eq)]
pub struct FilePlace<'a> {
    /// The path of the file.
    pub path: &'a str,
    /// How many octets stand before it in the file.
    pub octet: u64,
}

impl<'a> Seams<'a> {
    /// Those of a recording. A file of which nothing is known counts as empty.
    pub fn of<R: AllocGlobal + Files>(
        rt: &R,
        recording: Recording<'a>,
    ) -> Result<Seams<'a>, AllocError> {
        let mut ends = Vec::new(rt.alloc());
        let mut end: u64 = 0;
        for path in recording.begin {
            if let Some(found) = found_at(rt, path)? {
                end = end.saturating_add(found.len());
            }
            ends.push(end)?;
        }
        Ok(Seams { recording, ends })
    }

    /// Where an octet of the recording stands.
    pub fn locate(&self, octet: u64) -> FilePlace<'a> {
        let mut start: u64 = 0;
        for (place, end) in self.ends.iter().enumerate() {
            if octet < *end {
                return FilePlace {
                    path: self.recording.path(place),
                    octet: octet.saturating_sub(start),
                };
            }
            start = *end;
        }
        FilePlace {
            path: self.recording.file,
            octet: octet.saturating_sub(start),
        }
    }
}
