//! Which file a path names.
//!
//! Our choice: a file is known by its device and its number there, so that another path to it, or a link, is seen too.

use std::alloc::AllocError;
use std::fs;
use std::fs::{Files, Metadata};
use std::io::ErrorKind;
use std::os::unix::fs::MetadataExt;

/// A file, by its device and its number there.
#[derive(Clone, Copy, PartialEq, Eq, Drop)]
pub struct FileIdentity {
    device: u64,
    number: u64,
}

impl FileIdentity {
    /// The file that has this metadata.
    pub fn of(found: &Metadata) -> FileIdentity {
        FileIdentity {
            device: found.dev(),
            number: found.ino(),
        }
    }
}

/// What the path names; none if nothing is there, or if nothing is known of it.
pub fn found_at<R: Files>(rt: &R, path: &str) -> Result<Option<Metadata>, AllocError> {
    match fs::metadata(rt, path) {
        Ok(found) => Ok(Some(found)),
        Err(error) if error.kind() == ErrorKind::OutOfMemory => Err(AllocError),
        Err(_) => Ok(None),
    }
}
