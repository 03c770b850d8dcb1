//! Files that are written whole or not at all: to a part file beside their place, which then takes that place.

use std::alloc::{AllocError, Global};
use std::fs;
use std::fs::Files;
use std::io::ErrorKind;

/// Whether a file with this place is written to a part file: nothing is known to be there, or a file is. What else
/// stands there, such as a link, a pipe or a device, is opened itself.
pub fn takes_part_file<R: Files>(rt: &R, place: &str) -> Result<bool, AllocError> {
    match fs::symlink_metadata(rt, place) {
        Ok(found) => Ok(found.is_file()),
        Err(error) if error.kind() == ErrorKind::OutOfMemory => Err(AllocError),
        Err(_) => Ok(true),
    }
}

/// The path of the part file of the file with this place.
pub fn part_path(alloc: Global, place: &str) -> Result<String, AllocError> {
    match place.rsplit_once('/') {
        Some((folder, name)) => format!(in alloc; "{folder}/.{name}.part"),
        None => format!(in alloc; ".{place}.part"),
    }
}
