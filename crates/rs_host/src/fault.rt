//! Why a file can't be read.

use std::io;
use std::io::ErrorKind;
use thiserror::Error;

/// Why a file can't be read.
#[derive(Clone, Copy, Debug, PartialEq, Eq, Drop, Error)]
pub enum FileFault {
    /// Memory was refused.
    #[error("memory was refused while a file was read")]
    Memory,
    /// The file can't be opened, a read failed, or it has too many octets.
    #[error("the file cannot be read whole")]
    Unread,
}

impl FileFault {
    // What an error of std says of a file.
    pub(crate) fn of(error: &io::Error) -> FileFault {
        match error.kind() {
            ErrorKind::OutOfMemory => FileFault::Memory,
            _ => FileFault::Unread,
        }
    }
}
