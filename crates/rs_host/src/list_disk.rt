//! The configuration of an exchange and the lists that it names, which stand in files on a disk.
//!
//! Our choice: a file that gives its octets only once, as a pipe does, can't be read again. It would give none then,
//! and a list without an entry is lawful.

ghost use Rattle.std.specs.Prelude.{⊤};

use crate::fault::FileFault;
use crate::file_identity::FileIdentity;
use crate::read_once::read_once_at;
use crate::whole::read_file;
use rs_setup::ListFiles;
use std::alloc::{AllocError, Global};
use std::cell::RefCell;
use std::fs::Files;

/// The files on a disk. Nothing is known of their octets.
#[derive(Drop)]
pub(crate) struct Disk<'a, R> {
    /// The machine.
    pub(crate) rt: &'a R,
    // Those that were read and give their octets only once.
    read_once: RefCell<Vec<FileIdentity>>,
}

impl<'a, R: AllocGlobal + Files> Disk<'a, R> {
    /// The files on a disk, of which none was read.
    pub(crate) fn new(rt: &'a R) -> Disk<'a, R> {
        Disk {
            rt,
            read_once: RefCell::new(Vec::new(rt.alloc())),
        }
    }

    /// Reads the file at a path whole, as `read_file` does. Fails with `Unread` if it was read before and gives its
    /// octets only once.
    pub(crate) fn read(&self, path: &str) -> Result<Vec<u8>, FileFault> {
        match self.may_read(path) {
            Ok(true) => read_file(self.rt, path),
            Ok(false) => Err(FileFault::Unread),
            Err(_) => Err(FileFault::Memory),
        }
    }

    /// Counts the file at a path as read, by another call than `read`.
    pub(crate) fn count_as_read(&self, path: &str) -> Result<(), AllocError> {
        let _ = self.may_read(path)?;
        Ok(())
    }

    // Whether the file at a path may be read. It then counts as read.
    fn may_read(&self, path: &str) -> Result<bool, AllocError> {
        let Some(file) = read_once_at(self.rt, path)? else {
            return Ok(true);
        };
        // Nobody else borrows them meanwhile.
        let Ok(mut read_once) = self.read_once.try_borrow_mut() else {
            return Ok(false);
        };
        if read_once.contains(&file) {
            return Ok(false);
        }
        read_once.push(file)?;
        Ok(true)
    }

    /// The first of these paths at which there is a file that was read and gives its octets only once.
    pub(crate) fn first_read<'p>(
        &self,
        paths: &'p [String],
    ) -> Result<Option<&'p str>, AllocError> {
        for path in paths {
            if self.was_read(path)? {
                return Ok(Some(path));
            }
        }
        Ok(None)
    }

    // Whether the file at a path was read and gives its octets only once.
    fn was_read(&self, path: &str) -> Result<bool, AllocError> {
        match (read_once_at(self.rt, path)?, self.read_once.try_borrow()) {
            (Some(file), Ok(read_once)) => Ok(read_once.contains(&file)),
            _ => Ok(false),
        }
    }
}

impl<R: AllocGlobal + Files> ListFiles for Disk<'_, R> {
    ghost holds = { λ _ _ _. ⊤ };

    fn octets(&self, _alloc: Global, path: &str) -> Result<Option<Vec<u8>>, AllocError> {
        match self.read(path) {
            Ok(octets) => Ok(Some(octets)),
            Err(FileFault::Unread) => Ok(None),
            Err(FileFault::Memory) => Err(AllocError),
        }
    }
}
