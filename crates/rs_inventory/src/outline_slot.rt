//! Where the outline of a file is put, once the file was read to its end.
//!
//! Our choice: a lock holds it, so that whoever reads the file only borrows the slot. A contract can't say anything of
//! what lies behind a lock.

use crate::file_outline::Outline;
use std::sync::Mutex;

/// Where the outline of a file is put, once the file was read to its end.
#[derive(Drop)]
pub struct OutlineSlot {
    outline: Mutex<Option<Outline>>,
}

impl OutlineSlot {
    /// No outline was put yet.
    pub fn empty() -> OutlineSlot {
        OutlineSlot {
            outline: Mutex::new(None),
        }
    }

    /// Takes the outline. There is none if the file wasn't read to its end, if memory was refused, or if it was taken
    /// before. Nobody reads the file meanwhile, so the lock is free.
    pub fn take(&self) -> Option<Outline> {
        let mut place = self.outline.try_lock()?;
        place.take()
    }

    // Puts the outline there. Nobody takes it meanwhile, so the lock is free.
    pub(crate) fn put(&self, outline: Outline) {
        if let Some(mut place) = self.outline.try_lock() {
            *place = Some(outline);
        }
    }
}
