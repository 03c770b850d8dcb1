//! How far a recording was read: the file that is read.

ghost use Rattle.std.specs.Prelude.{◌≡◌, ℕ};
ghost use Rattle.rs_host.specs.Unready.{NamesFileOf};
ghost use Rattle.rs_setup.specs.Recording.{path_at};

use crate::unready::Unready;
use rs_setup::{Recording, Setup};
use std::alloc::{AllocError, Global};
use std::sync::atomic::{AtomicUsize, Ordering};

/// Which file of a recording is read. It stands where whoever reads only borrows it, and still tells of a read that
/// failed.
#[derive(Drop)]
pub struct Reached {
    place: AtomicUsize,
}

impl Reached {
    /// The first file.
    pub fn first() -> Reached {
        Reached {
            place: AtomicUsize::new(0),
        }
    }

    /// The first file of the recording of each peer of a setup.
    pub fn first_of_each(alloc: Global, setup: &Setup) -> Result<Vec<Reached>, AllocError> {
        let mut all = Vec::with_capacity(alloc, setup.files.len())?;
        for _ in &setup.files {
            all.push(Reached::first())?;
        }
        Ok(all)
    }

    /// The path of the file of a recording that is read.
    pub fn path<'a>(&self, recording: Recording<'a>) -> &'a str
        ensures { (place : ℕ) × (result.now ≡ path_at recording.entry place) }
    {
        recording.path(self.place.load(Ordering::SeqCst))
    }

    // Goes on to the file at a place.
    pub(crate) fn set(&self, place: usize) {
        self.place.store(place, Ordering::SeqCst);
    }
}

/// Why a program ends if a read of the recording of a peer failed: the file that was read is named, unless memory for that
/// is refused.
pub fn unread_at(alloc: Global, setup: &Setup, reached: &[Reached], peer: usize) -> Unready
    ensures { NamesFileOf setup.now peer result }
{
    let Some(recording) = setup.recording(peer) else {
        return Unready::Memory;
    };
    Unready::by_path(alloc, path_at(reached.get(peer), recording))
}

// The path of the file of a recording that is read: of the first one if it isn't known how far it was read.
fn path_at<'a>(reached: Option<&Reached>, recording: Recording<'a>) -> &'a str
    ensures { (place : ℕ) × (result.now ≡ path_at recording.entry place) }
{
    match reached {
        Some(reached) => reached.path(recording),
        None => recording.path(0),
    }
}
