//! The line on standard error.
//!
//! Our choices: a line that can't be written is left out. If two threads pass marks at once, the
//! lower one may be shown until the next.

use crate::amount::Amount;
use std::io::Stderr;
use std::sync::atomic::{AtomicBool, AtomicU64, Ordering};

/// How much of all files was read, shown on standard error in one line, whose place each later one
/// takes.
#[derive(Drop)]
pub struct Progress {
    // None if nothing is shown.
    to: Option<Stderr>,
    total: Option<u64>,
    read: AtomicU64,
    // Whether the line is there.
    shows: AtomicBool,
}

// Spaces, more than a line has characters.
const WIDTH: usize = 60;

impl Progress {
    /// Begins with no octet read. All files have `total` octets, if that is known. It shows nothing
    /// yet, and never if there is nothing to show it on.
    pub fn new(to: Option<Stderr>, total: Option<u64>) -> Progress {
        Progress {
            to,
            total,
            read: AtomicU64::new(0),
            shows: AtomicBool::new(false),
        }
    }

    /// Counts octets that were read, from any thread, and shows the line if they pass a mark.
    pub fn count(&self, octets: usize) {
        let Some(to) = &self.to else {
            return;
        };
        let octets = octets as u64;
        let before = self.read.fetch_add(octets, Ordering::SeqCst);
        let after = self.amount(before.saturating_add(octets));
        if self.amount(before).marks() < after.marks() {
            self.shows.store(true, Ordering::SeqCst);
            // The blank covers the last character of a line that was longer.
            let _ = eprint!(to; "\r{after} ");
        }
    }

    /// Takes the line away, if it is there. No thread may count meanwhile.
    pub fn clear(&self) {
        let Some(to) = &self.to else {
            return;
        };
        if self.shows.swap(false, Ordering::SeqCst) {
            let _ = eprint!(to; "\r{:1$}\r", "", WIDTH);
        }
    }

    // The amount that is shown if so many octets were read.
    fn amount(&self, read: u64) -> Amount {
        Amount {
            read,
            total: self.total,
        }
    }
}
