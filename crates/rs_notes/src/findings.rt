//! What a run finds that is not clean: notes on the recorded files, and sessions that closed before the end of a file.
//!
//! Our choice: a run of which it isn't known whether it is clean isn't.

use crate::import_notes::add_filtered;
use crate::notes::{Notes, notes_of, notes_on, print_texts};
use crate::outlines::Outlines;
use crate::subject::{Close, Ending, Subject, Telling};
use rs_host::Strictness;
use rs_mrt::{Bounds, FileReading, Losses, Tail};
use rs_serve::{PeerEnd, Served};
use rs_session::{Reason, ReasonText, is_cut_short};
use rs_setup::Setup;
use std::alloc::{AllocError, Global};
use std::fs::Files;

// How many peers a line names.
const NAMED: usize = 8;

/// What a run finds that is not clean.
#[derive(Drop)]
pub struct Findings {
    notes: Notes,
    // The line on the sessions that closed before the end of their files: none if there is no such session, or memory
    // for the line was refused.
    closes: Option<String>,
    // How many such sessions there are.
    closed: usize,
}

impl Findings {
    /// What a run finds that is served so, of files that were read so. Outlines of the files are used if more is asked
    /// for than notes on likely mistakes.
    pub fn of<R: AllocGlobal + Files>(
        rt: &R,
        setup: &Setup,
        reading: FileReading,
        strict: Strictness,
        outlines: &Outlines,
        served: &Served,
    ) -> Findings {
        let alloc = rt.alloc();
        let notes = match endings_of(alloc, served) {
            Ok(endings) => notes(rt, setup, reading, strict, outlines, served, &endings),
            // A run of which nothing is known isn't clean.
            Err(_) => Notes {
                texts: Vec::new(alloc),
                any: true,
            },
        };
        let closed = count_closed(served);
        let closes = if closed == 0 {
            None
        } else {
            closes_line(alloc, served, closed).ok()
        };
        Findings {
            notes,
            closes,
            closed,
        }
    }

    /// Whether each session closed at the end of its file, and there is no note. If it isn't known whether there is one,
    /// since memory or a read was refused, it isn't so.
    pub fn is_clean(&self) -> bool {
        !self.notes.any && self.closed == 0
    }

    /// Prints the notes; if nothing was written, also why. Each line begins with the name of the program.
    pub fn print<R: Eprint>(&self, rt: &R, program: &str, is_written: bool) {
        print_texts(rt, program, &self.notes.texts);
        if is_written {
            return;
        }
        if let Some(closes) = &self.closes {
            let _ = eprintln!(rt; "{program}: {closes}");
        }
        let _ = eprintln!(rt; "{program}: not clean: no dump and no report is written");
    }
}

/// Outlines of the files, if notes need more than how the sessions end: with `--strict`, and if tails are left out.
pub fn outlines_for(alloc: Global, setup: &Setup, bounds: Bounds, strict: Strictness) -> Outlines {
    if needs_outlines(telling_by(strict), bounds.tail) {
        Outlines::within(alloc, setup, bounds)
    } else {
        Outlines::none(alloc, bounds)
    }
}

// Which notes are wanted of a run that is so strict.
fn telling_by(strict: Strictness) -> Telling {
    match strict {
        Strictness::Off => Telling::Mistakes,
        _ => Telling::All,
    }
}

// Whether these notes need more than how the sessions end, if files may end so.
fn needs_outlines(telling: Telling, tail: Tail) -> bool {
    telling == Telling::All || tail != Tail::Strict
}

// The notes. If only likely mistakes count, and no tail is left out, few files or none are read for them.
fn notes<R: AllocGlobal + Files>(
    rt: &R,
    setup: &Setup,
    reading: FileReading,
    strict: Strictness,
    outlines: &Outlines,
    served: &Served,
    endings: &[Ending],
) -> Notes {
    let bounds = reading.bounds;
    let telling = telling_by(strict);
    if !needs_outlines(telling, bounds.tail) {
        return notes_on(rt, setup, bounds, endings);
    }
    let subject = Subject {
        setup,
        bounds,
        endings: Some(endings),
        telling,
        inferred: reading.losses == Losses::Inferred,
    };
    let mut notes = notes_of(rt, subject, &outlines.contents(rt, setup));
    if telling == Telling::All {
        add_filtered(rt.alloc(), served.tables(), &mut notes);
    }
    notes
}

// How the session of each peer ended, for the notes.
fn endings_of(alloc: Global, served: &Served) -> Result<Vec<Ending>, AllocError> {
    served
        .ends()
        .iter()
        .map(|end| Ending {
            changes: end.changes,
            close: close_of(end.reason),
        })
        .collect(alloc)
}

// Where a session closed.
fn close_of(reason: Reason) -> Close {
    match reason {
        Reason::EndOfFile => Close::AtEnd,
        _ if is_cut_short(reason) => Close::WithinRecord,
        _ => Close::AtFault,
    }
}

// How many sessions closed before the end of their files.
fn count_closed(served: &Served) -> usize {
    let ends = served.ends().iter();
    ends.filter(|end| closes_early(end)).count()
}

// Whether a session closed before the end of its file.
fn closes_early(end: &PeerEnd) -> bool {
    end.reason != Reason::EndOfFile
}

// The line on the sessions that closed before the end of their files, of which there are so many.
fn closes_line(alloc: Global, served: &Served, closed: usize) -> Result<String, AllocError> {
    let tables = served.tables();
    let mut text = String::from_str(alloc, "closed before the end of its file:")?;
    let mut named: usize = 0;
    for (peer, end) in served.ends().iter().enumerate() {
        // There is a peer for each end: that it is below the count lets the prover name it.
        if named < NAMED && closes_early(end) && peer < tables.count() {
            let separator = if named == 0 { "" } else { "," };
            let (name, reason) = (&tables.plan().peer(peer).name, ReasonText(end.reason));
            write!(text, "{separator} peer {name} by {reason}")?;
            named += 1;
        }
    }
    if named < closed {
        let more = closed - named;
        write!(text, " and {more} more")?;
    }
    Ok(text)
}
