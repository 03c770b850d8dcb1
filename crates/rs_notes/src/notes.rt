//! Notes on the recorded files of an exchange, at most one line for each kind. Likely mistakes come first: a file of
//! which nothing was kept, and one that ends within a record. Notes on what is lawful and yet suspicious come only on
//! demand.
//!
//! Our choices: a note that can't be made or written is left out, but it counts. If all notes are wanted, what isn't known
//! of a file counts as a note, too: memory or a read was refused. So a run that may have a note isn't taken for clean.

use crate::contents::{Contents, contents_of, has_files, read_contents};
use crate::doubts::Doubts;
use crate::exchange::add_exchange;
use crate::group::Group;
use crate::hint::Hint;
use crate::import_notes::add_empty_lists;
use crate::look::{Look, look_at};
use crate::mistakes::{Mistakes, may_be_cut};
use crate::subject::{Close, Ending, Subject, Telling};
use crate::unnamed::add_unnamed;
use rs_choice::PeerSpec;
use rs_inventory::Inventory;
use rs_mrt::{Bounds, Tail};
use rs_setup::Setup;
use std::alloc::{AllocError, Global};
use std::fs::Files;

/// How many changes a file gives of which nothing was kept: the close.
pub(crate) const CLOSE_ALONE: u64 = 1;

/// Notes, in their order.
#[derive(Drop)]
pub struct Notes {
    /// Their texts, without those for which memory was refused.
    pub texts: Vec<String>,
    /// Whether there is any, but for those on what was asked for: tails that are left out, and large communities that
    /// have no effect. One without a text counts. If all are wanted, so does one of which it isn't known whether it is
    /// due, since memory or a read was refused.
    pub any: bool,
}

impl Notes {
    /// No note.
    pub fn none(alloc: Global) -> Notes {
        Notes {
            texts: Vec::new(alloc),
            any: false,
        }
    }

    /// Adds one, if memory for its text isn't refused.
    pub(crate) fn add(&mut self, text: Result<String, AllocError>) {
        self.any = true;
        self.add_as_asked(text);
    }

    /// Adds one on what was asked for.
    pub(crate) fn add_as_asked(&mut self, text: Result<String, AllocError>) {
        if let Ok(text) = text {
            let _ = self.texts.push(text);
        }
    }

    /// Adds the one on a group of peers, if there is a peer, with the text on several of them.
    pub(crate) fn add_group(&mut self, alloc: Global, group: &Group<'_>, several: &str) {
        self.any = self.any || !group.is_empty();
        self.add_group_as_asked(alloc, group, several);
    }

    /// Adds the one on a group of peers, if there is a peer. If memory for the text on several of them was refused, it
    /// has no text, and counts.
    pub(crate) fn add_group_with(
        &mut self,
        alloc: Global,
        group: &Group<'_>,
        several: Result<String, AllocError>,
    ) {
        self.any = self.any || !group.is_empty();
        if let Ok(several) = several {
            self.add_group_as_asked(alloc, group, &several);
        }
    }

    /// Adds the one on a group of peers that have what was asked for, if there is a peer.
    pub(crate) fn add_group_as_asked(&mut self, alloc: Global, group: &Group<'_>, several: &str) {
        if group.is_empty() {
            return;
        }
        if let Ok(Some(line)) = group.line(alloc, several) {
            let _ = self.texts.push(line);
        }
    }
}

/// Prints the texts of notes, a line each, with the name of the program in front.
pub fn print_texts<R: Eprint>(rt: &R, program: &str, texts: &[String]) {
    for text in texts {
        let _ = eprintln!(rt; "{program}: note: {text}");
    }
}

/// The notes on likely mistakes in the recorded files of an exchange, of which no outlines were made. Only the files are
/// read again that may have one: those of which nothing was kept, and those that may end within a record.
pub fn notes_on<R: AllocGlobal + Files>(
    rt: &R,
    setup: &Setup,
    bounds: Bounds,
    endings: &[Ending],
) -> Notes {
    let mut all = Vec::new(rt.alloc());
    for (peer, ending) in endings.iter().enumerate() {
        let Some(recording) = setup.recording(peer) else {
            break;
        };
        if may_be_mistaken(bounds.tail, *ending) && contents_of(&all, recording).is_none() {
            if let Ok(contents) = read_contents(rt, setup, recording, bounds) {
                let _ = all.push(contents);
            }
        }
    }
    let subject = Subject {
        setup,
        bounds,
        endings: Some(endings),
        telling: Telling::Mistakes,
        inferred: false,
    };
    notes_of(rt, subject, &all)
}

// Whether a file of which a session ended so may have a note on a likely mistake.
fn may_be_mistaken(tail: Tail, ending: Ending) -> bool {
    ending.changes == CLOSE_ALONE || may_be_cut(tail, ending.close)
}

/// The notes on the recorded files of an exchange, of which it is known what they hold within these bounds. If all are
/// wanted, a file of which nothing is known counts as a note, but for one that gives its octets only once.
pub fn notes_of<R: AllocGlobal + Files>(
    rt: &R,
    subject: Subject<'_>,
    all: &[Contents<'_>],
) -> Notes {
    let alloc = rt.alloc();
    let setup = subject.setup;
    let mut told = ByPeer::none(alloc);
    for peer in 0..setup.plan.count() {
        let Some(recording) = setup.recording(peer) else {
            break;
        };
        if let Some(contents) = contents_of(all, recording) {
            if let Some(ending) = ending_of(subject.endings, peer, &contents.held) {
                told.take(rt, subject, all, peer, contents, ending);
            }
        } else if subject.telling != Telling::Mistakes && has_files(rt, recording).unwrap_or(true) {
            // It has no pipe, or memory to see that is refused.
            told.is_unknown = true;
        }
    }
    let mut notes = Notes::none(alloc);
    notes.any = told.is_unknown;
    told.mistakes.add_to(alloc, subject, &mut notes);
    if subject.telling != Telling::Mistakes {
        told.doubts.add_to(alloc, subject, &mut notes);
        add_unnamed(alloc, subject, all, &mut notes);
        add_empty_lists(alloc, setup, &mut notes);
        add_exchange(alloc, setup, all, &mut notes);
    }
    notes
}

// The notes on peers.
#[derive(Drop)]
struct ByPeer<'a> {
    mistakes: Mistakes<'a>,
    doubts: Doubts<'a>,
    // Whether it isn't known of some peer which notes are due.
    is_unknown: bool,
}

impl<'a> ByPeer<'a> {
    // No note yet.
    fn none(alloc: Global) -> ByPeer<'a> {
        ByPeer {
            mistakes: Mistakes::none(alloc),
            doubts: Doubts::none(alloc),
            is_unknown: false,
        }
    }

    // Takes the notes on the peer of a number, whose session ended so.
    fn take<R: AllocGlobal + Files>(
        &mut self,
        rt: &R,
        subject: Subject<'a>,
        all: &[Contents<'_>],
        peer: usize,
        contents: &Contents<'a>,
        ending: Ending,
    ) {
        let alloc = rt.alloc();
        let setup = subject.setup;
        if peer >= setup.plan.count() {
            return;
        }
        let spec = setup.plan.peer(peer);
        if ending.changes == CLOSE_ALONE || has_compressed_file(contents) {
            let look = look_at(rt, subject, spec, contents);
            let is_swapped = is_of_others(look) && self.mistakes.swapped.take(setup, all, peer);
            if !is_swapped {
                self.take_look(alloc, subject, spec, contents, look);
            }
            if let Look::Wrong(_, _) = look {
                return;
            }
        }
        self.mistakes.take_cut(subject, contents, ending);
        if subject.telling == Telling::Mistakes {
            return;
        }
        let unread = contents.unread.of(spec.peer_id());
        self.doubts.take_unread(alloc, subject, spec, unread);
        self.doubts
            .take_sessions(alloc, subject, spec, contents, ending);
    }

    // Takes what the recording of a peer shows, of which nothing was kept, or of which a file is compressed.
    fn take_look(
        &mut self,
        alloc: Global,
        subject: Subject<'a>,
        spec: &'a PeerSpec,
        contents: &Contents<'_>,
        look: Look,
    ) {
        match look {
            Look::Wrong(hint, near) => self.mistakes.take_hint(alloc, spec, contents, hint, near),
            Look::Later(first) => {
                self.doubts
                    .take_later(alloc, spec, subject.bounds.until, first)
            }
            Look::Empty if subject.telling != Telling::Mistakes => {
                self.mistakes.take_empty(alloc, spec, &contents.name)
            }
            Look::Empty => {}
            Look::Unknown => self.is_unknown = true,
            Look::Plain => {}
        }
    }
}

// Whether a file of a recording is compressed, though another one isn't. Then records of that one may be kept.
fn has_compressed_file(contents: &Contents<'_>) -> bool {
    contents.recording.count() > 1 && contents.held.compression().is_some()
}

// Whether a file has records, and all of them are of others.
fn is_of_others(look: Look) -> bool {
    matches!(look, Look::Wrong(Hint::NoRecord { .. }, _))
}

// How the session of a peer ended, if something may be noted of it.
fn ending_of(endings: Option<&[Ending]>, peer: usize, held: &Inventory) -> Option<Ending> {
    match endings {
        Some(endings) => endings.get(peer).copied(),
        None => Some(Ending {
            changes: CLOSE_ALONE,
            close: match held.end() {
                Some(_) => Close::WithinRecord,
                None => Close::AtEnd,
            },
        }),
    }
}
