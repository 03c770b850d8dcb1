//! The notes on likely mistakes: a file of which nothing was kept, because it is of another format or has no record of
//! its peer; and a file that ends within a record.
//!
//! Our choices: a file that ends within a record counts once, however many peers name it. If all notes are wanted, those
//! on files that are empty or no MRT come first.

use crate::contents::Contents;
use crate::group::{Detail, Group, Told};
use crate::hint::Hint;
use crate::near::Near;
use crate::note::{advised_line, cut_line, cut_lines, empty_text, hint_text, near_text, note_line};
use crate::notes::Notes;
use crate::subject::{Close, Ending, Subject, Telling};
use crate::swapped::Pairs;
use rs_choice::PeerSpec;
use rs_inventory::PeerId;
use rs_mrt::{Cut, Tail};
use std::alloc::{AllocError, Global};

/// The notes on likely mistakes.
#[derive(Drop)]
pub(crate) struct Mistakes<'a> {
    // Peers whose files are of another format or empty, and whether there are such files.
    formats: Group<'a>,
    has_format: bool,
    has_empty: bool,
    // Peers of which their files have no record, and those among them whose AS numbers are swapped.
    strangers: Group<'a>,
    pub(crate) swapped: Pairs,
    // The paths of the files that end within a record, and where the first one does.
    cut: Vec<&'a str>,
    first: Option<Cut>,
}

impl<'a> Mistakes<'a> {
    /// No note yet.
    pub(crate) fn none(alloc: Global) -> Mistakes<'a> {
        Mistakes {
            formats: Group::none(alloc),
            has_format: false,
            has_empty: false,
            strangers: Group::none(alloc),
            swapped: Pairs::none(),
            cut: Vec::new(alloc),
            first: None,
        }
    }

    /// Takes what is probably wrong with the file of a peer. A peer of it may be meant.
    pub(crate) fn take_hint(
        &mut self,
        alloc: Global,
        spec: &'a PeerSpec,
        contents: &Contents<'_>,
        hint: Hint,
        near: Option<Near>,
    ) {
        let path = match hint {
            Hint::NotMrt(_) => contents.front.path,
            Hint::NoRecord { .. } => contents.name.as_str(),
        };
        let told = told_by(alloc, &spec.name, path, spec.peer_id(), hint, near);
        match hint {
            Hint::NotMrt(_) => {
                self.has_format = true;
                self.formats.add(&spec.name, told);
            }
            Hint::NoRecord { .. } => self.strangers.add(&spec.name, told),
        }
    }

    /// Takes a peer whose recording, which texts show so, is empty.
    pub(crate) fn take_empty(&mut self, alloc: Global, spec: &'a PeerSpec, path: &str) {
        self.has_empty = true;
        self.formats
            .add(&spec.name, empty_told(alloc, &spec.name, path));
    }

    /// Takes where a recording ends within a record, if it does, and its file wasn't taken before. The session of a peer
    /// ended so.
    pub(crate) fn take_cut(
        &mut self,
        subject: Subject<'_>,
        contents: &Contents<'a>,
        ending: Ending,
    ) {
        let tail = subject.bounds.tail;
        let Some(cut) = contents.cut else {
            return;
        };
        let place = contents.locate(cut.octet);
        if !may_be_cut(tail, ending.close) || self.cut.contains(&place.path) {
            return;
        }
        if self.first.is_none() {
            let octet = place.octet;
            self.first = Some(Cut { octet, ..cut });
        }
        let _ = self.cut.push(place.path);
    }

    /// Adds the notes. If all notes are wanted, that on a file which ends within a record says how it is cut there.
    pub(crate) fn add_to(&self, alloc: Global, subject: Subject<'_>, notes: &mut Notes) {
        notes.add_group(alloc, &self.formats, self.formats_text());
        let is_first = subject.telling != Telling::Mistakes && self.has_no_record();
        if is_first {
            self.add_cut(alloc, subject, notes);
        }
        notes.add_group(alloc, &self.strangers, "no record of them in their files");
        self.swapped.add_to(alloc, subject.setup, notes);
        if !is_first {
            self.add_cut(alloc, subject, notes);
        }
    }

    // What is said of several files that are of another format or empty.
    fn formats_text(&self) -> &'static str {
        match (self.has_format, self.has_empty) {
            (true, true) => "their files are empty or not uncompressed MRT",
            (false, true) => "their files are empty",
            _ => "their files are not uncompressed MRT",
        }
    }

    // Whether the first file that ends within a record has no whole one.
    fn has_no_record(&self) -> bool {
        match self.first {
            Some(cut) => cut.octet == 0,
            None => false,
        }
    }

    // Adds the note on the files that end within a record.
    fn add_cut(&self, alloc: Global, subject: Subject<'_>, notes: &mut Notes) {
        let (Some(path), Some(cut)) = (self.cut.first(), self.first) else {
            return;
        };
        let tail = subject.bounds.tail;
        let more = self.cut.len().saturating_sub(1);
        let line = if more > 0 {
            cut_lines(alloc, path, more, cut, tail)
        } else if subject.telling != Telling::Mistakes && cut.octet > 0 {
            advised_line(alloc, path, cut, tail)
        } else {
            cut_line(alloc, path, cut, tail)
        };
        match tail {
            Tail::Strict => notes.add(line),
            Tail::Lenient => notes.add_as_asked(line),
        }
    }
}

// The note on a peer whose file is empty.
fn empty_told(alloc: Global, name: &str, path: &str) -> Result<Told, AllocError> {
    let text = empty_text(alloc, path)?;
    Ok(Told {
        line: format!(in alloc; "peer {name}: {text}")?,
        detail: Detail::Whole(text),
    })
}

// The note on a peer whose file is probably the wrong one.
fn told_by(
    alloc: Global,
    name: &str,
    path: &str,
    peer: PeerId,
    hint: Hint,
    near: Option<Near>,
) -> Result<Told, AllocError> {
    let mut line = note_line(alloc, name, path, peer, hint)?;
    let mut text = hint_text(alloc, path, peer, hint)?;
    if let Some(near) = near {
        let meant = near_text(alloc, near)?;
        line.push_str(&meant)?;
        text.push_str(&meant)?;
    }
    Ok(Told {
        line,
        detail: Detail::Whole(text),
    })
}

// Whether a file may end within a record, if a session that was read with this tail closed so.
pub(crate) fn may_be_cut(tail: Tail, close: Close) -> bool {
    match tail {
        Tail::Strict => close == Close::WithinRecord,
        Tail::Lenient => close == Close::AtEnd,
    }
}
