//! The note on files of which a piece is probably missing: there is no record for a time while a session is up.
//!
//! Our choice: it tells of the first such time in the first such file, and how many more files there are. A file that
//! several recordings have counts once.

use crate::contents::Contents;
use crate::notes::Notes;
use rs_host::{Utc, on_one_line};
use rs_inventory::Silence;
use std::alloc::{AllocError, Global};

/// Adds the note, if there is such a file.
pub(crate) fn add_silence(alloc: Global, all: &[Contents<'_>], notes: &mut Notes) {
    let mut first = None;
    let mut paths = Vec::new(alloc);
    for contents in all {
        if let Some(silence) = contents.held.silence() {
            let (path, silence) = silence_in(contents, silence);
            first = first.or(Some((path, silence)));
            if !paths.contains(&path) {
                let _ = paths.push(path);
            }
        }
    }
    if let Some((path, silence)) = first {
        let more = paths.len().saturating_sub(1);
        notes.add(if more == 0 {
            silence_line(alloc, path, silence)
        } else {
            silence_lines(alloc, path, more, silence)
        });
    }
}

// In which file of a recording the time ends, and where there. If it isn't known at which octet, it is said of the whole
// recording.
fn silence_in<'b>(contents: &'b Contents<'_>, silence: Silence) -> (&'b str, Silence) {
    let Some(octet) = silence.octet else {
        return (contents.name.as_str(), silence);
    };
    let place = contents.locate(octet);
    let octet = Some(place.octet);
    (place.path, Silence { octet, ..silence })
}

// The text on one such file.
fn silence_line(alloc: Global, path: &str, silence: Silence) -> Result<String, AllocError> {
    let (path, text) = (on_one_line(alloc, path)?, silence_text(alloc, silence)?);
    format!(in alloc; "{path}: no record {text}, while sessions were up (a missing piece?)")
}

// The text on several such files: on the first one, and so many more.
fn silence_lines(
    alloc: Global,
    path: &str,
    more: usize,
    silence: Silence,
) -> Result<String, AllocError> {
    let (path, text) = (on_one_line(alloc, path)?, silence_text(alloc, silence)?);
    format!(in alloc;
        "{path} and {more} more: no record for a time, while sessions were up; in {path} {text} (missing pieces?)"
    )
}

// For how long no record came, and where.
fn silence_text(alloc: Global, silence: Silence) -> Result<String, AllocError> {
    let (seconds, from) = (silence.seconds, Utc(silence.from));
    match silence.octet {
        Some(octet) => format!(in alloc; "for {seconds} s from {from} UTC on, at octet {octet}"),
        None => {
            let records = silence.records;
            format!(in alloc; "for {seconds} s from {from} UTC on, behind {records} records")
        }
    }
}
