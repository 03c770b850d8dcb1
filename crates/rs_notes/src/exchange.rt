//! The notes on an exchange as a whole: recorded files in which times go back or a piece is missing, a subnet in which
//! nobody is, and a server that no record names.
//!
//! Our choice: a server gets its note only if messages are recorded and each file could be read again.

use crate::contents::{Contents, contents_of};
use crate::note::{back_line, back_lines, server_line, subnet_line};
use crate::notes::Notes;
use crate::silent::add_silence;
use rs_inventory::{Back, PeerId};
use rs_setup::{Recording, Setup};
use rs_types::Prefix;
use std::alloc::Global;

/// Adds the notes.
pub(crate) fn add_exchange(alloc: Global, setup: &Setup, all: &[Contents<'_>], notes: &mut Notes) {
    add_back(alloc, all, notes);
    add_silence(alloc, all, notes);
    if let Some(subnet) = setup.plan.local().subnet {
        if is_deserted(setup, subnet) {
            notes.add(subnet_line(alloc, subnet));
        }
    }
    let server = setup.plan.local().peer_id();
    if let Some((path, recorder)) = first_recorder(all) {
        if is_unnamed(setup, all) {
            notes.add(server_line(alloc, server, path, recorder));
        }
    }
}

// Adds the note on files in which times go back: where they do in the first one, and how many more there are. A file
// that several recordings have counts once.
fn add_back(alloc: Global, all: &[Contents<'_>], notes: &mut Notes) {
    let mut first = None;
    let mut paths = Vec::new(alloc);
    for contents in all {
        if let Some(back) = contents.held.back() {
            let (path, back) = back_in(contents, back);
            first = first.or(Some((path, back)));
            if !paths.contains(&path) {
                let _ = paths.push(path);
            }
        }
    }
    if let Some((path, back)) = first {
        let more = paths.len().saturating_sub(1);
        notes.add(if more == 0 {
            back_line(alloc, path, back)
        } else {
            back_lines(alloc, path, more, back)
        });
    }
}

// In which file of a recording times go back, and where there. If it isn't known at which octet, it is said of the whole
// recording.
fn back_in<'b>(contents: &'b Contents<'_>, back: Back) -> (&'b str, Back) {
    let Some(octet) = back.octet else {
        return (contents.name.as_str(), back);
    };
    let place = contents.locate(octet);
    let octet = Some(place.octet);
    (place.path, Back { octet, ..back })
}

// Whether neither the server nor any peer is in a subnet.
fn is_deserted(setup: &Setup, subnet: Prefix) -> bool {
    if is_inside(subnet, setup.plan.local().address) {
        return false;
    }
    for peer in 0..setup.plan.count() {
        if is_inside(subnet, setup.plan.peer(peer).address) {
            return false;
        }
    }
    true
}

// Whether an address is inside a subnet.
fn is_inside(subnet: Prefix, address: u32) -> bool {
    match Prefix::new(address, subnet.len()) {
        Some(network) => network.address() == subnet.address(),
        None => false,
    }
}

// Whether no message of the files names the server as its recorder. If a file could not be read again, nothing is known
// of its messages.
fn is_unnamed(setup: &Setup, all: &[Contents<'_>]) -> bool {
    (0..setup.files.len()).all(|peer| match setup.recording(peer) {
        Some(recording) => is_unnamed_in(all, recording),
        None => true,
    })
}

// Whether it is known that no message of a recording names the server.
fn is_unnamed_in(all: &[Contents<'_>], recording: Recording<'_>) -> bool {
    match contents_of(all, recording) {
        Some(contents) => !contents.names_server,
        None => false,
    }
}

// The first recording in which a recorder is named, and the first one there.
fn first_recorder<'b>(all: &'b [Contents<'_>]) -> Option<(&'b str, PeerId)> {
    for contents in all {
        if let Some(recorder) = contents.held.recorder() {
            return Some((contents.name.as_str(), recorder));
        }
    }
    None
}
