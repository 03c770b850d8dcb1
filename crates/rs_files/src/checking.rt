//! What a run over a configuration would meet: why it would be refused, which files can't be read, what files hold of
//! each peer, where sessions close, and the notes.
//!
//! Our choices: each file is read twice, however many peers name it: for its outline, and for what its messages say. It
//! is read once more for each of its sessions that may close before its end. It is read within the bounds and by the
//! standard of the run, and the notes are those of the run. Only if import policy is configured, the tables of the run
//! are built too, for the note on peers of whose routes every one is filtered. That needs each file once more, so there
//! is no such note if a file gives its octets only once. What was asked for, as a tail that is left out, has its note
//! and is no reason for a status.

ghost use Rattle.std.specs.Prelude.{◌≡◌, length};

use crate::checked_peer::add_peer;
use crate::import_lines::add_import;
use crate::recordings::inventory_at;
use crate::refused::refusal_text;
use crate::unreadable::unreadable_text;
use rs_glass_shell::{Reply, Unanswered, served_as_checked};
use rs_host::{DONE, FAILED, NOT_CLEAN, REFUSED, Unready, configuration_of, read_file};
use rs_mrt::{Bounds, Losses};
use rs_notes::{
    Close, Contents, Ending, Notes, Subject, Telling, add_filtered, add_unconfigured, contents_of,
    has_files, notes_of, read_contents,
};
use rs_query::CheckQuery;
use rs_setup::{Recording, Setup, SetupFault};
use std::alloc::{AllocError, Global};
use std::env::Env;
use std::fs::Files;
use std::sync::Wait;
use std::thread::Threads;

// How many changes a peer is assumed to have, so that it may get a note.
const CLOSE_ALONE: u64 = 1;

/// Tells what a run over a configuration would meet that reads its files within bounds and by a standard. The status is
/// 0 if the run would be clean. It is 1 if the configuration or a list would be refused, and 2 if a file would fail. It
/// is 5 if a session would close before the end of its file, or if there would be a note. A note on what was asked for
/// doesn't count.
pub fn check<R: AllocGlobal + Files + Env + Threads + Wait + Sync>(
    rt: &R,
    query: &CheckQuery,
) -> Result<Reply, Unanswered>
where
    R::File: Send,
    R::Dir: Send,
{
    let alloc = rt.alloc();
    let path = query.config.as_str();
    let octets = match read_file(rt, path) {
        Ok(octets) => octets,
        Err(fault) => return Err(Unanswered::from(Unready::by_file(alloc, fault, path))),
    };
    match configuration_of(rt, path, &octets) {
        Ok(setup) => check_files(rt, &setup, query),
        Err(Unready::Setup(SetupFault::Memory)) => Err(Unanswered::Memory),
        Err(Unready::Setup(fault)) => Ok(told(
            rt.alloc(),
            refusal_text(alloc, path, &octets, &fault)?,
            REFUSED,
        )),
        Err(unready) => Err(Unanswered::from(unready)),
    }
}

// An answer to which no note is printed.
fn told(alloc: Global, text: String, status: u8) -> Reply {
    Reply {
        text,
        status,
        notes: Vec::new(alloc),
    }
}

// Tells which files of a setup can't be read, or what they hold.
fn check_files<R: AllocGlobal + Files + Env + Threads + Wait + Sync>(
    rt: &R,
    setup: &Setup,
    query: &CheckQuery,
) -> Result<Reply, Unanswered>
where
    R::File: Send,
    R::Dir: Send,
    requires { length setup.now.files.items ≡ length setup.now.plan.value.peers }
{
    let text = unreadable_text(rt, setup)?;
    if !text.is_empty() {
        return Ok(told(rt.alloc(), text, FAILED));
    }
    let files = contents_in_full(rt, setup, query.bounds)?;
    check_contents(rt, setup, &files, query)
}

// What the recordings of a setup hold within bounds, without those that may give their octets only once.
fn contents_in_full<'a, R: AllocGlobal + Files>(
    rt: &R,
    setup: &'a Setup,
    bounds: Bounds,
) -> Result<Vec<Contents<'a>>, Unanswered> {
    let mut files = Vec::new(rt.alloc());
    for recording in setup.recordings(rt.alloc())? {
        if contents_of(&files, recording).is_none() && has_files(rt, recording)? {
            let contents = contents_at(rt, setup, recording, bounds)?;
            let Ok(()) = files.push(contents) else {
                return Err(Unanswered::Memory);
            };
        }
    }
    Ok(files)
}

// What a recording of a setup holds within bounds. Its messages are read whole, too.
fn contents_at<'a, R: AllocGlobal + Files>(
    rt: &R,
    setup: &Setup,
    recording: Recording<'a>,
    bounds: Bounds,
) -> Result<Contents<'a>, Unready> {
    // What follows is read first, since it names the file that can't be read.
    let held = inventory_at(rt, recording, bounds)?;
    match read_contents(rt, setup, recording, bounds) {
        Ok(mut contents) => {
            // Of a recording with a compressed file no record is read.
            if contents.held.compression().is_none() {
                contents.held = held;
            }
            Ok(contents)
        }
        Err(fault) => Err(Unready::by_file(rt.alloc(), fault, recording.file)),
    }
}

// Says what was read of import policy, what these files have of each peer of a setup, where its session closes, and the
// notes.
fn check_contents<R: AllocGlobal + Files + Threads + Wait + Sync>(
    rt: &R,
    setup: &Setup,
    files: &[Contents<'_>],
    query: &CheckQuery,
) -> Result<Reply, Unanswered>
where
    R::File: Send,
    R::Dir: Send,
    requires { length setup.now.files.items ≡ length setup.now.plan.value.peers }
{
    let mut text = String::new(rt.alloc());
    add_import(&mut text, &setup.plan)?;
    let mut endings = Vec::new(rt.alloc());
    for peer in 0..setup.plan.count() {
        let Some(recording) = setup.recording(peer) else {
            break;
        };
        let (spec, contents) = (setup.plan.peer(peer), contents_of(files, recording));
        let ending = Ending {
            changes: CLOSE_ALONE,
            close: add_peer(rt, &mut text, spec, recording, contents, query)?,
        };
        endings.push(ending).map_err(|_| Unanswered::Memory)?;
    }
    let noted = add_notes(rt, &mut text, setup, query, &endings, files)?;
    let clean = endings.iter().all(|ending| ending.close == Close::AtEnd);
    Ok(told(
        rt.alloc(),
        text,
        if clean && !noted { DONE } else { NOT_CLEAN },
    ))
}

// Adds the notes. Answers whether there is any, but for those on what was asked for.
fn add_notes<R: AllocGlobal + Files + Threads + Wait + Sync>(
    rt: &R,
    text: &mut String,
    setup: &Setup,
    query: &CheckQuery,
    endings: &[Ending],
    files: &[Contents<'_>],
) -> Result<bool, Unanswered>
where
    R::File: Send,
    R::Dir: Send,
    requires { length setup.now.files.items ≡ length setup.now.plan.value.peers }
{
    let subject = Subject {
        setup,
        bounds: query.bounds,
        endings: Some(endings),
        telling: Telling::All,
        inferred: query.losses == Losses::Inferred,
    };
    let mut notes = notes_of(rt, subject, files);
    add_import_notes(rt, setup, query, files, &mut notes)?;
    add_unconfigured(rt.alloc(), setup, files, &mut notes);
    for note in &notes.texts {
        writeln!(text, "{note}")?;
    }
    Ok(notes.any)
}

// Adds the note on peers of whose routes every one is filtered: if import policy is configured, and each file gives its
// octets each time it is read.
fn add_import_notes<R: AllocGlobal + Files + Threads + Wait + Sync>(
    rt: &R,
    setup: &Setup,
    query: &CheckQuery,
    files: &[Contents<'_>],
    notes: &mut Notes,
) -> Result<(), Unanswered>
where
    R::File: Send,
    R::Dir: Send,
    requires { length setup.now.files.items ≡ length setup.now.plan.value.peers }
{
    if !setup.plan.import().is_configured() || !are_in_full(files, setup) {
        return Ok(());
    }
    let served = served_as_checked(rt, setup, query)?;
    add_filtered(rt.alloc(), served.tables(), notes);
    Ok(())
}

// Whether the content of each recording of a setup is known.
fn are_in_full(files: &[Contents<'_>], setup: &Setup) -> bool {
    (0..setup.files.len()).all(|peer| match setup.recording(peer) {
        Some(recording) => contents_of(files, recording).is_some(),
        None => false,
    })
}
