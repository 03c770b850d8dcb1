//! The files of sessions.
//!
//! Our choice: a session is written beside its place, to a part file. The part files take their places once all
//! sessions are whole, so that a reader never finds a part of one. If something else than a file stands in a place, such
//! as a link or a device, nothing is written. The same holds if the table stands there or a file that a configuration reads
//! behind the sessions, or one of these in the place of a part file.

use crate::table_faults::unwritten;
use rs_glass_shell::Unanswered;
use rs_host::{files_read, part_path, writes_over};
use rs_query::StartQuery;
use std::alloc::{AllocError, Global};
use std::fs;
use std::fs::{File, Files};
use std::io::ErrorKind;
use std::net::Ipv4Addr;

/// A file of a session.
#[derive(Drop)]
pub(crate) struct SessionFile {
    // The path of its part file, and the place that this takes once all sessions are whole.
    part: String,
    place: String,
}

/// The path of the session of the peer with an address.
pub(crate) fn session_path(
    alloc: Global,
    folder: &str,
    address: u32,
) -> Result<String, AllocError> {
    let (slash, address) = (slash_behind(folder), Ipv4Addr::from_bits(address));
    format!(in alloc; "{folder}{slash}{address}.mrt")
}

// What stands between a folder and the name of a file: a folder that ends in `/` gets no second one.
fn slash_behind(folder: &str) -> &'static str {
    if folder.as_bytes().ends_with(b"/") {
        ""
    } else {
        "/"
    }
}

/// Makes the part file of the session of the peer with an address, and puts it among `files`.
pub(crate) fn create<R: AllocGlobal + Files>(
    rt: &R,
    query: &StartQuery,
    address: u32,
    files: &mut Vec<SessionFile>,
) -> Result<R::File, Unanswered> {
    let alloc = rt.alloc();
    let place = session_path(alloc, &query.out, address)?;
    if !is_free(rt, &place, query)? {
        return Err(unwritten(alloc, &place));
    }
    let part = part_path(alloc, &place)?;
    // The file is made after it is listed: so it is taken away whatever fails.
    let made = String::from_str(alloc, &part)?;
    let named = String::from_str(alloc, &place)?;
    let Ok(()) = files.push(SessionFile { part, place }) else {
        return Err(Unanswered::Memory);
    };
    let _ = fs::remove_file(rt, made.as_str());
    match File::create_new(rt, made.as_str()) {
        Ok(file) => Ok(file),
        Err(_) => Err(unwritten(alloc, &named)),
    }
}

// Whether a session may be put in a place: nothing is known to be there, or a file is. Neither that file nor the one
// in the place of its part file may be the table or a file behind the sessions.
fn is_free<R: AllocGlobal + Files>(
    rt: &R,
    place: &str,
    query: &StartQuery,
) -> Result<bool, AllocError> {
    match fs::symlink_metadata(rt, place) {
        Ok(found) if !found.is_file() => return Ok(false),
        Err(error) if error.kind() == ErrorKind::OutOfMemory => return Err(AllocError),
        _ => {}
    }
    let read = files_read(rt, &query.table, &query.behind)?;
    Ok(!writes_over(rt, place, &read)?)
}

/// Puts the files of sessions that are whole in their places.
pub(crate) fn put_in_place<R: AllocGlobal + Files>(
    rt: &R,
    files: &[SessionFile],
) -> Result<(), Unanswered> {
    for file in files {
        if fs::rename(rt, file.part.as_str(), file.place.as_str()).is_err() {
            return Err(unwritten(rt.alloc(), &file.place));
        }
    }
    Ok(())
}

/// Takes the part files away that are there.
pub(crate) fn remove_parts<R: Files>(rt: &R, files: &[SessionFile]) {
    for file in files {
        let _ = fs::remove_file(rt, file.part.as_str());
    }
}
