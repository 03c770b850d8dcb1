//! Why a file can't be read or written, as far as a look at it shows.
//!
//! Our choice: the look comes behind the failure, when the line is made. If it shows nothing, the line gives no cause.

use crate::lines::line;
use crate::unanswered::Unanswered;
use rs_host::{found_at, part_path};
use std::alloc::AllocError;
use std::fs;
use std::fs::{File, Files};
use std::io::ErrorKind;

// What a line says of a path that names a folder.
const FOLDER: &str = "is a folder";

/// The line that says why a question isn't answered, as `line` gives it. Behind the path of a file that can't be
/// read or written it says why, if that can be seen.
pub fn line_with_cause<R: AllocGlobal + Files>(
    rt: &R,
    unanswered: &Unanswered,
) -> Result<String, AllocError> {
    let mut text = line(rt.alloc(), unanswered)?;
    let cause = match unanswered {
        Unanswered::Unread(path) => unread_cause(rt, path)?,
        Unanswered::Unwritten(path) => unwritten_cause(rt, path)?,
        _ => None,
    };
    if let Some(cause) = cause {
        write!(text, ": {cause}")?;
    }
    Ok(text)
}

// Why the file at a path can't be read. A pipe isn't tried, since that may wait for its writer.
fn unread_cause<R: Files>(rt: &R, path: &str) -> Result<Option<&'static str>, AllocError> {
    match found_at(rt, path)? {
        Some(found) if found.is_dir() => return Ok(Some(FOLDER)),
        Some(found) if !found.is_file() => return Ok(None),
        _ => {}
    }
    match File::open(rt, path) {
        Ok(_) => Ok(None),
        Err(error) if error.kind() == ErrorKind::NotFound => Ok(Some("no such file")),
        Err(error) => Ok(denial(error.kind())),
    }
}

// Why no file can be put at a path: its part file is made and taken away again.
fn unwritten_cause<R: AllocGlobal + Files>(
    rt: &R,
    path: &str,
) -> Result<Option<&'static str>, AllocError> {
    if let Some(found) = found_at(rt, path)? {
        if found.is_dir() {
            return Ok(Some(FOLDER));
        }
    }
    let part = part_path(rt.alloc(), path)?;
    match File::create_new(rt, part.as_str()) {
        Ok(_) => {
            let _ = fs::remove_file(rt, part.as_str());
            Ok(None)
        }
        Err(error) if error.kind() == ErrorKind::NotFound => Ok(Some("no such folder")),
        Err(error) => Ok(denial(error.kind())),
    }
}

// What an error says of the rights to a file, if that is its kind.
fn denial(kind: ErrorKind) -> Option<&'static str> {
    match kind {
        ErrorKind::PermissionDenied => Some("permission denied"),
        _ => None,
    }
}
