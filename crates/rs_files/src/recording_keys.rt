//! The keys of a configuration that name a peer's recorded files: `begin` and `file`.
//!
//! Our choices: `file` is the last one, and `begin` has those before it. A path below `/dev/fd/` or `/proc/self/fd/` names
//! a file that is there only while the command runs, as a shell gives it for `<(..)`. So it is no peer's file: a comment
//! asks for the recorded ones.

use rs_glass_shell::quoted;
use std::alloc::{AllocError, Global};

// How paths begin of files that are there only while the command runs.
const TRANSIENT: [&str; 2] = ["/dev/fd/", "/proc/self/fd/"];

/// The paths of a recording that begins in the file at one path, and goes on in the files behind.
pub(crate) fn recording(
    alloc: Global,
    first: &str,
    behind: &[String],
) -> Result<Vec<String>, AllocError> {
    let mut paths = Vec::new(alloc);
    paths.push(String::from_str(alloc, first)?)?;
    add_behind(alloc, &mut paths, behind)?;
    Ok(paths)
}

/// Adds the paths of the files behind.
pub(crate) fn add_behind(
    alloc: Global,
    paths: &mut Vec<String>,
    behind: &[String],
) -> Result<(), AllocError> {
    for path in behind {
        paths.push(String::from_str(alloc, path)?)?;
    }
    Ok(())
}

/// Adds the keys of a peer whose recording is in the files at these paths, in this order; nothing if there are none.
pub(crate) fn add_recording(
    alloc: Global,
    text: &mut String,
    paths: &[String],
) -> Result<(), AllocError> {
    let Some(last) = paths.last() else {
        return Ok(());
    };
    let begin = &paths[..paths.len().saturating_sub(1)];
    if let Some(path) = first_transient(paths) {
        let path = quoted(alloc, path)?;
        let what = if begin.is_empty() {
            "file: name the recorded file here"
        } else {
            "begin, file: name the recorded files here"
        };
        return writeln!(text, "# {what}; {path} was there for this command alone");
    }
    add_begin(alloc, text, begin)?;
    let last = quoted(alloc, last)?;
    writeln!(text, "file = {last}")
}

// Adds the key for the files before the last one, if there are any.
fn add_begin(alloc: Global, text: &mut String, paths: &[String]) -> Result<(), AllocError> {
    if paths.is_empty() {
        return Ok(());
    }
    let mut before = "begin = [";
    for path in paths {
        let path = quoted(alloc, path)?;
        write!(text, "{before}{path}")?;
        before = ", ";
    }
    writeln!(text, "]")
}

// The first path of a file that is there only while the command runs.
fn first_transient(paths: &[String]) -> Option<&str> {
    for path in paths {
        if is_transient(path) {
            return Some(path.as_str());
        }
    }
    None
}

// Whether a path names a file that is there only while the command runs.
fn is_transient(path: &str) -> bool {
    for front in TRANSIENT {
        if path.starts_with(front) {
            return true;
        }
    }
    false
}
