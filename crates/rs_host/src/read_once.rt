//! Keeps several peers from reading one file that gives its octets only once, as a pipe does: the first would
//! take them all.
//!
//! Our choices: of the null device, which never gives any, several peers may read. A file that is read before another one
//! may not be such a file, since it is looked at again.

ghost use Rattle.std.specs.Prelude.{◌<◌, IfOk, IfSome, length};

use crate::file_identity::{FileIdentity, found_at};
use rs_setup::Recording;
use std::alloc::AllocError;
use std::fs::{Files, Metadata};
use std::os::unix::fs::{FileTypeExt, MetadataExt};

// The number of the null device.
const NULL_DEVICE: u64 = 0x103;

/// A file of a recording that cannot be read.
#[derive(Clone, Copy, Debug, PartialEq, Eq)]
pub struct Unreadable<'a> {
    /// The number of the recording.
    pub number: usize,
    /// The path of the file.
    pub path: &'a str,
    /// Why.
    pub reason: UnreadableReason,
}

/// Why a file of a recording cannot be read.
#[derive(Clone, Copy, Debug, PartialEq, Eq)]
pub enum UnreadableReason {
    /// It is not there.
    Missing,
    /// It gives its octets only once, and is read before another file.
    Begins,
    /// It gives its octets only once, and an earlier recording has it.
    Again,
}

/// The first file of these recordings that is not there. If all are there: the first that is a pipe, or another file that
/// can be read only once, and is read before another file. If there is none: the first such file that an earlier recording
/// has. Nothing is opened, since opening a pipe may wait for its writer.
pub fn first_unreadable<'a, R: AllocGlobal + Files>(
    rt: &R,
    recordings: &[Recording<'a>],
) -> Result<Option<Unreadable<'a>>, AllocError>
    ensures known { IfOk result (λ found. IfSome found (λ file. file.number < length recordings.now)) }
{
    if let Some(missing) = first_missing(rt, recordings)? {
        return Ok(Some(missing));
    }
    match first_once(rt, recordings)? {
        Some(once) => Ok(Some(once)),
        None => first_again(rt, recordings),
    }
}

// The first file that is not there.
fn first_missing<'a, R: Files>(
    rt: &R,
    recordings: &[Recording<'a>],
) -> Result<Option<Unreadable<'a>>, AllocError>
    ensures known { IfOk result (λ found. IfSome found (λ file. file.number < length recordings.now)) }
{
    for number in 0..recordings.len() {
        if let Some(path) = missing_of(rt, recordings[number])? {
            return Ok(Some(Unreadable {
                number,
                path,
                reason: UnreadableReason::Missing,
            }));
        }
    }
    Ok(None)
}

// The first file of a recording that is not there.
fn missing_of<'a, R: Files>(
    rt: &R,
    recording: Recording<'a>,
) -> Result<Option<&'a str>, AllocError> {
    for place in 0..recording.count() {
        let path = recording.path(place);
        if found_at(rt, path)?.is_none() {
            return Ok(Some(path));
        }
    }
    Ok(None)
}

// The first file that gives its octets only once and is read before another one.
fn first_once<'a, R: Files>(
    rt: &R,
    recordings: &[Recording<'a>],
) -> Result<Option<Unreadable<'a>>, AllocError>
    ensures known { IfOk result (λ found. IfSome found (λ file. file.number < length recordings.now)) }
{
    for number in 0..recordings.len() {
        if let Some(path) = once_of(rt, recordings[number])? {
            return Ok(Some(Unreadable {
                number,
                path,
                reason: UnreadableReason::Begins,
            }));
        }
    }
    Ok(None)
}

// The first file of a recording that gives its octets only once and is read before another one.
fn once_of<'a, R: Files>(rt: &R, recording: Recording<'a>) -> Result<Option<&'a str>, AllocError> {
    for path in recording.begin {
        if read_once_at(rt, path)?.is_some() {
            return Ok(Some(path.as_str()));
        }
    }
    Ok(None)
}

// The first last file of a recording that gives its octets only once and that an earlier recording has.
fn first_again<'a, R: AllocGlobal + Files>(
    rt: &R,
    recordings: &[Recording<'a>],
) -> Result<Option<Unreadable<'a>>, AllocError>
    ensures known { IfOk result (λ found. IfSome found (λ file. file.number < length recordings.now)) }
{
    let mut earlier = Vec::new(rt.alloc());
    for number in 0..recordings.len() {
        let path = recordings[number].file;
        if let Some(file) = read_once_at(rt, path)? {
            if earlier.contains(&file) {
                return Ok(Some(Unreadable {
                    number,
                    path,
                    reason: UnreadableReason::Again,
                }));
            }
            earlier.push(file)?;
        }
    }
    Ok(None)
}

/// The file at the path, if it gives its octets only once.
pub(crate) fn read_once_at<R: Files>(
    rt: &R,
    path: &str,
) -> Result<Option<FileIdentity>, AllocError> {
    match found_at(rt, path)? {
        Some(found) if is_read_once(&found) => Ok(Some(FileIdentity::of(&found))),
        _ => Ok(None),
    }
}

// Whether a file gives its octets only once.
fn is_read_once(found: &Metadata) -> bool {
    let kind = found.file_type();
    kind.is_fifo() || kind.is_socket() || (kind.is_char_device() && found.rdev() != NULL_DEVICE)
}
