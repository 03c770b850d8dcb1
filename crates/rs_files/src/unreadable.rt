//! Which recorded files of an exchange can't be read.

use crate::found::{Found, add_line};
use rs_glass_shell::name_at;
use rs_host::{UnreadableReason, first_unreadable, found_at, on_one_line};
use rs_setup::{Recording, Setup};
use std::alloc::AllocError;
use std::env;
use std::env::Env;
use std::fs::{File, Files};
use std::io::ErrorKind;

// Why a file can't be read that an earlier peer reads.
const READ_BEFORE: &str = "it gives its octets only once, and an earlier peer reads it";

// Why a file can't be read that is read before another one of its recording.
const READ_AGAIN: &str = "it gives its octets only once, and is read before another file";

/// A line for each file of a peer that can't be opened. If all can be, one for the first file that gives its octets only
/// once, if it is read before another one of its recording, or by an earlier peer.
pub(crate) fn unreadable_text<R: AllocGlobal + Files + Env>(
    rt: &R,
    setup: &Setup,
) -> Result<String, AllocError> {
    let mut text = String::new(rt.alloc());
    let recordings = setup.recordings(rt.alloc())?;
    for (peer, recording) in recordings.iter().enumerate() {
        add_unopened_of(rt, &mut text, name_at(&setup.plan, peer), *recording)?;
    }
    if text.is_empty() {
        if let Some(file) = first_unreadable(rt, &recordings)? {
            let path = on_one_line(rt.alloc(), file.path)?;
            let why = match file.reason {
                UnreadableReason::Begins => READ_AGAIN,
                _ => READ_BEFORE,
            };
            let found = Found::Unreadable(&path, why);
            add_line(&mut text, name_at(&setup.plan, file.number), found)?;
        }
    }
    Ok(text)
}

// Adds why files of a recording can't be opened, if some can't.
fn add_unopened_of<R: AllocGlobal + Files + Env>(
    rt: &R,
    text: &mut String,
    name: &str,
    recording: Recording<'_>,
) -> Result<(), AllocError> {
    for place in 0..recording.count() {
        add_unopened(rt, text, name, recording.path(place))?;
    }
    Ok(())
}

// Adds why a file can't be opened, if it can't.
fn add_unopened<R: AllocGlobal + Files + Env>(
    rt: &R,
    text: &mut String,
    name: &str,
    path: &str,
) -> Result<(), AllocError> {
    let Some(why) = unopened_at(rt, path)? else {
        return Ok(());
    };
    let path = on_one_line(rt.alloc(), path)?;
    match folder_before(rt, &path)? {
        Some(folder) => add_line(text, name, Found::UnreadableFrom(&path, why, &folder)),
        None => add_line(text, name, Found::Unreadable(&path, why)),
    }
}

// Why the file at a path can't be opened, if it can't. A pipe isn't tried, since that may wait for its writer.
fn unopened_at<R: Files>(rt: &R, path: &str) -> Result<Option<&'static str>, AllocError> {
    match found_at(rt, path)? {
        Some(found) if found.is_dir() => return Ok(Some("it is a folder")),
        Some(found) if !found.is_file() => return Ok(None),
        _ => {}
    }
    let Err(error) = File::open(rt, path) else {
        return Ok(None);
    };
    Ok(Some(match error.kind() {
        ErrorKind::NotFound => "there is no such file",
        ErrorKind::PermissionDenied => "permission is denied",
        _ => "it can't be opened",
    }))
}

// The folder from which a path counts, on one line; none if it counts from the root, or if that isn't known.
fn folder_before<R: AllocGlobal + Env>(rt: &R, path: &str) -> Result<Option<String>, AllocError> {
    if path.starts_with("/") {
        return Ok(None);
    }
    match env::current_dir(rt) {
        Ok(folder) => Ok(Some(on_one_line(rt.alloc(), folder.as_str())?)),
        Err(_) => Ok(None),
    }
}
