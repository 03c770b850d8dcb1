//! Keeps a program from writing a file, or the part file of one, over a file that it reads.

use crate::file_identity::{FileIdentity, found_at};
use crate::part_file::part_path;
use rs_setup::Setup;
use std::alloc::AllocError;
use std::fs::Files;

/// The files that a program reads: its configuration, or whatever else stands at this path, and those at these
/// paths. A path if nothing is gives none.
pub fn files_read<R: AllocGlobal + Files>(
    rt: &R,
    config: &str,
    paths: &[String],
) -> Result<Vec<FileIdentity>, AllocError> {
    let mut read = Vec::new(rt.alloc());
    if let Some(file) = file_at(rt, config)? {
        read.push(file)?;
    }
    add_files(rt, &mut read, paths)?;
    Ok(read)
}

/// The files that a program reads of a setup: its configuration at this path, the recorded files, the VRP file and the
/// lists.
pub fn files_of_setup<R: AllocGlobal + Files>(
    rt: &R,
    config: &str,
    setup: &Setup,
) -> Result<Vec<FileIdentity>, AllocError> {
    let mut read = files_read(rt, config, &setup.files)?;
    add_files(rt, &mut read, &setup.lists)?;
    for begin in &setup.begins {
        add_files(rt, &mut read, begin)?;
    }
    Ok(read)
}

// Adds the files at some paths.
fn add_files<R: Files>(
    rt: &R,
    read: &mut Vec<FileIdentity>,
    paths: &[String],
) -> Result<(), AllocError> {
    for path in paths {
        if let Some(file) = file_at(rt, path)? {
            read.push(file)?;
        }
    }
    Ok(())
}

/// Whether a file with this place would be written over one of these files. Then one of them stands at the place or
/// at that of its part file. It may do so by this path, by another one or by a link.
pub fn writes_over<R: AllocGlobal + Files>(
    rt: &R,
    place: &str,
    read: &[FileIdentity],
) -> Result<bool, AllocError> {
    if is_among(rt, place, read)? {
        return Ok(true);
    }
    let part = part_path(rt.alloc(), place)?;
    is_among(rt, &part, read)
}

// Whether there is a file at the path, and it is one of these.
fn is_among<R: Files>(rt: &R, path: &str, files: &[FileIdentity]) -> Result<bool, AllocError> {
    match file_at(rt, path)? {
        Some(file) => Ok(files.contains(&file)),
        None => Ok(false),
    }
}

// The file at a path, if there is one.
fn file_at<R: Files>(rt: &R, path: &str) -> Result<Option<FileIdentity>, AllocError> {
    let found = found_at(rt, path)?;
    Ok(found.map(|found| FileIdentity::of(&found)))
}
