//! A file that is written whole or not at all.
//!
//! Our choice: if nothing or a file stands at the path, the text is written beside it, to a part file that then
//! takes its place. So an older file stays if that fails. What else stands there, such as a device, is opened
//! itself. No file is written over one that is read.

use crate::unanswered::Unanswered;
use rs_host::{files_of_setup, part_path, takes_part_file, writes_over};
use rs_setup::Setup;
use std::fs;
use std::fs::{File, Files};
use std::io::Write;

/// Refuses a place, with `Unwritten`, if a file there would be written over the configuration at a path. It also
/// does for a recorded file or a list of its setup.
pub fn check_place<R: AllocGlobal + Files>(
    rt: &R,
    place: &str,
    config: &str,
    setup: &Setup,
) -> Result<(), Unanswered> {
    let read = files_of_setup(rt, config, setup)?;
    if writes_over(rt, place, &read)? {
        return Err(Unanswered::Unwritten(String::from_str(rt.alloc(), place)?));
    }
    Ok(())
}

/// Writes a text to the file at a path. Fails with `Unwritten` if that fails, and then an older file stays; or if
/// memory is refused.
pub fn write_whole<R: AllocGlobal + Files>(
    rt: &R,
    path: &str,
    text: &str,
) -> Result<(), Unanswered> {
    let alloc = rt.alloc();
    let written = if takes_part_file(rt, path)? {
        let part = part_path(alloc, path)?;
        write_beside(rt, &part, path, text)
    } else {
        match File::create(rt, path) {
            Ok(file) => is_written(file, text),
            Err(_) => false,
        }
    };
    if written {
        Ok(())
    } else {
        Err(Unanswered::Unwritten(String::from_str(alloc, path)?))
    }
}

// Writes a text to a part file, and puts that in its place. Answers whether that went well; else no part file stays.
fn write_beside<R: Files>(rt: &R, part: &str, path: &str, text: &str) -> bool {
    let _ = fs::remove_file(rt, part);
    let Ok(file) = File::create_new(rt, part) else {
        return false;
    };
    let written = is_written(file, text);
    if written && fs::rename(rt, part, path).is_ok() {
        return true;
    }
    let _ = fs::remove_file(rt, part);
    false
}

// Writes a text to an open file, and answers whether that went well.
fn is_written<F: Write + Drop>(file: F, text: &str) -> bool {
    let mut file = file;
    file.write_all(text.as_bytes()).is_ok() && file.flush().is_ok()
}
