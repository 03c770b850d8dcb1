//! How much the recorded files hold.

use rs_host::found_at;
use rs_setup::Setup;
use std::fs::Files;

/// How many octets the recordings of a setup have in all; none if that isn't known of a file, as of a pipe or a device.
pub fn octets_of_setup<R: Files>(rt: &R, setup: &Setup) -> Option<u64> {
    let mut octets = octets_of(rt, &setup.files)?;
    for begin in &setup.begins {
        octets = octets.checked_add(octets_of(rt, begin)?)?;
    }
    Some(octets)
}

// How many octets the files of these paths have in all; none if that isn't known of one.
fn octets_of<R: Files>(rt: &R, paths: &[String]) -> Option<u64> {
    let mut octets: u64 = 0;
    for path in paths {
        let found = found_at(rt, path).ok()??;
        if !found.is_file() {
            return None;
        }
        octets = octets.checked_add(found.len())?;
    }
    Some(octets)
}
