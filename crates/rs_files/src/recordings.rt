//! Answers what recorded files hold.

use crate::listing_answer::{as_json, as_text};
use crate::listing_toml::as_toml;
use crate::recorded_file::RecordedFile;
use rs_glass_shell::Unanswered;
use rs_host::{Reached, Unready, first_unreadable, open_recording};
use rs_inventory::{Inventory, InventoryFault, read_inventory};
use rs_mrt::Bounds;
use rs_notes::format_at;
use rs_query::PeersQuery;
use rs_setup::Recording;
use std::fs::Files;

/// What recorded files hold.
pub fn peers<R: AllocGlobal + Files>(rt: &R, query: PeersQuery) -> Result<String, Unanswered> {
    let alloc = rt.alloc();
    let PeersQuery {
        files,
        behind,
        json,
        toml,
    } = query;
    let held = recorded_files(rt, files)?;
    if json {
        Ok(as_json(alloc, &held)?)
    } else if toml {
        Ok(as_toml(alloc, &held, &behind)?)
    } else {
        Ok(as_text(alloc, &held)?)
    }
}

// What the recorded files at these paths hold, in their order.
fn recorded_files<R: AllocGlobal + Files>(
    rt: &R,
    paths: Vec<String>,
) -> Result<Vec<RecordedFile>, Unready> {
    refuse_unreadable(rt, &paths)?;
    let mut held = Vec::new(rt.alloc());
    for path in paths {
        held.push(recorded_file(rt, path)?)
            .map_err(|_| Unready::Memory)?;
    }
    Ok(held)
}

// Refuses the first of the files at these paths that isn't there, or that gives its octets only once and stands there
// before.
fn refuse_unreadable<R: AllocGlobal + Files>(rt: &R, paths: &[String]) -> Result<(), Unready> {
    let mut recordings = Vec::new(rt.alloc());
    for path in paths {
        recordings
            .push(Recording::of_file(path))
            .map_err(|_| Unready::Memory)?;
    }
    match first_unreadable(rt, &recordings)? {
        Some(file) => Err(Unready::by_path(rt.alloc(), file.path)),
        None => Ok(()),
    }
}

// What the recorded file at a path holds.
fn recorded_file<R: AllocGlobal + Files>(rt: &R, path: String) -> Result<RecordedFile, Unready> {
    let inventory = inventory_at(rt, Recording::of_file(&path), Bounds::none())?;
    let format = format_at(rt, &path, &inventory);
    Ok(RecordedFile {
        path,
        format,
        inventory,
    })
}

/// The inventory of a recording, of as much as is read within bounds. Fails with `Unread` if a file of it can't be read,
/// with `Memory` if memory is refused.
pub(crate) fn inventory_at<'a, R: AllocGlobal + Files>(
    rt: &'a R,
    recording: Recording<'a>,
    bounds: Bounds,
) -> Result<Inventory, Unready> {
    let alloc = rt.alloc();
    let reached = Reached::first();
    let file = match open_recording(rt, recording, Some(&reached)) {
        Ok(file) => file,
        Err(fault) => return Err(Unready::by_file(alloc, fault, recording.path(0))),
    };
    match read_inventory(alloc, file, bounds) {
        Ok(inventory) => Ok(inventory),
        Err(InventoryFault::Memory) => Err(Unready::Memory),
        Err(InventoryFault::Read) => Err(Unready::by_path(alloc, reached.path(recording))),
    }
}
