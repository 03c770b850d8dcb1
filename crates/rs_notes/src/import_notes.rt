//! The notes on import policy: lists and VRP files without an entry, and peers of whose routes every one is filtered. A
//! list that is wrong shows so.
//!
//! Our choice: a file that is named several times counts once, and so does one of a peer of which nothing is asked.

use crate::all_filtered::{Intake, intakes};
use crate::group::{Detail, Group, Told};
use crate::notes::Notes;
use rs_choice::Exchange;
use rs_host::on_one_line;
use rs_import::PeerImport;
use rs_setup::Setup;
use rs_table::Tables;
use std::alloc::{AllocError, Global};

/// What is said of answers if no import policy is configured. It is no note.
pub const BEFORE_IMPORT: &str =
    "no import policy is configured: answers are those before it, and may have routes that the exchange filters";

// Which lists and VRP files of an exchange have no entry, as they are taken one by one.
#[derive(Clone, Copy, Drop)]
struct EmptyFiles<'a> {
    // Their paths, in the order in which they are read, and how many of them were taken.
    paths: &'a [String],
    taken: usize,
    // The first one taken that has no entry, and how many more there are.
    first: Option<&'a str>,
    more: usize,
}

impl<'a> EmptyFiles<'a> {
    // Takes the next one, which has so many entries.
    fn take(&mut self, entries: usize) {
        if let Some(path) = self.paths.get(self.taken) {
            if entries == 0 && !self.is_earlier(path) {
                self.take_empty(path);
            }
        }
        self.taken = self.taken.saturating_add(1);
    }

    // Takes the path of one without an entry.
    fn take_empty(&mut self, path: &'a str) {
        if self.first.is_none() {
            self.first = Some(path);
        } else {
            self.more = self.more.saturating_add(1);
        }
    }

    // Whether one that was taken has this path.
    fn is_earlier(&self, path: &str) -> bool {
        self.paths
            .iter()
            .take(self.taken)
            .any(|earlier| earlier.as_str() == path)
    }

    // Takes those of a peer.
    fn take_lists(&mut self, lists: &PeerImport) {
        if let Some(list) = lists.prefix_list() {
            self.take(list.len());
        }
        if let Some(list) = lists.as_list() {
            self.take(list.len());
        }
    }
}

/// Adds the note on lists and VRP files without an entry, if there are any: on the first one, and so many more.
pub(crate) fn add_empty_lists(alloc: Global, setup: &Setup, notes: &mut Notes) {
    let files = empty_files(&setup.plan, &setup.lists);
    if let Some(path) = files.first {
        notes.add(empty_list_line(alloc, path, files.more));
    }
}

// Which of the lists and the VRP file at these paths have no entry.
fn empty_files<'a>(plan: &Exchange, paths: &'a [String]) -> EmptyFiles<'a> {
    let mut files = EmptyFiles {
        paths,
        taken: 0,
        first: None,
        more: 0,
    };
    if let Some(vrps) = &plan.import().rules().vrps {
        files.take(vrps.len());
    }
    for number in 0..plan.count() {
        if let Some(lists) = plan.import().peer(number) {
            files.take_lists(lists);
        }
    }
    files
}

// The text of the note on files without an entry.
fn empty_list_line(alloc: Global, path: &str, more: usize) -> Result<String, AllocError> {
    let path = on_one_line(alloc, path)?;
    if more == 0 {
        return format!(in alloc; "{path} has no entry (IPv6 is passed over)");
    }
    format!(in alloc; "{path} and {more} more have no entry (IPv6 is passed over)")
}

/// Adds the note on the peers of these tables that left routes of which import policy takes in none. Eligibility is not
/// asked. If import policy is not configured, there is no such note, and no route is looked at.
pub fn add_filtered(alloc: Global, tables: &Tables, notes: &mut Notes) {
    let all = intakes(tables);
    let mut group = Group::none(alloc);
    for peer in 0..tables.count() {
        if all[peer] == Intake::Nothing {
            let name = &tables.plan().peer(peer).name;
            group.add(name, filtered_told(alloc, name));
        }
    }
    notes.add_group(
        alloc,
        &group,
        "all of their routes are filtered (wrong lists?)",
    );
}

// The note on such a peer.
fn filtered_told(alloc: Global, name: &str) -> Result<Told, AllocError> {
    Ok(Told {
        line: format!(in alloc; "peer {name}: all of its routes are filtered (a wrong list?)")?,
        detail: Detail::Nothing,
    })
}
