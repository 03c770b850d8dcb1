//! An outlet over a folder: each dump becomes a file in it. It doesn't tell what it has kept, nor what is out.
//!
//! Our choice: if nothing or a file stands in the place of a dump, the dump is written beside it, to a part file of
//! its own. The part file takes that place once the dump is kept. So a reader finds the older dump there or the new
//! one, never a part of one, and a dump that isn't kept leaves the older one as it was. If something else stands
//! there, such as a link, a pipe or a device, that is opened itself, in the turn of the dump.

ghost use Rattle.std.specs.Prelude.{◌≡◌, None};

use crate::paths::path_in;
use rs_host::{part_path, takes_part_file};
use rs_mrt::IoWriter;
use rs_outlet::{Outlet, Unopened};
use std::alloc::Global;
use std::fs::{File, Files};
use std::io::Write;
use std::marker::Model;
use std::{fs, io};

/// The file to which a dump is written.
#[derive(Drop)]
pub struct FileAt<F> {
    file: F,
    part: Option<Part>,
}

// A part file, and the place that it takes once the dump is whole.
#[derive(Drop)]
struct Part {
    path: String,
    place: String,
}

impl<F: Write> Write for FileAt<F> {
    fn write(&mut self, buf: &[u8]) -> io::Result<usize> {
        self.file.write(buf)
    }

    fn flush(&mut self) -> io::Result<()> {
        self.file.flush()
    }
}

/// Keeps dumps as the files of a folder, which must exist.
#[derive(Drop)]
pub struct FolderOutlet<'a, R> {
    rt: &'a R,
    alloc: Global,
    folder: &'a str,
    failures: u64,
}

impl<'a, R> Model for FolderOutlet<'a, R> {
    ghost use Rattle.std.specs.Prelude.{ℕ};

    ghost Value = { ℕ };

    ghost view = { λ outlet. outlet.failures };
}

impl<'a, R: Files> FolderOutlet<'a, R> {
    /// Begins with the path of the folder. Nothing is made yet.
    pub fn new(rt: &'a R, alloc: Global, folder: &'a str) -> FolderOutlet<'a, R>
        ensures { result ≡ 0 }
    {
        FolderOutlet {
            rt,
            alloc,
            folder,
            failures: 0,
        }
    }
}

impl<'a, R: Files> Outlet for FolderOutlet<'a, R>
where
    R::File: Send,
{
    type Out = IoWriter<FileAt<R::File>>;

    ghost kept = { λ _. None };

    ghost started = { λ _. None };

    ghost failures = { λ failures. failures };

    fn start(&mut self, name: &str) -> Result<IoWriter<FileAt<R::File>>, Unopened> {
        match create(self.rt, self.alloc, self.folder, name) {
            Ok(file) => Ok(IoWriter::new(file)),
            Err(refused) => {
                self.failures += 1;
                Err(refused)
            }
        }
    }

    fn start_ahead(&mut self, name: &str) -> Option<IoWriter<FileAt<R::File>>> {
        match create_ahead(self.rt, self.alloc, self.folder, name) {
            Some(file) => Some(IoWriter::new(file)),
            None => None,
        }
    }

    fn keep(&mut self, _name: &str, out: IoWriter<FileAt<R::File>>) -> Result<(), Unopened> {
        match put_in_place(self.rt, out.into_inner()) {
            Ok(()) => Ok(()),
            Err(refused) => {
                self.failures += 1;
                Err(refused)
            }
        }
    }

    fn lost(&mut self, out: IoWriter<FileAt<R::File>>) {
        remove_part(self.rt, out.into_inner());
        self.failures = self.failures.saturating_add(1);
    }
}

// Makes the part file of a dump, or else opens what stands in the place of the dump.
fn create<R: Files>(
    rt: &R,
    alloc: Global,
    folder: &str,
    name: &str,
) -> Result<FileAt<R::File>, Unopened> {
    let Ok(place) = path_in(alloc, folder, name) else {
        return Err(Unopened);
    };
    match takes_part_file(rt, place.as_str()) {
        Ok(true) => create_part(rt, alloc, place),
        Ok(false) => create_in_place(rt, place.as_str()),
        Err(_) => Err(Unopened),
    }
}

// Makes the part file of a dump, if a part file takes its place.
fn create_ahead<R: Files>(
    rt: &R,
    alloc: Global,
    folder: &str,
    name: &str,
) -> Option<FileAt<R::File>> {
    let place = path_in(alloc, folder, name).ok()?;
    if takes_part_file(rt, place.as_str()).ok()? {
        create_part(rt, alloc, place).ok()
    } else {
        None
    }
}

// Opens what stands in the place of a dump.
fn create_in_place<R: Files>(rt: &R, place: &str) -> Result<FileAt<R::File>, Unopened> {
    match File::create(rt, place) {
        Ok(file) => Ok(FileAt { file, part: None }),
        Err(_) => Err(Unopened),
    }
}

// Makes the part file of a dump, in the place of one that a run has left which was stopped.
fn create_part<R: Files>(
    rt: &R,
    alloc: Global,
    place: String,
) -> Result<FileAt<R::File>, Unopened> {
    let Ok(path) = part_path(alloc, place.as_str()) else {
        return Err(Unopened);
    };
    let _ = fs::remove_file(rt, path.as_str());
    match File::create_new(rt, path.as_str()) {
        Ok(file) => Ok(FileAt {
            file,
            part: Some(Part { path, place }),
        }),
        Err(_) => Err(Unopened),
    }
}

// Puts a dump that is whole in its place.
fn put_in_place<R: Files>(rt: &R, dump: FileAt<R::File>) -> Result<(), Unopened> {
    let FileAt { mut file, part } = dump;
    let Some(part) = part else {
        return file.flush().map_err(|_| Unopened);
    };
    if file.flush().is_ok() && fs::rename(rt, part.path.as_str(), part.place.as_str()).is_ok() {
        return Ok(());
    }
    let _ = fs::remove_file(rt, part.path.as_str());
    Err(Unopened)
}

// Takes the part file of a dump away that isn't to be kept.
fn remove_part<R: Files>(rt: &R, dump: FileAt<R::File>) {
    let FileAt { file: _, part } = dump;
    if let Some(part) = part {
        let _ = fs::remove_file(rt, part.path.as_str());
    }
}
