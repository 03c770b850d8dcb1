//! What recordings hold, and where they end, as notes tell of it.
//!
//! Our choices: if nobody made an outline of a recording, it is read once more, however many peers have it, and of each
//! message only the type. Of a recording with a compressed file only the first octets of its files are read. A recording
//! with a pipe gets no note, nor does one that cannot be read. If all notes are wanted, one that cannot be read, though
//! it has no pipe, counts as a note.

use crate::format::{FRONT_LEN, Format};
use crate::hint::is_known;
use byteorder::{BigEndian, ByteOrder};
use rs_host::{FileFault, FilePlace, Seams, found_at, open, open_recording};
use rs_inventory::{
    Compression, Inventory, InventoryFault, Outline, PeerId, UnreadMessages, outline_of,
};
use rs_mrt::{Bounds, Cut, HEADER_LEN, RecordReader, Tail};
use rs_setup::{Recording, Setup};
use std::alloc::{AllocError, Global};
use std::fs::Files;
use std::io::{ErrorKind, Read};

/// What a recording holds.
#[derive(Drop)]
pub struct Contents<'a> {
    /// The recording.
    pub recording: Recording<'a>,
    /// The recording as texts show it.
    pub name: String,
    // The first octets of one of its files.
    pub(crate) front: Front<'a>,
    /// What its records hold.
    pub held: Inventory,
    // Whether a message names the server as its recorder.
    pub(crate) names_server: bool,
    // Which messages aren't read.
    pub(crate) unread: UnreadMessages,
    // Where it ends within a record, if it does.
    pub(crate) cut: Option<Cut>,
    // Where its files begin in it.
    seams: Seams<'a>,
}

/// The first octets of a file of a recording: of the first one that is compressed. If none is, of the first one that has
/// any.
#[derive(Drop)]
pub(crate) struct Front<'a> {
    /// The path of the file.
    pub path: &'a str,
    /// The octets, at most `FRONT_LEN`.
    pub octets: Vec<u8>,
}

impl<'a> Contents<'a> {
    // What a recording holds with this outline, if its tail is read so. It fails with `Memory` if memory is refused.
    fn new<R: AllocGlobal + Files>(
        rt: &R,
        recording: Recording<'a>,
        front: Front<'a>,
        outline: Outline,
        tail: Tail,
    ) -> Result<Contents<'a>, FileFault> {
        let mut held = outline.held;
        if tail == Tail::Lenient {
            held.take_end(None);
        }
        let (Ok(name), Ok(seams)) = (name_of(rt.alloc(), recording), Seams::of(rt, recording))
        else {
            return Err(FileFault::Memory);
        };
        Ok(Contents {
            recording,
            name,
            front,
            held,
            names_server: outline.names_server,
            unread: outline.unread,
            cut: outline.cut,
            seams,
        })
    }

    /// Whether the recording has no octet.
    pub(crate) fn is_empty(&self) -> bool {
        self.front.octets.is_empty() && self.held.records() == 0 && self.held.end().is_none()
    }

    /// Where an octet of the recording stands.
    pub fn locate(&self, octet: u64) -> FilePlace<'a> {
        self.seams.locate(octet)
    }
}

// A recording as texts show it.
fn name_of(alloc: Global, recording: Recording<'_>) -> Result<String, AllocError> {
    format!(in alloc; "{recording}")
}

/// What a recording holds, if that is known.
pub fn contents_of<'b, 'a>(
    all: &'b [Contents<'a>],
    recording: Recording<'_>,
) -> Option<&'b Contents<'a>> {
    all.iter().find(|contents| contents.recording == recording)
}

/// Reads what a recording of a setup holds within bounds. It fails with `Unread` if a file of it may give its octets
/// only once, or can't be read, and with `Memory` if memory is refused.
pub fn read_contents<'a, R: AllocGlobal + Files>(
    rt: &R,
    setup: &Setup,
    recording: Recording<'a>,
    bounds: Bounds,
) -> Result<Contents<'a>, FileFault> {
    contents_at(rt, recording, bounds, setup.plan.local().peer_id(), None)
}

/// What a recording holds within bounds, by its outline. If the outline isn't known, the recording is read for it. It
/// fails as `read_contents` does.
pub(crate) fn contents_at<'a, R: AllocGlobal + Files>(
    rt: &R,
    recording: Recording<'a>,
    bounds: Bounds,
    server: PeerId,
    known: Option<Outline>,
) -> Result<Contents<'a>, FileFault> {
    let front = front_of(rt, recording, bounds.until)?;
    let outline = match (compression_within(&front.octets, bounds.until), known) {
        (Some(compression), _) => outline_of_compressed(rt.alloc(), compression),
        (None, Some(outline)) => outline,
        (None, None) => outline_at(rt, recording, bounds.until, server)?,
    };
    Contents::new(rt, recording, front, outline, bounds.tail)
}

// How a file is compressed that begins with these octets and is read up to a time. It isn't looked at if its first
// record would be later, since none of it is read then.
fn compression_within(front: &[u8], until: Option<u32>) -> Option<Compression> {
    match until {
        Some(until) if front.len() >= HEADER_LEN && BigEndian::read_u32(front) > until => None,
        _ => Compression::of(front),
    }
}

// The outline of a file that is compressed so: it has no record.
fn outline_of_compressed(alloc: Global, compression: Compression) -> Outline {
    Outline {
        held: Inventory::none(alloc, Some(compression)),
        names_server: false,
        unread: UnreadMessages::none(alloc),
        cut: None,
    }
}

// The outline of a recording, which is read up to a time.
fn outline_at<'a, R: AllocGlobal + Files>(
    rt: &'a R,
    recording: Recording<'a>,
    until: Option<u32>,
    server: PeerId,
) -> Result<Outline, FileFault> {
    let records = RecordReader::up_to(open_recording(rt, recording, None)?, until);
    match outline_of(rt.alloc(), records, server) {
        Ok(outline) => Ok(outline),
        Err(InventoryFault::Memory) => Err(FileFault::Memory),
        Err(InventoryFault::Read) => Err(FileFault::Unread),
    }
}

/// Whether the path names a file that gives its octets each time it is read.
pub fn is_file<R: Files>(rt: &R, path: &str) -> Result<bool, AllocError> {
    match found_at(rt, path)? {
        Some(found) => Ok(found.is_file()),
        None => Ok(false),
    }
}

/// Whether each file of a recording gives its octets each time it is read.
pub fn has_files<R: Files>(rt: &R, recording: Recording<'_>) -> Result<bool, AllocError> {
    for place in 0..recording.count() {
        if !is_file(rt, recording.path(place))? {
            return Ok(false);
        }
    }
    Ok(true)
}

/// The format of the file at a path, by its first octets, if it is not MRT: zip, pcap or text. `held` is the content
/// of its records. None if one of its records is of a known kind, or if the file gives its octets only once.
pub fn format_at<R: AllocGlobal + Files>(rt: &R, path: &str, held: &Inventory) -> Option<Format> {
    if is_known(held) {
        return None;
    }
    Format::of(&front_at(rt, path).ok()?)
}

// The first octets of a file of a recording that is read up to a time. It fails as `front_at` does.
fn front_of<'a, R: AllocGlobal + Files>(
    rt: &R,
    recording: Recording<'a>,
    until: Option<u32>,
) -> Result<Front<'a>, FileFault> {
    let mut first = Front {
        path: recording.path(0),
        octets: front_at(rt, recording.path(0))?,
    };
    for place in 1..recording.count() {
        if compression_within(&first.octets, until).is_some() {
            break;
        }
        let path = recording.path(place);
        let octets = front_at(rt, path)?;
        if first.octets.is_empty() || compression_within(&octets, until).is_some() {
            first = Front { path, octets };
        }
    }
    Ok(first)
}

// The first octets of the file at a path, at most `FRONT_LEN`. It fails with `Unread` if the file may give its octets
// only once, or can't be read, and with `Memory` if memory is refused.
fn front_at<R: AllocGlobal + Files>(rt: &R, path: &str) -> Result<Vec<u8>, FileFault> {
    match is_file(rt, path) {
        Ok(true) => {}
        Ok(false) => return Err(FileFault::Unread),
        Err(_) => return Err(FileFault::Memory),
    }
    let file = open(rt, path)?;
    let mut front = Vec::new(rt.alloc());
    match file.take(FRONT_LEN as u64).read_to_end(&mut front) {
        Ok(_) => Ok(front),
        Err(error) if error.kind() == ErrorKind::OutOfMemory => Err(FileFault::Memory),
        Err(_) => Err(FileFault::Unread),
    }
}
