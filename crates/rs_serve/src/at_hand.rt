//! Readers of files that are at hand as a whole, and the records of what readers give.

ghost use Rattle.std.specs.Prelude.{◌≡◌, ◌<◌, ◌≤◌, ◌^◌, IfOk, All, length, map};
ghost use Rattle.rs_mrt.specs.RecordReading.{room_left, unread};
ghost use Rattle.rs_serve.specs.AtHand.{whole_of};

use rs_mrt::{MemoryReader, Read, ReadLimits, RecordReader};
use std::alloc::{AllocError, Global};

/// A reader of each file, in their order, of which no read fails. Refused if memory is.
pub fn readers_of<'a>(
    alloc: Global,
    files: &[&'a [u8]],
) -> Result<Vec<MemoryReader<'a>>, AllocError>
    ensures count { IfOk result (λ readers. length readers.items ≡ length files.now) }
    ensures fresh { IfOk result (λ readers. All (λ reader. reader.failures ≡ 0) readers.items) }
    ensures files { IfOk result (λ readers. readers.items ≡ map (λ file. whole_of file.now) files.now) }
{
    files
        .iter()
        .map(|file| MemoryReader::new(*file, ReadLimits::none()))
        .collect(alloc)
}

/// The records of what each reader gives, in the order of the readers (RFC 6396, section 2). Nothing is read yet. Refused
/// if memory is.
pub fn record_readers<R: Read + Drop>(
    alloc: Global,
    readers: Vec<R>,
) -> Result<Vec<RecordReader<R>>, AllocError>
    requires { All (λ reader. R.failures reader < u64.MAX) readers.items }
    ensures unread { IfOk result (λ sources. sources.items ≡ map unread readers.items) }
    ensures room { IfOk result (λ sources. All (λ source. room_left source ≤ 2 ^ 50) sources.items) }
{
    let mut sources = Vec::with_capacity(alloc, readers.len())?;
    for reader in readers {
        sources.push(RecordReader::new(reader))?;
    }
    Ok(sources)
}
