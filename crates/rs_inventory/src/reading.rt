//! How a recorded file is read: once, in pieces, and of a compressed one only its first octets.

ghost use Rattle.std.specs.Prelude.{◌≡◌, ◌+◌, ◌<◌, ◌≤◌, IfOk, IfSome, IsErrOf, IsTrue, None, Some, false};
ghost use Rattle.rs_mrt.specs.Leniency.{ComesBy, answer_at_end};
ghost use Rattle.rs_mrt.specs.RecordReading.{MayCome, unread_until};
ghost use Rattle.rs_mrt.specs.Source.{source_end};
ghost use Rattle.rs_inventory.specs.Inventory.{HoldsNothing};
ghost use Rattle.rs_inventory.specs.OutlinedRecords.{IsFileOutline};
ghost use Rattle.rs_inventory.specs.Reading.{GivesRecord, IsInventoryOf, IsOutlineOf, IsReadingOf};
ghost use Rattle.rs_inventory.specs.Reading.{MayBeCompressed, MayFail};
ghost use Rattle.rs_inventory.specs.declared.reading.InventoryFault.TheVariants.{Memory, Read};

use crate::compression::Compression;
use crate::depth::Depth;
use crate::file_outline::Outline;
use crate::finding::Finding;
use crate::front::{Front, Whole};
use crate::inventory::Inventory;
use rs_mrt::{Bounds, Failed, Lenient, MrtFault, Read, RecordReader, Source, SourceFault};
use rs_types::PeerId;
use std::alloc::{AllocError, Global};
use thiserror::Error;

/// Why there is no inventory of a file.
#[derive(Clone, Copy, Debug, PartialEq, Eq, Drop, Error)]
pub enum InventoryFault {
    /// A read failed, or the file has 2^50 octets or more.
    #[error("the file cannot be read whole")]
    Read,
    /// Memory was refused.
    #[error("memory was refused")]
    Memory,
}

impl From<AllocError> for InventoryFault {
    ghost from_gives = { λ _ fault. fault ≡ Memory };

    fn from(_refused: AllocError) -> InventoryFault {
        InventoryFault::Memory
    }
}

impl From<Failed> for InventoryFault {
    ghost from_gives = { λ _ fault. fault ≡ Read };

    fn from(_failed: Failed) -> InventoryFault {
        InventoryFault::Read
    }
}

/// Reads a recorded file within bounds and tells what it holds: whether it is compressed, and of one that isn't what
/// its records say. Of a compressed one no record is read, so it tells of no record, no peer and no end. Memory is
/// taken for its peers and their sessions, not for its octets.
///
/// `Read` is answered if a read fails, or 2^50 octets come of the reader; `Memory` if memory is refused.
pub fn read_inventory<R: Read + Drop>(
    alloc: Global,
    mut reader: R,
    bounds: Bounds,
) -> Result<Inventory, InventoryFault>
    requires { R.failures reader < u64.MAX }
    // It is compressed as octets are that the reader may give.
    ensures compressed { IfOk result (λ held. MayBeCompressed R.gives reader held.compression) }
    // Of a compressed file nothing is counted, no peer is known, and no end.
    ensures unread { IfOk result (λ held. IfSome held.compression (λ _. HoldsNothing held)) }
    // Of a file that isn't it is the inventory of records within the bounds that the reader may give, to their end.
    ensures records { IfOk result (λ held. held.compression ≡ None
        → IsInventoryOf (ComesBy (MayCome R.gives))
        (record { source = unread_until bounds.until reader; tail = bounds.tail }) held) }
    // A read is only said to fail if the reader may fail, or give as many octets as are taken of it.
    ensures read { IsErrOf result Read
        → MayFail (ComesBy (MayCome R.gives))
        (record { source = unread_until bounds.until reader; tail = bounds.tail }) }
{
    let front = Front::of(&mut reader)?;
    if let Some(compression) = Compression::of(front.octets()) {
        return Ok(Inventory::none(alloc, Some(compression)));
    }
    let records = RecordReader::up_to(Whole::new(front, reader), bounds.until);
    let inventory = take_records(alloc, Lenient::new(records, bounds.tail), Depth::Whole)?;
    Ok(inventory)
}

/// The inventory of all records of a source, but of each message only its type: whether it has a fault, and how many
/// prefixes it lists, isn't told.
///
/// `Read` is answered if a read fails, or the source takes no more octets; `Memory` if memory is refused.
pub fn read_outline<S: Source + Drop>(alloc: Global, source: S) -> Result<Inventory, InventoryFault>
    // It is the outline of records that the source may give, to their end. It tells of no compression.
    ensures records { IfOk result (IsOutlineOf S.comes source) }
    ensures uncompressed { IfOk result (λ held. held.compression ≡ None) }
    // A read is only said to fail if the source may fail.
    ensures read { IsErrOf result Read → MayFail S.comes source }
{
    take_records(alloc, source, Depth::Outline)
}

/// Reads all records of a reader and answers their outline. The server is named as records name it.
///
/// `Read` is answered if a read fails, or the reader takes no more octets; `Memory` if memory is refused.
pub fn outline_of<R: Read + Drop>(
    alloc: Global,
    mut source: RecordReader<R>,
    server: PeerId,
) -> Result<Outline, InventoryFault>
    // It is the outline of records that the source may give, to their end. It tells of no compression.
    ensures outline { IfOk result (IsFileOutline server (MayCome R.gives) source) }
    ensures uncompressed { IfOk result (λ outline. outline.held.compression ≡ None) }
    // A read is only said to fail if the source may fail.
    ensures read { IsErrOf result Read → MayFail (MayCome R.gives) source }
{
    let mut outline = Outline::none(alloc);
    let mut end = None;
    while next_record(&mut source, &mut end)? {
        let Some(record) = source.shown() else {
            unreachable!();
        };
        outline.take(alloc, &record, server)?;
    }
    outline.take_end(end, source.cut());
    Ok(outline)
}

// The inventory of all records of a source.
fn take_records<S: Source + Drop>(
    alloc: Global,
    mut source: S,
    depth: Depth,
) -> Result<Inventory, InventoryFault>
    ensures records { IfOk result (IsReadingOf depth S.comes source) }
    ensures uncompressed { IfOk result (λ held. held.compression ≡ None) }
    ensures read { IsErrOf result Read → MayFail S.comes source }
{
    let mut inventory = Inventory::none(alloc, None);
    let mut end = None;
    while next_record(&mut source, &mut end)? {
        let Some(record) = source.shown() else {
            unreachable!();
        };
        let finding = Finding::of(alloc, &record, depth)?;
        inventory.take(alloc, finding)?;
    }
    inventory.take_end(end);
    Ok(inventory)
}

// Goes to the next record and answers whether there is one. If there is none, it answers how the records end.
fn next_record<S: Source>(
    source: &mut S,
    end: &mut Option<MrtFault>,
) -> Result<bool, InventoryFault>
    ensures gives { IfOk result (GivesRecord S.comes source.old source.new (S.shows source.new) end.new) }
    ensures room { IfOk result (λ more. IsTrue more → S.room source.new + 12 ≤ S.room source.old) }
    ensures stopped { IfOk result (λ more. more ≡ false
        → S.stopped source.new ≡ Some (answer_at_end (source_end end.new))) }
    ensures read { IsErrOf result Read → MayFail S.comes source.old }
{
    match source.advance() {
        Ok(true) => Ok(true),
        Ok(false) => {
            *end = None;
            Ok(false)
        }
        Err(SourceFault::Mrt(fault)) => {
            *end = Some(fault);
            Ok(false)
        }
        Err(SourceFault::Read) => Err(InventoryFault::Read),
    }
}
