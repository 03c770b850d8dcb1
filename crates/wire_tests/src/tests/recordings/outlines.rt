//! Outlines of files: made while their records are shown, and of a file that is read for them.

use super::file_of;
use rs_inventory::{
    InventoryFault, Outline, OutlineSlot, Outlined, PeerId, outline_of, read_outline,
};
use rs_mrt::{Cut, MemoryReader, MrtFault, ReadLimits, RecordReader, Source};
use std::alloc::Global;
use std::test::Fail;

// Three records, of which the second one is a message with two-octet AS numbers.
const RECORDS: &str = "100 16.4 of-64501 MARKER OPEN
    101 16.1 FBF5FBF400000001C000020BC0000201 MARKER CHANGES
    102 16.4 of-64502 MARKER KEEPALIVE";

// The server as records name it, and another one.
const SERVER: PeerId = PeerId {
    address: 0xC000_0201,
    asn: 64500,
};

const ANOTHER: PeerId = PeerId {
    address: 0xC000_0202,
    asn: 64500,
};

// A peer of the second record.
const NARROW: PeerId = PeerId {
    address: 0xC000_020B,
    asn: 64501,
};

// A reader of records with these limits.
fn records_of<'a>(file: &'a [u8], limits: ReadLimits) -> RecordReader<MemoryReader<'a>> {
    RecordReader::new(MemoryReader::new(file, limits))
}

// The outline that a slot takes while the records are shown.
fn outline_in_slot(
    alloc: Global,
    file: &[u8],
    limits: ReadLimits,
    server: PeerId,
) -> Option<Outline> {
    let slot = OutlineSlot::empty();
    let mut source = Outlined::new(alloc, records_of(file, limits), server, Some(&slot));
    for _ in 0..=file.len() {
        let Ok(true) = source.advance() else {
            break;
        };
    }
    slot.take()
}

// What an outline tells: how many records there are, how they end, and whether the server is named.
fn told(outline: &Outline) -> (u64, Option<MrtFault>, Option<Cut>, bool, u64) {
    (
        outline.held.records(),
        outline.held.end(),
        outline.cut,
        outline.names_server,
        outline.unread.of(NARROW).two_octet,
    )
}

#[test]
fn an_outline_has_what_the_records_show(rt: HostRuntime) -> Result<(), Fail> {
    let alloc = rt.alloc();
    let file = file_of(alloc, RECORDS);
    let file = file.whole().ok_or("a file")?;
    for (server, names) in [(SERVER, true), (ANOTHER, false)] {
        let Some(made) = outline_in_slot(alloc, file, ReadLimits::none(), server) else {
            return Err(Fail::new("no outline"));
        };
        assert_eq!(rt; told(&made), (3, None, None, names, 1));
    }
    Ok(())
}

#[test]
fn an_outline_has_the_record_that_is_cut_short(rt: HostRuntime) -> Result<(), Fail> {
    let alloc = rt.alloc();
    let file = file_of(alloc, RECORDS);
    let file = file.whole().ok_or("a file")?;
    for len in 0..=file.len() {
        let part = &file[..len];
        let Some(made) = outline_in_slot(alloc, part, ReadLimits::none(), SERVER) else {
            return Err(Fail::new("no outline"));
        };
        let Ok(read) = outline_of(alloc, records_of(part, ReadLimits::none()), SERVER) else {
            return Err(Fail::new("the file can't be read"));
        };
        let end = made
            .cut
            .map_or(len as u64, |cut| cut.octet.saturating_add(cut.len));
        assert_eq!(rt; (told(&made), end), (told(&read), len as u64));
    }
    Ok(())
}

#[test]
fn a_failed_read_gives_no_outline(rt: HostRuntime) -> Result<(), Fail> {
    let alloc = rt.alloc();
    let file = file_of(alloc, RECORDS);
    let file = file.whole().ok_or("a file")?;
    for count in 0..file.len() {
        let limits = ReadLimits {
            octets_before_failure: Some(count),
            ..ReadLimits::none()
        };
        let made = outline_in_slot(alloc, file, limits, SERVER);
        let read = outline_of(alloc, records_of(file, limits), SERVER);
        let held = read_outline(alloc, records_of(file, limits));
        assert!(rt;
            made.is_none()
                && matches!(read, Err(InventoryFault::Read))
                && matches!(held, Err(InventoryFault::Read)),
            "a failure after {count} octets"
        );
    }
    Ok(())
}
