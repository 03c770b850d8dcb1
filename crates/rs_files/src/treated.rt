//! How many UPDATEs of a peer a run treats as withdrawn (RFC 7606, section 2).
//!
//! Our choice: those behind the close of the session don't count, since a run doesn't read them.

use rs_host::{Reached, Unready, open_recording};
use rs_mrt::{Entry, Lenient, Record, RecordReader, Source, SourceFault, entry};
use rs_query::CheckQuery;
use rs_session::PeerId;
use rs_setup::Recording;
use rs_update::{Errors, Message, MessageFault, read_message_by};
use std::alloc::{AllocError, Global};
use std::fs::Files;

// What a record is to the session of a peer, if its faults are handled by RFC 7606.
#[derive(Clone, Copy)]
enum Told {
    // An UPDATE that is treated as withdrawn.
    Treated,
    // Something else after which the session goes on.
    Other,
    // The last that is read: the session closes, or the records end.
    Last,
    // Nothing: a read failed.
    Unread,
}

/// How many UPDATEs of a peer in a recording are treated as withdrawn by RFC 7606. The recording is read within the bounds
/// that are asked for. Fails with `Unread` if a file of it can't be read, with `Memory` if memory is refused.
pub(crate) fn treated_at<'a, R: AllocGlobal + Files>(
    rt: &'a R,
    recording: Recording<'a>,
    peer: PeerId,
    query: &CheckQuery,
) -> Result<u64, Unready> {
    let alloc = rt.alloc();
    let reached = Reached::first();
    let records = match open_recording(rt, recording, Some(&reached)) {
        Ok(file) => RecordReader::up_to(file, query.bounds.until),
        Err(fault) => return Err(Unready::by_file(alloc, fault, recording.path(0))),
    };
    match count_treated(alloc, Lenient::new(records, query.bounds.tail), peer)? {
        Some(count) => Ok(count),
        None => Err(Unready::by_path(alloc, reached.path(recording))),
    }
}

// How many UPDATEs of a peer are treated as withdrawn, of those that a source gives; none if a read fails.
fn count_treated<S: Source + Drop>(
    alloc: Global,
    mut records: S,
    peer: PeerId,
) -> Result<Option<u64>, AllocError> {
    let mut count: u64 = 0;
    for _ in 0..u64::MAX {
        match told_next(alloc, &mut records, peer)? {
            Told::Treated => count = count.saturating_add(1),
            Told::Other => {}
            Told::Last => break,
            Told::Unread => return Ok(None),
        }
    }
    Ok(Some(count))
}

// Goes to the next record, and answers what the record means for the session of a peer.
fn told_next<S: Source>(alloc: Global, records: &mut S, peer: PeerId) -> Result<Told, AllocError> {
    match records.advance() {
        Ok(true) => {}
        Ok(false) | Err(SourceFault::Mrt(_)) => return Ok(Told::Last),
        Err(SourceFault::Read) => return Ok(Told::Unread),
    }
    match records.shown() {
        Some(record) => told_by(alloc, &record, peer),
        None => Ok(Told::Last),
    }
}

// What a record is to the session of a peer.
fn told_by(alloc: Global, record: &Record<'_>, peer: PeerId) -> Result<Told, AllocError> {
    match entry(record) {
        Ok(
            Entry::Message {
                peer_as,
                peer: address,
                message,
            },
        ) if peer_as == peer.asn && address == peer.address => told_in(alloc, message),
        Ok(_) => Ok(Told::Other),
        Err(_) => Ok(Told::Last),
    }
}

// What a message is to the session of its peer.
fn told_in(alloc: Global, message: &[u8]) -> Result<Told, AllocError> {
    match read_message_by(alloc, Errors::Rfc7606, message) {
        Ok(Message::Treated { .. }) => Ok(Told::Treated),
        Ok(_) => Ok(Told::Other),
        Err(MessageFault::Bgp { .. }) => Ok(Told::Last),
        Err(MessageFault::Memory) => Err(AllocError),
    }
}
