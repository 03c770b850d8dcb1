//! Begins a reading that several peers share.

ghost use Rattle.std.specs.Prelude.{◌≡◌, ◌≤◌, ◌^◌, [], ◌∷◌, ◌++◌, IfOk, IsTrue, List, map};
ghost use Rattle.rtrb.specs.Ring.{received, sent};
ghost use Rattle.rs_share.specs.Reading.{IsReading};
ghost use Rattle.rs_share.specs.Sharing.{IsOpened, IsSharing, untaken};
ghost use Rattle.rs_types.specs.declared.peer_id.PeerId.{PeerId};
ghost use Rattle.rs_share.specs.declared.sharing.ShareRefused.TheVariants.{Memory};

use crate::batch::Batch;
use crate::directory::Directory;
use crate::line::Line;
use crate::part::{Begin, Free, InTurn, Part};
use crate::reader::Reader;
use crate::taken::Taken;
use rs_mrt::Source;
use rs_types::PeerId;
use rtrb::{Consumer, Producer, RingBuffer};
use std::alloc::{AllocError, Global};
use std::snapshot::Snapshot;
use std::sync::{Arc, Wait};
use std::thread::Parker;
use thiserror::Error;

/// How many octets wait at most between a reader and all its peers.
pub const WAITING_OCTETS: usize = 4 * 1024 * 1024;

// How many batches there are for each peer.
const BATCHES: usize = 3;

// How much of a batch is for the numbers of its records: one part of so many.
const HEADS_PART: usize = 5;

/// Why no reading is shared.
#[derive(Clone, Copy, Debug, PartialEq, Eq, Drop, Error)]
pub enum ShareRefused {
    /// Two peers have the same address and the same AS number.
    #[error("two peers with one address and AS number")]
    Twice,
    /// Memory is refused.
    #[error("out of memory")]
    Memory,
}

impl From<AllocError> for ShareRefused {
    ghost from_gives = { λ _ fault. fault ≡ Memory };

    fn from(_refused: AllocError) -> ShareRefused {
        ShareRefused::Memory
    }
}

/// The reader of a source, and what each peer takes of it, in the order of the peers.
#[derive(Drop)]
pub struct Shared<'s, S: Source, R: Wait> {
    /// Reads the source, on a thread of its own.
    pub reader: Reader<S>,
    /// What each peer takes.
    pub taken: Vec<Taken<'s, S, R>>,
}

/// Begins a reading of a source that several peers share. Nothing is read yet. All memory is taken now.
pub fn share<'s, S: Source + Drop, R: Wait>(
    alloc: Global,
    rt: &'s R,
    source: S,
    peers: &[PeerId],
) -> Result<Shared<'s, S, R>, ShareRefused>
    requires { S.room source ≤ 2 ^ 50 }
    ensures reader { IfOk result (λ shared. IsReading S.comes S.room shared.reader) }
    ensures taken { IfOk result (λ shared. shared.taken.items ≡ map (untaken source) peers.now) }
{
    let mut shared = Shared::begin(alloc, source)?;
    let room = Room::of(peers.len());
    for place in 0..peers.len() {
        if !shared.add(alloc, rt, peers[place], room)? {
            return Err(ShareRefused::Twice);
        }
    }
    Ok(shared)
}

// How much room a batch has: for so many records, and so many octets of their bodies.
#[derive(Clone, Copy, Drop)]
struct Room {
    records: usize,
    octets: usize,
}

impl Room {
    // The room of a batch if so many peers share a reading.
    fn of(peers: usize) -> Room {
        let part = WAITING_OCTETS / BATCHES / peers.max(1) / HEADS_PART;
        Room {
            records: (part / Batch::HEAD_OCTETS).max(1),
            octets: part * (HEADS_PART - 1),
        }
    }
}

impl<'s, S: Source + Drop, R: Wait> Shared<'s, S, R> {
    // A reader for no peers.
    fn begin(alloc: Global, source: S) -> Result<Shared<'s, S, R>, AllocError>
        requires { S.room source ≤ 2 ^ 50 }
        ensures sharing { IfOk result (λ shared. IsSharing S.room shared.reader shared.taken.items []) }
        ensures source { IfOk result (λ shared. shared.reader.source ≡ source) }
    {
        Ok(Shared {
            reader: Reader {
                alloc,
                source,
                directory: Directory::new(alloc),
                lines: Vec::new(alloc),
                parker: Arc::new(alloc, Parker::new())?,
                count: 0,
            },
            taken: Vec::new(alloc),
        })
    }

    // Adds a peer. Answers whether no other one has its address and its AS number.
    fn add(
        &mut self,
        alloc: Global,
        rt: &'s R,
        peer: PeerId,
        room: Room,
    ) -> Result<bool, AllocError>
        requires { S.room self.old.reader.source ≤ 2 ^ 50 }
        ensures sharing { IfOk result (λ new. IsTrue new → (peers : List PeerId)
            → IsSharing S.room self.old.reader self.old.taken.items peers
            → IsSharing S.room self.new.reader self.new.taken.items (peers ++ peer ∷ [])) }
        ensures source { IfOk result (λ _. self.new.reader.source ≡ self.old.reader.source) }
    {
        if !self.reader.directory.add(peer)? {
            return Ok(false);
        }
        let (parts, from) = open_parts(alloc, &self.reader.source, peer)?;
        let (back, returned) = open_back(alloc, room)?;
        let parker = Arc::new(alloc, Parker::new())?;
        self.reader.lines.push(Line {
            source: Snapshot::of(&self.reader.source),
            id: peer,
            parts,
            back: returned,
            peer: parker.clone()?,
            batch: Batch::with_room(alloc, room.records, room.octets)?,
            seen: 0,
            open: true,
        })?;
        self.taken.push(Taken {
            rt,
            source: Snapshot::of(&self.reader.source),
            peer,
            parts: from,
            back,
            reader: self.reader.parker.clone()?,
            parker,
            alloc,
            batch: Batch::none(alloc),
            at: 0,
            last: None,
            shown: None,
            others: 0,
            stopped: None,
        })?;
        Ok(true)
    }
}

// A ring for parts, through which the first one has gone: it says of which source they are, and whose.
fn open_parts<S: Source>(
    alloc: Global,
    source: &S,
    peer: PeerId,
) -> Result<
    (
        Producer<Part<S>, Global, InTurn>,
        Consumer<Part<S>, Global, InTurn>,
    ),
    AllocError,
>
    ensures { IfOk result (λ ends. IsOpened source.now peer (sent ends.0) (received ends.1)) }
{
    let (mut parts, mut from) = RingBuffer::with_protocol::<Global, InTurn>(alloc, BATCHES)?;
    let begin = Begin {
        source: Snapshot::of(source),
        peer,
    };
    parts.push_reserved(Part {
        begin: Some(begin),
        batch: Batch::none(alloc),
        last: None,
    });
    from.slots_beside(&mut parts);
    drop(from.pop_known());
    Ok((parts, from))
}

// A ring for batches that are given back, with all but one of them.
fn open_back(
    alloc: Global,
    room: Room,
) -> Result<(Producer<Batch, Global, Free>, Consumer<Batch, Global, Free>), AllocError> {
    let (mut back, returned) = RingBuffer::with_protocol::<Global, Free>(alloc, BATCHES)?;
    for _ in 1..BATCHES {
        let batch = Batch::with_room(alloc, room.records, room.octets)?;
        // There is room: the ring has as many places as there are batches.
        let _ = back.push(batch).is_ok();
    }
    Ok((back, returned))
}
