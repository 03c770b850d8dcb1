//! Exchanges, what is recorded of their peers, and runs and schedules of them.

ghost use Rattle.std.specs.Prelude.{◌≡◌, length};
ghost use Rattle.rs_floor.specs.FloorContent.{FitAll};

use rs_choice::{Exchange, Local, PeerSpec};
use rs_floor::{Floor, FloorRefused, Gate, Served, Turn, replay, serve_by};
use rs_mrt::{MemoryReader, ReadLimits};
use rs_update::Errors;
use std::alloc::{AllocError, Global};
use std::process::Abort;
use std::sync::{Arc, Wait};
use std::thread::Threads;

/// A peer at 192.0.2.11 or behind it, by its place: its AS number and identifier, what is recorded of it, how many
/// octets a read gives at most, and after how many one fails, where one does.
#[derive(Drop)]
pub struct Peer {
    pub asn: u32,
    pub id: u32,
    pub file: Vec<u8>,
    pub piece: usize,
    pub fails: Option<usize>,
}

impl Peer {
    /// Nothing is recorded of it yet.
    pub fn new(alloc: Global, asn: u32, id: u32) -> Peer {
        let file = Vec::new(alloc);
        Peer {
            asn,
            id,
            file,
            piece: 1000,
            fails: None,
        }
    }
}

/// The address of the peer of this place.
pub fn address_of(place: u32) -> u32 {
    place.wrapping_add(0xC000_020B)
}

// How the configuration has a peer.
fn spec_of(alloc: Global, place: u32, peer: &Peer) -> Option<PeerSpec> {
    Some(PeerSpec {
        name: format!(in alloc; "peer-{place}").ok()?,
        asn: peer.asn,
        address: address_of(place),
        id: peer.id,
        preference: 100,
        refuse_from: Vec::new(alloc),
    })
}

/// The exchange of AS 64500 at 192.0.2.1 with these peers.
pub fn exchange(alloc: Global, peers: &[Peer]) -> Option<Arc<Exchange>> {
    let mut specs = Vec::new(alloc);
    let mut place = 0;
    for peer in peers {
        specs.push(spec_of(alloc, place, peer)?).ok()?;
        place = place.wrapping_add(1);
    }
    let local = Local {
        asn: 64500,
        address: 0xC000_0201,
        id: 0xC000_0201,
        subnet: None,
    };
    Arc::new(alloc, Exchange::new(alloc, local, specs).ok()?).ok()
}

// Appends parts, one after the other.
fn add_all(file: &mut Vec<u8>, parts: &[&[u8]]) -> Result<(), AllocError> {
    for part in parts {
        file.extend_from_slice(part)?;
    }
    Ok(())
}

/// A record of a peer (RFC 6396, section 4.4.3): the place and AS number of the peer, the time, and the prefix of 24
/// bits with these octets.
#[derive(Clone, Copy)]
pub struct Recorded {
    pub place: u32,
    pub asn: u32,
    pub time: u32,
    pub prefix: [u8; 3],
}

// Appends a record of an UPDATE: its Length, the octets of the UPDATE after the marker.
fn add_record(
    file: &mut Vec<u8>,
    recorded: &Recorded,
    length: u8,
    update: &[&[u8]],
) -> Result<(), AllocError> {
    add_all(
        file,
        &[
            &recorded.time.to_be_bytes(),
            &[0, 16, 0, 4, 0, 0, 0, length],
            &recorded.asn.to_be_bytes(),
            &[0, 0, 0xFB, 0xF4, 0, 0, 0, 1],
            &address_of(recorded.place).to_be_bytes(),
            &[0xC0, 0, 2, 1],
            &[0xFF; 16],
        ],
    )?;
    add_all(file, update)
}

/// Appends an announcement: ORIGIN IGP, AS_PATH 64501, NEXT_HOP 192.0.2.11, and this MED.
pub fn add_announcement(
    file: &mut Vec<u8>,
    recorded: &Recorded,
    med: u8,
) -> Result<(), AllocError> {
    add_record(
        file,
        recorded,
        74,
        &[
            &[0, 54, 2, 0, 0, 0, 27, 0x40, 1, 1, 0],
            &[0x40, 2, 6, 2, 1, 0, 0, 0xFB, 0xF5],
            &[0x40, 3, 4, 0xC0, 0, 2, 11],
            &[0x80, 4, 4, 0, 0, 0, med],
            &[24],
            &recorded.prefix,
        ],
    )
}

/// Appends a withdrawal.
pub fn add_withdrawal(file: &mut Vec<u8>, recorded: &Recorded) -> Result<(), AllocError> {
    let prefix = &recorded.prefix;
    add_record(
        file,
        recorded,
        47,
        &[&[0, 27, 2, 0, 4, 24], prefix, &[0, 0]],
    )
}

/// A peer of this place that announces so many prefixes at times from 0. That of place 0 announces 10.0.0.0/24,
/// 11.0.1.0/24, 10.0.2.0/24, and so on. That of place 1 has 12 and 13 in place of 10 and 11, and so on.
pub fn announcer(alloc: Global, place: u32, count: u32) -> Option<Peer> {
    let asn = place.wrapping_add(64501);
    let [.., even] = place.wrapping_mul(2).wrapping_add(10).to_be_bytes();
    let mut peer = Peer::new(alloc, asn, address_of(place));
    for time in 0..count {
        let [_, _, high, low] = time.to_be_bytes();
        let prefix = [even.wrapping_add(low % 2), high, low];
        let recorded = Recorded {
            place,
            asn,
            time,
            prefix,
        };
        add_announcement(&mut peer.file, &recorded, 0).ok()?;
    }
    Some(peer)
}

/// Two peers, the first of which announces so many prefixes.
pub fn two_peers(alloc: Global, count: u32) -> Option<Vec<Peer>> {
    two_announcers(alloc, count, 0)
}

/// Two peers, of which the first announces so many prefixes, and the second so many others.
pub fn two_announcers(alloc: Global, first: u32, second: u32) -> Option<Vec<Peer>> {
    let mut peers = Vec::new(alloc);
    peers.push(announcer(alloc, 0, first)?).ok()?;
    peers.push(announcer(alloc, 1, second)?).ok()?;
    Some(peers)
}

/// The turns of a schedule that takes one peer after another: so many sends of each, and a receipt after each send.
pub fn turns_by_peer(alloc: Global, peers: usize, each: usize) -> Option<Vec<Turn>> {
    let mut turns = Vec::new(alloc);
    for peer in 0..peers {
        for _ in 0..each {
            turns.push(Turn::Send(peer)).ok()?;
            turns.push(Turn::Receive(peer)).ok()?;
        }
    }
    Some(turns)
}

/// A reader of a file that gives at most so many octets at once, and fails after so many, where a number is given.
pub fn reader_of(file: &[u8], piece: usize, fails: Option<usize>) -> MemoryReader<'_>
    ensures { result.failures ≡ 0 }
{
    let limits = ReadLimits {
        octets_before_failure: fails,
        piece,
        ..ReadLimits::none()
    };
    MemoryReader::new(file, limits)
}

/// What comes of a run over peers' files, by RFC 4271.
pub fn run<R: Threads + Wait + Sync + Abort, G: Gate>(
    rt: &R,
    alloc: Global,
    peers: &[Peer],
    capacity: usize,
    shards: usize,
    gate: &G,
) -> Result<Served, FloorRefused> {
    let plan = exchange(alloc, peers).ok_or(FloorRefused::Memory)?;
    let readers: Vec<MemoryReader<'_>> = peers
        .iter()
        .map(|peer| reader_of(&peer.file, peer.piece, peer.fails))
        .collect(alloc)?;
    assert!(rt; readers.len() == plan.count());
    serve_by(
        rt,
        alloc,
        &plan,
        readers,
        capacity,
        shards,
        Errors::Rfc4271,
        gate,
    )
}

/// The exchange of peers and their files at hand, as schedules and runs over files take them.
#[derive(Drop)]
pub struct AtHand<'a> {
    pub plan: Arc<Exchange>,
    pub files: Vec<&'a [u8]>,
    ghost one_for_each: { length files.items ≡ length plan.value.peers },
    ghost limit: { FitAll files.items },
}

/// The files of these peers.
pub fn at_hand<'a>(alloc: Global, peers: &'a [Peer]) -> Option<AtHand<'a>> {
    let plan = exchange(alloc, peers)?;
    let files: Vec<&[u8]> = peers
        .iter()
        .map(|peer| peer.file.as_slice())
        .collect(alloc)
        .ok()?;
    let fit = files.iter().all(|file| file.len() < 1 << 50);
    if !fit || files.len() != plan.count() {
        return None;
    }
    Some(AtHand { plan, files })
}

/// What comes of a schedule over peers' files.
pub fn schedule(
    alloc: Global,
    peers: &[Peer],
    capacity: usize,
    turns: &[Turn],
) -> Result<Floor, FloorRefused> {
    let Some(AtHand { plan, files }) = at_hand(alloc, peers) else {
        return Err(FloorRefused::Memory);
    };
    replay(alloc, &plan, &files, capacity, turns)
}
