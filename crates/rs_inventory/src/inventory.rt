//! What a recorded file holds (RFC 6396).

ghost use Rattle.std.specs.Prelude.{◌≡◌, [], IfOk, OnOk, Some, None, slice_index};
ghost use Rattle.rs_inventory.specs.Inventory.{HoldsNothing, TakesFinding, TakesNote, WithCounts, earlier_of, later_of};
ghost use Rattle.rs_inventory.specs.Inventory.{first_of, is_note_up, is_one_up, silence_before, sum_of};
ghost use Rattle.rs_inventory.specs.Inventory.{with_back, with_unnamed, with_watch};
ghost use Rattle.rs_inventory.specs.Kind.{place_of};
ghost use Rattle.rs_inventory.specs.Peer.{TellsMore, peer_content};

use crate::back::{Back, back_with};
use crate::compression::Compression;
use crate::finding::{Finding, News, Note};
use crate::kind::{KINDS, Kind};
use crate::peer::PeerRecords;
use crate::silence::{Silence, Watch, silence_behind};
use crate::unnamed::{UnnamedLoss, unnamed_by};
use rs_mrt::MrtFault;
use rs_types::PeerId;
use std::alloc::{AllocError, Global};
use std::collections::BTreeMap;
use std::marker::Model;

/// What a recorded file holds. Each count stops at 2 to the 64th less 1.
#[derive(Drop)]
pub struct Inventory {
    compression: Option<Compression>,
    end: Option<MrtFault>,
    records: u64,
    // How many records of each kind there are, by the kind's place.
    kinds: [u64; KINDS],
    first: Option<u32>,
    last: Option<u32>,
    // How many octets the whole records have, if that is known.
    octets: Option<u64>,
    back: Option<Back>,
    // What is known of times without any record.
    watch: Watch,
    unnamed: Vec<UnnamedLoss>,
    recorder: Option<PeerId>,
    peers: BTreeMap<PeerId, PeerRecords>,
}

impl Model for Inventory {
    ghost use Rattle.rs_inventory.specs.Inventory.{Content};

    ghost Value = { Content };

    ghost view = { λ i. record {
      compression = i.compression;
      end = i.end;
      records = i.records;
      kinds = i.kinds;
      first = i.first;
      last = i.last;
      octets = i.octets;
      back = i.back;
      watch = i.watch;
      unnamed = i.unnamed.items;
      recorder = i.recorder;
      peers = i.peers.entries;
    } };
}

impl Inventory {
    /// An inventory of no record: of a file that is compressed so, or of one that isn't.
    pub fn none(alloc: Global, compression: Option<Compression>) -> Inventory
        ensures holds { HoldsNothing result }
        ensures compression { result.compression ≡ compression }
    {
        Inventory {
            compression,
            end: None,
            records: 0,
            kinds: [0; KINDS],
            first: None,
            last: None,
            octets: Some(0),
            back: None,
            watch: Watch::none(),
            unnamed: Vec::new(alloc),
            recorder: None,
            peers: BTreeMap::new(alloc),
        }
    }

    /// Takes what the next record adds.
    pub(crate) fn take(&mut self, alloc: Global, finding: Finding) -> Result<(), AllocError>
        ensures takes { OnOk result (TakesFinding self.old finding self.new) }
        ensures compression { OnOk result (self.new.compression ≡ self.old.compression) }
    {
        let silence = self.silence_before(finding.time);
        let up = self.take_note(alloc, finding.time, finding.note)?;
        self.take_watch(&finding, up, silence);
        self.take_unnamed(&finding)?;
        self.take_back(&finding);
        self.count(&finding);
        Ok(())
    }

    /// Takes how the file ends: in which part of a record, or none if it ends after whole records.
    pub fn take_end(&mut self, end: Option<MrtFault>)
        ensures { self.new ≡ record self.old { end = end } }
    {
        self.end = end;
    }

    // Takes what a record says of a peer, if it says anything. Answers whether the session of that peer is up behind it.
    fn take_note(
        &mut self,
        alloc: Global,
        time: u32,
        note: Option<Note>,
    ) -> Result<bool, AllocError>
        ensures same { OnOk result (self.new ≡ record self.old { peers = self.new.peers }) }
        ensures takes { OnOk result (TakesNote self.old.peers time note self.new.peers) }
        ensures up { IfOk result (λ up. up ≡ is_note_up self.new.peers note) }
    {
        match note {
            Some(note) => take_news(alloc, &mut self.peers, time, note),
            None => Ok(false),
        }
    }

    // The time without any record before one of a time, if it counts.
    fn silence_before(&self, time: u32) -> Option<Silence>
        ensures { result ≡ silence_before time self.now }
    {
        let (records, octets) = (self.records, self.octets);
        let silence = silence_behind(self.last, time, self.watch.wait, records, octets)?;
        if self.is_kept_up() {
            Some(silence)
        } else {
            None
        }
    }

    // Whether the session is up whose peer has kept it up last.
    fn is_kept_up(&self) -> bool
        ensures { result ≡ is_one_up self.now.peers self.now.watch.keeper }
    {
        match self.watch.keeper {
            Some(keeper) => is_up_in(&self.peers, keeper),
            None => false,
        }
    }

    // Takes what a record tells of times without any: whether the session of its peer is up behind it, and the time without
    // any before it, if that counts.
    fn take_watch(&mut self, finding: &Finding, up: bool, silence: Option<Silence>)
        ensures { self.new ≡ with_watch finding.now up silence self.old }
    {
        self.watch = self.watch.with(finding, up, silence);
    }

    // Takes the loss in a record, if it is one without an address.
    fn take_unnamed(&mut self, finding: &Finding) -> Result<(), AllocError>
        ensures { OnOk result (self.new ≡ with_unnamed finding.now self.old) }
    {
        if let Some(loss) = unnamed_by(finding.time, finding.note) {
            self.unnamed.push(loss)?;
        }
        Ok(())
    }

    // Takes where times go back, if they do at a record. Those before it are counted.
    fn take_back(&mut self, finding: &Finding)
        ensures { self.new ≡ with_back finding.now self.old }
    {
        self.back = back_with(
            self.back,
            self.last,
            finding.time,
            self.records,
            self.octets,
        );
    }

    // Counts a record, and takes its time.
    fn count(&mut self, finding: &Finding)
        ensures { WithCounts finding.now self.old self.new }
    {
        let place = finding.kind.place();
        self.kinds[place] = self.kinds[place].saturating_add(1);
        self.records = self.records.saturating_add(1);
        self.first = Some(earlier(self.first, finding.time));
        self.last = Some(later(self.last, finding.time));
        self.octets = sum(self.octets, finding.octets);
        self.recorder = first_known(self.recorder, finding.recorder);
    }

    /// How the file is compressed; none if it isn't. Of a compressed file no record is read.
    pub fn compression(&self) -> Option<Compression>
        ensures { result ≡ self.now.compression }
    {
        self.compression
    }

    /// In which part of a record the file ends; none if it ends after whole records.
    pub fn end(&self) -> Option<MrtFault>
        ensures { result ≡ self.now.end }
    {
        self.end
    }

    /// How many whole records there are.
    pub fn records(&self) -> u64
        ensures { result ≡ self.now.records }
    {
        self.records
    }

    /// How many records of a kind there are.
    pub fn count_of(&self, kind: Kind) -> u64
        ensures { result ≡ slice_index self.now.kinds (place_of kind) }
    {
        self.kinds[kind.place()]
    }

    /// The earliest Timestamp, in seconds since 1970; none if there is no record.
    pub fn first(&self) -> Option<u32>
        ensures { result ≡ self.now.first }
    {
        self.first
    }

    /// The latest Timestamp, in seconds since 1970; none if there is no record.
    pub fn last(&self) -> Option<u32>
        ensures { result ≡ self.now.last }
    {
        self.last
    }

    /// How many octets the whole records have together: none if one is longer than any of a session, since of such
    /// a one not all octets are kept.
    pub fn octets(&self) -> Option<u64>
        ensures { result ≡ self.now.octets }
    {
        self.octets
    }

    /// Where times go back by more than a minute the first time; none if they don't.
    pub fn back(&self) -> Option<Back>
        ensures { result ≡ self.now.back }
    {
        self.back
    }

    /// The first time without any record while a session is up that shows KEEPALIVEs; none if there is none.
    pub fn silence(&self) -> Option<Silence>
        ensures { result ≡ self.now.watch.first }
    {
        self.watch.first
    }

    /// The losses that are recorded without an address, in order.
    pub fn unnamed(&self) -> &[UnnamedLoss]
        ensures { result.now ≡ self.now.unnamed }
    {
        &self.unnamed
    }

    /// The AS number and the address of the recorder, as the first message of a session with four-octet AS numbers
    /// names it.
    pub fn recorder(&self) -> Option<PeerId>
        ensures { result ≡ self.now.recorder }
    {
        self.recorder
    }

    /// What is recorded of each peer, by address and then AS number.
    pub fn peers(&self) -> &BTreeMap<PeerId, PeerRecords>
        ensures { result.now.entries ≡ self.now.peers }
    {
        &self.peers
    }
}

// Whether the session of a peer is up.
fn is_up_in(peers: &BTreeMap<PeerId, PeerRecords>, peer: PeerId) -> bool
    ensures { result ≡ is_one_up peers.now.entries (Some peer) }
{
    match peers.get(&peer) {
        Some(records) => records.course().up,
        None => false,
    }
}

// Takes what a record says of a peer. Answers whether the session of that peer is up behind it.
fn take_news(
    alloc: Global,
    peers: &mut BTreeMap<PeerId, PeerRecords>,
    time: u32,
    note: Note,
) -> Result<bool, AllocError>
    ensures takes { OnOk result (TakesNote peers.old.entries time (Some note) peers.new.entries) }
    ensures up { IfOk result (λ up. up ≡ is_note_up peers.new.entries (Some note)) }
{
    if let Some(records) = peers.get_mut(&note.peer) {
        records.take(time, note.news)?;
        return Ok(records.course().up);
    }
    let records = first_records(alloc, time, note.news)?;
    let up = records.course().up;
    peers.insert(note.peer, records)?;
    Ok(up)
}

// What is known of a peer by its first record.
fn first_records(alloc: Global, time: u32, news: News) -> Result<PeerRecords, AllocError>
    ensures { IfOk result (λ records. TellsMore (peer_content []) time news records) }
{
    let mut records = PeerRecords::none(alloc);
    records.take(time, news)?;
    Ok(records)
}

// The earlier of two times, if there are two.
fn earlier(first: Option<u32>, time: u32) -> u32
    ensures { result ≡ earlier_of first time }
{
    match first {
        Some(first) => first.min(time),
        None => time,
    }
}

// The later of two times, if there are two.
fn later(last: Option<u32>, time: u32) -> u32
    ensures { result ≡ later_of last time }
{
    match last {
        Some(last) => last.max(time),
        None => time,
    }
}

// The recorder that was found first, if one was.
fn first_known(before: Option<PeerId>, found: Option<PeerId>) -> Option<PeerId>
    ensures { result ≡ first_of before found }
{
    match before {
        Some(_) => before,
        None => found,
    }
}

// The sum of two numbers, if both are known.
fn sum(one: Option<u64>, other: Option<u64>) -> Option<u64>
    ensures { result ≡ sum_of one other }
{
    Some(one?.saturating_add(other?))
}
