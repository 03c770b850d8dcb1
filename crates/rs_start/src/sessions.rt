//! The sessions of all peers, which a table begins.

ghost use Rattle.std.specs.Prelude.{◌≡◌, [], ◌∷◌, IfErr, IfOk, OnOk};
ghost use Rattle.rs_start.specs.Sessions.{AddsAll, AddsEntries, AddsNext, AddsRoutes, AllEnd, AllGo, EndsBy, GoesBy};
ghost use Rattle.rs_start.specs.Sessions.{EntriesNamePeer, HasFailed, NamesPeer, WritesTable};
ghost use Rattle.rs_start.specs.Counting.{Counted, outcome_of};
ghost use Rattle.rs_start.specs.Opening.{added_of, route_by};
ghost use Rattle.rs_start.specs.RightFlags.{mended};
ghost use Rattle.rs_start.specs.Table.{IsIndex};
ghost use Rattle.rs_start.specs.TableFile.{rows_of};
ghost use Rattle.rs_start.specs.TableReading.{ReadsIndex, record_at};
ghost use Rattle.rs_start.specs.TableView.{entry_of};
ghost use Rattle.rs_start.specs.declared.fault.StartFault.TheVariants as StartFault;
ghost use Rattle.rs_start.specs.declared.part.Part.TheVariants.{Other};

use crate::counts::{Counts, LeftOut, grow};
use crate::fault::{Broken, PartFault, RoutesFault, StartFault, TableFault};
use crate::index::{Index, read_index};
use crate::part::{Part, TableEnd, part_by};
use crate::rib::{Rib, RibEntry, read_rib, split_entry};
use crate::table_reader::{Head, TableReader};
use crate::writer::SessionWriter;
use rs_mrt::{Read, Write};
use rs_update::Prefix;

/// The session of the peer at a place of the index.
#[derive(Drop)]
pub struct PeerSession<W: Write> {
    /// What it is written to; none where no session of the peer is asked for, or the peer has no IPv4 address.
    pub writer: Option<SessionWriter<W>>,
    /// What became of the peer's entries.
    pub counts: Counts,
}

impl<W: Write + Drop> PeerSession<W> {
    // Adds an entry of the peer.
    fn add(&mut self, prefix: Prefix, section: &[u8]) -> Result<(), StartFault>
        ensures goes { OnOk result (GoesBy W.taken self.old.writer self.new.writer
            (route_by (added_of prefix (mended section.now)) prefix (mended section.now))) }
        ensures counts { OnOk result (Counted self.old.counts self.new.counts
            (outcome_of self.old.writer prefix section.now ∷ [])) }
        ensures failed { IfErr result (λ fault. fault ≡ StartFault.Write → HasFailed W.failures self.new.writer) }
    {
        match &mut self.writer {
            Some(writer) => {
                let added = writer.add(prefix, section)?;
                self.counts.add(added);
            }
            None => grow(&mut self.counts.unwritten),
        }
        Ok(())
    }

    // Writes all that waits.
    fn finish(&mut self) -> Result<(), StartFault>
        ensures ends { OnOk result (EndsBy W.taken self.old.writer self.new.writer []) }
        ensures counts { self.new.counts ≡ self.old.counts }
        ensures failed { IfErr result (λ fault. fault ≡ StartFault.Write → HasFailed W.failures self.new.writer) }
    {
        match &mut self.writer {
            Some(writer) => writer.finish(),
            None => Ok(()),
        }
    }
}

impl<R: Read> TableReader<R> {
    /// Reads up to the index of the table at a place of the file, counted from 0, and answers its time, in seconds since
    /// 1970, and the index. Tables before it are passed over. Records before the first index that have no routes of IPv4
    /// unicast prefixes are counted, if the first table is read.
    ///
    /// `Broken` tells what is at fault: a record or the index is cut short, or the end of the file comes before the
    /// index, or, if the first table is read, routes do. `Read` comes where a read fails, `Memory` where memory is
    /// refused.
    pub fn read_index(
        &mut self,
        place: usize,
        left_out: &mut LeftOut,
    ) -> Result<(u32, Index), TableFault>
        ensures index { IfOk result (λ read.
            ReadsIndex R.gives self.old self.new place read.0 read.1.collector read.1.view_name.items
            read.1.peers.items) }
    {
        let mut earlier = 0;
        for _record in 0..u64::MAX {
            let Some(head) = self.next()? else {
                return Err(self.broken(Broken::NoIndex));
            };
            match part_by(head.kind, head.subtype) {
                Part::Index => {
                    if earlier == place {
                        return self.index_in(&head);
                    }
                    earlier += 1;
                }
                part => pass_over(part, &head, place, left_out)?,
            }
        }
        Err(TableFault::Read)
    }

    // The time and the index of the record read last.
    fn index_in(&self, head: &Head) -> Result<(u32, Index), TableFault>
        ensures time { IfOk result (λ read. read.0 ≡ head.now.time) }
        ensures index { IfOk result (λ read.
            IsIndex (record_at head.now self.now.body).body read.1.collector read.1.view_name.items
            read.1.peers.items) }
    {
        match read_index(self.alloc, self.body(head)) {
            Ok(index) => Ok((head.time, index)),
            Err(fault) => Err(fault.in_file(head.at)),
        }
    }

    /// Reads the records behind the index to the end of the table: to the end of the file, or over the index of the next
    /// table. Adds each entry to the session of its peer, and writes the sessions whole. Records without routes of IPv4
    /// unicast prefixes, and entries of peers that the index does not have, are counted.
    ///
    /// Afterwards what was taken of each session says just what the table has of its peer, as the peer's session: one
    /// announcement for each route that isn't left out, in order. Each peer's counts have grown by what became of its
    /// entries.
    ///
    /// `Write` names the peer whose session could not be written.
    pub fn write_sessions<W: Write + Drop>(
        &mut self,
        sessions: &mut [PeerSession<W>],
        left_out: &mut LeftOut,
    ) -> Result<TableEnd, RoutesFault>
        ensures written { IfOk result (λ end.
            WritesTable R.gives W.taken self.old self.new sessions.old sessions.new end) }
        ensures failed { IfErr result (λ fault. NamesPeer W.failures sessions.new fault) }
    {
        let end = self.read_routes(sessions, left_out)?;
        finish_all(sessions)?;
        Ok(end)
    }

    // Reads the records behind the index, and adds each entry to the session of its peer.
    fn read_routes<W: Write + Drop>(
        &mut self,
        sessions: &mut [PeerSession<W>],
        left_out: &mut LeftOut,
    ) -> Result<TableEnd, RoutesFault>
        ensures adds { IfOk result (λ end. AddsAll R.gives W.taken self.old self.new sessions.old sessions.new end) }
        ensures failed { IfErr result (λ fault. NamesPeer W.failures sessions.new fault) }
    {
        for _record in 0..u64::MAX {
            if let Some(end) = self.add_next(sessions, left_out)? {
                return Ok(end);
            }
        }
        Err(RoutesFault::Table(TableFault::Read))
    }

    // Reads the next record, and adds its entries, unless the table ends. Answers how it ends, if it does.
    fn add_next<W: Write + Drop>(
        &mut self,
        sessions: &mut [PeerSession<W>],
        left_out: &mut LeftOut,
    ) -> Result<Option<TableEnd>, RoutesFault>
        ensures adds { IfOk result (λ end. AddsNext R.gives W.taken self.old self.new sessions.old sessions.new end) }
        ensures failed { IfErr result (λ fault. NamesPeer W.failures sessions.new fault) }
    {
        let Some(head) = self.next()? else {
            return Ok(Some(TableEnd::EndOfFile));
        };
        match part_by(head.kind, head.subtype) {
            Part::Index => return Ok(Some(TableEnd::NextIndex(head.at))),
            Part::Routes => add_record(self.body(&head), head.at, sessions, left_out)?,
            Part::Other => left_out.add(head.kind, head.subtype),
        }
        Ok(None)
    }
}

// Passes over a record before the index of the table at a place: of the first table only records of other kinds stand
// there, and are counted.
fn pass_over(
    part: Part,
    head: &Head,
    place: usize,
    left_out: &mut LeftOut,
) -> Result<(), TableFault>
    ensures { OnOk result (place ≡ 0 → part ≡ Other) }
{
    if place > 0 {
        return Ok(());
    }
    match part {
        Part::Index | Part::Routes => Err(TableFault::Broken {
            at: head.at,
            what: Broken::NoIndex,
        }),
        Part::Other => {
            left_out.add(head.kind, head.subtype);
            Ok(())
        }
    }
}

// Writes all that waits of each session.
fn finish_all<W: Write + Drop>(sessions: &mut [PeerSession<W>]) -> Result<(), RoutesFault>
    ensures ends { OnOk result (AllEnd W.taken sessions.old sessions.new []) }
    ensures failed { IfErr result (λ fault. NamesPeer W.failures sessions.new fault) }
{
    for place in 0..sessions.len() {
        match sessions[place].finish() {
            Ok(()) => {}
            Err(StartFault::Memory) => return Err(RoutesFault::Memory),
            Err(StartFault::Write) => return Err(RoutesFault::Write(place)),
        }
    }
    Ok(())
}

// Adds the entries of a record to the sessions of their peers. The body of the record begins at this octet of the file.
fn add_record<W: Write + Drop>(
    body: &[u8],
    at: u64,
    sessions: &mut [PeerSession<W>],
    left_out: &mut LeftOut,
) -> Result<(), RoutesFault>
    ensures adds { OnOk result (AddsRoutes W.taken body.now sessions.old sessions.new) }
    ensures failed { IfErr result (λ fault. NamesPeer W.failures sessions.new fault) }
{
    let rib = match read_rib(body) {
        Ok(rib) => rib,
        Err(fault) => return Err(RoutesFault::Table(fault.in_file(at))),
    };
    let begins = at.saturating_add(body.len().saturating_sub(rib.entries.len()) as u64);
    match add_entries(&rib, sessions, left_out) {
        Ok(()) => Ok(()),
        Err(EntriesFault::Part(fault)) => Err(RoutesFault::Table(fault.in_file(begins))),
        Err(EntriesFault::Memory) => Err(RoutesFault::Memory),
        Err(EntriesFault::Write(peer)) => Err(RoutesFault::Write(peer)),
    }
}

// Why not all entries of a record are added.
#[derive(Drop)]
enum EntriesFault {
    // The record is at fault, at this place of its entries.
    Part(PartFault),
    Memory,
    // The session of this peer could not be written.
    Write(usize),
}

// Adds so many entries, which are all octets.
fn add_entries<W: Write + Drop>(
    rib: &Rib<'_>,
    sessions: &mut [PeerSession<W>],
    left_out: &mut LeftOut,
) -> Result<(), EntriesFault>
    ensures adds { OnOk result (AddsEntries W.taken rib.now.prefix rib.now.count rib.now.entries.now []
        sessions.old sessions.new) }
    ensures failed { IfErr result (λ fault. EntriesNamePeer W.failures sessions.new fault) }
{
    let entries = rib.entries;
    let mut rest = entries;
    for _place in 0..rib.count {
        let Some((entry, behind)) = split_entry(rest) else {
            return Err(EntriesFault::Part(fault_at(Broken::RibCutShort, entries, rest)));
        };
        add_entry(rib.prefix, entry, sessions, left_out)?;
        rest = behind;
    }
    if !rest.is_empty() {
        return Err(EntriesFault::Part(fault_at(Broken::RibTooLong, entries, rest)));
    }
    Ok(())
}

// A fault of entries, where this rest of them begins.
fn fault_at(what: Broken, entries: &[u8], rest: &[u8]) -> PartFault {
    let place = entries.len().saturating_sub(rest.len());
    PartFault::at(what, place)
}

// Adds an entry to the session of its peer.
fn add_entry<W: Write + Drop>(
    prefix: Prefix,
    entry: RibEntry<'_>,
    sessions: &mut [PeerSession<W>],
    left_out: &mut LeftOut,
) -> Result<(), EntriesFault>
    ensures go { OnOk result (AllGo W.taken sessions.old sessions.new (rows_of prefix (entry_of entry.entry ∷ []))) }
    ensures failed { IfErr result (λ fault. EntriesNamePeer W.failures sessions.new fault) }
{
    let peer = usize::from(entry.peer);
    if peer >= sessions.len() {
        grow(&mut left_out.unknown_peer);
        return Ok(());
    }
    match sessions[peer].add(prefix, entry.section) {
        Ok(()) => Ok(()),
        Err(StartFault::Memory) => Err(EntriesFault::Memory),
        Err(StartFault::Write) => Err(EntriesFault::Write(peer)),
    }
}
