//! Opens the recorded files of the peers.

ghost use Rattle.std.specs.Prelude.{◌≡◌, ◌<◌, ◌≤◌, ◌^◌, All, IfOk, length};
ghost use Rattle.rs_opening.specs.Opening.{AreReadSo, IsReadSo, room_of};

use crate::sought_peer::sought;
use rs_choice::Exchange;
use rs_host::{Joined, Reached, Recorded, Unready, first_unreadable, found_at, in_pieces, open};
use rs_inventory::{OutlineSlot, Outlined, PeerId};
use rs_losses::{Sought, WithLosses};
use rs_mrt::{FileReading, Lenient, RecordReader};
use rs_setup::{Recording, Setup};
use std::alloc::Global;
use std::fs::Files;
use std::io::Read;

/// The records of a recorded file that are within bounds. The losses of a peer that they show are put in, if these are
/// asked for. An outline of the file is made while its records are shown, if there is a place for it.
pub type Replayed<'a, F> = WithLosses<Lenient<Outlined<'a, Recorded<F>>>>;

/// What is kept beside recordings while they are read, by the numbers of their peers.
#[derive(Clone, Copy)]
pub struct Beside<'a> {
    /// Where outlines are put.
    pub outlines: &'a [Option<OutlineSlot>],
    /// How far each was read.
    pub reached: &'a [Reached],
}

/// Opens the recordings of the peers of a setup, in their order, and reads nothing yet. They will be read as `reading`
/// says, and through what `observed` makes of the octets of each. The losses of a recording are those of its peer. The
/// outline of the recording of a peer is put into the place that has the peer's number, if there is one.
///
/// A file that is read behind another one of its recording is opened in its turn. Here it is only looked at.
///
/// Fails with `Unread` and the path of the first file that can't be opened. If each is there, it fails for a file that
/// gives its octets only once, as a pipe does: if it is read before another one, or an earlier recording has it. Fails
/// with `Memory` if memory is refused.
pub fn open_files<'a, R: AllocGlobal + Files, F: Read + Drop, O: Fn(Joined<'a, R>) -> F>(
    rt: &'a R,
    setup: &'a Setup,
    reading: FileReading,
    observed: O,
    beside: Beside<'a>,
) -> Result<Vec<Replayed<'a, F>>, Unready>
    requires observed { O.IsAlwaysCallable observed }
    requires one_for_each { length setup.now.files.items ≡ length setup.now.plan.value.peers }
    ensures one_for_each { IfOk result (λ files. length files.items ≡ length setup.now.files.items) }
    ensures read_so { IfOk result (λ files. AreReadSo reading setup.now.plan.value files.items) }
    ensures room { IfOk result (λ files. All (λ file. room_of file ≤ 2 ^ 50) files.items) }
{
    let recordings = setup.recordings(rt.alloc())?;
    match first_unreadable(rt, &recordings)? {
        Some(file) => Err(Unready::by_path(rt.alloc(), file.path)),
        None => open_each(rt, setup, &setup.plan, reading, &observed, beside),
    }
}

// Opens the recordings of the peers of a setup, which has this plan, in their order.
fn open_each<'a, R: AllocGlobal + Files, F: Read + Drop, O: Fn(Joined<'a, R>) -> F>(
    rt: &'a R,
    setup: &'a Setup,
    plan: &Exchange,
    reading: FileReading,
    observed: &O,
    beside: Beside<'a>,
) -> Result<Vec<Replayed<'a, F>>, Unready>
    requires observed { O.IsAlwaysCallable observed.now }
    requires peers { length setup.now.files.items ≡ length plan.now.peers }
    ensures one_for_each { IfOk result (λ files. length files.items ≡ length setup.now.files.items) }
    ensures read_so { IfOk result (λ files. AreReadSo reading plan.now files.items) }
    ensures room { IfOk result (λ files. All (λ file. room_of file ≤ 2 ^ 50) files.items) }
{
    let alloc = rt.alloc();
    let mut files = Vec::with_capacity(alloc, setup.files.len())?;
    for peer in 0..setup.files.len() {
        let recording = setup.recording(peer).ok_or(Unready::Memory)?;
        let file = open_through(rt, recording, observed, beside.reached.get(peer))?;
        let (who, slot) = (sought(plan, peer), slot_of(beside.outlines, peer));
        let records = replayed(alloc, file, reading, who, plan.local().peer_id(), slot);
        let Ok(()) = files.push(records) else {
            return Err(Unready::Memory);
        };
    }
    Ok(files)
}

// Opens a recording, to be read through what is made of its octets. If it has several files, it must be noted how far it
// is read, since that names the file of which a read fails.
fn open_through<'a, R: AllocGlobal + Files, F: Read + Drop, O: Fn(Joined<'a, R>) -> F>(
    rt: &'a R,
    recording: Recording<'a>,
    observed: &O,
    reached: Option<&'a Reached>,
) -> Result<Recorded<F>, Unready>
    requires { O.IsAlwaysCallable observed.now }
    ensures no_failure { IfOk result (λ file. file.failures ≡ 0) }
{
    let alloc = rt.alloc();
    if recording.count() > 1 && reached.is_none() {
        return Err(Unready::Memory);
    }
    let opened = match Joined::open(rt, recording, reached) {
        Ok(joined) => in_pieces(alloc, observed(joined)),
        Err(fault) => Err(fault),
    };
    match opened {
        Ok(file) => {
            look_behind(rt, recording)?;
            Ok(file)
        }
        Err(fault) => Err(Unready::by_file(alloc, fault, recording.path(0))),
    }
}

// Fails for the first file of a recording, behind its first one, that can't be opened. One that is no regular file isn't
// tried, since opening a pipe may wait for its writer.
fn look_behind<R: AllocGlobal + Files>(rt: &R, recording: Recording<'_>) -> Result<(), Unready> {
    for place in 1..recording.count() {
        let path = recording.path(place);
        if is_regular(rt, path)? {
            if let Err(fault) = open(rt, path) {
                return Err(Unready::by_file(rt.alloc(), fault, path));
            }
        }
    }
    Ok(())
}

// Whether a path names a regular file.
fn is_regular<R: Files>(rt: &R, path: &str) -> Result<bool, Unready> {
    match found_at(rt, path)? {
        Some(found) => Ok(found.is_file()),
        None => Ok(false),
    }
}

// The records of a file of which nothing was read, to be read so, with the losses of a peer.
fn replayed<'a, F: Read + Drop>(
    alloc: Global,
    file: Recorded<F>,
    reading: FileReading,
    who: Sought,
    server: PeerId,
    slot: Option<&'a OutlineSlot>,
) -> Replayed<'a, F>
    requires { file.failures < u64.MAX }
    ensures read_so { IsReadSo reading who result }
    ensures room { room_of result ≤ 2 ^ 50 }
{
    let records = RecordReader::up_to(file, reading.bounds.until);
    let outlined = Outlined::new(alloc, records, server, slot);
    WithLosses::new(
        Lenient::new(outlined, reading.bounds.tail),
        reading.losses,
        who,
    )
}

// The place for the outline of the file of the peer of a number, if there is one.
fn slot_of<'a>(slots: &'a [Option<OutlineSlot>], number: usize) -> Option<&'a OutlineSlot> {
    slots.get(number)?.as_ref()
}
