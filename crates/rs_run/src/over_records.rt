//! A run over files whose octets are all known, and of which the programs' options say what is read: up to which time,
//! what becomes of a record that is cut short, and which losses count.

ghost use Rattle.std.specs.Prelude.{◌≡◌, ◌<◌, ◌≤◌, ◌^◌, All, IfOk, length, map};
ghost use Rattle.rs_run.specs.OverRecords.{HasDumpsAndReportOfServed, served_of_records};
ghost use Rattle.rs_run.specs.ReadSo.{AreReadSo, IsReadSo, room_of};

use crate::over_octets::RunOverOctets;
use crate::runner::run_sources;
use rs_losses::{Sought, WithLosses};
use rs_mrt::{
    FileReading, Lenient, Limits, MemoryReader, MemoryWriter, ReadLimits, RecordReader,
    what_is_within_bounds,
};
use rs_options::Options;
use rs_outlet::{MemoryOutlet, OutletLimits, RunFault};
use rs_session::a_session_closes_once;
use rs_setup::Setup;
use std::alloc::{AllocError, Global};
use std::sync::Wait;
use std::thread::Threads;

// The records of a file in memory, as the programs read those of a file.
type ReadInMemory<'a> = WithLosses<Lenient<RecordReader<MemoryReader<'a>>>>;

/// A run over files in memory that are read as the programs read theirs. `files` has the octets of each peer's recorded
/// file, and `whose` the peer whose losses are looked for in it, both in the order of the peers. Its dumps and its report
/// are those of the records that `reading` leaves of the files: the ones up to its time, with the losses that count.
///
/// It fails as `run` does.
pub fn run_over_records<T: Threads + Wait + Sync>(
    rt: &T,
    alloc: Global,
    setup: &Setup,
    files: &[&[u8]],
    whose: &[Sought],
    reading: FileReading,
    options: &Options,
) -> Result<RunOverOctets, RunFault>
    requires one_for_each { length files.now ≡ length setup.now.plan.value.peers }
    requires whose { length whose.now ≡ length setup.now.plan.value.peers }
    requires fits { All (λ file. length file.now < 2 ^ 50) files.now }
    requires ring { (1 ≤ options.now.ring) × (options.now.ring ≤ 65536) }
    requires shards { (1 ≤ options.now.shards) × (options.now.shards ≤ 16) }
    ensures { IfOk result (HasDumpsAndReportOfServed setup.now.plan.value options.now.time
        (served_of_records options.now.errors reading setup.now.plan.value whose.now
        (map (λ file. file.now) files.now))) }
{
    // It tells that a session has one close, its last change, so that the reason of the close is that of the end.
    a_session_closes_once();
    let sources = sources_of(alloc, files, whose, reading)?;
    let mut dumps = MemoryOutlet::new(alloc, OutletLimits::none());
    let mut report = MemoryWriter::new(alloc, Limits::none());
    match run_sources(rt, alloc, setup, sources, options, &mut dumps, &mut report) {
        Ok(()) => Ok(RunOverOctets {
            dumps,
            report: report.into_octets(),
        }),
        Err(fault) => Err(fault),
    }
}

// The records of these files, to be read so, each with the losses of the peer at its place.
fn sources_of<'a>(
    alloc: Global,
    files: &[&'a [u8]],
    whose: &[Sought],
    reading: FileReading,
) -> Result<Vec<ReadInMemory<'a>>, AllocError>
    requires as_many { length whose.now ≡ length files.now }
    requires fits { All (λ file. length file.now < 2 ^ 50) files.now }
    ensures as_many { IfOk result (λ sources. length sources.items ≡ length files.now) }
    ensures read_so { IfOk result (λ sources.
        AreReadSo reading whose.now (map (λ file. file.now) files.now) sources.items) }
    ensures room { IfOk result (λ sources. All (λ source. room_of source ≤ 2 ^ 50) sources.items) }
{
    let mut sources = Vec::with_capacity(alloc, files.len())?;
    for place in 0..files.len() {
        sources.push(source_of(files[place], whose[place], reading))?;
    }
    Ok(sources)
}

// The records of a file, to be read so, with the losses of a peer.
fn source_of<'a>(file: &'a [u8], who: Sought, reading: FileReading) -> ReadInMemory<'a>
    requires { length file.now < 2 ^ 50 }
    ensures read_so { IsReadSo reading who file.now result }
    ensures room { room_of result ≤ 2 ^ 50 }
{
    let reader = MemoryReader::new(file, ReadLimits::none());
    // It tells which records of the file are within the bounds, and how they end.
    what_is_within_bounds(&reader, file, reading.bounds);
    let records = RecordReader::up_to(reader, reading.bounds.until);
    let lenient = Lenient::new(records, reading.bounds.tail);
    WithLosses::new(lenient, reading.losses, who)
}
