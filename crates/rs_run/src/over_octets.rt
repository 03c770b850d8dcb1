//! A run over files whose octets are all known: what is promised of it is two equations.

ghost use Rattle.std.specs.Prelude.{◌≡◌, ◌≤◌, IfOk, length, map};
ghost use Rattle.rs_run.specs.Run.{HasDumpsAndReportOf};

use crate::runner::run;
use rs_mrt::{Limits, MemoryWriter};
use rs_options::Options;
use rs_outlet::{MemoryOutlet, OutletLimits, RunFault};
use rs_serve::readers_of;
use rs_setup::Setup;
use std::alloc::Global;
use std::sync::Wait;
use std::thread::Threads;

/// What a run over octets gives.
#[derive(Drop)]
pub struct RunOverOctets {
    /// The outlet that has kept the dumps: one for each client, in the order of the plan.
    pub dumps: MemoryOutlet,
    /// The octets of the report.
    pub report: Vec<u8>,
}

/// `run` over files in memory: `files` has the octets of each peer's recorded file, in the order of the peers. Its
/// dumps are those of the files, and so is its report.
///
/// `run` itself can't promise this of a folder. A file and a folder tell a contract nothing of their octets, so its
/// clauses about dumps and report are empty there. Here all octets are known, and what is promised is two equations.
///
/// It fails as `run` does. `Read` names the first peer whose file has 2^50 octets or more, unless one of its records
/// closes the session before.
pub fn run_over_octets<T: Threads + Wait + Sync>(
    rt: &T,
    alloc: Global,
    setup: &Setup,
    files: &[&[u8]],
    options: &Options,
) -> Result<RunOverOctets, RunFault>
    requires one_for_each { length files.now ≡ length setup.now.plan.value.peers }
    requires ring { (1 ≤ options.now.ring) × (options.now.ring ≤ 65536) }
    requires shards { (1 ≤ options.now.shards) × (options.now.shards ≤ 16) }
    ensures { IfOk result (HasDumpsAndReportOf options.now.errors setup.now.plan.value options.now.time
        (map (λ file. file.now) files.now)) }
{
    let readers = readers_of(alloc, files)?;
    let mut dumps = MemoryOutlet::new(alloc, OutletLimits::none());
    let mut report = MemoryWriter::new(alloc, Limits::none());
    match run(rt, alloc, setup, readers, options, &mut dumps, &mut report) {
        Ok(()) => Ok(RunOverOctets {
            dumps,
            report: report.into_octets(),
        }),
        Err(fault) => Err(fault),
    }
}
