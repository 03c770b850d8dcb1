//! A BGP-4 route server that replays recorded sessions: which routes does each client get?
//!
//! The program reads the configuration of an exchange and the recorded session of each peer. It writes a dump of
//! each client's table and a report.
//!
//! Supported standards: RFC 4271, RFC 6793, RFC 1997, RFC 7606, RFC 7947, RFC 6396.
#![tactic(auto)]

ghost use Rattle.std.specs.Prelude.{◌≡◌, ◌≤◌, ◌^◌, All, Some, IfErr, length};
ghost use Rattle.rs_program.specs.Texts.{CanTell};

use rs_host::{DONE, Reached, configuration};
use rs_mrt::{FileReading, IoWriter, Source};
use rs_notes::{Findings, Outlines, outlines_for};
use rs_opening::{Beside, open_files};
use rs_options::{Options, Strictness};
use rs_program::{
    Cleared, Counted, Ended, FolderOutlet, PROGRAM, Progress, command_line, end, ended_by,
    progress_on, refuse_unwritable, run_status,
};
use rs_run::{Ran, run_if};
use rs_serve::Served;
use rs_setup::Setup;
use std::fs::Files;
use std::io;
use std::io::{IsTerminal, Stderr};
use std::process::ExitCode;
use std::sync::Wait;
use std::thread::Threads;

fn main(rt: HostRuntime) -> ExitCode {
    let line = match command_line(&rt) {
        Ok(line) => line,
        Err(fault) => return end(&rt, &Ended::Words(fault), None, None),
    };
    let options = &line.options;
    let setup = match configuration(&rt, &options.config) {
        Ok(setup) => setup,
        Err(unready) => return end(&rt, &Ended::from(unready), None, None),
    };
    let progress = progress_on(&rt, terminal(rt.stderr()), &setup);
    let outlines = outlines_for(rt.alloc(), &setup, line.reading.bounds, line.strict);
    let reached = match Reached::first_of_each(rt.alloc(), &setup) {
        Ok(reached) => reached,
        Err(error) => return end(&rt, &Ended::from(error), Some(&setup), Some(options)),
    };
    let counted = |octets| Counted::new(octets, &progress);
    let beside = Beside {
        outlines: outlines.slots(),
        reached: &reached,
    };
    let files = match open_files(&rt, &setup, line.reading, counted, beside) {
        Ok(files) => files,
        Err(unready) => return end(&rt, &Ended::from(unready), Some(&setup), Some(options)),
    };
    let so_far = ReadSoFar {
        progress: &progress,
        outlines: &outlines,
        reached: &reached,
    };
    match serve(
        &rt,
        &setup,
        options,
        line.reading,
        line.strict,
        files,
        so_far,
    ) {
        Ok(status) => ExitCode::from(status),
        Err(ended) => end(&rt, &ended, Some(&setup), Some(options)),
    }
}

// What is known of the recordings, as far as they were read.
#[derive(Clone, Copy)]
struct ReadSoFar<'a> {
    // How much of them was read.
    progress: &'a Progress,
    // What they hold.
    outlines: &'a Outlines,
    // How far each was read.
    reached: &'a [Reached],
}

// Standard error, if it is a terminal.
fn terminal(stderr: Stderr) -> Option<Stderr> {
    if stderr.is_terminal() {
        Some(stderr)
    } else {
        None
    }
}

// Runs over the records of opened files, and then prints notes on the files. Answers the status with which the program
// ends. On a terminal it is shown how much was read, until something else is written. If a dump can't be written, nothing
// is read.
fn serve<R: AllocGlobal + Files + Print + Eprint + Threads + Wait + Sync, S: Source + Send + Drop>(
    rt: &R,
    setup: &Setup,
    options: &Options,
    reading: FileReading,
    strict: Strictness,
    sources: Vec<S>,
    so_far: ReadSoFar<'_>,
) -> Result<u8, Ended>
where
    R::File: Send,
    R::Dir: Send,
    requires one_for_each { length sources.items ≡ length setup.now.plan.value.peers }
    requires files { length setup.now.files.items ≡ length setup.now.plan.value.peers }
    requires room { All (λ source. S.room source ≤ 2 ^ 50) sources.items }
    requires ring { (1 ≤ options.now.ring) × (options.now.ring ≤ 65536) }
    requires shards { (1 ≤ options.now.shards) × (options.now.shards ≤ 16) }
    ensures { IfErr result (λ ended. CanTell ended (Some setup.entry) (Some options.entry)) }
{
    refuse_unwritable(rt, setup, options)?;
    let mut found = None;
    let ran = run_over(rt, setup, options, sources, so_far, |served| {
        let findings = Findings::of(rt, setup, reading, strict, so_far.outlines, served);
        let is_wanted = findings.is_clean() || strict != Strictness::BeforeWriting;
        found = Some(findings);
        is_wanted
    })?;
    let Some(findings) = found else {
        return Ok(DONE);
    };
    findings.print(rt, PROGRAM, ran.is_written);
    Ok(run_status(strict, findings.is_clean()))
}

// Runs over the records of opened files: dumps go to the folder of the options, the report to standard output, if
// `is_wanted` says so by what is served. The sources are over recordings that were read so far.
fn run_over<
    R: AllocGlobal + Files + Print + Threads + Wait + Sync,
    S: Source + Send + Drop,
    D: FnOnce(&Served) -> bool,
>(
    rt: &R,
    setup: &Setup,
    options: &Options,
    sources: Vec<S>,
    so_far: ReadSoFar<'_>,
    is_wanted: D,
) -> Result<Ran, Ended>
where
    R::File: Send,
    R::Dir: Send,
    requires one_for_each { length sources.items ≡ length setup.now.plan.value.peers }
    requires files { length setup.now.files.items ≡ length setup.now.plan.value.peers }
    requires room { All (λ source. S.room source ≤ 2 ^ 50) sources.items }
    requires ring { (1 ≤ options.now.ring) × (options.now.ring ≤ 65536) }
    requires shards { (1 ≤ options.now.shards) × (options.now.shards ≤ 16) }
    requires wanted { D.IsAlwaysCallable is_wanted }
    ensures { IfErr result (λ ended. CanTell ended (Some setup.entry) (Some options.entry)) }
{
    let alloc = rt.alloc();
    let mut outlet = FolderOutlet::new(rt, alloc, &options.out);
    let mut report = IoWriter::new(Cleared::new(io::writer(rt), so_far.progress));
    let ran = run_if(
        rt,
        alloc,
        setup,
        sources,
        options,
        is_wanted,
        &mut outlet,
        &mut report,
    );
    so_far.progress.clear();
    match ran {
        Ok(ran) => Ok(ran),
        Err(fault) => Err(ended_by(alloc, setup, so_far.reached, fault)),
    }
}
