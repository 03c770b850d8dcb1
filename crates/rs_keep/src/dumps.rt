//! The dumps of the clients: some are written at the same time, before each is kept in its turn.
//!
//! Our choices: of an exchange with more than 1,024 prefixes, up to 16 dumps are written at the same time. This
//! bounds their memory by 1.3 MB. They are fewer if the outlet gives no writer ahead, or if memory is refused; the
//! result of a run is the same. If a dump isn't kept, those behind it are lost. Memory for a dump is taken before
//! the dump is started, so that each dump that is started is kept or lost.

ghost use Rattle.std.specs.Prelude.{◌≡◌, ◌+◌, ◌<◌, ◌≤◌, ◌∷◌, [], IfErr, IfNone, IfOk, IfSome, IsErrOf, OnErr, OnOk};
ghost use Rattle.std.specs.Prelude.{length, vec_capacity};
ghost use Rattle.std.specs.Vec.Iter.{into_iter_items};
ghost use Rattle.rs_table.specs.Table.{table_of};
ghost use Rattle.rs_outlet.specs.Started.{Names};
ghost use Rattle.rs_keep.specs.Kept.{IsFaultAt};
ghost use Rattle.rs_keep.specs.StartedDumps.{AreOutFrom};
ghost use Rattle.rs_keep.specs.Written.{AreBegun, AreDumpFiles, AreWritten, IsBegun};

use rs_choice::Exchange;
use rs_dump::{DumpFault, TableDump, Writing, write_side_by_side};
use rs_outlet::{Outlet, RunFault};
use rs_table::Tables;
use std::alloc::{AllocError, Global};
use std::thread::Threads;
use std::vec::IntoIter;

// How many dumps are written at the same time.
const DUMPS_AT_ONCE: usize = 16;

// The most prefixes of an exchange whose dumps are written one after another, since that is soon done.
const FEW_PREFIXES: usize = 1024;

// The file in which the dump of a client is kept.
#[derive(Drop)]
pub(crate) struct DumpFile {
    pub(crate) name: String,
}

// The files of the dumps of all clients.
pub(crate) fn dump_files(alloc: Global, plan: &Exchange) -> Result<Vec<DumpFile>, AllocError>
    ensures { IfOk result (λ files. AreDumpFiles plan.now files.items) }
{
    let mut files = Vec::with_capacity(alloc, plan.count())?;
    for client in 0..plan.count() {
        let name = plan.peer(client).name.as_str();
        files.push(DumpFile {
            name: format!(in alloc; "{name}.mrt")?,
        })?;
    }
    Ok(files)
}

// What the dumps of all clients are made of, and the files in which they are kept.
#[derive(Clone, Copy, Drop)]
pub(crate) struct Dumping<'a> {
    pub(crate) alloc: Global,
    pub(crate) tables: &'a Tables,
    pub(crate) files: &'a [DumpFile],
    pub(crate) time: u32,
}

// If no dump is left that was written and not kept, writes those of this client and of some behind it.
pub(crate) fn refill<'a, T: Threads + Sync, O: Outlet>(
    rt: &T,
    dumping: &Dumping<'a>,
    client: usize,
    outlet: &mut O,
    written: &mut IntoIter<Writing<'a, O::Out>>,
) -> Result<(), RunFault>
    requires client_known { client < length dumping.now.tables.now.plan.peers }
    requires files { AreDumpFiles dumping.now.tables.now.plan dumping.now.files.now }
    requires failures { O.failures outlet.old < u64.MAX }
    ensures left { 0 < length (into_iter_items written.old) → written.new ≡ written.old }
    ensures some { OnOk result (0 < length (into_iter_items written.new)) }
    ensures written { length (into_iter_items written.old) ≡ 0 → OnOk result
        (AreWritten O.Out.taken O.Out.failures (O.kept outlet.old) dumping.now.tables.now dumping.now.time client
        (into_iter_items written.new)) }
    ensures started { (before : Names)
        → AreOutFrom O.Out.label dumping.now.files.now client before (O.started outlet.old)
        (into_iter_items written.old)
        → OnOk result (AreOutFrom O.Out.label dumping.now.files.now client before (O.started outlet.new)
        (into_iter_items written.new)) }
    ensures refused { OnErr result ((length (into_iter_items written.old) ≡ 0)
        × (O.started outlet.new ≡ O.started outlet.old)) }
    ensures kept { O.kept outlet.new ≡ O.kept outlet.old }
    ensures no_failure { OnOk result (O.failures outlet.new ≡ O.failures outlet.old) }
    ensures fault { IfErr result (IsFaultAt client (length (table_of dumping.now.tables.now client))
        (O.failures outlet.old) (O.failures outlet.new)) }
{
    if written.len() == 0 {
        let more = write_some(rt, dumping, client, outlet)?;
        *written = more.into_iter();
    }
    Ok(())
}

// Writes the dump of a client, and at the same time those of some clients behind it.
fn write_some<'a, T: Threads + Sync, O: Outlet>(
    rt: &T,
    dumping: &Dumping<'a>,
    client: usize,
    outlet: &mut O,
) -> Result<Vec<Writing<'a, O::Out>>, RunFault>
    requires client_known { client < length dumping.now.tables.now.plan.peers }
    requires files { AreDumpFiles dumping.now.tables.now.plan dumping.now.files.now }
    requires failures { O.failures outlet.old < u64.MAX }
    ensures some { IfOk result (λ some. 0 < length some.items) }
    ensures written { IfOk result (λ some. AreWritten O.Out.taken O.Out.failures (O.kept outlet.old)
        dumping.now.tables.now dumping.now.time client some.items) }
    ensures started { IfOk result (λ some. AreOutFrom O.Out.label dumping.now.files.now client
        (O.started outlet.old) (O.started outlet.new) some.items) }
    ensures refused { OnErr result (O.started outlet.new ≡ O.started outlet.old) }
    ensures kept { O.kept outlet.new ≡ O.kept outlet.old }
    ensures no_failure { OnOk result (O.failures outlet.new ≡ O.failures outlet.old) }
    ensures fault { IfErr result (IsFaultAt client (length (table_of dumping.now.tables.now client))
        (O.failures outlet.old) (O.failures outlet.new)) }
{
    let most = most_at_once(dumping.tables, client);
    let mut some = Vec::with_capacity(dumping.alloc, most)?;
    let first = begin(dumping, client, outlet)?;
    let Ok(()) = some.push(first) else {
        unreachable!();
    };
    begin_behind(dumping, client, outlet, most, &mut some);
    write_side_by_side(rt, &mut some);
    Ok(some)
}

// How many dumps are written at the same time, with that of this client.
fn most_at_once(tables: &Tables, client: usize) -> usize
    requires { client < length tables.now.plan.peers }
    ensures some { 1 ≤ result }
    ensures known { client + result ≤ length tables.now.plan.peers }
{
    match tables.iter_rows(client).size_hint().1 {
        Some(most) if most <= FEW_PREFIXES => 1,
        _ => DUMPS_AT_ONCE.min(tables.plan().count() - client),
    }
}

// Begins and starts the dump of a client in its turn.
fn begin<'a, O: Outlet>(
    dumping: &Dumping<'a>,
    client: usize,
    outlet: &mut O,
) -> Result<Writing<'a, O::Out>, RunFault>
    requires client_known { client < length dumping.now.tables.now.plan.peers }
    requires files { AreDumpFiles dumping.now.tables.now.plan dumping.now.files.now }
    requires failures { O.failures outlet.old < u64.MAX }
    ensures begun { IfOk result (IsBegun O.Out.taken O.Out.failures (O.kept outlet.old) dumping.now.tables.now
        dumping.now.time client) }
    ensures started { IfOk result (λ writing. AreOutFrom O.Out.label dumping.now.files.now client
        (O.started outlet.old) (O.started outlet.new) (writing ∷ [])) }
    ensures refused { OnErr result (O.started outlet.new ≡ O.started outlet.old) }
    ensures kept { O.kept outlet.new ≡ O.kept outlet.old }
    ensures no_failure { OnOk result (O.failures outlet.new ≡ O.failures outlet.old) }
    ensures fault { IfErr result (IsFaultAt client (length (table_of dumping.now.tables.now client))
        (O.failures outlet.old) (O.failures outlet.new)) }
    ensures memory { IsErrOf result RunFault.Memory → length (table_of dumping.now.tables.now client) ≤ u32.MAX }
{
    let dump = match TableDump::begin(dumping.alloc, dumping.tables, client, dumping.time) {
        Ok(dump) => dump,
        Err(DumpFault::Memory) => return Err(RunFault::Memory),
        Err(DumpFault::TooManyRows) => return Err(RunFault::Dump(client)),
        Err(DumpFault::Write) => unreachable!(),
    };
    match outlet.start(dumping.files[client].name.as_str()) {
        Ok(out) => Ok(Writing {
            dump,
            out,
            failed: false,
        }),
        Err(_) => Err(RunFault::Dump(client)),
    }
}

// Begins the dumps behind that of this client, which is begun. It ends once there are so many, or one can't be begun
// ahead of its turn.
fn begin_behind<'a, O: Outlet>(
    dumping: &Dumping<'a>,
    client: usize,
    outlet: &mut O,
    most: usize,
    some: &mut Vec<Writing<'a, O::Out>>,
)
    requires known { client + most ≤ length dumping.now.tables.now.plan.peers }
    requires files { AreDumpFiles dumping.now.tables.now.plan dumping.now.files.now }
    requires capacity { most ≤ vec_capacity some.old }
    requires begun { AreBegun O.Out.taken O.Out.failures (O.kept outlet.old) dumping.now.tables.now
        dumping.now.time client some.old.items }
    requires some { (length some.old.items ≡ 1) × (1 ≤ most) }
    ensures begun { AreBegun O.Out.taken O.Out.failures (O.kept outlet.old) dumping.now.tables.now
        dumping.now.time client some.new.items }
    ensures some { (1 ≤ length some.new.items) × (length some.new.items ≤ most) }
    ensures started { (before : Names)
        → AreOutFrom O.Out.label dumping.now.files.now client before (O.started outlet.old) some.old.items
        → AreOutFrom O.Out.label dumping.now.files.now client before (O.started outlet.new) some.new.items }
    ensures kept { O.kept outlet.new ≡ O.kept outlet.old }
    ensures no_failure { O.failures outlet.new ≡ O.failures outlet.old }
{
    while some.len() < most {
        let Some(next) = begin_ahead(dumping, client + some.len(), outlet) else {
            break;
        };
        let Ok(()) = some.push(next) else {
            unreachable!();
        };
    }
}

// Begins the dump of a client ahead of its turn, if the outlet gives a writer and there is memory.
fn begin_ahead<'a, O: Outlet>(
    dumping: &Dumping<'a>,
    client: usize,
    outlet: &mut O,
) -> Option<Writing<'a, O::Out>>
    requires client_known { client < length dumping.now.tables.now.plan.peers }
    requires files { AreDumpFiles dumping.now.tables.now.plan dumping.now.files.now }
    ensures begun { IfSome result (IsBegun O.Out.taken O.Out.failures (O.kept outlet.old) dumping.now.tables.now
        dumping.now.time client) }
    ensures started { IfSome result (λ writing. AreOutFrom O.Out.label dumping.now.files.now client
        (O.started outlet.old) (O.started outlet.new) (writing ∷ [])) }
    ensures none { IfNone result (O.started outlet.new ≡ O.started outlet.old) }
    ensures kept { O.kept outlet.new ≡ O.kept outlet.old }
    ensures no_failure { O.failures outlet.new ≡ O.failures outlet.old }
{
    let Ok(dump) = TableDump::begin(dumping.alloc, dumping.tables, client, dumping.time) else {
        return None;
    };
    let out = outlet.start_ahead(dumping.files[client].name.as_str())?;
    Some(Writing {
        dump,
        out,
        failed: false,
    })
}
