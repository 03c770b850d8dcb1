//! The dumps are kept one after another, in the order of the plan, and the report has a line for each.

ghost use Rattle.std.specs.Prelude.{◌≡◌, ◌+◌, ◌<◌, ◌≤◌, ◌++◌, IfErr, IfOk, IfSome, IsFalse, None, OnOk, length};
ghost use Rattle.std.specs.Prelude.{string_bytes};
ghost use Rattle.std.specs.Vec.Iter.{into_iter_items};
ghost use Rattle.rs_outlet.specs.Outlet.{Grows, KeepsTaken};
ghost use Rattle.rs_outlet.specs.Started.{AreSameNames, ComesBack, IsOut, TellsName};
ghost use Rattle.rs_keep.specs.Kept.{dumps_of, IsStop};
ghost use Rattle.rs_keep.specs.StartedDumps.{AreAllBack, AreAllOut};
ghost use Rattle.rs_keep.specs.TableLines.{row_counts, table_line, table_lines};
ghost use Rattle.rs_keep.specs.Written.{AreDumpFiles};

use crate::dumps::{Dumping, dump_files, refill};
use rs_dump::Writing;
use rs_outlet::{Outlet, RunFault};
use rs_table::Tables;
use std::alloc::{AllocError, Global};
use std::thread::Threads;
use std::vec::IntoIter;

/// Keeps the dump of each client's table in `outlet`, under the client's name with `.mrt`. Adds a line for each
/// table to `report`: how many rows it has. Both are in the order of the plan. `time` is the Timestamp of the dumps'
/// records, in seconds since 1970.
///
/// `Dump` is answered if the outlet failed, or the writer of a dump. It is also answered if a table has more than
/// 4,294,967,295 rows. The dumps of the clients before that one are kept. `Memory` is answered if memory was
/// refused; the first dumps, or none, are kept. After each of these faults the report may have some of the lines.
/// After every answer, each writer that the outlet gave is back.
pub fn keep_dumps<T: Threads + Sync, O: Outlet>(
    rt: &T,
    alloc: Global,
    tables: &Tables,
    time: u32,
    outlet: &mut O,
    report: &mut String,
) -> Result<(), RunFault>
    requires { O.failures outlet.old < u64.MAX }
    ensures kept { OnOk result (Grows (O.kept outlet.old) (O.kept outlet.new) (dumps_of tables.now time)) }
    ensures report { OnOk result (string_bytes report.new ≡ string_bytes report.old ++ table_lines tables.now) }
    ensures no_failure { OnOk result (O.failures outlet.new ≡ O.failures outlet.old) }
    ensures fault { IfErr result (IsStop tables.now time (O.kept outlet.old) (O.kept outlet.new)
        (O.failures outlet.old) (O.failures outlet.new)) }
    ensures back { AreSameNames (O.started outlet.old) (O.started outlet.new) }
{
    let plan = tables.plan();
    let files = dump_files(alloc, plan)?;
    let dumping = Dumping {
        alloc,
        tables,
        files: &files,
        time,
    };
    let rows = keep_all(rt, &dumping, outlet)?;
    add_table_lines(report, tables, &rows)?;
    Ok(())
}

// Keeps the dump of each client's table, in the order of the plan, and answers how many rows each has.
fn keep_all<T: Threads + Sync, O: Outlet>(
    rt: &T,
    dumping: &Dumping<'_>,
    outlet: &mut O,
) -> Result<Vec<u32>, RunFault>
    requires files { AreDumpFiles dumping.now.tables.now.plan dumping.now.files.now }
    requires failures { O.failures outlet.old < u64.MAX }
    ensures kept { OnOk result (Grows (O.kept outlet.old) (O.kept outlet.new)
        (dumps_of dumping.now.tables.now dumping.now.time)) }
    ensures rows { IfOk result (λ rows. rows.items ≡ row_counts dumping.now.tables.now) }
    ensures no_failure { OnOk result (O.failures outlet.new ≡ O.failures outlet.old) }
    ensures fault { IfErr result (IsStop dumping.now.tables.now dumping.now.time (O.kept outlet.old) (O.kept outlet.new)
        (O.failures outlet.old) (O.failures outlet.new)) }
    ensures back { AreSameNames (O.started outlet.old) (O.started outlet.new) }
{
    let plan = dumping.tables.plan();
    let mut rows = Vec::with_capacity(dumping.alloc, plan.count())?;
    let mut written = Vec::new(dumping.alloc).into_iter();
    for client in 0..plan.count() {
        refill(rt, dumping, client, outlet, &mut written)?;
        let Some(writing) = written.next() else {
            unreachable!();
        };
        let Some(count) = keep(outlet, dumping.files[client].name.as_str(), writing) else {
            lose_all(outlet, written);
            return Err(RunFault::Dump(client));
        };
        let Ok(()) = rows.push(count) else {
            unreachable!();
        };
    }
    Ok(rows)
}

// Keeps a dump in this file and answers how many rows it has, unless a write of it failed or the outlet refuses.
fn keep<O: Outlet>(outlet: &mut O, file: &str, writing: Writing<'_, O::Out>) -> Option<u32>
    requires failures { O.failures outlet.old < u64.MAX }
    requires named { TellsName (O.started outlet.old) (O.Out.label writing.out) file.now }
    requires started { IsOut (O.started outlet.old) file.now }
    ensures back { ComesBack (O.started outlet.old) (O.started outlet.new) file.now }
    ensures whole { IfSome result (λ _. IsFalse writing.entry.failed) }
    ensures rows { IfSome result (λ rows. rows ≡ writing.entry.dump.spelled) }
    ensures kept { IfSome result (λ _. KeepsTaken (O.kept outlet.old) (O.kept outlet.new) file.now
        (O.Out.taken writing.entry.out)) }
    ensures no_failure { IfSome result (λ _. O.failures outlet.new ≡ O.failures outlet.old) }
    ensures refused { result ≡ None → O.kept outlet.new ≡ O.kept outlet.old }
    ensures failure { result ≡ None → O.failures outlet.old < O.failures outlet.new }
{
    if writing.failed {
        outlet.lost(writing.out);
        return None;
    }
    let rows = writing.dump.spelled();
    match outlet.keep(file, writing.out) {
        Ok(()) => Some(rows),
        Err(_) => None,
    }
}

// Loses the dumps that were written and are not to be kept.
fn lose_all<O: Outlet>(outlet: &mut O, written: IntoIter<Writing<'_, O::Out>>)
    requires { AreAllOut O.Out.label (O.started outlet.old) (into_iter_items written) }
    ensures back { AreAllBack O.Out.label (O.started outlet.old) (O.started outlet.new)
        (into_iter_items written.entry) }
    ensures kept { O.kept outlet.new ≡ O.kept outlet.old }
    ensures no_fewer { O.failures outlet.old ≤ O.failures outlet.new }
{
    for writing in written {
        outlet.lost(writing.out);
    }
}

// Adds the line of each client: how many rows its table has.
fn add_table_lines(report: &mut String, tables: &Tables, rows: &[u32]) -> Result<(), AllocError>
    requires { rows.now ≡ row_counts tables.now }
    ensures { OnOk result (string_bytes report.new ≡ string_bytes report.old ++ table_lines tables.now) }
{
    let plan = tables.plan();
    for client in 0..plan.count() {
        add_table_line(report, &plan.peer(client).name, rows[client])?;
    }
    Ok(())
}

// Adds the line of a client: how many rows its table has.
fn add_table_line(report: &mut String, name: &str, rows: u32) -> Result<(), AllocError>
    ensures { OnOk result (string_bytes report.new ≡ string_bytes report.old ++ table_line name.now rows) }
{
    writeln!(report, "table {name} rows {rows}")
}
