//! The dump of a client's table (RFC 6396, section 4.3) without a list of its rows: some rows are written at a time.

ghost use Rattle.std.specs.Prelude.{◌≡◌, ◌+◌, ◌<◌, ◌≤◌, [], ◌++◌, ◌↔◌, All, length, map, IfNone, IfOk, IfSome};
ghost use Rattle.std.specs.Prelude.{IsErrOf, IsFalse, IsTrue, OnErr, OnOk, OnSome, vec_capacity};
ghost use Rattle.std.specs.Io.KnownBytes.{Appends};
ghost use Rattle.rs_mrt.specs.Stream.{AppendsBeginning};
ghost use Rattle.rs_table.specs.RouteView.{row_of};
ghost use Rattle.rs_table.specs.Table.{table_of};
ghost use Rattle.rs_dump.specs.Dump.{dumped};
ghost use Rattle.rs_dump.specs.UnderWay.{IsUnderWay};

use crate::under_way::{add_rows, begin_dump};
use rs_mrt::{Failed, Write, write_all};
use rs_records::DumpFault;
use rs_table::{ClientRows, Row, Tables, table_is_computed};
use std::alloc::Global;
use std::marker::Model;

// How many rows a dump can number: a Sequence Number has four octets (RFC 6396, section 4.3.2).
const MAX_ROWS: usize = 4294967295;

// How many rows are spelled in one turn: so few that what was read of their prefixes for one dump is still at hand, in
// the processor's cache, for the dumps beside it.
pub(crate) const TURN_LEN: usize = 256;

/// The dump of a client's table that is to be written. It takes 80 KB beside the tables, all of them when it begins.
#[derive(Drop)]
pub struct TableDump<'a> {
    // The rows that are not spelled yet.
    rows: ClientRows<'a>,
    // How many are, which is the Sequence Number of the next one.
    spelled: u32,
    // The octets that are spelled and not written.
    buffer: Vec<u8>,
    // The rows that are spelled next.
    turn: Vec<Row<'a>>,
    // The Timestamp of each record.
    time: u32,
}

impl<'a> Model for TableDump<'a> {
    ghost use Rattle.rs_dump.specs.TableDump.{ToWrite};
    ghost use Rattle.rs_dump.specs.TableDumpView.{CanGoOn, to_write};

    ghost Value = { ToWrite };

    ghost view = { to_write };

    ghost invariant = { CanGoOn };
}

impl<'a> TableDump<'a> {
    /// Begins the dump that `write_dump` writes of the rows of a client's table. Nothing is written yet.
    ///
    /// `TooManyRows` comes exactly if the table has more than 4,294,967,295 rows, and is tested first. `Memory`
    /// comes if memory is refused. `Write` doesn't come.
    pub fn begin(
        alloc: Global,
        tables: &'a Tables,
        client: usize,
        time: u32,
    ) -> Result<TableDump<'a>, DumpFault>
        requires client_known { client < length tables.now.plan.peers }
        ensures begun { IfOk result (λ dump. dump ≡ record {
          octets = dumped tables.now.plan client (table_of tables.now client) time;
          rows = length (table_of tables.now client);
          spelled = 0;
        }) }
        ensures too_many { IsErrOf result DumpFault.TooManyRows ↔ (u32.MAX < length (table_of tables.now client)) }
        ensures writes_nothing { IsErrOf result DumpFault.Write → ⊥ }
    {
        let Some(rows) = numbered_rows(tables, client) else {
            return Err(DumpFault::TooManyRows);
        };
        let buffer = begin_dump(alloc, tables.plan(), client, time)?;
        let turn = Vec::with_capacity(alloc, TURN_LEN)?;
        Ok(TableDump {
            rows,
            spelled: 0,
            buffer,
            turn,
            time,
        })
    }

    /// How many rows are spelled: once the dump is written, all that the table has.
    pub fn spelled(&self) -> u32
        ensures { result ≡ self.now.spelled }
    {
        self.spelled
    }

    // How many whole turns there are at most, if that is known.
    pub(crate) fn most_turns(&self) -> usize {
        self.rows.size_hint().1.unwrap_or(0) / TURN_LEN
    }

    // Spells the rows of a turn, and writes what waits if that is a piece. Answers whether there were any rows.
    pub(crate) fn write_turn<W: Write>(&mut self, out: &mut W) -> Result<bool, Failed>
        requires failures { W.failures out.old < u64.MAX }
        ensures ok { OnOk result (IsUnderWay (W.taken out.old) (W.taken out.new) self.new.octets self.old.octets) }
        ensures ok_failures { OnOk result (W.failures out.new ≡ W.failures out.old) }
        ensures rows { OnOk result (self.new.spelled + self.new.rows ≡ self.old.spelled + self.old.rows) }
        ensures some { IfOk result (λ some. IsTrue some → self.new.rows < self.old.rows) }
        ensures none { IfOk result (λ some. IsFalse some → self.new.rows ≡ 0) }
        ensures err { OnErr result (AppendsBeginning (W.taken out.old) (W.taken out.new) self.old.octets) }
        ensures err_failures { OnErr result (W.failures out.new ≡ W.failures out.old + 1) }
        ensures label { W.label out.new ≡ W.label out.old }
    {
        if !take_rows(&mut self.rows, &mut self.turn) {
            return Ok(false);
        }
        add_rows(out, &mut self.buffer, self.time, self.spelled, &self.turn)?;
        self.spelled += self.turn.len() as u32;
        Ok(true)
    }

    // Spells and writes all that is left of the dump.
    pub(crate) fn write_rest<W: Write>(&mut self, out: &mut W) -> Result<(), Failed>
        requires failures { W.failures out.old < u64.MAX }
        ensures ok { OnOk result (Appends (W.taken out.old) (W.taken out.new) self.old.octets) }
        ensures ok_failures { OnOk result (W.failures out.new ≡ W.failures out.old) }
        ensures rows { OnOk result (self.new.spelled ≡ self.old.spelled + self.old.rows) }
        ensures err { OnErr result (AppendsBeginning (W.taken out.old) (W.taken out.new) self.old.octets) }
        ensures err_failures { OnErr result (W.failures out.new ≡ W.failures out.old + 1) }
        ensures label { W.label out.new ≡ W.label out.old }
    {
        let mut some = true;
        while some {
            some = self.write_turn(out)?;
        }
        write_all(out, &self.buffer)
    }
}

// Takes the rows of a turn from the front of those to come, in place of the rows that were there. Answers whether there
// are any.
fn take_rows<'a>(rows: &mut ClientRows<'a>, turn: &mut Vec<Row<'a>>) -> bool
    requires { TURN_LEN ≤ vec_capacity turn.old }
    ensures taken { rows.old ≡ map row_of turn.new.items ++ rows.new }
    ensures some { IsTrue result → 0 < length turn.new.items }
    ensures none { IsFalse result → rows.old ≡ [] }
    ensures capacity { TURN_LEN ≤ vec_capacity turn.new }
{
    turn.clear();
    while turn.len() < TURN_LEN {
        let Some(row) = rows.next() else {
            break;
        };
        let Ok(()) = turn.push(row) else {
            unreachable!();
        };
    }
    !turn.is_empty()
}

// The rows of a client's table, if a dump can number them all.
fn numbered_rows<'a>(tables: &'a Tables, client: usize) -> Option<ClientRows<'a>>
    ensures rows { IfSome result (λ rows. rows ≡ table_of tables.now client) }
    ensures known { IfSome result (λ rows. All (λ row. row.route.peer < length tables.now.plan.peers) rows) }
    ensures numbered { OnSome result (length (table_of tables.now client) ≤ u32.MAX) }
    ensures too_many { IfNone result (u32.MAX < length (table_of tables.now client)) }
{
    table_is_computed();
    let rows = tables.iter_rows(client);
    if !are_few(&rows) {
        count_rows(tables.iter_rows(client))?;
    }
    Some(rows)
}

// Whether it is known without counting that a dump can number the rows.
fn are_few(rows: &ClientRows<'_>) -> bool
    ensures { IsTrue result → length rows.now ≤ u32.MAX }
{
    match rows.size_hint().1 {
        Some(most) => most <= MAX_ROWS,
        None => false,
    }
}

// How many rows there are; none if a dump can't number them all.
fn count_rows(rows: ClientRows<'_>) -> Option<u32>
    ensures some { IfSome result (λ count. count ≡ length rows.entry) }
    ensures none { IfNone result (u32.MAX < length rows.entry) }
{
    let mut count: u32 = 0;
    for _row in rows {
        count = count.checked_add(1)?;
    }
    Some(count)
}
