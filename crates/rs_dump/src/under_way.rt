//! A dump that is being written, record by record.
//!
//! Our choices: records are spelled in one buffer, which is taken before the first write. It is written in pieces of
//! about 64 KiB, and nothing is flushed.

ghost use Rattle.std.specs.Prelude.{◌≡◌, ◌+◌, ◌<◌, ◌≤◌, [], ◌++◌, All, length, map, IfOk, OnOk, OnErr};
ghost use Rattle.std.specs.Prelude.{vec_capacity};
ghost use Rattle.rs_mrt.specs.Record.{record_spelling};
ghost use Rattle.rs_mrt.specs.Stream.{AppendsBeginning};
ghost use Rattle.rs_table.specs.RouteView.{row_of};
ghost use Rattle.rs_records.specs.Buffer.{HasRoom};
ghost use Rattle.rs_dump.specs.Dump.{dumped, row_record, spelled_rows};
ghost use Rattle.rs_dump.specs.UnderWay.{IsUnderWay};

use rs_choice::{Exchange, MAX_PEERS};
use rs_mrt::{Failed, Write, write_all};
use rs_records::{MAX_ROW_LEN, RibEntry, spell_peer_index, spell_row};
use rs_table::Row;
use std::alloc::{AllocError, Global};

// Octets that wait are written once there are so many, or would be with the attributes of the next rows.
const PIECE_LEN: usize = 65536;

// How many octets the buffer has room for: room for any record is left if fewer than a piece wait.
pub(crate) const BUFFER_LEN: usize = 69640;

// Takes the buffer and begins the dump of a client's table in it: with the record of the peers.
pub(crate) fn begin_dump(
    alloc: Global,
    plan: &Exchange,
    client: usize,
    time: u32,
) -> Result<Vec<u8>, AllocError>
    requires { client < length plan.now.peers }
    ensures begun { IfOk result (λ buffer. buffer.items ≡ dumped plan.now client [] time) }
    ensures capacity { IfOk result (λ buffer. BUFFER_LEN ≤ vec_capacity buffer) }
    ensures few_peers { OnOk result (length plan.now.peers ≤ MAX_PEERS) }
{
    let mut buffer = Vec::with_capacity(alloc, BUFFER_LEN)?;
    spell_peer_index(&mut buffer, plan, client, time);
    Ok(buffer)
}

// Adds the record of a row, whose place among the rows is its Sequence Number. If a piece waits, the piece is
// written first.
fn add_row<W: Write>(
    out: &mut W,
    buffer: &mut Vec<u8>,
    time: u32,
    sequence: u32,
    row: &Row,
) -> Result<(), Failed>
    requires peer_known { row.now.route.peer < 65536 }
    requires failures { W.failures out.old < u64.MAX }
    requires capacity { BUFFER_LEN ≤ vec_capacity buffer.old }
    ensures ok { OnOk result (IsUnderWay (W.taken out.old) (W.taken out.new) buffer.new.items
        (buffer.old.items ++ record_spelling (row_record time (sequence, row_of row.now)))) }
    ensures ok_failures { OnOk result (W.failures out.new ≡ W.failures out.old) }
    ensures err { OnErr result (AppendsBeginning (W.taken out.old) (W.taken out.new) buffer.old.items) }
    ensures err_failures { OnErr result (W.failures out.new ≡ W.failures out.old + 1) }
    ensures label { W.label out.new ≡ W.label out.old }
    ensures capacity { BUFFER_LEN ≤ vec_capacity buffer.new }
{
    make_room(out, buffer, 0)?;
    let entry = RibEntry {
        peer: row.route.peer,
        time: row.route.time,
        attributes: row.route.attributes,
    };
    spell_row(buffer, time, sequence, row.prefix, &entry);
    Ok(())
}

// Adds the records of rows, of which the first has this place among all rows.
pub(crate) fn add_rows<W: Write>(
    out: &mut W,
    buffer: &mut Vec<u8>,
    time: u32,
    first: u32,
    rows: &[Row],
) -> Result<(), Failed>
    requires peers_known { All (λ row. row.route.peer < 65536) (map row_of rows.now) }
    requires numbered { first + length rows.now ≤ u32.MAX }
    requires failures { W.failures out.old < u64.MAX }
    requires capacity { BUFFER_LEN ≤ vec_capacity buffer.old }
    ensures ok { OnOk result (IsUnderWay (W.taken out.old) (W.taken out.new) buffer.new.items
        (buffer.old.items ++ spelled_rows time first (map row_of rows.now))) }
    ensures ok_failures { OnOk result (W.failures out.new ≡ W.failures out.old) }
    ensures err { OnErr result (AppendsBeginning (W.taken out.old) (W.taken out.new)
        (buffer.old.items ++ spelled_rows time first (map row_of rows.now))) }
    ensures err_failures { OnErr result (W.failures out.new ≡ W.failures out.old + 1) }
    ensures label { W.label out.new ≡ W.label out.old }
    ensures capacity { BUFFER_LEN ≤ vec_capacity buffer.new }
{
    make_room(out, buffer, attributes_len(rows))?;
    add_each(out, buffer, time, first, rows)
}

// Adds the records of rows one by one, as `add_rows` does.
fn add_each<W: Write>(
    out: &mut W,
    buffer: &mut Vec<u8>,
    time: u32,
    first: u32,
    rows: &[Row],
) -> Result<(), Failed>
    requires peers_known { All (λ row. row.route.peer < 65536) (map row_of rows.now) }
    requires numbered { first + length rows.now ≤ u32.MAX }
    requires failures { W.failures out.old < u64.MAX }
    requires capacity { BUFFER_LEN ≤ vec_capacity buffer.old }
    ensures ok { OnOk result (IsUnderWay (W.taken out.old) (W.taken out.new) buffer.new.items
        (buffer.old.items ++ spelled_rows time first (map row_of rows.now))) }
    ensures ok_failures { OnOk result (W.failures out.new ≡ W.failures out.old) }
    ensures err { OnErr result (AppendsBeginning (W.taken out.old) (W.taken out.new)
        (buffer.old.items ++ spelled_rows time first (map row_of rows.now))) }
    ensures err_failures { OnErr result (W.failures out.new ≡ W.failures out.old + 1) }
    ensures label { W.label out.new ≡ W.label out.old }
    ensures capacity { BUFFER_LEN ≤ vec_capacity buffer.new }
{
    for place in 0..rows.len() {
        add_row(out, buffer, time, first + place as u32, &rows[place])?;
    }
    Ok(())
}

// How many octets the attributes of all rows have. To ask for this reads both blocks of memory that the attributes of a
// row have. One read doesn't wait for another one here, as it would between the rows that are spelled. Of the second
// block the first octet is read. It is never a zero, and only a zero would count.
fn attributes_len(rows: &[Row]) -> usize {
    let mut len: usize = 0;
    for row in rows {
        let spelling = row.route.attributes.spelling();
        if spelling.first() == Some(&0) {
            len = len.saturating_add(1);
        }
        len = len.saturating_add(spelling.len());
    }
    len
}

// Makes room for a record: writes what waits, if with `more` octets it would be a piece.
fn make_room<W: Write>(out: &mut W, buffer: &mut Vec<u8>, more: usize) -> Result<(), Failed>
    requires failures { W.failures out.old < u64.MAX }
    requires capacity { BUFFER_LEN ≤ vec_capacity buffer.old }
    ensures ok { OnOk result (IsUnderWay (W.taken out.old) (W.taken out.new) buffer.new.items buffer.old.items) }
    ensures ok_failures { OnOk result (W.failures out.new ≡ W.failures out.old) }
    ensures room { OnOk result (HasRoom buffer.new MAX_ROW_LEN) }
    ensures err { OnErr result (AppendsBeginning (W.taken out.old) (W.taken out.new) buffer.old.items) }
    ensures err_failures { OnErr result (W.failures out.new ≡ W.failures out.old + 1) }
    ensures label { W.label out.new ≡ W.label out.old }
    ensures capacity { BUFFER_LEN ≤ vec_capacity buffer.new }
{
    if buffer.len().saturating_add(more) >= PIECE_LEN {
        write_all(out, buffer)?;
        buffer.clear();
    }
    Ok(())
}
