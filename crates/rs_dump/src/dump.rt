//! The dump of a list of rows (RFC 6396, section 4.3).

ghost use Rattle.std.specs.Prelude.{◌≡◌, ◌+◌, ◌<◌, ◌↔◌, All, length, map, IfOk, OnOk, IsErrOf};
ghost use Rattle.std.specs.Io.KnownBytes.{Appends};
ghost use Rattle.rs_mrt.specs.Stream.{AppendsBeginning};
ghost use Rattle.rs_table.specs.RouteView.{row_of};
ghost use Rattle.rs_dump.specs.Dump.{dumped};

use crate::under_way::{add_rows, begin_dump};
use rs_choice::Exchange;
use rs_mrt::{Write, write_all};
use rs_records::DumpFault;
use rs_table::Row;
use std::alloc::Global;

/// Writes the dump of a client's table to `out` and answers the number of rows. First comes a PEER_INDEX_TABLE
/// record of the plan's peers. Then comes a RIB_IPV4_UNICAST record for each row, in the order given (RFC 6396,
/// sections 4.3.1 and 4.3.2). `time`, in seconds since 1970, is the Timestamp of every record. The call doesn't
/// flush.
///
/// `TooManyRows` comes exactly if there are more than 4,294,967,295 rows, and is tested first. `TooManyRows` and
/// `Memory` leave `out` as it was. After `Write` a beginning of the dump is written.
pub fn write_dump<W: Write>(
    alloc: Global,
    out: &mut W,
    plan: &Exchange,
    client: usize,
    rows: &[Row],
    time: u32,
) -> Result<u32, DumpFault>
    requires client_known { client < length plan.now.peers }
    requires peers_known { All (λ row. row.route.peer < length plan.now.peers) (map row_of rows.now) }
    requires failures { W.failures out.old < u64.MAX }
    ensures count { IfOk result (λ count. count ≡ length rows.now) }
    ensures written { OnOk result (Appends (W.taken out.old) (W.taken out.new)
        (dumped plan.now client (map row_of rows.now) time)) }
    ensures written_failures { OnOk result (W.failures out.new ≡ W.failures out.old) }
    ensures too_many { IsErrOf result DumpFault.TooManyRows ↔ (u32.MAX < length rows.now) }
    ensures too_many_writes_nothing { IsErrOf result DumpFault.TooManyRows → out.new ≡ out.old }
    ensures memory_writes_nothing { IsErrOf result DumpFault.Memory → out.new ≡ out.old }
    ensures failed { IsErrOf result DumpFault.Write
        → AppendsBeginning (W.taken out.old) (W.taken out.new) (dumped plan.now client (map row_of rows.now) time) }
    ensures failed_failures { IsErrOf result DumpFault.Write → W.failures out.new ≡ W.failures out.old + 1 }
{
    let Ok(count) = u32::try_from(rows.len()) else {
        return Err(DumpFault::TooManyRows);
    };
    let mut buffer = begin_dump(alloc, plan, client, time)?;
    add_rows(out, &mut buffer, time, 0, rows)?;
    write_all(out, &buffer)?;
    Ok(count)
}
