//! Which rows of a client's table are asked for, and how many there are.

ghost use Rattle.std.specs.Prelude.{◌≡◌, ◌+◌, count_by, if◌then◌else◌, min};
ghost use Rattle.rs_table.specs.RouteView.{row_of};
ghost use Rattle.rs_table.specs.Table.{table_of};
ghost use Rattle.rs_survey.specs.Asked.{is_asked, is_asked_prefix, is_asked_sender};
ghost use Rattle.rs_survey.specs.Tally.{most};

use rs_table::{Row, Tables, table_is_computed};
use rs_update::{Prefix, covers};

/// Which rows of a client's table are asked for.
#[derive(Clone, Copy, Debug, PartialEq, Eq)]
pub struct AskedRows {
    /// Those of the sender of this number; none for those of all senders.
    pub from: Option<usize>,
    /// Those on this prefix; none for those on all prefixes.
    pub prefix: Option<Prefix>,
    /// Whether those on all prefixes that it covers are asked for too.
    pub longer: bool,
}

impl AskedRows {
    /// Whether a row is asked for.
    pub fn asks_for(&self, row: &Row) -> bool
        ensures { result ≡ is_asked self.now (row_of row.now) }
    {
        if !is_asked_sender(self.from, row.route.peer) {
            return false;
        }
        is_asked_prefix(self.prefix, self.longer, row.prefix)
    }
}

// Whether a sender is the one that is asked for, if one is.
pub(crate) fn is_asked_sender(from: Option<usize>, peer: usize) -> bool
    ensures { result ≡ is_asked_sender from peer }
{
    match from {
        Some(from) => from == peer,
        None => true,
    }
}

// Whether a prefix is the one that is asked for, if one is, or where `longer` says so, one that this covers.
fn is_asked_prefix(asked: Option<Prefix>, longer: bool, prefix: Prefix) -> bool
    ensures { result ≡ is_asked_prefix asked longer prefix }
{
    match asked {
        Some(asked) if longer => covers(asked, prefix),
        Some(asked) => asked == prefix,
        None => true,
    }
}

/// How many rows of the table of the peer of number `client` are asked for. The count stops at the greatest number of
/// 64 bits.
pub fn count_rows(tables: &Tables, client: usize, asked: &AskedRows) -> u64
    ensures { result ≡ min (count_by (is_asked asked.now) (table_of tables.now client)) most }
{
    // For the prover: the rows that are listed are the table.
    table_is_computed();
    let mut count: u64 = 0;
    for row in tables.iter_rows(client) {
        count = counted(count, asked.asks_for(&row));
    }
    count
}

// A count, with one more if that is asked for.
fn counted(count: u64, asked: bool) -> u64
    ensures { result ≡ min (count + (if asked then 1 else 0)) most }
{
    if asked {
        count.saturating_add(1)
    } else {
        count
    }
}
