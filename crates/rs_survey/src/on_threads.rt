//! Counts on four threads, each of which counts on a quarter of the prefixes: a summary, and the routes that a client
//! does not get.
//!
//! Our choice: if a thread is refused, the calling thread counts in its place.

ghost use Rattle.std.specs.Prelude.{◌≡◌, ◌<◌, IfOk, OnOk, length, map};
ghost use Rattle.std.specs.List.{All};
ghost use Rattle.rs_table.specs.PrefixRoutes.{AreRoutesOf, entry_of};
ghost use Rattle.rs_table.specs.Table.{prefixes_held};
ghost use Rattle.rs_survey.specs.Counted.{CountsOn, IsOfPeer, counted_on};
ghost use Rattle.rs_survey.specs.Grows.{Grows};
ghost use Rattle.rs_survey.specs.MissingCounts.{missing_findings, unserved_findings};
ghost use Rattle.rs_survey.specs.Summary.{findings_of};
ghost use Rattle.rs_survey.specs.Tally.{IsTally};

use crate::counting::count_on;
use crate::missing_counts::{count_missing_on, count_unserved_on};
use crate::prefix_list::every_prefix;
use crate::tally::Tally;
use rs_table::{PrefixRoutes, Tables};
use std::alloc::{AllocError, Global};
use std::thread::{Threads, map_chunks};

// How many threads count.
const THREADS: usize = 4;

// What is counted on each prefix.
#[derive(Clone, Copy)]
enum Counted {
    // The findings of a summary.
    Summary,
    // The routes that the client of this number does not get: of the sender of this number, or of all senders.
    Missing(usize, Option<usize>),
    // Those of them to prefixes for which the client gets no route at all.
    Unserved(usize, Option<usize>),
}

/// Counts what is found on every prefix of some tables, on four threads: which routes are left and why they are not
/// eligible, what becomes of each at each client, and on which prefixes one decision for all clients would hide routes.
///
/// It holds if each prefix is, in 16 octets, and the counts of each thread.
pub fn summary_on_threads<T: Threads + Sync>(
    rt: &T,
    alloc: Global,
    tables: &Tables,
) -> Result<Tally, AllocError>
    ensures peers { IfOk result (λ tally. tally.peers ≡ length tables.now.plan.peers) }
    ensures counts { IfOk result (λ tally. IsTally tally (findings_of tables.now)) }
{
    count_on_threads(rt, alloc, tables, Counted::Summary)
}

/// Counts the routes that the peer of number `client` does not get, by sender and reason, on four threads: those of the
/// sender of number `from`, or of all senders if none is given. A `Finding::Missing` is made once for each such route
/// that `missing_on` gives on every prefix.
///
/// It holds if each prefix is, in 16 octets, and on each thread the counts and the routes of one prefix at a
/// time.
pub fn count_missing<T: Threads + Sync>(
    rt: &T,
    alloc: Global,
    tables: &Tables,
    client: usize,
    from: Option<usize>,
) -> Result<Tally, AllocError>
    requires { client < length tables.now.plan.peers }
    ensures peers { IfOk result (λ tally. tally.peers ≡ length tables.now.plan.peers) }
    ensures counts { IfOk result (λ tally. IsTally tally (missing_findings tables.now client from)) }
{
    count_on_threads(rt, alloc, tables, Counted::Missing(client, from))
}

/// Counts those of these routes that are to prefixes for which the client gets no route at all, in the same way.
pub fn count_unserved<T: Threads + Sync>(
    rt: &T,
    alloc: Global,
    tables: &Tables,
    client: usize,
    from: Option<usize>,
) -> Result<Tally, AllocError>
    requires { client < length tables.now.plan.peers }
    ensures peers { IfOk result (λ tally. tally.peers ≡ length tables.now.plan.peers) }
    ensures counts { IfOk result (λ tally. IsTally tally (unserved_findings tables.now client from)) }
{
    count_on_threads(rt, alloc, tables, Counted::Unserved(client, from))
}

// Counts on every prefix.
fn count_on_threads<T: Threads + Sync>(
    rt: &T,
    alloc: Global,
    tables: &Tables,
    what: Counted,
) -> Result<Tally, AllocError>
    requires { IsOfPeer tables.now what }
    ensures { IfOk result (CountsOn tables.now what (prefixes_held tables.now.ribs)) }
{
    let all = every_prefix(alloc, tables)?;
    let quarter = all.len().div_ceil(THREADS).max(1);
    let count_part = |_start: usize, part: &[PrefixRoutes<'_>]| -> Result<Tally, AllocError>
        requires { IsOfPeer tables.now what × All (λ on. AreRoutesOf tables.now (entry_of on)) part.now }
        ensures { IfOk result (CountsOn tables.entry.now what (map (λ on. on.prefix) part.now)) }
    { count_each(alloc, tables, what, part) };
    let parts = map_chunks(rt, alloc, &all, quarter, &count_part)?;
    let mut tally = Tally::new(alloc, tables.count())?;
    for part in parts {
        tally.add_all(&part?);
    }
    Ok(tally)
}

// Counts on some prefixes, one after another.
fn count_each(
    alloc: Global,
    tables: &Tables,
    what: Counted,
    some: &[PrefixRoutes<'_>],
) -> Result<Tally, AllocError>
    requires client { IsOfPeer tables.now what }
    requires routes { All (λ on. AreRoutesOf tables.now (entry_of on)) some.now }
    ensures { IfOk result (CountsOn tables.now what (map (λ on. on.prefix) some.now)) }
{
    let mut tally = Tally::new(alloc, tables.count())?;
    for on in some {
        what.count_findings(alloc, tables, on, &mut tally)?;
    }
    Ok(tally)
}

impl Counted {
    // Counts it on a prefix.
    fn count_findings(
        self,
        alloc: Global,
        tables: &Tables,
        on: &PrefixRoutes<'_>,
        tally: &mut Tally,
    ) -> Result<(), AllocError>
        requires client { IsOfPeer tables.now self }
        requires routes { AreRoutesOf tables.now (entry_of on.now) }
        requires peers { tally.old.peers ≡ length tables.now.plan.peers }
        ensures { OnOk result (Grows tally.old tally.new (counted_on tables.now self on.now.prefix)) }
    {
        match self {
            Counted::Summary => count_on(alloc, tables, on, tally),
            Counted::Missing(client, from) => {
                count_missing_on(alloc, tables, client, from, on, tally)
            },
            Counted::Unserved(client, from) => {
                count_unserved_on(alloc, tables, client, from, on, tally)
            },
        }
    }
}
