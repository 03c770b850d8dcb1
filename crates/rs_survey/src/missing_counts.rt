//! How many routes of each sender a client does not get on one prefix, for each reason.

ghost use Rattle.std.specs.Prelude.{◌≡◌, ◌<◌, ◌∷◌, [], All, OnOk, is_none, length};
ghost use Rattle.std.specs.List.{filter_map};
ghost use Rattle.rs_table.specs.PrefixRoutes.{AreRoutesOf, entry_of};
ghost use Rattle.rs_table.specs.Table.{best_of};
ghost use Rattle.rs_survey.specs.Grows.{Grows};
ghost use Rattle.rs_survey.specs.MissingCounts.{counted_of, missing_findings_on, unserved_findings_on};

use crate::finding::Finding;
use crate::on_prefix::{MissingRoute, missing_on};
use crate::tally::Tally;
use rs_explain::MissingReason;
use rs_table::{PrefixRoutes, Tables};
use std::alloc::{AllocError, Global};

// Counts the routes on a prefix that a client does not get, of one sender or of all, by sender and reason.
pub(crate) fn count_missing_on(
    alloc: Global,
    tables: &Tables,
    client: usize,
    from: Option<usize>,
    on: &PrefixRoutes<'_>,
    tally: &mut Tally,
) -> Result<(), AllocError>
    requires client_known { client < length tables.now.plan.peers }
    requires routes { AreRoutesOf tables.now (entry_of on.now) }
    requires peers { tally.old.peers ≡ length tables.now.plan.peers }
    ensures { OnOk result (Grows tally.old tally.new (missing_findings_on tables.now client from on.now.prefix)) }
{
    let missing = missing_on(alloc, tables, client, from, on)?;
    count_routes(&missing.routes, tally);
    Ok(())
}

// Counts them if the client gets no route to the prefix at all. Else nothing is counted.
pub(crate) fn count_unserved_on(
    alloc: Global,
    tables: &Tables,
    client: usize,
    from: Option<usize>,
    on: &PrefixRoutes<'_>,
    tally: &mut Tally,
) -> Result<(), AllocError>
    requires client_known { client < length tables.now.plan.peers }
    requires routes { AreRoutesOf tables.now (entry_of on.now) }
    requires peers { tally.old.peers ≡ length tables.now.plan.peers }
    ensures { OnOk result (Grows tally.old tally.new (unserved_findings_on tables.now client from on.now.prefix)) }
{
    if gets_none(tables, client, on) {
        count_missing_on(alloc, tables, client, from, on, tally)
    } else {
        Ok(())
    }
}

// Whether a client gets no route to a prefix.
fn gets_none(_tables: &Tables, client: usize, on: &PrefixRoutes<'_>) -> bool
    requires { AreRoutesOf _tables.now (entry_of on.now) }
    ensures { result ≡ is_none (best_of _tables.now client on.now.prefix) }
{
    on.best(client).is_none()
}

// Counts the routes.
fn count_routes(routes: &[MissingRoute<'_>], tally: &mut Tally)
    requires { All (λ one. one.route.peer < tally.old.peers) routes.now }
    ensures { Grows tally.old tally.new (filter_map counted_of routes.now) }
{
    for one in routes {
        count_route(one, tally);
    }
}

// Counts a route by its sender and reason.
fn count_route(one: &MissingRoute, tally: &mut Tally)
    requires { one.now.route.peer < tally.old.peers }
    ensures { Grows tally.old tally.new (filter_map counted_of (one.now ∷ [])) }
{
    if let Some(reason) = MissingReason::of(&one.explanation) {
        tally.add(Finding::Missing(one.route.peer, reason));
    }
}
