//! Lists the routes that a client does not get. Four threads lay out the rows of some prefixes each, which are then
//! printed in their order.
//!
//! Our choice: if a thread is refused, the calling thread lays out its rows.

ghost use Rattle.std.specs.Prelude.{◌<◌, length};
ghost use Rattle.std.specs.List.{All};
ghost use Rattle.rs_table.specs.PrefixRoutes.{AreRoutesOf, entry_of};

use crate::list_answering::print_page;
use crate::missing_row::{hand_missing, missing_columns};
use crate::wanted::Wanted;
use rs_explain::MissingReason;
use rs_glass_shell::{PeerSession, Unanswered};
use rs_rows::{Column, Form, RowWriter};
use rs_survey::{MissingOn, every_prefix, missing_on};
use rs_table::{PrefixRoutes, Route, Tables};
use std::alloc::{AllocError, Global};
use std::io::Print;
use std::thread::{Threads, map_indices};

// How many threads lay out rows.
const THREADS: usize = 4;

// How many rows a thread lays out at a time, at most.
const ROWS: usize = 16_384;

// What is listed, and how.
#[derive(Clone, Copy)]
struct Listing<'a> {
    alloc: Global,
    tables: &'a Tables,
    sessions: &'a [PeerSession],
    client: usize,
    form: Form,
    columns: &'a [Column],
    wanted: Wanted,
    // On how many prefixes a thread lays out the rows at a time.
    prefixes: usize,
}

// Lists them; what is answered is the last part of the list, which isn't printed yet.
pub(crate) fn list_missing<R: AllocGlobal + Print + Threads + Sync>(
    rt: &R,
    tables: &Tables,
    sessions: &[PeerSession],
    client: usize,
    form: Form,
    wanted: Wanted,
) -> Result<String, Unanswered>
    requires { client < length tables.now.plan.peers }
{
    let alloc = rt.alloc();
    let columns = missing_columns(tables.plan());
    let listing = Listing {
        alloc,
        tables,
        sessions,
        client,
        form,
        columns: &columns,
        wanted,
        prefixes: (ROWS / tables.plan().count()).max(1),
    };
    let all = every_prefix(alloc, tables)?;
    let mut titles = RowWriter::new(alloc, form, &columns);
    titles.titles();
    let mut page = titles.take()?;
    let at_once = listing.prefixes.saturating_mul(THREADS).max(1);
    for round in 0..all.len().div_ceil(at_once) {
        add_round(rt, &mut page, &listing, &all, round.saturating_mul(at_once))?;
    }
    Ok(page)
}

// Adds the rows on as many prefixes, from one place on, as are laid out at once, and prints what is many.
fn add_round<R: AllocGlobal + Print + Threads + Sync>(
    rt: &R,
    page: &mut String,
    listing: &Listing<'_>,
    all: &[PrefixRoutes<'_>],
    first: usize,
) -> Result<(), Unanswered>
    requires client { listing.now.client < length listing.now.tables.now.plan.peers }
    requires routes { All (λ on. AreRoutesOf listing.now.tables.now (entry_of on)) all.now }
{
    let rows = |part: usize| -> Result<String, AllocError>
        requires { (listing.now.client < length listing.now.tables.now.plan.peers)
            × All (λ on. AreRoutesOf listing.now.tables.now (entry_of on)) all.now }
    {
        rows_from(
            listing,
            all,
            first.saturating_add(part.saturating_mul(listing.prefixes)),
        )
    };
    for part in map_indices(rt, listing.alloc, THREADS, &rows)? {
        page.push_str(&part?)?;
        print_page(rt, page)?;
    }
    Ok(())
}

// The rows on as many prefixes, from one place on, as a thread lays out at a time.
fn rows_from(
    listing: &Listing<'_>,
    all: &[PrefixRoutes<'_>],
    first: usize,
) -> Result<String, AllocError>
    requires client { listing.now.client < length listing.now.tables.now.plan.peers }
    requires routes { All (λ on. AreRoutesOf listing.now.tables.now (entry_of on)) all.now }
{
    let mut rows = RowWriter::new(listing.alloc, listing.form, listing.columns);
    for place in first..first.saturating_add(listing.prefixes).min(all.len()) {
        hand_rows(&mut rows, listing, &all[place])?;
    }
    rows.take()
}

// Hands over the rows on a prefix, if it is one of those that are asked for.
fn hand_rows(
    rows: &mut RowWriter<'_>,
    listing: &Listing<'_>,
    on: &PrefixRoutes<'_>,
) -> Result<(), AllocError>
    requires client { listing.now.client < length listing.now.tables.now.plan.peers }
    requires routes { AreRoutesOf listing.now.tables.now (entry_of on.now) }
{
    let wanted = listing.wanted;
    if wanted.gets_none && on.best(listing.client).is_some() {
        return Ok(());
    }
    let missing = missing_on(
        listing.alloc,
        listing.tables,
        listing.client,
        wanted.from,
        on,
    )?;
    hand_wanted(rows, listing, &missing);
    Ok(())
}

// Hands over those of the routes of the sender that are wanted.
fn hand_wanted(rows: &mut RowWriter<'_>, listing: &Listing<'_>, on: &MissingOn<'_>) {
    for one in &on.routes {
        if let Some(reason) = MissingReason::of(&one.explanation)
            && listing.wanted.asks_for(reason)
        {
            let again = again_behind(listing.sessions, &one.route);
            hand_missing(rows, listing.tables.plan(), listing.client, on, one, again);
        }
    }
}

// When the session of a route's sender began again behind the route, without a recorded loss.
fn again_behind(sessions: &[PeerSession], route: &Route<'_>) -> Option<u32> {
    sessions.get(route.peer)?.again_after(route.time)
}
