//! Builds the tables of an exchange from its recorded files, on threads.

ghost use Rattle.std.specs.Prelude.{◌≡◌, IfOk, length};

use crate::built::Built;
use crate::unanswered::Unanswered;
use rs_host::{Reached, WordsFault, unread_at};
use rs_mrt::{FileReading, Losses};
use rs_notes::Outlines;
use rs_opening::{Beside, open_files};
use rs_query::{CheckQuery, TablesQuery};
use rs_serve::{FloorRefused, Open, Served, serve_sources};
use rs_setup::Setup;
use rs_update::Errors;
use std::fs::Files;
use std::sync::Wait;
use std::thread::Threads;

// How many changes wait at most between two threads.
const RING: usize = 1024;

// How many threads keep the tables of a check, of which no other number is asked.
const CHECK_SHARDS: usize = 1;

// How tables are built of recorded files.
#[derive(Clone, Copy)]
struct Manner {
    // By which standard faults in path attributes are handled.
    errors: Errors,
    // Which losses of a session count.
    losses: Losses,
    // How many threads keep the tables.
    shards: usize,
}

/// The tables that the recorded files of a setup leave. The first file that can't be read is named. A number of shards
/// that is not from 1 to 16 is refused. Fails if memory is refused, and if a peer's changes aren't known to have
/// come.
pub fn served<R: AllocGlobal + Files + Threads + Wait + Sync>(
    rt: &R,
    setup: &Setup,
    query: &TablesQuery,
) -> Result<Built, Unanswered>
where
    R::File: Send,
    R::Dir: Send,
    requires { length setup.now.files.items ≡ length setup.now.plan.value.peers }
    ensures { IfOk result (λ built. built.tables.plan ≡ setup.now.plan.value) }
{
    let outlines = Outlines::new(rt.alloc(), setup, query.until);
    let manner = Manner {
        errors: query.errors,
        losses: query.losses,
        shards: query.shards,
    };
    let served = serve(rt, setup, manner, &outlines)?;
    Ok(Built::new(served, outlines))
}

/// What a run would serve that reads the recorded files of a setup as the check says: within its bounds, so a tail may
/// be left out. It fails as `served` does.
pub fn served_as_checked<R: AllocGlobal + Files + Threads + Wait + Sync>(
    rt: &R,
    setup: &Setup,
    query: &CheckQuery,
) -> Result<Served, Unanswered>
where
    R::File: Send,
    R::Dir: Send,
    requires { length setup.now.files.items ≡ length setup.now.plan.value.peers }
    ensures { IfOk result (λ served. served.tables.plan ≡ setup.now.plan.value) }
{
    let outlines = Outlines::none(rt.alloc(), query.bounds);
    let manner = Manner {
        errors: query.errors,
        losses: query.losses,
        shards: CHECK_SHARDS,
    };
    serve(rt, setup, manner, &outlines)
}

// What is served of files that are read within the bounds of outlines. The outlines of the files are made too.
fn serve<R: AllocGlobal + Files + Threads + Wait + Sync>(
    rt: &R,
    setup: &Setup,
    manner: Manner,
    outlines: &Outlines,
) -> Result<Served, Unanswered>
where
    R::File: Send,
    R::Dir: Send,
    requires { length setup.now.files.items ≡ length setup.now.plan.value.peers }
    ensures { IfOk result (λ served. served.tables.plan ≡ setup.now.plan.value) }
{
    let alloc = rt.alloc();
    let reading = FileReading {
        bounds: outlines.bounds(),
        losses: manner.losses,
    };
    let reached = Reached::first_of_each(alloc, setup)?;
    let beside = Beside {
        outlines: outlines.slots(),
        reached: &reached,
    };
    let files = open_files(rt, setup, reading, |octets| octets, beside)?;
    let (shards, errors) = (manner.shards, manner.errors);
    match serve_sources(rt, alloc, &setup.plan, files, RING, shards, errors, &Open) {
        Ok(served) => Ok(served),
        Err(FloorRefused::Memory) => Err(Unanswered::Memory),
        Err(FloorRefused::Read(peer)) => {
            let unread = unread_at(alloc, setup, &reached, peer);
            Err(Unanswered::from(unread))
        }
        Err(FloorRefused::Unsettled(peer)) => {
            let name = &setup.plan.peer(peer).name;
            Err(Unanswered::Unsettled(String::from_str(alloc, name)?))
        }
        Err(FloorRefused::Shards) => {
            let text = format!(in alloc; "looking_glass: --shards {shards} is not from 1 to 16\n")?;
            Err(Unanswered::Words(WordsFault::Refused(text)))
        }
        Err(FloorRefused::Capacity) => unreachable!(),
    }
}
