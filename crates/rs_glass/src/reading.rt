//! Reads the recorded sessions of all peers, and keeps what a prefix needs.
//!
//! Each session is read on a thread of its own, if the system grants one.

ghost use Rattle.std.specs.Prelude.{◌≡◌, IfErr, IfOk, length};
ghost use Rattle.rs_glass.specs.Heard.{AreHeard, IsFaultHeard};
ghost use Rattle.rs_glass.specs.Recorded.{AreSaidOf, IsFaultAmong};

use crate::fault::GlassFault;
use crate::hearing::{Heard, hear};
use crate::question::Question;
use crate::recording::recordings;
use crate::said::Said;
use rs_choice::Exchange;
use rs_losses::PutsIn;
use rs_mrt::Source;
use rs_table::Tables;
use std::alloc::Global;
use std::sync::Arc;
use std::thread;
use std::thread::Threads;

/// What recorded sessions say of a prefix.
#[derive(Drop)]
pub struct Reading {
    /// The routes that the sessions leave on the prefix and on those that cover it. Closes aren't shown.
    pub tables: Tables,
    /// What each peer's changes say last of the prefix, in the order of the peers.
    pub said: Vec<Said>,
}

/// Reads the recorded session of each peer. `sources` has one source for each, in the order of the peers. It gives the
/// MRT records of the peer's recording one after another, and then the end or a fault.
///
/// Fails if memory is refused, or if a session closes because its records can't be read: its source answers that a read
/// failed.
pub fn read_sessions<T: Threads + Sync, S: Source + PutsIn + Send + Drop>(
    rt: &T,
    alloc: Global,
    plan: &Arc<Exchange>,
    sources: Vec<S>,
    question: &Question,
) -> Result<Reading, GlassFault>
    requires one_for_each { length sources.items ≡ length plan.now.value.peers }
    ensures plan { IfOk result (λ reading. reading.tables.plan ≡ plan.now.value) }
    ensures as_many { IfOk result (λ reading. length reading.said.items ≡ length plan.now.value.peers) }
    ensures says { IfOk result (λ reading. AreSaidOf S.comes S.shows question.now plan.now.value sources.items
        (length sources.items) reading.tables reading.said.items) }
    ensures fault { IfErr result (IsFaultAmong S.comes S.shows question.now plan.now.value sources.items) }
{
    let all = recordings(alloc, plan, sources)?;
    let heard = thread::map_vec(rt, all, &|recording| hear(alloc, recording, question))?;
    gather(alloc, plan, heard)
}

// What was read of all peers, in their order.
fn gather(
    alloc: Global,
    plan: &Arc<Exchange>,
    all: Vec<Result<Heard, GlassFault>>,
) -> Result<Reading, GlassFault>
    requires { length all.items ≡ length plan.now.value.peers }
    ensures plan { IfOk result (λ reading. reading.tables.plan ≡ plan.now.value) }
    ensures as_many { IfOk result (λ reading. length reading.said.items ≡ length all.items) }
    ensures heard { IfOk result (λ reading.
        AreHeard all.items (length all.items) reading.tables reading.said.items) }
    ensures fault { IfErr result (IsFaultHeard all.items) }
{
    let mut tables = Tables::new(alloc, plan.clone()?)?;
    let mut said = Vec::with_capacity(alloc, plan.count())?;
    for (peer, one) in all.into_iter().enumerate() {
        let heard = one?;
        said.push(heard.said)?;
        heard.routes.put_into(&mut tables, peer)?;
    }
    Ok(Reading { tables, said })
}
