//! A worker: one peer's session, change by change through its ring.

ghost use Rattle.std.specs.Prelude.{◌≡◌, ◌<◌, ◌≤◌, ◌^◌, [], length};
ghost use Rattle.rs_session.specs.FileChanges.{changes_in, passed_in, default_standard};
ghost use Rattle.rs_session.specs.Stage.{May, fresh};
ghost use Rattle.rs_worker.specs.Worked.{HasWorked, just};

use crate::gate::Gate;
use crate::sending::send_all;
use rs_mrt::{Records, Source};
use rs_ring::{Finished, Sender};
use rs_session::{PeerId, Reason, Session, Word};
use rs_update::Errors;
use std::alloc::Global;
use std::sync::Wait;

/// What a worker answers.
#[derive(Drop)]
pub struct WorkerEnd {
    /// A token that shows the receiver all that was sent; None if the receiver is gone.
    pub finished: Option<Finished<Word>>,
    /// How many records were passed over before the close.
    pub passed: u64,
    /// How many changes were sent, the close included.
    pub changes: u64,
    /// Why the session ended.
    pub reason: Reason,
}

/// Sends the changes that the source's session gives through a ring, one after another, and the close as the last
/// one. Then it ends the sending. Faults in messages are handled by one of the standards.
///
/// It passes the gate once for each change, before the first try to send it, and tries again while the ring is full.
/// If the session is refused memory, the close with the reason `Memory` takes the place of the next change, and
/// needs no memory. After a failed read the close has the reason `Read`.
pub fn worker_by<S: Source + Drop, G: Gate>(
    rt: &impl Wait,
    alloc: Global,
    peer: usize,
    source: S,
    id: PeerId,
    errors: Errors,
    out: Sender<Word>,
    gate: &G,
) -> WorkerEnd
    requires unsent { out.sent ≡ [] }
    requires room { S.room source ≤ 2 ^ 50 }
    ensures { HasWorked (May S.comes S.shows (fresh source id errors)) out.ring result }
{
    let mut out = out;
    let mut session = Session::over_by(alloc, source, id, errors);
    let reason = send_all(rt, peer, &mut session, &mut out, gate);
    WorkerEnd {
        passed: session.passed_over(),
        changes: out.sent(),
        reason,
        finished: out.finish(),
    }
}

/// `worker_by` that handles faults in messages as RFC 4271 says.
pub fn worker_over<S: Source + Drop, G: Gate>(
    rt: &impl Wait,
    alloc: Global,
    peer: usize,
    source: S,
    id: PeerId,
    out: Sender<Word>,
    gate: &G,
) -> WorkerEnd
    requires unsent { out.sent ≡ [] }
    requires room { S.room source ≤ 2 ^ 50 }
    ensures { HasWorked (May S.comes S.shows (fresh source id default_standard)) out.ring result }
{
    worker_by(rt, alloc, peer, source, id, Errors::Rfc4271, out, gate)
}

/// `worker_over` the records of a file that is at hand as a whole.
pub fn worker<G: Gate>(
    rt: &impl Wait,
    alloc: Global,
    peer: usize,
    file: &[u8],
    id: PeerId,
    out: Sender<Word>,
    gate: &G,
) -> WorkerEnd
    requires unsent { out.sent ≡ [] }
    requires file { length file.now < 2 ^ 50 }
    ensures { HasWorked (just (changes_in id file.now) (passed_in id file.now)) out.ring result }
{
    worker_over(rt, alloc, peer, Records::new(file), id, out, gate)
}
