//! The rings of all peers, before a run on threads.

ghost use Rattle.std.specs.Prelude.{◌≡◌, true, IfOk, OnOk, length};
ghost use Rattle.rs_ring.specs.Items.{is_capacity};
ghost use Rattle.rs_choice.specs.Plan.{peer_of};
ghost use Rattle.rs_serve.specs.Lines.{AreLines, HasLineMore, HaveRoom};

use rs_choice::{Exchange, PeerSpec};
use rs_mrt::Source;
use rs_ring::{Receiver, ring};
use rs_session::Word;
use rs_worker::Job;
use std::alloc::{AllocError, Global};

// The job of each peer's worker, and the receiving end of its ring, in the order of the peers.
#[derive(Drop)]
pub(crate) struct Lines<S: Source> {
    pub(crate) jobs: Vec<Job<S>>,
    pub(crate) from: Vec<Receiver<Word>>,
}

// The rings of all peers, each with room for so many changes. Refused if memory is.
pub(crate) fn open_lines<S: Source + Drop>(
    alloc: Global,
    plan: &Exchange,
    sources: Vec<S>,
    capacity: usize,
) -> Result<Lines<S>, AllocError>
    requires as_many { length sources.items ≡ length plan.now.peers }
    requires capacity { is_capacity capacity ≡ true }
    ensures lines { IfOk result (λ lines. AreLines plan.now sources.items lines.jobs.items lines.from.items) }
    ensures capacity { IfOk result (λ lines. HaveRoom capacity lines.jobs.items) }
{
    let mut lines = Lines {
        jobs: Vec::new(alloc),
        from: Vec::new(alloc),
    };
    for source in sources {
        let peer = plan.peer(lines.jobs.len());
        lines.open(alloc, peer, source, capacity)?;
    }
    Ok(lines)
}

impl<S: Source + Drop> Lines<S> {
    // Opens the ring of one peer more: the job of its worker, and the receiving end. Refused if memory is.
    fn open(
        &mut self,
        alloc: Global,
        peer: &PeerSpec,
        source: S,
        capacity: usize,
    ) -> Result<(), AllocError>
        requires { is_capacity capacity ≡ true }
        ensures { OnOk result (HasLineMore capacity (peer_of peer.now) source
            self.old.jobs.items self.old.from.items self.new.jobs.items self.new.from.items) }
    {
        let Ok((out, receiver)) = ring(alloc, capacity) else {
            return Err(AllocError);
        };
        self.jobs.push(Job {
            source,
            id: peer.peer_id(),
            out,
        })?;
        self.from.push(receiver)?;
        Ok(())
    }
}
