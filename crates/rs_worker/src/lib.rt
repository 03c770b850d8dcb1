//! Workers: each reads the recorded session of one peer and sends its changes through a ring, on a thread of its own.
//!
//! Reading order: `gate` (what a run shows as it passes). Then one worker: `sending` (one change after another), `work`
//! (a whole session). Last `crew` (the workers of all peers).
#![tactic(auto)]

mod crew;
mod gate;
mod sending;
mod work;

pub use crew::{Job, Joined, WorkerOf, join_workers, start_workers};
pub use gate::{Gate, Open};
pub use rs_patience::{Patience, send_when_room};
pub use work::{WorkerEnd, worker, worker_by, worker_over};
