//! Runs the recorded sessions of all peers of an exchange. The changes of their routes go through rings into the
//! tables. A schedule runs in one thread, in any order that it gives. A run on threads has a thread for each peer and
//! for each shard of the tables, as `rs_serve` does.
//!
//! Reading order, for one peer: `turn` (one step of a schedule), `counts` and `lane` (its session and ring).
//! Then for all peers: `opening` (their sessions and rings), `steps` (their turns), `schedule` (a whole schedule in
//! one thread), `floor` (its end). Then `laws` (of the definitions). Last `serving` (whole runs by one standard, with
//! one shard, over files at hand).
#![tactic(auto)]

mod counts;
mod floor;
mod lane;
mod laws;
mod opening;
mod schedule;
mod serving;
mod steps;
mod turn;

pub use floor::Floor;
pub use laws::{drained_schedules_agree, drained_schedules_dump_alike};
pub use rs_serve::{
    FloorRefused, PeerEnd, Routed, Served, ShardEnd, route, serve_by, shard_of, shard_worker,
    verdict,
};
pub use rs_worker::{Gate, Open, WorkerEnd, worker, worker_by, worker_over};
pub use schedule::replay;
pub use serving::{serve, serve_readers, serve_sharded};
pub use turn::Turn;
