//! Where the dumps of a run go, and why a run fails: what the program and those who end it need of a run.
//!
//! Reading order: `outlet` (where dumps go), `memory_outlet` and `named_writer` (one over memory), `run_fault` (why a
//! run fails).
#![tactic(auto)]

mod memory_outlet;
mod named_writer;
mod outlet;
mod run_fault;

pub use memory_outlet::{Kept, MemoryOutlet, OutletLimits};
pub use named_writer::NamedWriter;
pub use outlet::{Outlet, Unopened};
pub use run_fault::RunFault;
