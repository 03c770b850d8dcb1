//! A ring between two threads: one end sends items, the other receives them, numbered and in the order in which they
//! were sent.
//!
//! It stands on `rtrb`: a send is one push and a receipt one pop, under no lock, and no call waits. A closing
//! item is the last one of a ring.
//!
//! Reading order: `closing` (what an item must tell), `maker` (makes a ring), `sender`, `receiver` (and
//! `tally`, how far each has come), `finished`, `fault`.
#![tactic(auto)]

mod closing;
mod fault;
mod finished;
mod maker;
mod receiver;
mod sender;
mod tally;

pub use closing::{Closing, UntilClose};
pub use fault::{RingRefused, SendRefused};
pub use finished::Finished;
pub use maker::{MAX_CAPACITY, ring};
pub use receiver::{Numbered, Receiver};
pub use sender::Sender;
