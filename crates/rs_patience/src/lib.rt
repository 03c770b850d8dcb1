//! How a thread waits for another one at a ring.
//!
//! Reading order: `waiting` (longer waits, and a send once there is room).
#![tactic(auto)]

mod waiting;

pub use waiting::{Patience, send_when_room};
