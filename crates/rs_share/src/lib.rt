//! One reading of a recorded file for several peers. Each takes its own records, and the number of others between them.
//! No program stands on this crate yet.
//!
//! Reading order: `directory` (whom a record concerns), `batch` (records on their way), `part` (what goes to a peer at
//! once), `line` (all that goes to one peer). `reader` (who reads the file), `taken` (what a peer takes), `sharing` (how a
//! reading begins). Then `laws`: a session over its peer's own records says what a session over all records says.
//!
//! A call that allocates fails if memory is refused.
#![tactic(auto)]

mod batch;
mod directory;
mod laws;
mod line;
mod part;
mod reader;
mod sharing;
mod taken;

pub use laws::{
    a_peer_hears_all_that_its_session_says, a_peer_takes_its_own_records,
    no_own_record_is_passed_over, own_records_say_the_same,
};
pub use reader::Reader;
pub use sharing::{ShareRefused, Shared, WAITING_OCTETS, share};
pub use taken::Taken;
