//! A looking glass, which answers from recorded sessions: why a client of a route server has each peer's route on a
//! prefix, or not, and what happened on the prefix.
//!
//! It keeps only what the prefix needs of the recorded files: the changes on it and on the prefixes that cover it, the
//! losses and the closes.
//!
//! Standards: RFC 4271, section 9.1; RFC 7606, section 2; RFC 7947, section 2.3.
//!
//! Reading order, the question first: `question`, `covering` (the prefixes that count). Why a change came: `loss` (how a
//! session was lost), `treated` (the fault of an UPDATE that is treated as a withdrawal), `cause` (either of them). One
//! peer: `said` (what its changes say last of the prefix), `routes_left` (the routes that they leave).
//! The recorded sessions: `recording` (one for each peer), `hearing` (what one says), `reading` (what all say). The
//! answers: `answers`. Time: `microseconds` (of a record), `moment` (which one is later). The history: `listing` (what
//! happened by one file), `happened` (by all, in the order of time), `history` (what a client gets after each event).
//! Faults: `fault`.
//!
//! A call that allocates fails if memory is refused.
#![tactic(auto)]

mod answers;
mod cause;
mod covering;
mod fault;
mod happened;
mod hearing;
mod history;
mod listing;
mod loss;
mod microseconds;
mod moment;
mod question;
mod reading;
mod recording;
mod routes_left;
mod said;
mod treated;

pub use answers::{Answer, Answers, LessSpecific, explain_all, longest_announced};
pub use cause::Cause;
pub use fault::GlassFault;
pub use happened::{Happening, read_happenings};
pub use history::{Event, Gets, History, fill_history};
pub use loss::{Loss, loss_of};
pub use microseconds::microseconds_of;
pub use question::Question;
pub use reading::{Reading, read_sessions};
pub use said::Said;
pub use treated::{Treated, a_treated_update_is_at_fault};
