//! What one recorded session says: the route changes of one peer, in order (RFC 4271; RFC 6396).
//!
//! Reading order:
//! - Whose a change is: `PeerId` of the crate `rs_types`. The change itself is of the crate `rs_change`.
//! - One record: `withdrawn` and `pending` (its changes), `effect` (what it says), `beside` (whether it may be passed
//!   over if one prefix is asked for).
//! - One session: `session` (one change after another), `passing` (only those on one prefix), `closing` (where it
//!   closed), `reason_text` (the text of why).
//! - What holds of the definitions that the contracts cite: `laws`.
//!
//! A call that allocates fails if memory is refused.
#![tactic(auto)]

mod beside;
mod closing;
mod effect;
mod laws;
mod passing;
mod pending;
mod reason_text;
mod session;
mod withdrawn;

pub use closing::is_cut_short;
pub use effect::{Effect, read_record};
pub use laws::{
    a_failed_read_closes_last, a_file_says_no_more_changes_than_octets,
    a_reader_gives_a_file_or_fails, a_session_closes_once, something_may_come,
    the_front_of_a_record_suffices,
};
pub use pending::Pending;
pub use reason_text::ReasonText;
pub use rs_change::{Body, Reason, Word};
pub use rs_types::PeerId;
pub use session::Session;
