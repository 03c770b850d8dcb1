//! Losses of a session that its recording doesn't show, and a source that puts them in (RFC 4271, section 8.2.2; RFC
//! 6396, section 4.4.4).
//!
//! Reading order: `losses` (whose losses are looked for), `following` (before which record a loss is put in),
//! `spelling` (the record that is put in), `puts_in` (which records were), `with_losses`, `laws`.
#![tactic(auto)]

mod following;
mod laws;
mod losses;
mod puts_in;
mod spelling;
mod with_losses;

pub use laws::{a_loss_that_is_put_in_says_just_a_loss, what_a_source_with_losses_shows};
pub use losses::Sought;
pub use puts_in::PutsIn;
pub use rs_types::PeerId;
pub use with_losses::WithLosses;
