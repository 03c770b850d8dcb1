//! Answers about one prefix: why a client has each peer's route, or not, and what happened on the prefix.
//! All of it is our choice, but for JSON (RFC 8259).
//!
//! Reading order: `answering` (the whole answer), `unread` (why there is none). `why_answer` and `because` (why a client
//! has each peer's route, or not). `history_answer` (what happened). The same as a picture: `lives` (how long routes
//! stood), `fates` (what becomes of them), `picture`, `picture_lanes` and `canvas`. Below them `starts` (since when
//! recordings run), `treatment` (a faulty UPDATE), `clock` (times), `attribute_lines` and `attribute_fields`.
//!
//! A call that allocates fails if memory is refused.
#![tactic(auto)]

mod answering;
mod attribute_fields;
mod attribute_lines;
mod because;
mod canvas;
mod clock;
mod fates;
mod history_answer;
mod lives;
mod picture;
mod picture_lanes;
mod starts;
mod treatment;
mod unread;
mod why_answer;

pub use answering::{history, why};
