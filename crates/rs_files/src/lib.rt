//! Answers about files: what recorded ones hold, what a run over a configuration would meet, and the beginnings of
//! sessions that a collector's table gives.
//! All of it is our choice, but for JSON (RFC 8259) and TOML 1.0.
//!
//! Reading order: `recordings` (the whole answer), `recorded_file`, `listing_answer`, `listing_pieces`, `recording_keys` and
//! `listing_toml` (what recorded files hold, as a text, as JSON and as a configuration). What a run would meet: `checking` (the whole
//! answer), `refused` and `plan_words` (why it is refused), `unreadable`. Its lines: `found`, `import_lines` (those of
//! import policy), `checked_peer` (those of a peer). What a line of a peer tells: `treated` (how many UPDATEs are treated
//! as withdrawn) and `early_close` (where a session closes before the end of its file).
//! Sessions of a table: `starting` (the whole answer), `chosen` (which table of the file), `listed` (which peers get a
//! file). Then `session_files` (the files, which are put in place when all are whole) and `sessions` (what is written to
//! them). Last stand `peer_lines` and `configuration` (the texts), and `table_faults` (why no session is written).
//!
//! A call that allocates fails if memory is refused.
#![tactic(auto)]

mod checked_peer;
mod checking;
mod chosen;
mod configuration;
mod early_close;
mod found;
mod import_lines;
mod listed;
mod listing_answer;
mod listing_pieces;
mod listing_toml;
mod peer_lines;
mod plan_words;
mod recorded_file;
mod recording_keys;
mod recordings;
mod refused;
mod session_files;
mod sessions;
mod starting;
mod table_faults;
mod treated;
mod unreadable;

pub use checking::check;
pub use recordings::peers;
pub use starting::start;
