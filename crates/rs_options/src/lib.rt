//! What the command line of the route server asks for, and what both programs read of a command line.
//!
//! Reading order: `options` (what the words of a run ask for), `argument` (an option of the command as a row of a
//! table), `command` (the table, and the command that it makes). `words` reads words by that command. Then `standard`
//! (the standards for faults by their names), `times` (times of records as they are written, RFC 6396, section 2) and
//! `version` (what `--version` answers).
#![tactic(auto)]

mod argument;
mod command;
mod options;
mod standard;
mod times;
mod version;
mod words;

pub use options::{CommandLine, Options, Strictness, WordsFault};
pub use standard::standard_of;
pub use times::read_time;
pub use version::VERSION;
pub use words::{losses_of, read_command_line, read_words};
