//! What is asked of the recorded sessions.

use rs_update::{Errors, Prefix};

/// What is asked of the recorded sessions of an exchange.
#[derive(Clone, Copy, Debug, PartialEq, Eq)]
pub struct Question {
    /// The prefix.
    pub prefix: Prefix,
    /// The standard by which faults in path attributes are handled.
    pub errors: Errors,
}
