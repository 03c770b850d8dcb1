//! What a question is answered with.

use rs_host::DONE;

/// What a question is answered with.
#[derive(Drop)]
pub struct Reply {
    /// The text that is printed.
    pub text: String,
    /// The status with which the program ends.
    pub status: u8,
    /// The notes that are printed behind it.
    pub notes: Vec<String>,
}

/// An answer with these notes.
pub fn answer_with(text: String, notes: Vec<String>) -> Reply {
    Reply {
        text,
        status: DONE,
        notes,
    }
}
