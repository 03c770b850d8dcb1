//! Texts that are put together. No part that is added gives an answer, so a function that adds many has one way on. At
//! the end `text` and `nothing` say whether memory was refused.

use std::alloc::Global;
use std::fmt::Display;
use std::test::Fail;

/// A text that is put together.
#[derive(Drop)]
pub struct Said {
    text: String,
    refused: bool,
}

impl Said {
    /// Nothing yet.
    pub fn new(alloc: Global) -> Said {
        Said {
            text: String::new(alloc),
            refused: false,
        }
    }

    /// Appends a part.
    pub fn add<D: Display + Drop>(&mut self, part: D) {
        if write!(self.text, "{part}").is_err() {
            self.refused = true;
        }
    }

    /// The text is not whole: memory was refused for a part before it could be added.
    pub fn refuse(&mut self) {
        self.refused = true;
    }

    /// What was added, if that is whole.
    pub fn text(&self) -> Option<&str> {
        if self.refused {
            return None;
        }
        Some(&self.text)
    }

    /// Fails by what was added, unless that is whole and nothing.
    pub fn nothing(&self) -> Result<(), Fail> {
        match self.text() {
            Some("") => Ok(()),
            Some(text) => Err(Fail::new(format_args!("{text}"))),
            None => Err(Fail::from("memory was refused")),
        }
    }
}
