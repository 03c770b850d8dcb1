//! Peers of which one kind of note tells, all in one line.
//!
//! Our choices: a line names the first eight peers, and says how many more there are. Of several peers it has a text on
//! all of them, and behind it the detail of the first one.

use crate::note::before_place;
use std::alloc::{AllocError, Global};

// How many peers a line names.
const NAMED: usize = 8;

/// The texts on one peer.
#[derive(Drop)]
pub(crate) struct Told {
    /// The line if no other peer has such a note.
    pub line: String,
    /// Its detail in a line on several peers.
    pub detail: Detail,
}

/// What a line on several peers says of one of them.
#[derive(Drop)]
pub(crate) enum Detail {
    /// Nothing: the text on all of them says it.
    Nothing,
    /// What the text on all of them doesn't say.
    Part(String),
    /// The whole detail. It stands alone if it is the same for each peer.
    Whole(String),
}

impl Detail {
    // Whether the other detail says nothing else of its peer.
    fn is_all_of(&self, other: &Detail) -> bool {
        match (self, other) {
            (Detail::Whole(one), Detail::Whole(other)) => one == other,
            _ => false,
        }
    }
}

/// Peers that one kind of note is about, in configured order.
#[derive(Drop)]
pub(crate) struct Group<'a> {
    // The names of the first ones, at most `NAMED`.
    names: Vec<&'a str>,
    count: usize,
    // The texts on the first one; none if memory for them was refused.
    first: Option<Told>,
    // Whether the detail of each says all, and is the same.
    same: bool,
}

impl<'a> Group<'a> {
    /// No peer yet.
    pub(crate) fn none(alloc: Global) -> Group<'a> {
        Group {
            names: Vec::new(alloc),
            count: 0,
            first: None,
            same: true,
        }
    }

    /// Adds a peer of this name. If memory for the text on the first one was refused, there will be no line.
    pub(crate) fn add(&mut self, name: &'a str, told: Result<Told, AllocError>) {
        if self.count == 0 {
            self.first = told.ok();
        } else {
            self.same = self.same && self.is_first(&told);
        }
        if self.names.len() < NAMED {
            let _ = self.names.push(name);
        }
        self.count = self.count.saturating_add(1);
    }

    // Whether the note on a peer says the same as that on the first one.
    fn is_first(&self, told: &Result<Told, AllocError>) -> bool {
        match (&self.first, told) {
            (Some(first), Ok(told)) => first.detail.is_all_of(&told.detail),
            _ => false,
        }
    }

    /// Whether there is no peer.
    pub(crate) fn is_empty(&self) -> bool {
        self.count == 0
    }

    /// The line on these peers, with a text on several of them. None if memory for the text on the first one was
    /// refused.
    pub(crate) fn line(&self, alloc: Global, several: &str) -> Result<Option<String>, AllocError> {
        let Some(first) = &self.first else {
            return Ok(None);
        };
        if self.count == 1 {
            return Ok(Some(String::from_str(alloc, &first.line)?));
        }
        let whose = self.whose(alloc)?;
        let line = match &first.detail {
            Detail::Nothing => format!(in alloc; "{whose}: {several}")?,
            Detail::Whole(text) if self.same => format!(in alloc; "{whose}: {text}")?,
            Detail::Whole(text) => self.detailed(alloc, &whose, several, text)?,
            Detail::Part(text) => self.detailed(alloc, &whose, several, text)?,
        };
        Ok(Some(line))
    }

    // The line with the detail of the first peer.
    fn detailed(
        &self,
        alloc: Global,
        whose: &str,
        several: &str,
        text: &str,
    ) -> Result<String, AllocError> {
        let name = match self.names.first() {
            Some(name) => *name,
            None => "",
        };
        format!(in alloc; "{whose}: {several}; of {name}: {text}")
    }

    // Of which peers the line is.
    fn whose(&self, alloc: Global) -> Result<String, AllocError> {
        let mut whose = String::from_str(alloc, "peers")?;
        for (place, name) in self.names.iter().enumerate() {
            let before = before_place(place, self.count);
            write!(whose, "{before}{name}")?;
        }
        let more = self.count.saturating_sub(self.names.len());
        if more > 0 {
            write!(whose, " and {more} more")?;
        }
        Ok(whose)
    }
}
