//! Why a file of import policy is refused.

ghost use Rattle.std.specs.Prelude.{◌≡◌};
ghost use Rattle.rs_import_files.specs.declared.fault.ListFault.TheVariants.{Memory};

use std::alloc::{AllocError, AllocFailed};
use thiserror::Error;

/// Why a list or a VRP file is refused: where, and the reason.
#[derive(Debug, Drop, Error)]
pub enum ListFault {
    /// A line of a text or of a CSV file is wrong, its octets are no UTF-8, or a JSON file is no JSON from there on.
    /// Lines are counted from 1.
    #[error("line {0}: {1}")]
    Line(usize, String),
    /// A row of a JSON file is wrong. Rows are counted from 1, over all lists of the file.
    #[error("row {0}: {1}")]
    Row(usize, String),
    /// The file as a whole is wrong.
    #[error("{0}")]
    Whole(String),
    /// There are more entries than a table has room for.
    #[error("there are more than 4294967295 entries")]
    TooMany,
    /// Memory was refused.
    #[error("memory was refused while the file was read")]
    Memory,
}

impl From<AllocError> for ListFault {
    ghost from_gives = { λ _ fault. fault ≡ Memory };

    fn from(_refused: AllocError) -> ListFault {
        ListFault::Memory
    }
}

impl<T: Drop> From<AllocFailed<T>> for ListFault {
    ghost from_gives = { λ _ fault. fault ≡ Memory };

    fn from(_refused: AllocFailed<T>) -> ListFault {
        ListFault::Memory
    }
}

// Why an entry is wrong, wherever it stands.
#[derive(Debug, Drop)]
pub(crate) enum Flaw {
    // The reason, in words.
    Reason(String),
    // Memory was refused.
    Memory,
}

impl Flaw {
    // The flaw with a reason, if there is memory for its words.
    pub(crate) fn of(reason: Result<String, AllocError>) -> Flaw {
        match reason {
            Ok(reason) => Flaw::Reason(reason),
            Err(_) => Flaw::Memory,
        }
    }

    // The fault of a line, counted from 1.
    pub(crate) fn on_line(self, line: usize) -> ListFault {
        match self {
            Flaw::Reason(reason) => ListFault::Line(line, reason),
            Flaw::Memory => ListFault::Memory,
        }
    }

    // The fault of a row, counted from 1.
    pub(crate) fn in_row(self, row: usize) -> ListFault {
        match self {
            Flaw::Reason(reason) => ListFault::Row(row, reason),
            Flaw::Memory => ListFault::Memory,
        }
    }
}
