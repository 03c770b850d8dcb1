//! Why a dump wasn't written.

ghost use Rattle.std.specs.Prelude.{◌≡◌};
ghost use Rattle.rs_records.specs.declared.fault.DumpFault.TheVariants.{Write, Memory};

use rs_mrt::Failed;
use std::alloc::AllocError;
use thiserror::Error;

/// Why a dump wasn't written whole.
#[derive(Clone, Copy, Debug, PartialEq, Eq, Drop, Error)]
pub enum DumpFault {
    /// A write failed: it answered an error, or took nothing. What was written is a beginning of the dump.
    #[error("the dump could not be written")]
    Write,
    /// There are more rows than Sequence Numbers, 4,294,967,295. Nothing was written.
    #[error("the table has more rows than a dump can number")]
    TooManyRows,
    /// Memory was refused. Nothing was written.
    #[error("out of memory")]
    Memory,
}

impl From<Failed> for DumpFault {
    ghost from_gives = { λ _ e. e ≡ Write };

    fn from(_failed: Failed) -> DumpFault {
        DumpFault::Write
    }
}

impl From<AllocError> for DumpFault {
    ghost from_gives = { λ _ e. e ≡ Memory };

    fn from(_refused: AllocError) -> DumpFault {
        DumpFault::Memory
    }
}
