//! Why a run fails.

ghost use Rattle.std.specs.Prelude.{◌≡◌};
ghost use Rattle.rs_outlet.specs.declared.run_fault.RunFault.TheVariants.{Memory};

use std::alloc::AllocError;
use thiserror::Error;

/// Why a run fails. Dumps that were kept before stay.
#[derive(Clone, Copy, Debug, PartialEq, Eq, Drop, Error)]
pub enum RunFault {
    /// Memory was refused.
    #[error("memory was refused during the run")]
    Memory,
    /// Not all changes of the peer of this number are known to have been applied.
    #[error("peer {0} is unsettled")]
    Unsettled(usize),
    /// The dump of the client of this number can't be made or written.
    #[error("the dump of client {0} cannot be made or written")]
    Dump(usize),
    /// The report can't be written; a beginning of it may be out.
    #[error("the report cannot be written")]
    Report,
    /// The recorded file of the peer of this number can't be read to its end, or has 2^50 octets or more.
    #[error("the recorded file of peer {0} cannot be read")]
    Read(usize),
}

impl From<AllocError> for RunFault {
    ghost from_gives = { λ _ e. e ≡ Memory };

    fn from(_refused: AllocError) -> RunFault {
        RunFault::Memory
    }
}
