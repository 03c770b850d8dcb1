//! Why recorded sessions give no answer.

ghost use Rattle.std.specs.Prelude.{◌≡◌};
ghost use Rattle.rs_glass.specs.declared.fault.GlassFault.TheVariants.{Memory};

use std::alloc::{AllocError, AllocFailed};
use thiserror::Error;

/// Why recorded sessions give no answer.
#[derive(Clone, Copy, Debug, PartialEq, Eq, Drop, Error)]
pub enum GlassFault {
    /// Memory was refused.
    #[error("memory was refused while recorded files were read")]
    Memory,
    /// The records of the peer of this number can't be read to their end: its source answers that a read failed.
    #[error("the recorded file of peer {0} cannot be read")]
    Read(usize),
}

impl From<AllocError> for GlassFault {
    ghost from_gives = { λ _ fault. fault ≡ Memory };

    fn from(_refused: AllocError) -> GlassFault {
        GlassFault::Memory
    }
}

impl<T: Drop> From<AllocFailed<T>> for GlassFault {
    ghost from_gives = { λ _ fault. fault ≡ Memory };

    fn from(_refused: AllocFailed<T>) -> GlassFault {
        GlassFault::Memory
    }
}
