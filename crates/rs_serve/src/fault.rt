//! Why a run has no tables.

ghost use Rattle.std.specs.Prelude.{◌≡◌};
ghost use Rattle.rs_serve.specs.declared.fault.FloorRefused.TheVariants.{Memory};

use std::alloc::AllocError;
use thiserror::Error;

/// Why a run is refused. Then there are no tables.
#[derive(Debug, Drop, Error, PartialEq, Eq, Clone, Copy)]
pub enum FloorRefused {
    /// Memory is refused.
    #[error("out of memory")]
    Memory,
    /// Of the peer of this number, not all that its worker sent is known to have been received.
    #[error("peer {0} unsettled")]
    Unsettled(usize),
    /// The capacity of the rings isn't from 1 to 65,536.
    #[error("ring capacity not from 1 to 65536")]
    Capacity,
    /// A read of the file of the peer of this number failed.
    #[error("cannot read the file of peer {0}")]
    Read(usize),
    /// The number of shards isn't from 1 to 16.
    #[error("number of shards not from 1 to 16")]
    Shards,
}

impl From<AllocError> for FloorRefused {
    ghost from_gives = { λ _ fault. fault ≡ Memory };

    fn from(_refused: AllocError) -> FloorRefused {
        FloorRefused::Memory
    }
}
