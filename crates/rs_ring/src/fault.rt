//! Why a ring is refused, and why an item is.

ghost use Rattle.std.specs.Prelude.{◌≡◌};
ghost use Rattle.rs_ring.specs.declared.fault.RingRefused.TheVariants.{Memory};

use std::alloc::AllocError;
use std::fmt;
use thiserror::Error;

/// Why no ring is made.
#[derive(Debug, Drop, Error, PartialEq, Eq, Clone, Copy)]
pub enum RingRefused {
    /// The capacity isn't from 1 to 65,536.
    #[error("ring capacity not from 1 to 65536")]
    Capacity,
    /// Memory is refused.
    #[error("out of memory")]
    Memory,
}

impl From<AllocError> for RingRefused {
    ghost from_gives = { λ _ fault. fault ≡ Memory };

    fn from(_refused: AllocError) -> RingRefused {
        RingRefused::Memory
    }
}

/// Why an item isn't sent. The item comes back.
#[derive(Drop, Error)]
pub enum SendRefused<T> {
    /// A closing item was sent before.
    #[error("a closing item was sent before")]
    Closed(T),
    /// No room is left.
    #[error("full ring")]
    Full(T),
}

impl<T> fmt::Debug for SendRefused<T> {
    fn fmt<W: fmt::Write>(&self, f: &mut fmt::Formatter<W>) -> fmt::Result {
        match self {
            SendRefused::Closed(_) => f.pad("Closed(_)"),
            SendRefused::Full(_) => f.pad("Full(_)"),
        }
    }
}
