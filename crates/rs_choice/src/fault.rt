//! Why a plan is refused (our choice: RFC 4271 leaves configuration to the implementation).

ghost use Rattle.std.specs.Prelude.{◌≡◌};
ghost use Rattle.rs_choice.specs.declared.fault.PlanFault.TheVariants.{Memory};

use std::alloc::{AllocError, AllocFailed};
use thiserror::Error;

/// The first fault of a plan. The faults of the whole plan come first, in the order of the variants, with `ZeroAs`
/// of the server as the last. Then come `InvalidName` to `ZeroAs`, of one peer after another. Then comes
/// `UnknownName`, of one peer after another.
#[derive(Clone, Copy, Debug, PartialEq, Eq, Error)]
pub enum PlanFault {
    /// There is no peer.
    #[error("there is no peer")]
    NoPeer,
    /// There are more than 256 peers.
    #[error("there are more than 256 peers")]
    TooManyPeers,
    /// The name of this peer is empty, has more than 64 octets, or has one that isn't an ASCII letter, a
    /// digit, `-` or `_`.
    #[error("the name of peer {0} is empty, longer than 64 octets, or has other characters than \
        letters, digits, hyphens and underscores")]
    InvalidName(usize),
    /// An earlier peer has the name of this one.
    #[error("an earlier peer has the name of peer {0}")]
    RepeatedName(usize),
    /// An earlier peer has the address of this one.
    #[error("an earlier peer has the address of peer {0}")]
    RepeatedAddress(usize),
    /// The AS number of this peer, or of the server (None), is 0.
    #[error("an AS number is 0")]
    ZeroAs(Option<usize>),
    /// This peer refuses routes from a name that no peer has.
    #[error("peer {0} refuses routes from a name that no peer has")]
    UnknownName(usize),
    /// Memory was refused. The plan itself has no fault.
    #[error("out of memory")]
    Memory,
}

impl PlanFault {
    ghost use Rattle.rs_choice.specs.FaultNumber.{number_of_fault, peer_of_fault};

    /// The number of the fault, 1 to 8 in the order of the variants.
    pub fn number(&self) -> u8
        ensures { result ≡ number_of_fault self.now }
    {
        match self {
            PlanFault::NoPeer => 1,
            PlanFault::TooManyPeers => 2,
            PlanFault::InvalidName(_) => 3,
            PlanFault::RepeatedName(_) => 4,
            PlanFault::RepeatedAddress(_) => 5,
            PlanFault::ZeroAs(_) => 6,
            PlanFault::UnknownName(_) => 7,
            PlanFault::Memory => 8,
        }
    }

    /// The number of the peer at fault, if the fault is that of one peer.
    pub fn peer(&self) -> Option<usize>
        ensures { result ≡ peer_of_fault self.now }
    {
        match self {
            PlanFault::NoPeer => None,
            PlanFault::TooManyPeers => None,
            PlanFault::InvalidName(peer) => Some(*peer),
            PlanFault::RepeatedName(peer) => Some(*peer),
            PlanFault::RepeatedAddress(peer) => Some(*peer),
            PlanFault::ZeroAs(peer) => *peer,
            PlanFault::UnknownName(peer) => Some(*peer),
            PlanFault::Memory => None,
        }
    }
}

impl From<AllocError> for PlanFault {
    ghost from_gives = { λ _ fault. fault ≡ Memory };

    fn from(_refused: AllocError) -> PlanFault {
        PlanFault::Memory
    }
}

impl<T: Drop> From<AllocFailed<T>> for PlanFault {
    ghost from_gives = { λ _ fault. fault ≡ Memory };

    fn from(_refused: AllocFailed<T>) -> PlanFault {
        PlanFault::Memory
    }
}
