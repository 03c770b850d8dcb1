//! Why a program can't read what it needs before its work.

ghost use Rattle.std.specs.Prelude.{◌≡◌};
ghost use Rattle.rs_host.specs.Unready.{EndsAt, NamesFile};
ghost use Rattle.rs_host.specs.declared.unready.Unready.TheVariants.{Memory};

use crate::fault::FileFault;
use rs_setup::{NoSetup, SetupFault};
use std::alloc::{AllocError, Global};

/// Why a program can't read what it needs before its work.
#[derive(Debug, Drop)]
pub enum Unready {
    /// The configuration or one of its lists is refused.
    Setup(SetupFault),
    /// The configuration, one of its lists or a peer's recorded file can't be read: its path.
    Unread(String),
    /// Memory was refused.
    Memory,
}

impl Unready {
    /// What a fault of the file at a path is: a file that can't be read is named, unless memory for that is refused.
    pub fn by_file(alloc: Global, fault: FileFault, path: &str) -> Unready
        ensures { EndsAt fault path.now result }
    {
        match fault {
            FileFault::Memory => Unready::Memory,
            FileFault::Unread => Unready::by_path(alloc, path),
        }
    }

    /// A file that can't be read, by its path, unless memory for that is refused.
    pub fn by_path(alloc: Global, path: &str) -> Unready
        ensures { NamesFile path.now result }
    {
        match String::from_str(alloc, path) {
            Ok(path) => Unready::Unread(path),
            Err(_) => Unready::Memory,
        }
    }
}

impl From<AllocError> for Unready {
    ghost from_gives = { λ _ unready. unready ≡ Memory };

    fn from(_refused: AllocError) -> Unready {
        Unready::Memory
    }
}

impl From<NoSetup> for Unready {
    fn from(refused: NoSetup) -> Unready {
        match refused {
            NoSetup::Refused(fault) => Unready::Setup(fault),
            NoSetup::Unread(path) => Unready::Unread(path),
        }
    }
}
