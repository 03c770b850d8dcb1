//! How the program ends if it fails: its status, and its line on standard error.

ghost use Rattle.std.specs.Prelude.{◌≡◌};
ghost use Rattle.rs_program.specs.Status.{ended_of, run_status, status_of};
ghost use Rattle.rs_program.specs.declared.ended.Ended.TheVariants.{Memory};

use rs_host::{
    DONE, FAILED, NOT_CLEAN, OUT_OF_MEMORY, Strictness, UNSETTLED, Unready, WordsFault,
    setup_status, words_status,
};
use rs_outlet::RunFault;
use rs_setup::SetupFault;
use std::alloc::AllocError;
use thiserror::Error;

/// Why the program fails.
#[derive(Debug, Drop, Error)]
pub enum Ended {
    /// The command line gives no options: help or the version was asked for, or it is refused.
    #[error(transparent)]
    Words(WordsFault),
    /// The configuration or one of its lists is refused.
    #[error(transparent)]
    Setup(SetupFault),
    /// The configuration, one of its lists or a peer's recorded file can't be read: its path.
    #[error("the file {0} cannot be read whole")]
    Unread(String),
    /// Memory was refused while a file was read.
    #[error("memory was refused while a file was read")]
    Memory,
    /// The run stopped short.
    #[error(transparent)]
    Run(RunFault),
}

/// The status with which a run ends that did not fail: 5 if it isn't clean and `strict` asks for that, else 0. It is clean
/// if each session closed at the end of its file, and there is no note.
pub fn run_status(strict: Strictness, clean: bool) -> u8
    ensures { result ≡ run_status strict clean }
{
    match strict {
        Strictness::Off => DONE,
        _ if clean => DONE,
        _ => NOT_CLEAN,
    }
}

/// The status with which the program ends if it fails. 0: help or the version was asked for. 1: the command
/// line or the configuration is refused. 2: a file, a folder or a device failed. 3: memory was refused. 4: not all
/// changes of a peer are known to have been applied.
pub fn status(ended: &Ended) -> u8
    ensures { result ≡ status_of ended.now }
{
    match ended {
        Ended::Words(fault) => words_status(fault),
        Ended::Setup(fault) => setup_status(fault),
        Ended::Unread(_) => FAILED,
        Ended::Memory => OUT_OF_MEMORY,
        Ended::Run(RunFault::Memory) => OUT_OF_MEMORY,
        Ended::Run(RunFault::Unsettled(_)) => UNSETTLED,
        Ended::Run(RunFault::Dump(_)) => FAILED,
        Ended::Run(RunFault::Report) => FAILED,
        Ended::Run(RunFault::Read(_)) => FAILED,
    }
}

impl From<AllocError> for Ended {
    ghost from_gives = { λ _ ended. ended ≡ Memory };

    fn from(_refused: AllocError) -> Ended {
        Ended::Memory
    }
}

impl From<Unready> for Ended {
    ghost from_gives = { λ unready ended. ended ≡ ended_of unready };

    fn from(unready: Unready) -> Ended {
        match unready {
            Unready::Setup(fault) => Ended::Setup(fault),
            Unready::Unread(path) => Ended::Unread(path),
            Unready::Memory => Ended::Memory,
        }
    }
}
