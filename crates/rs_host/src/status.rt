//! The statuses with which both programs end.

ghost use Rattle.std.specs.Prelude.{◌≡◌};
ghost use Rattle.rs_host.specs.Status.{setup_status as the_setup_status, words_status as the_words_status};

use rs_choice::PlanFault;
use rs_options::WordsFault;
use rs_setup::SetupFault;

/// All is done, or help or the version was shown.
pub const DONE: u8 = 0;

/// The command line or the configuration is refused.
pub const REFUSED: u8 = 1;

/// A file, a folder or a device failed.
pub const FAILED: u8 = 2;

/// Memory or a thread was refused.
pub const OUT_OF_MEMORY: u8 = 3;

/// Not all changes of a peer are known to have been applied in a run.
pub const UNSETTLED: u8 = 4;

/// A session closed before the end of its file, or there is a note, and a status is asked for if that is so.
pub const NOT_CLEAN: u8 = 5;

/// The status if the words of a command line ask for nothing that can be done.
pub fn words_status(fault: &WordsFault) -> u8
    ensures { result ≡ the_words_status fault.now }
{
    match fault {
        WordsFault::Help(_) => DONE,
        WordsFault::Refused(_) => REFUSED,
        WordsFault::Memory => OUT_OF_MEMORY,
    }
}

/// The status if a configuration is refused.
pub fn setup_status(fault: &SetupFault) -> u8
    ensures { result ≡ the_setup_status fault.now }
{
    match fault {
        SetupFault::Plan(PlanFault::Memory) => OUT_OF_MEMORY,
        SetupFault::Memory => OUT_OF_MEMORY,
        _ => REFUSED,
    }
}
