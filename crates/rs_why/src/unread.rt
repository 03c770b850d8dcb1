//! Why recorded files can't be read to their ends.

ghost use Rattle.rs_why.specs.Files.{EndsReading};

use rs_glass::GlassFault;
use rs_glass_shell::Unanswered;
use rs_host::{Reached, unread_at};
use rs_setup::Setup;
use std::alloc::Global;

/// What ends the reading of the recordings of a setup, which were read so far: a file that can't be read is named, unless
/// memory for that is refused.
pub fn by_reading(
    alloc: Global,
    fault: GlassFault,
    setup: &Setup,
    reached: &[Reached],
) -> Unanswered
    ensures { EndsReading fault setup.now result }
{
    match fault {
        GlassFault::Memory => Unanswered::Memory,
        GlassFault::Read(peer) => Unanswered::from(unread_at(alloc, setup, reached, peer)),
    }
}
