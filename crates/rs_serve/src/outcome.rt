//! How a run of which all threads were joined ended.

ghost use Rattle.std.specs.Prelude.{Bool, List, true, false};
ghost use Rattle.rs_serve.specs.Outcome.{IsFirst, IsVerdict};

use crate::fault::FloorRefused;

/// The answer to a run. `memory` says whether memory was refused anywhere. `failed` says of each peer whether a read
/// of its file failed. `settled` says of each peer whether all that it sent is known to have been received. The
/// function takes no memory.
///
/// Fails with `Memory` if memory was refused. Else it fails with `Read` of the least peer whose read failed, else
/// with `Unsettled` of the least peer that isn't settled.
pub fn verdict(memory: bool, failed: &[bool], settled: &[bool]) -> Result<(), FloorRefused>
    ensures { IsVerdict memory failed.now settled.now result }
{
    verdict_by(memory, first_that_is(failed), first_that_is_not(settled))
}

// The same, by the least peer whose read failed and the least one that isn't settled.
pub(crate) fn verdict_by(
    memory: bool,
    failed: Option<usize>,
    unsettled: Option<usize>,
) -> Result<(), FloorRefused>
    ensures { (reads settles : List Bool) → IsFirst true false reads failed → IsFirst false true settles unsettled
        → IsVerdict memory reads settles result }
{
    if memory {
        return Err(FloorRefused::Memory);
    }
    if let Some(peer) = failed {
        return Err(FloorRefused::Read(peer));
    }
    if let Some(peer) = unsettled {
        return Err(FloorRefused::Unsettled(peer));
    }
    Ok(())
}

// The least place that is true.
fn first_that_is(values: &[bool]) -> Option<usize>
    ensures { IsFirst true false values.now result }
{
    values.iter().position(|value| *value)
}

// The least place that is false.
fn first_that_is_not(values: &[bool]) -> Option<usize>
    ensures { IsFirst false true values.now result }
{
    values.iter().position(|value| !*value)
}
