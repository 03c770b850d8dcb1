//! Keeps the program from writing a dump, or the part file of one, over a file that it reads.

ghost use Rattle.std.specs.Prelude.{◌<◌, None, IfErr, IfOk, IfSome, length};
ghost use Rattle.rs_program.specs.Texts.{CanTell};

use crate::ended::Ended;
use crate::texts::dump_path;
use rs_host::{Options, files_of_setup, writes_over};
use rs_setup::Setup;
use std::fs::Files;

/// The first client whose dump, or its part file, would be written over the configuration, over one of its lists or
/// over a peer's recorded file.
pub fn first_overwritten<R: AllocGlobal + Files>(
    rt: &R,
    setup: &Setup,
    options: &Options,
) -> Result<Option<usize>, Ended>
    ensures known { IfOk result (λ client. IfSome client (λ number. number < length setup.now.plan.value.peers)) }
    ensures refused { IfErr result (λ ended. CanTell ended None None) }
{
    let read = files_of_setup(rt, &options.config, setup)?;
    for client in 0..setup.plan.count() {
        let path = dump_path(rt.alloc(), setup, options, client)?;
        if writes_over(rt, &path, &read)? {
            return Ok(Some(client));
        }
    }
    Ok(None)
}
