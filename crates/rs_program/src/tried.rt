//! Tries the folder of the dumps before the recorded sessions are read, so that nobody waits for a run to
//! learn of a mistyped path.
//!
//! Our choice: a dump that stands there already is not touched before the run. If one is to be a new file, a file of
//! another name is made in the folder and taken away again.

ghost use Rattle.std.specs.Prelude.{◌<◌, None, IfErr, IfOk, IfSome, length};
ghost use Rattle.rs_program.specs.Texts.{CanTell};

use crate::ended::Ended;
use crate::overwritten::first_overwritten;
use crate::paths::path_in;
use crate::texts::dump_path;
use rs_host::{Options, takes_part_file};
use rs_setup::Setup;
use std::alloc::AllocError;
use std::fs;
use std::fs::{File, Files};
use std::io::ErrorKind;

// The file that is made to try a folder. No dump has this name.
const TRIAL: &str = ".route_server";

/// The first client whose dump can't be written: it would take the place of a file that is read, or it would
/// have to be made in a folder that takes no files.
pub fn first_unwritable<R: AllocGlobal + Files>(
    rt: &R,
    setup: &Setup,
    options: &Options,
) -> Result<Option<usize>, Ended>
    ensures known { IfOk result (λ client. IfSome client (λ number. number < length setup.now.plan.value.peers)) }
    ensures refused { IfErr result (λ ended. CanTell ended None None) }
{
    match first_overwritten(rt, setup, options)? {
        Some(client) => Ok(Some(client)),
        None => first_unmade(rt, setup, options),
    }
}

// The first client whose dump is to be a new file, if the folder takes no files.
fn first_unmade<R: AllocGlobal + Files>(
    rt: &R,
    setup: &Setup,
    options: &Options,
) -> Result<Option<usize>, Ended>
    ensures known { IfOk result (λ client. IfSome client (λ number. number < length setup.now.plan.value.peers)) }
    ensures refused { IfErr result (λ ended. CanTell ended None None) }
{
    for client in 0..setup.plan.count() {
        let path = dump_path(rt.alloc(), setup, options, client)?;
        if takes_part_file(rt, &path)? {
            return Ok(if can_make_files(rt, &options.out)? {
                None
            } else {
                Some(client)
            });
        }
    }
    Ok(None)
}

// Whether a file can be made in the folder. One that another run has just made shows it too.
fn can_make_files<R: AllocGlobal + Files>(rt: &R, folder: &str) -> Result<bool, AllocError> {
    let path = path_in(rt.alloc(), folder, TRIAL)?;
    match File::create_new(rt, path.as_str()) {
        Ok(_) => {
            let _ = fs::remove_file(rt, path.as_str());
            Ok(true)
        }
        Err(error) if error.kind() == ErrorKind::AlreadyExists => Ok(true),
        Err(error) if error.kind() == ErrorKind::OutOfMemory => Err(AllocError),
        Err(_) => Ok(false),
    }
}
