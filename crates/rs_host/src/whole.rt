//! A file that is read whole.

ghost use Rattle.std.specs.Prelude.{◌<◌, IfOk, vec_len};

use crate::fault::FileFault;
use std::fs;
use std::fs::Files;

/// The number of octets that a file which is read whole must stay below: 2^50.
pub const FILE_LIMIT: usize = 1_125_899_906_842_624;

/// Reads the file at a path whole. Fails with `Unread` if it can't be opened or read, or has `FILE_LIMIT` octets or
/// more, with `Memory` if memory is refused.
pub fn read_file<R: AllocGlobal + Files>(rt: &R, path: &str) -> Result<Vec<u8>, FileFault>
    ensures limit { IfOk result (λ octets. vec_len octets < FILE_LIMIT) }
{
    match fs::read(rt, path) {
        Ok(octets) if octets.len() < FILE_LIMIT => Ok(octets),
        Ok(_) => Err(FileFault::Unread),
        Err(error) => Err(FileFault::of(&error)),
    }
}
