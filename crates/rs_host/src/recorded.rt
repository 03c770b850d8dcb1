//! Recorded files, which are read in pieces of some size.

ghost use Rattle.std.specs.Prelude.{◌≡◌, IfOk};

use crate::fault::FileFault;
use crate::joined::Joined;
use crate::reached::Reached;
use rs_mrt::IoReader;
use rs_setup::Recording;
use std::alloc::Global;
use std::fs::{File, Files};
use std::io::{BufReader, Read};

/// How many octets of a recorded file are read at once.
pub const PIECE_LEN: usize = 65_536;

/// A recorded file that is read in pieces of `PIECE_LEN` octets.
pub type Recorded<F> = IoReader<BufReader<F>>;

/// Opens the recorded file at a path, and reads nothing yet. Fails with `Unread` if it can't be opened, with
/// `Memory` if memory is refused.
pub fn open_file<R: AllocGlobal + Files>(rt: &R, path: &str) -> Result<Recorded<R::File>, FileFault>
    ensures no_failure { IfOk result (λ file. file.failures ≡ 0) }
{
    in_pieces(rt.alloc(), open(rt, path)?)
}

/// Opens a recording, and reads nothing yet. How far the reading comes is noted, if there is a place for that. Fails with
/// `Unread` if the first file can't be opened, with `Memory` if memory is refused.
pub fn open_recording<'a, R: AllocGlobal + Files>(
    rt: &'a R,
    recording: Recording<'a>,
    reached: Option<&'a Reached>,
) -> Result<Recorded<Joined<'a, R>>, FileFault>
    ensures no_failure { IfOk result (λ file. file.failures ≡ 0) }
{
    in_pieces(rt.alloc(), Joined::open(rt, recording, reached)?)
}

/// Opens the file at a path, and reads nothing yet. Fails with `Unread` if it can't be opened, with `Memory` if
/// memory is refused.
pub fn open<R: Files>(rt: &R, path: &str) -> Result<R::File, FileFault> {
    match File::open(rt, path) {
        Ok(file) => Ok(file),
        Err(error) => Err(FileFault::of(&error)),
    }
}

/// What a reader gives, read in pieces of `PIECE_LEN` octets, of which none is read yet. Fails with `Memory` if
/// memory for a piece is refused.
pub fn in_pieces<F: Read + Drop>(alloc: Global, inner: F) -> Result<Recorded<F>, FileFault>
    ensures no_failure { IfOk result (λ file. file.failures ≡ 0) }
{
    match BufReader::with_capacity(alloc, PIECE_LEN, inner) {
        Ok(reader) => Ok(IoReader::new(reader)),
        Err(_) => Err(FileFault::Memory),
    }
}
