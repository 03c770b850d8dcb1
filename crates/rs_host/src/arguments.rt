//! The words of the command line.

use rs_options::WordsFault;
use std::alloc::Global;
use std::env;
use std::env::Env;
use std::io::ErrorKind;

/// The words of the command line, which begin with the program's own name. Fails with `Refused` if one isn't UTF-8,
/// with a line that begins with `head`, and with `Memory` if memory is refused.
pub fn read_arguments<R: AllocGlobal + Env>(rt: &R, head: &str) -> Result<Vec<String>, WordsFault> {
    let alloc = rt.alloc();
    match env::args(rt) {
        Ok(words) => Ok(words.collect(alloc)?),
        Err(error) => Err(fault_of(alloc, error.kind(), head)),
    }
}

// Why the words can't be read.
fn fault_of(alloc: Global, kind: ErrorKind, head: &str) -> WordsFault {
    if kind == ErrorKind::OutOfMemory {
        return WordsFault::Memory;
    }
    match format!(in alloc; "{head}: an argument is not UTF-8\n") {
        Ok(text) => WordsFault::Refused(text),
        Err(_) => WordsFault::Memory,
    }
}
