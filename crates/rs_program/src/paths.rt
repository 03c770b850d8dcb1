//! The path of a dump in the folder that takes the dumps. Nothing here is of a standard: all of it is our choice.

ghost use Rattle.std.specs.Prelude.{◌≡◌, IfOk, string_bytes};
ghost use Rattle.rs_program.specs.Paths.{path_in as the_path};

use std::alloc::{AllocError, Global};

/// The path of a file in a folder: a folder that ends in `/` gets no second one.
pub fn path_in(alloc: Global, folder: &str, name: &str) -> Result<String, AllocError>
    ensures { IfOk result (λ path. string_bytes path ≡ the_path folder.now name.now) }
{
    if folder.as_bytes().ends_with(b"/") {
        format!(in alloc; "{folder}{name}")
    } else {
        format!(in alloc; "{folder}/{name}")
    }
}
