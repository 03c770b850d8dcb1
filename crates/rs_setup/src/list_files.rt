//! Where the lists of a configuration are read from.

ghost use Rattle.std.specs.Prelude.{ℕ, List, IfOk, IfSome};

use std::alloc::{AllocError, Global};

/// The files of a configuration's lists.
///
/// Our choice: they may tell which octets they have, as files in memory do, or tell nothing, as those on a disk do.
pub trait ListFiles {
    // Which octets the file at a path has.
    ghost holds: { Self → List ℕ → List ℕ → Type 0 };

    /// The octets of the file at a path; none if it can't be read.
    fn octets(&self, alloc: Global, path: &str) -> Result<Option<Vec<u8>>, AllocError>
        ensures { IfOk result (λ found. IfSome found (λ octets. holds self.now path.now octets.items)) };
}
