//! A writer over memory that says for which dump it was given.

ghost use Rattle.std.specs.Prelude.{Some, string_bytes};

use rs_mrt::{Failed, MemoryWriter, Write};

/// A writer over memory, and the name of the dump for which it was given.
#[derive(Debug, Drop)]
pub struct NamedWriter {
    /// The name of the dump.
    pub name: String,
    /// What takes its octets.
    pub inner: MemoryWriter,
}

impl Write for NamedWriter {
    ghost taken = { λ writer. Some writer.inner.taken };

    ghost label = { λ writer. Some (string_bytes writer.name) };

    ghost failures = { λ writer. writer.inner.failures };

    fn write(&mut self, piece: &[u8]) -> Result<usize, Failed> {
        self.inner.write(piece)
    }
}
