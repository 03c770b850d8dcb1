//! A writer that counts what it is handed.

ghost use Rattle.std.specs.Prelude.{None};

use rs_mrt::{Failed, Write};

/// How many writes there were, and how many octets they had. It takes all of them and never fails.
#[derive(Drop)]
pub struct Counter {
    /// How many writes there were.
    pub writes: u64,
    /// How many octets they had.
    pub octets: u64,
}

impl Write for Counter {
    ghost taken = { λ _. None };

    ghost failures = { λ _. 0 };

    fn write(&mut self, piece: &[u8]) -> Result<usize, Failed> {
        self.writes = self.writes.wrapping_add(1);
        self.octets = self.octets.wrapping_add(piece.len() as u64);
        Ok(piece.len())
    }
}
