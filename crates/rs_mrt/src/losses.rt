//! Which losses of a session are read of a recorded file.

/// Which losses of a session are read.
#[derive(Clone, Copy, Debug, PartialEq, Eq, Drop)]
pub enum Losses {
    /// Those that the recording has: the records are read as they are.
    Recorded,
    /// Those too that other records show: before each of these records one more stands, a change of state from
    /// Established (RFC 4271, section 8.2.2).
    Inferred,
}
