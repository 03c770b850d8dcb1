//! How deep the messages of a file are read.

/// How deep messages are read.
#[derive(Clone, Copy, Debug, PartialEq, Eq)]
pub(crate) enum Depth {
    /// Whole.
    Whole,
    /// No more than their types.
    Outline,
}
