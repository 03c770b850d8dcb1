//! Ranges of AS numbers.

/// AS numbers from `first` to `last`, both included.
#[derive(Clone, Copy, Debug, PartialEq, Eq)]
pub struct AsRange {
    /// The least AS number.
    pub first: u32,
    /// The greatest AS number.
    pub last: u32,
}
