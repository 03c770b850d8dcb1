//! How far a peer has come.

// How many of a peer's changes were sent into its ring, and how many of these were received.
#[derive(Clone, Copy)]
pub(crate) struct Counts {
    pub(crate) sent: u64,
    pub(crate) received: u64,
}
