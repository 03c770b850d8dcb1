//! Where a test can watch a run, or make it wait, change by change.

/// What the threads of a run pass: each worker before it sends a change, and each shard before it handles an item.
///
/// A gate may make its caller wait for a while, so that a test can bring about an order of events. No call changes
/// what is given, what is sent or which routes are left.
pub trait Gate: Sync {
    /// A worker of this peer is about to send its next change, which has this number, from 0. It is called
    /// once for each change, before the first try to send it.
    fn pass(&self, peer: usize, number: u64);

    /// The worker of this shard is about to handle an item that it received, which has this number, from 0.
    /// It is called once for each item. Unless a gate says otherwise, its caller never waits.
    fn shard_pass(&self, _shard: usize, _number: u64) {}
}

/// The gate at which no caller waits.
#[derive(Clone, Copy, Debug, PartialEq, Eq, Drop)]
pub struct Open;

impl Gate for Open {
    fn pass(&self, _peer: usize, _number: u64) {}
}
