//! What is done with faults in the path attributes of an UPDATE: as RFC 4271 says, or as RFC 7606 revises it.

/// The standard by which faults in the path attributes of an UPDATE are handled.
#[derive(Clone, Copy, Debug, PartialEq, Eq)]
pub enum Errors {
    /// RFC 4271, section 6.3: the first fault closes the session.
    Rfc4271,
    /// RFC 7606, sections 2, 3 and 7: these faults close the session.
    /// - An unrecognized well-known attribute.
    /// - A repeated MP_REACH_NLRI or MP_UNREACH_NLRI.
    /// - Octets left over that are no attribute.
    /// - Lengths that run past the message.
    /// - Fields that aren't prefixes.
    ///
    /// At any other fault in the path attributes one of them is left out, or the routes are withdrawn.
    Rfc7606,
}
