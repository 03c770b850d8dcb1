//! What a record says of a BGP session (RFC 6396, sections 4.4 and 4.5).

/// What a record says of a session between a recorder and one of its peers.
#[derive(Clone, Copy, Debug, PartialEq, Eq, Drop)]
pub enum Entry<'a> {
    /// The peer has sent a message (BGP4MP_MESSAGE_AS4; RFC 6396, section 4.4.3).
    Message {
        /// The peer's AS number.
        peer_as: u32,
        /// The peer's IPv4 address, in host order.
        peer: u32,
        /// The octets of the BGP message, none included.
        message: &'a [u8],
    },
    /// The session has gone from one state to another (BGP4MP_STATE_CHANGE_AS4; RFC 6396, section 4.4.4).
    State {
        /// The peer's AS number.
        peer_as: u32,
        /// The peer's IPv4 address, in host order.
        peer: u32,
        /// The state before, as 6 for Established.
        old: u16,
        /// The state after.
        new: u16,
    },
    /// Nothing that is read here: another Type, Subtype or Address Family.
    Other,
}
