//! Routes as a table shows them.

use rs_types::{Attributes, Prefix};

/// A route of a peer.
#[derive(Clone, Copy)]
pub struct Route<'a> {
    /// The number of the peer that sent it.
    pub peer: usize,
    /// When it was announced: the time of its change, in seconds since 1970.
    pub time: u32,
    /// Its path attributes.
    pub attributes: &'a Attributes,
}

/// A row of a client's table.
#[derive(Clone, Copy)]
pub struct Row<'a> {
    /// The prefix.
    pub prefix: Prefix,
    /// The route that the client gets on it.
    pub route: Route<'a>,
}
