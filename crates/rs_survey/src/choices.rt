//! The routes that two clients get on a prefix.

use rs_table::Route;
use rs_update::Prefix;

/// The routes that two clients get on a prefix.
#[derive(Clone, Copy)]
pub struct Choices<'a> {
    /// The prefix.
    pub prefix: Prefix,
    /// The route that the one gets, if any.
    pub before: Option<Route<'a>>,
    /// The route that the other gets, if any.
    pub after: Option<Route<'a>>,
}
