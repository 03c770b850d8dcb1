//! The validity of a route by validated ROA payloads (RFC 6811, section 2).

/// The validity of a route by VRPs.
#[derive(Clone, Copy, Debug, PartialEq, Eq)]
pub enum Validity {
    /// Some VRP matches the route.
    Valid,
    /// Some VRP covers the route's prefix, and none matches the route.
    Invalid,
    /// No VRP covers the route's prefix.
    NotFound,
}
