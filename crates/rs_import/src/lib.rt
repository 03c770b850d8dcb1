//! Import policy: which routes of its peers an exchange takes in.
//!
//! Standards: RFC 4271, section 9.1.1 (policy may find a route ineligible); RFC 6811 (validity by RPKI).
//!
//! Reading order:
//! - What the lists have, whose entries are types of `rs_types`: `as_set` (AS numbers, small ones by `bits`),
//!   `prefix_set` (prefixes), `validity`, `vrps` and `covering` (VRPs, and the validity of a route by them). Both sets of prefixes are searched by `nesting`, and
//!   large ones by `blocks`.
//! - What is asked of a route: `path` (of its AS_PATH), `filter` (the reason why it is not taken in), and `policy`.
//! - What holds of the definitions that the contracts cite: `laws`.
//!
//! A call that allocates fails if memory is refused.
#![tactic(auto)]

mod as_set;
mod bits;
mod blocks;
mod covering;
mod filter;
mod laws;
mod nesting;
mod path;
mod policy;
mod prefix_set;
mod validity;
mod vrps;

pub use as_set::AsSet;
pub use covering::Covering;
pub use filter::Filter;
pub use laws::{
    a_policy_that_asks_nothing_takes_every_route, each_route_has_one_validity,
    order_and_repetition_are_no_matter,
};
pub use path::{first_as, origin_as, refused_as};
pub use policy::{ImportPolicy, ImportRules, PeerImport};
pub use prefix_set::PrefixSet;
pub use rs_types::{AsRange, Pattern, Vrp};
pub use validity::Validity;
pub use vrps::Vrps;
