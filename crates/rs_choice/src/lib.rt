//! A route server's decisions: its plan, which routes are eligible, to whom they are exported, and which one
//! a client gets.
//!
//! Standards: RFC 4271, section 9.1 (eligible routes, decision process); RFC 7947, section 2.3 (a decision
//! for each client, after that client's export policy). Communities are those of RFC 1997, and large communities those
//! of RFC 8092.
//!
//! Reading order:
//! - Plans: `plan` (the server and its peers), `fault` and `checks` (which plans are refused), `exchange` (a plan
//!   that is not).
//! - One decision: `eligibility`, `acceptance`, `large_community`, `policy` and `candidate` (what takes part in it), and `step`.
//!   Then `entrants` and `neighbour_groups` (who stands for each neighbour AS), and `decision` (the pass that decides).
//! - The decisions of all clients: `candidacy`, `held_route`, `held_order`, `places` and `clients`.
//! - The same decision for lists of any length: `scan`.
//! - What holds of the definitions that the contracts cite: `laws`.
//!
//! The tables decide by `choose_for_all`, and a summary of `rs_survey` by `choose_by_groups`; tests alone call `choose`.
#![tactic(auto)]

mod acceptance;
mod candidacy;
mod candidate;
mod checks;
mod clients;
mod decision;
mod eligibility;
mod entrants;
mod exchange;
mod fault;
mod held_order;
mod held_route;
mod large_community;
mod laws;
mod neighbour_groups;
mod places;
mod plan;
mod policy;
mod scan;
mod step;

pub use candidacy::Candidacy;
pub use candidate::{Candidate, Standing};
pub use exchange::Exchange;
pub use fault::PlanFault;
pub use held_order::{is_at, place_of_peer};
pub use held_route::HeldRoute;
pub use large_community::{LARGE_COMMUNITY, LARGE_LEN, large_communities, large_communities_in};
pub use laws::{
    a_plan_is_refused_by_its_first_fault, all_routes_are_taken_in_if_nothing_is_asked,
    an_open_policy_shares_the_choice, med_decides_within_a_neighbour_as,
    peers_have_addresses_of_their_own, policy_ignores_the_order_of_communities,
    the_choice_ignores_order, the_choice_is_unbeaten, the_choice_stays_without_those_of_no_weight,
    those_behind_are_no_matter, uncounted_large_communities_are_no_matter,
};
pub use plan::{Local, MAX_NAME_LEN, MAX_PEERS, PeerSpec};
pub use step::Step;
