//! Why a client of a route server has a peer's route on a prefix, or not, with the reason: the condition that
//! fails, the rule that refuses, or the step of the decision process and the route that beats it there.
//!
//! Standards: RFC 4271, section 9.1 (eligible routes, decision process); RFC 7947, section 2.3 (export policy).
//!
//! Reading order: `condition`, `filtered_by` (the condition of import policy), `refusal`, `contender` (the candidates
//! of a client), `removal` (the step that removes one), `explanation`, `missing_reason` (its reason alone). Then
//! `last_said` (the last state of a prefix by a list of changes) and `laws`.
//!
//! A call that allocates fails if memory is refused.
#![tactic(auto)]

mod condition;
mod contender;
mod explanation;
mod filtered_by;
mod last_said;
mod laws;
mod missing_reason;
mod refusal;
mod removal;

pub use condition::{Condition, ConditionKind, failed_condition};
pub use contender::Contender;
pub use explanation::{Candidates, Explanation, explain};
pub use filtered_by::FilteredBy;
pub use last_said::{EndedBy, Ending, LastSaid};
pub use laws::{
    a_filtered_route_has_its_filter_and_a_value, an_explanation_agrees_with_why,
    the_rival_is_a_candidate, what_is_said_last_agrees_with_the_routes_left,
};
pub use missing_reason::MissingReason;
pub use refusal::Refusal;
pub use removal::{Removal, STEPS, beats_by_med};
