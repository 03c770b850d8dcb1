//! What holds of the definitions that the contracts cite: each law is the contract of a function that does nothing.

ghost use Rattle.rs_choice.specs.Laws.{BehindIsNoMatter, CandidatesMayBeGot, ChoiceIgnoresOrder, ChoiceIsMember};
ghost use Rattle.rs_choice.specs.Laws.{ChoiceIsUnbeaten};
ghost use Rattle.rs_choice.specs.Laws.{ChoiceStays, FaultIsFirst, MedDecidesWithinNeighbour, NothingAskedTakesAllIn};
ghost use Rattle.rs_choice.specs.Laws.{OpenPolicySharesChoice};
ghost use Rattle.rs_choice.specs.Laws.{OthersAreNoMatter, OutdoneIsNoMatter, PeersHaveOwnAddresses, PolicyIgnoresOrder};
ghost use Rattle.rs_choice.specs.Laws.{RemovedIsNoMatter, UncountedAreNoMatter};

/// The candidates of a client for a prefix are eligible routes of other peers (RFC 4271, section 9.1.2). Import policy
/// takes them in (section 9.1.1), and export policy permits them to the client (RFC 7947, section 2.3).
pub fn candidates_may_be_got()
    ensures { CandidatesMayBeGot }
{}

/// If import policy asks nothing, it takes all routes in.
pub fn all_routes_are_taken_in_if_nothing_is_asked()
    ensures { NothingAskedTakesAllIn }
{}

/// The choice among candidates is one of them, and there is one unless there is no candidate. At each step of
/// the decision process the choice is in the set that reached the step. No member of that set beats it (RFC
/// 4271, section 9.1.2.2).
pub fn the_choice_is_unbeaten()
    ensures member { ChoiceIsMember }
    ensures unbeaten { ChoiceIsUnbeaten }
{}

/// If the addresses of the sending peers differ, the choice is the same in whatever order the candidates stand.
pub fn the_choice_ignores_order()
    ensures { ChoiceIgnoresOrder }
{}

/// MED decides only between candidates from the same neighbour AS (RFC 4271, section 9.1.2.2, c).
pub fn med_decides_within_a_neighbour_as()
    ensures { MedDecidesWithinNeighbour }
{}

/// A client to which export policy permits all routes of a set gets the choice among all of them (RFC 7947,
/// section 2.3.2.1).
pub fn an_open_policy_shares_the_choice()
    ensures { OpenPolicySharesChoice }
{}

/// The choice stays the same when other candidates go, with one exception: a candidate that goes may have
/// removed one that stays, by MED. So each remaining candidate that the step by MED removed must still be
/// removed by a remaining one (RFC 4271, section 9.1.2.2, c). So many clients can share one choice.
pub fn the_choice_stays_without_those_of_no_weight()
    ensures { ChoiceStays }
{}

/// Some routes do not matter to a client: it gets the same with them and without them (RFC 4271, section
/// 9.1.2.2). One kind is not eligible or not permitted to the client. One kind is beaten by another candidate
/// in the first three steps of the decision process, so that the step by MED never sees it. One kind ties in
/// these steps with a candidate of the same neighbour AS that goes before it by MED, identifier and address.
pub fn those_behind_are_no_matter()
    ensures removed { RemovedIsNoMatter }
    ensures behind { BehindIsNoMatter }
    ensures outdone { OutdoneIsNoMatter }
    ensures client { OthersAreNoMatter }
{}

/// If large communities don't count, refusals by name and the communities of RFC 1997 decide alone which routes a
/// client may get.
pub fn uncounted_large_communities_are_no_matter()
    ensures { UncountedAreNoMatter }
{}

/// Neither the order of a route's communities and large communities nor repeated ones matter to export policy.
pub fn policy_ignores_the_order_of_communities()
    ensures { PolicyIgnoresOrder }
{}

/// The fault of a plan is that of the first test that finds one, in the order of the tests.
pub fn a_plan_is_refused_by_its_first_fault()
    ensures { FaultIsFirst }
{}

/// Peers of a plan without a fault have addresses of their own.
pub fn peers_have_addresses_of_their_own()
    ensures { PeersHaveOwnAddresses }
{}
