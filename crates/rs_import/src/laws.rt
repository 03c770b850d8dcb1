//! What holds of the definitions that the contracts cite: each law is the contract of a function that does nothing.

ghost use Rattle.rs_import.specs.Laws.{AlikeFilterAlike, NoImportTakesAll, NoRulesTakeAll, PatternsInAnyOrder};
ghost use Rattle.rs_import.specs.Laws.{RangesInAnyOrder, UnaskedAreTaken, ValidityIsComputed, VrpsInAnyOrder};

/// Each route has one validity: it is valid, invalid or not found, as RFC 6811, section 2, says.
pub fn each_route_has_one_validity()
    ensures { ValidityIsComputed }
{}

/// Neither the order of VRPs, patterns or ranges of AS numbers nor repeated ones matter. So policies that differ in
/// nothing else filter the same routes, each for the same reason.
pub fn order_and_repetition_are_no_matter()
    ensures vrps { VrpsInAnyOrder }
    ensures patterns { PatternsInAnyOrder }
    ensures ranges { RangesInAnyOrder }
    ensures policies { AlikeFilterAlike }
{}

/// Every route is taken in by import policy that asks nothing. So is each route of a peer of which nothing is asked. A
/// peer without lists is asked nothing by rules that ask nothing.
pub fn a_policy_that_asks_nothing_takes_every_route()
    ensures none { NoImportTakesAll }
    ensures unasked { UnaskedAreTaken }
    ensures rules { NoRulesTakeAll }
{}
