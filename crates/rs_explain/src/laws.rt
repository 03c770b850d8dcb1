//! Laws of this crate's definitions. Each function does nothing: its contract is the law.

ghost use Rattle.rs_explain.specs.Laws.{AnnouncedIsLeft, EndedIsNotLeft, ExplanationAgrees, FilterHasValue};
ghost use Rattle.rs_explain.specs.Laws.{NeverAnnouncedIsNotLeft, RivalIsCandidate};

/// An explanation agrees with what `Tables::why` answers.
pub fn an_explanation_agrees_with_why()
    ensures { ExplanationAgrees }
{}

/// Each route that import policy doesn't take in is explained by the filter that `Exchange::filter` answers, with a
/// value.
pub fn a_filtered_route_has_its_filter_and_a_value()
    ensures { FilterHasValue }
{}

/// An explanation names a peer as the rival of a route. That peer has a route on the prefix, which is a candidate of
/// the client too. The rival's route beats the other one at the step that the explanation names.
pub fn the_rival_is_a_candidate()
    ensures { RivalIsCandidate }
{}

/// The last state of a prefix agrees with the routes that the changes leave. An announced route is left, unless
/// the session closed by a fault. A route that was never announced, or was taken away since, is not left.
pub fn what_is_said_last_agrees_with_the_routes_left()
    ensures announced { AnnouncedIsLeft }
    ensures never { NeverAnnouncedIsNotLeft }
    ensures ended { EndedIsNotLeft }
{}
