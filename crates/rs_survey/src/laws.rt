//! Laws of this crate's definitions. Each function does nothing: its contract is the law.

ghost use Rattle.rs_survey.specs.Laws.{CountedStepIsExplained};

/// An explanation says that a client lost a route, and names the step that removed it. A summary counts that step.
pub fn the_step_that_is_counted_is_explained()
    ensures { CountedStepIsExplained }
{}
