//! What no clause says: that calls succeed, and texts. What command lines ask for, what configurations set up, and how
//! the program ends if it fails. Rows of answers. Runs whose outlet or report fails, and runs whose dumps are written
//! one with another. Whole files and the dumps that they give stand in the folder `cases`, command lines and
//! configurations that are refused in `cases_refused`: the built program is run on both.

mod command_lines;
mod outlet_ahead;
mod over_octets;
mod over_records;
mod rows;
mod runs;
mod runs_ahead;
mod setups;
mod stops;
mod texts;

use std::test::Fail;

// A text is what is wanted. A failure in place of an assertion, which takes long to prove.
fn check(found: &str, wanted: &str, case: &str) -> Result<(), Fail> {
    if found == wanted {
        return Ok(());
    }
    Err(Fail::new(format_args!("{case}: {found}")))
}
