//! What the columns of lists have in common: their widths, in characters, and which are there only if it is configured.

use rs_choice::Exchange;
use rs_rows::Column;

// The column of prefixes, and that of AS numbers.
pub(crate) const PREFIX_WIDTH: usize = 20;

pub(crate) const AS_WIDTH: usize = 12;

// The columns of answers and of changes.
pub(crate) const ANSWER_WIDTH: usize = 12;

// The column of reasons by their keys.
pub(crate) const REASON_WIDTH: usize = 28;

// The column of the validity by RPKI, which CSV alone has, where an exchange has VRPs.
pub(crate) fn rpki_column(plan: &Exchange) -> Column {
    let has_vrps = plan.import().rules().vrps.is_some();
    shown_if(has_vrps, Column::of_csv("rpki"))
}

// The column, or one that no form has if it isn't shown.
pub(crate) fn shown_if(shown: bool, column: Column) -> Column {
    Column {
        in_text: shown && column.in_text,
        in_csv: shown && column.in_csv,
        ..column
    }
}
