//! Numbers as pictures show them.

use std::fmt;

// How many groups of three digits a number of 64 bits has at most.
const GROUPS: usize = 7;

/// A number with a comma before each three of its digits, as 12,345.
#[derive(Clone, Copy, Debug, PartialEq, Eq, Drop)]
pub struct Grouped(pub u64);

impl fmt::Display for Grouped {
    fn fmt<W: fmt::Write>(&self, f: &mut fmt::Formatter<W>) -> fmt::Result {
        let mut is_begun = false;
        for group in groups_of(self.0) {
            if is_begun {
                write!(f, ",{group:03}")?;
            } else if group > 0 {
                write!(f, "{group}")?;
                is_begun = true;
            }
        }
        if is_begun { Ok(()) } else { f.write_str("0") }
    }
}

// The groups of three digits of a number, the highest ones first.
fn groups_of(number: u64) -> [u64; GROUPS] {
    let mut groups = [0; GROUPS];
    let mut rest = number;
    for group in groups.iter_mut().rev() {
        *group = rest % 1000;
        rest /= 1000;
    }
    groups
}
