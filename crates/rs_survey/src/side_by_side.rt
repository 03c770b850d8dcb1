//! The rows of two clients side by side.

ghost use Rattle.std.specs.Prelude.{◌≡◌, None, MatchOption};
ghost use Rattle.rs_survey.specs.SideBySide.{GetNoneBehind, IsNextPrefix};

use crate::choices::Choices;
use crate::rows_to_come::RowsToCome;
use rs_table::Tables;
use rs_update::Prefix;
use std::cmp::Ordering;
use std::marker::Model;

// The prefixes on which one of two clients gets a route: an iterator over them, in ascending order, with both routes.
#[derive(Drop)]
pub(crate) struct SideBySide<'a> {
    before: RowsToCome<'a>,
    after: RowsToCome<'a>,
}

impl<'a> Model for SideBySide<'a> {
    ghost use Rattle.rs_survey.specs.Differences.{ToCompare};
    ghost use Rattle.rs_survey.specs.SideBySide.{AreLevel, side_view, to_compare_code};

    ghost Value = { ToCompare };

    ghost coded = { to_compare_code };

    ghost view = { side_view };

    ghost invariant = { AreLevel };
}

impl<'a> SideBySide<'a> {
    // All prefixes on which one of two clients gets a route. None stands for a client that is absent from the tables.
    pub(crate) fn new(
        before: &'a Tables,
        client_before: Option<usize>,
        after: &'a Tables,
        client_after: Option<usize>,
    ) -> SideBySide<'a>
        ensures before { result.before ≡ record { tables = before.now; client = client_before } }
        ensures after { result.after ≡ record { tables = after.now; client = client_after } }
        ensures last { result.last ≡ None }
    {
        SideBySide {
            before: RowsToCome::new(before, client_before),
            after: RowsToCome::new(after, client_after),
        }
    }

    // The tables of both clients.
    pub(crate) fn tables(&self) -> (&'a Tables, &'a Tables)
        ensures before { result.0.now ≡ self.now.before.tables }
        ensures after { result.1.now ≡ self.now.after.tables }
    {
        (self.before.tables(), self.after.tables())
    }

    // The next prefix.
    fn next_prefix(&self) -> Option<Prefix>
        ensures { MatchOption result (GetNoneBehind self.now) (IsNextPrefix self.now) }
    {
        match (self.before.first_prefix(), self.after.first_prefix()) {
            (Some(one), Some(other)) => match one.cmp(&other) {
                Ordering::Greater => Some(other),
                _ => Some(one),
            },
            (Some(one), None) => Some(one),
            (None, other) => other,
        }
    }
}

impl<'a> Iterator for SideBySide<'a> {
    ghost use Rattle.std.specs.Iterator.{at_most};
    ghost use Rattle.rs_survey.specs.SideBySide.{GivesBoth};

    type Item = Choices<'a>;

    ghost next_gives = { GivesBoth };

    ghost remaining = { λ both. at_most both.left };

    fn next(&mut self) -> Option<Choices<'a>> {
        let prefix = self.next_prefix()?;
        Some(Choices {
            prefix,
            before: self.before.take(prefix),
            after: self.after.take(prefix),
        })
    }
}
