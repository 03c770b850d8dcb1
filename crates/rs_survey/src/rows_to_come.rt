//! The rows of a client's table that are to come.

ghost use Rattle.std.specs.Prelude.{◌≡◌, ◌<◌, ◌≤◌, None, OnSome, length};
ghost use Rattle.std.specs.Iterator.{YieldsFirstBy};
ghost use Rattle.std.specs.Option.{option_map};
ghost use Rattle.rs_table.specs.RouteView.{row_of, sent_route_of};
ghost use Rattle.rs_survey.specs.Differences.{IsBehind, route_of};
ghost use Rattle.rs_survey.specs.RowsToCome.{GetsNoneBetween, IsFirstPrefix, IsTaken, rows_in};

use rs_table::{ClientRows, Route, Row, Tables};
use rs_update::Prefix;
use std::marker::Model;

// The rows of a client's table behind a prefix.
#[derive(Drop)]
pub(crate) struct RowsToCome<'a> {
    tables: &'a Tables,
    // None if the client is absent from the tables.
    client: Option<usize>,
    // The first of them, and those behind it. No rows if the client is absent.
    first: Option<Row<'a>>,
    rest: Option<ClientRows<'a>>,
    // The prefix behind which they are; none if they are all rows.
    last: Option<Prefix>,
}

impl<'a> Model for RowsToCome<'a> {
    ghost use Rattle.rs_survey.specs.RowsToCome.{Ahead, AreAhead, ahead_code, ahead_view};

    ghost Value = { Ahead };

    ghost coded = { ahead_code };

    ghost view = { ahead_view };

    ghost invariant = { AreAhead };
}

impl<'a> RowsToCome<'a> {
    // All rows of a client's table; none if it is absent from the tables.
    pub(crate) fn new(tables: &'a Tables, client: Option<usize>) -> RowsToCome<'a>
        ensures whose { result.whose ≡ record { tables = tables.now; client = client } }
        ensures last { result.last ≡ None }
    {
        let mut rest = match client {
            Some(number) => Some(tables.iter_rows(number)),
            None => None,
        };
        let first = next_row(&mut rest);
        RowsToCome {
            tables,
            client,
            first,
            rest,
            last: None,
        }
    }

    // The tables.
    pub(crate) fn tables(&self) -> &'a Tables
        ensures { result.now ≡ self.now.whose.tables }
    {
        self.tables
    }

    // The prefix of the first row.
    pub(crate) fn first_prefix(&self) -> Option<Prefix>
        ensures { IsFirstPrefix self.now result }
    {
        match &self.first {
            Some(row) => Some(row.prefix),
            None => None,
        }
    }

    // The route that the client gets on a prefix that comes before all others with a row. Rows behind it are to come.
    pub(crate) fn take(&mut self, prefix: Prefix) -> Option<Route<'a>>
        requires behind { IsBehind self.old.last prefix }
        requires first { GetsNoneBetween self.old.whose self.old.last prefix }
        ensures route { option_map sent_route_of result ≡ route_of self.old.whose prefix }
        ensures taken { IsTaken self.old prefix self.new }
        ensures left { length self.new.rows ≤ length self.old.rows }
        ensures fewer { OnSome result (length self.new.rows < length self.old.rows) }
    {
        self.last = Some(prefix);
        let Some(row) = self.first.take() else {
            return None;
        };
        if row.prefix == prefix {
            self.first = next_row(&mut self.rest);
            Some(row.route)
        } else {
            self.first = Some(row);
            None
        }
    }
}

// The next of a client's rows, if it has a table.
fn next_row<'a>(rows: &mut Option<ClientRows<'a>>) -> Option<Row<'a>>
    ensures { YieldsFirstBy row_of (λ rows. rows) (rows_in rows.old) result (rows_in rows.new) }
{
    match rows {
        Some(rows) => rows.next(),
        None => None,
    }
}
