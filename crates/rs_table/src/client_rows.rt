//! The rows of a client's table, one after another.

use crate::cell::Cell;
use crate::route::Row;
use rs_types::Prefix;
use std::collections::btree_map::Iter;
use std::marker::Model;

/// The rows of a client's table: an iterator over them, in ascending order of prefix, that takes no memory.
#[derive(Drop)]
pub struct ClientRows<'a> {
    pub(crate) client: usize,
    // The cells of the prefixes to come.
    pub(crate) cells: Iter<'a, Prefix, Cell>,
}

impl<'a> Model for ClientRows<'a> {
    ghost use Rattle.std.specs.Prelude.{List};
    ghost use Rattle.rs_table.specs.Codes.{rows_code};
    ghost use Rattle.rs_table.specs.Table.{TableRow};

    ghost Value = { List TableRow };

    ghost coded = { rows_code };

    ghost use Rattle.rs_table.specs.ClientRowsView.{client_rows_view};

    ghost view = { client_rows_view };
}

impl<'a> Iterator for ClientRows<'a> {
    ghost use Rattle.std.specs.Iterator.{YieldsFirstBy, item_count};
    ghost use Rattle.rs_table.specs.RouteView.{row_of};

    type Item = Row<'a>;

    ghost next_gives = { YieldsFirstBy row_of (λ rows. rows) };

    ghost remaining = { item_count (λ rows. rows) };

    fn next(&mut self) -> Option<Row<'a>> {
        while let Some(entry) = self.cells.next() {
            if let Some(route) = entry.1.best(self.client) {
                return Some(Row {
                    prefix: *entry.0,
                    route,
                });
            }
        }
        None
    }

    // No more rows come than cells.
    fn size_hint(&self) -> (usize, Option<usize>) {
        (0, Some(self.cells.len()))
    }
}
