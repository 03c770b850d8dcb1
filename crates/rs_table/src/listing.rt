//! A client's whole table (RFC 4271, section 3.2; RFC 7947, section 2.3.2.1): a row for each prefix on which
//! it gets a route.

ghost use Rattle.std.specs.Prelude.{◌<◌, All, IfOk, length, map};
ghost use Rattle.rs_table.specs.RouteView.{row_of};
ghost use Rattle.rs_table.specs.Table.{IsTable};

use crate::client_rows::ClientRows;
use crate::route::Row;
use crate::tables::Tables;
use std::alloc::AllocError;

impl Tables {
    /// The rows of the table of the peer of number `client`, one after another: one for each prefix on which
    /// it gets a route, with what `best` says of it, in ascending order of prefix, each once. No row if
    /// there is no such peer. It takes no memory.
    pub fn iter_rows(&self, client: usize) -> ClientRows<'_>
        ensures table { IsTable self.now client result }
        ensures known { All (λ row. row.route.peer < length self.now.plan.peers) result }
    {
        // For the prover: there are as many RIBs as peers, and at most 256.
        let _peers = self.count();
        let cells = self.cells();
        ClientRows {
            client,
            cells: cells.iter(),
        }
    }

    /// The rows that `iter_rows` gives, in a list.
    pub fn rows<'a>(&'a self, client: usize) -> Result<Vec<Row<'a>>, AllocError>
        ensures table { IfOk result (λ rows. IsTable self.now client (map row_of rows.items)) }
        ensures known { IfOk result (λ rows. All (λ row. row.route.peer < length self.now.plan.peers)
            (map row_of rows.items)) }
    {
        let mut rows = Vec::new(self.allocator());
        for row in self.iter_rows(client) {
            let Ok(()) = rows.push(row) else {
                return Err(AllocError);
            };
        }
        Ok(rows)
    }
}
