//! What was gathered in a shard after one more item, and the tables of all that was gathered.

ghost use Rattle.std.specs.Prelude.{List, ◌++◌, ◌∷◌, [], OnOk, IfSome};
ghost use Rattle.rs_table.specs.Content.{TablesContent};
ghost use Rattle.rs_router.specs.declared.routed.Routed.{Routed};
ghost use Rattle.rs_serve.specs.Held.{HoldReceived, Takes};

use rs_router::Routed;
use rs_table::{Gathering, Tables};
use std::alloc::AllocError;

// What is gathered after one more item, if anything was gathered before. None if memory is refused.
pub(crate) fn after_item(gathered: Option<Gathering>, item: Routed) -> Option<Gathering>
    ensures { (before : TablesContent) → (items : List Routed) → IfSome gathered (HoldReceived before items)
        → IfSome result (HoldReceived before (items ++ item ∷ [])) }
{
    let mut gathered = gathered?;
    match take(&mut gathered, item) {
        Ok(()) => Some(gathered),
        Err(AllocError) => None,
    }
}

// The tables of what was gathered, if it was. None if memory is refused.
pub(crate) fn settled(gathered: Option<Gathering>) -> Option<Tables>
    ensures { (before : TablesContent) → (items : List Routed) → IfSome gathered (HoldReceived before items)
        → IfSome result (HoldReceived before items) }
{
    match gathered?.settle() {
        Ok(tables) => Some(tables),
        Err(_) => None,
    }
}

// Takes an item: a change of a peer that isn't there, or whose session closed, is dropped. Refused if memory is.
fn take(gathered: &mut Gathering, item: Routed) -> Result<(), AllocError>
    ensures { OnOk result (Takes item gathered.old gathered.new) }
{
    let Routed::Word { peer, word } = item else {
        return Ok(());
    };
    if peer >= gathered.count() || gathered.is_closed(peer) {
        return Ok(());
    }
    gathered.receive(peer, word)
}
