//! The routes that one peer's changes leave, before tables of all peers hold them (RFC 4271, section 3.2).

ghost use Rattle.std.specs.Prelude.{◌≡◌, ◌≢◌, ◌<◌, ◌++◌, ◌∷◌, [], ℕ, OnErr, OnOk, filter, length, not, if◌then◌else◌};
ghost use Rattle.std.specs.FinMap.{empty};
ghost use Rattle.rs_session.specs.Change.{change_of};
ghost use Rattle.rs_table.specs.Content.{nothing_held, rib_of};
ghost use Rattle.rs_table.specs.Left.{after, is_on};
ghost use Rattle.rs_table.specs.Counts.{announces};
ghost use Rattle.rs_glass.specs.RoutesLeftView.{ends_route};

use rs_session::{Body, Reason, Word};
use rs_table::{Tables, left_after_one_more};
use rs_update::Prefix;
use std::alloc::{AllocError, Global};
use std::marker::Model;

/// The routes that one peer's changes leave. They are kept as the changes that announced them, at most one on
/// a prefix.
#[derive(Drop)]
pub(crate) struct RoutesLeft {
    announcements: Vec<Word>,
}

impl Model for RoutesLeft {
    ghost use Rattle.rs_table.specs.Left.{Routes};
    ghost use Rattle.rs_table.specs.Codes.{routes_code};

    ghost Value = { Routes };

    ghost coded = { routes_code };

    ghost use Rattle.rs_glass.specs.RoutesLeftView.{routes_left_view, AreOpen};

    ghost view = { routes_left_view };

    ghost invariant = { AreOpen };
}

impl RoutesLeft {
    // Those of a peer without changes: none.
    pub(crate) fn none(alloc: Global) -> RoutesLeft
        ensures { result ≡ empty }
    {
        RoutesLeft {
            announcements: Vec::new(alloc),
        }
    }

    // Takes one change more. Refused memory, the routes that it ends are gone.
    pub(crate) fn take(&mut self, word: Word) -> Result<(), AllocError>
        ensures { OnOk result (self.new ≡ after self.old (change_of word)) }
    {
        left_after_one_more();
        drop_ended(&mut self.announcements, &word);
        keep(&mut self.announcements, word)
    }

    // Gives the routes to a peer of tables that has none yet. If memory is refused, the peer has some of them.
    pub(crate) fn put_into(self, tables: &mut Tables, peer: usize) -> Result<(), AllocError>
        requires known { peer < length tables.old.plan.peers }
        requires untouched { rib_of tables.old peer ≡ nothing_held }
        ensures routes { OnOk result ((rib_of tables.new peer).routes ≡ self) }
        ensures others { OnOk result ((other : ℕ) → other ≢ peer → rib_of tables.new other ≡ rib_of tables.old other) }
        ensures plan { OnOk result (tables.new.plan ≡ tables.old.plan) }
    {
        for word in self.announcements {
            tables.apply(peer, word)?;
        }
        Ok(())
    }
}

// Keeps a change if it announces a route.
fn keep(announcements: &mut Vec<Word>, word: Word) -> Result<(), AllocError>
    ensures ok { OnOk result (announcements.new.items
        ≡ announcements.old.items ++ (if announces (change_of word) then word ∷ [] else [])) }
    ensures err { OnErr result (announcements.new.items ≡ announcements.old.items) }
{
    if !announces(&word) {
        return Ok(());
    }
    announcements.push(word)?;
    Ok(())
}

// Whether a change announces a route.
fn announces(word: &Word) -> bool
    ensures { result ≡ announces (change_of word.now) }
{
    matches!(word.body, Body::Announce(..))
}

// Drops the announcements whose routes a change ends.
fn drop_ended(announcements: &mut Vec<Word>, word: &Word)
    ensures { announcements.new.items
        ≡ filter (λ kept. not (ends_route (change_of word.now) (change_of kept))) announcements.old.items }
{
    announcements.retain(|kept| !ends_route(word, kept));
}

// Whether a change ends the route of an earlier announcement: it announces or withdraws its prefix, or is a
// loss or a close of the session, unless that is at the end of the file.
fn ends_route(word: &Word, kept: &Word) -> bool
    ensures { result ≡ ends_route (change_of word.now) (change_of kept.now) }
{
    match &word.body {
        Body::Announce(prefix, _) => is_on(kept, *prefix),
        Body::Withdraw(prefix) => is_on(kept, *prefix),
        Body::Down => true,
        Body::Close(reason) => *reason != Reason::EndOfFile,
    }
}

// Whether a change announces or withdraws a prefix.
fn is_on(word: &Word, prefix: Prefix) -> bool
    ensures { result ≡ is_on prefix (change_of word.now) }
{
    match &word.body {
        Body::Announce(changed, _) => *changed == prefix,
        Body::Withdraw(changed) => *changed == prefix,
        Body::Down => false,
        Body::Close(_) => false,
    }
}
