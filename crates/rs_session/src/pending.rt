//! The changes of one record, given one after another (RFC 4271, sections 3.1, 4.3 and 8.2.2).
//!
//! Our choices: of an UPDATE first what is withdrawn, then what is announced; a multicast prefix gives no
//! change. If an UPDATE is treated as withdrawn, what it announces is withdrawn too (RFC 7606, section 2).

ghost use Rattle.std.specs.Prelude.{◌≡◌, ◌+◌, ◌<◌, ◌⊎◌, true, false, [], ◌∷◌, length, IfOk, IfSome, IsSome, OnErr};
ghost use Rattle.std.specs.Option.{option_map};
ghost use Rattle.rs_update.specs.Message.{update_content_of};
ghost use Rattle.rs_change.specs.Change.{GivesFirst, Lost, change_of, is_close};
ghost use Rattle.rs_session.specs.UpdateChanges.{announces_next, changes_of_update, changes_of_treated};

use crate::withdrawn::{keep_unicast, keep_withdrawn_only};
use rs_change::{Body, Word};
use rs_update::{Attributes, Prefix, Update};
use std::alloc::{AllocError, Global};
use std::marker::Model;
use std::sync::Arc;
use std::vec::IntoIter;

/// The changes of a record that haven't been given yet, the next one first.
#[derive(Drop)]
pub struct Pending {
    time: u32,
    // Whether the session goes down, before any other change.
    lost: bool,
    withdrawn: IntoIter<Prefix>,
    announced: IntoIter<Prefix>,
    attributes: Option<Arc<Attributes>>,
}

impl Model for Pending {
    ghost use Rattle.std.specs.Prelude.{List};
    ghost use Rattle.rs_change.specs.Change.{Change};

    ghost Value = { List Change };

    ghost use Rattle.rs_session.specs.PendingView.{pending_changes};

    ghost view = { pending_changes };
}

impl Pending {
    // No changes.
    pub(crate) fn none(alloc: Global) -> Pending
        ensures { result ≡ [] }
    {
        Pending {
            time: 0,
            lost: false,
            withdrawn: Vec::new(alloc).into_iter(),
            announced: Vec::new(alloc).into_iter(),
            attributes: None,
        }
    }

    // The loss of the session, with the time of its record.
    pub(crate) fn of_loss(alloc: Global, time: u32) -> Pending
        ensures { result ≡ record { time = time; body = Lost } ∷ [] }
    {
        Pending {
            time,
            lost: true,
            withdrawn: Vec::new(alloc).into_iter(),
            announced: Vec::new(alloc).into_iter(),
            attributes: None,
        }
    }

    // The changes of an UPDATE, with the time of its record.
    pub(crate) fn of_update(alloc: Global, time: u32, update: Update) -> Result<Pending, AllocError>
        ensures changes { IfOk result (λ changes. changes ≡ changes_of_update time (update_content_of update)) }
        ensures refused { OnErr result (IsSome update.attributes ⊎ (0 < length update.withdrawn.items)) }
    {
        let mut withdrawn = update.withdrawn;
        let mut announced = update.nlri;
        let attributes = share(alloc, update.attributes)?;
        keep_withdrawn_only(alloc, &mut withdrawn, &announced)?;
        keep_unicast(&mut announced);
        Ok(Pending {
            time,
            lost: false,
            withdrawn: withdrawn.into_iter(),
            announced: announced.into_iter(),
            attributes,
        })
    }

    // The withdrawals that an UPDATE gives whose routes are all treated as withdrawn, with the time of its record.
    pub(crate) fn of_treated(
        alloc: Global,
        time: u32,
        withdrawn: Vec<Prefix>,
        nlri: Vec<Prefix>,
    ) -> Result<Pending, AllocError>
        ensures changes { IfOk result (λ changes. changes
            ≡ changes_of_treated time (record { withdrawn = withdrawn.items; nlri = nlri.items })) }
        ensures refused { OnErr result (0 < length withdrawn.items + length nlri.items) }
    {
        let mut treated = withdrawn;
        let mut announced = nlri;
        keep_withdrawn_only(alloc, &mut treated, &announced)?;
        keep_unicast(&mut announced);
        treated.extend_from_slice(&announced)?;
        Ok(Pending {
            time,
            lost: false,
            withdrawn: treated.into_iter(),
            announced: Vec::new(alloc).into_iter(),
            attributes: None,
        })
    }

    /// Gives the next change; none once all were given. It is never a close.
    ///
    /// Only an announcement can fail, if memory is refused: then nothing is given, and the changes are as before.
    pub fn next(&mut self) -> Result<Option<Word>, AllocError>
        ensures ok { IfOk result (λ given. GivesFirst self.old given self.new) }
        ensures open { IfOk result (λ given. IfSome given (λ word. is_close (change_of word) ≡ false)) }
        ensures err { OnErr result (self.new ≡ self.old) }
        ensures refused { OnErr result (announces_next self.old ≡ true) }
    {
        if self.lost {
            self.lost = false;
            let time = self.time;
            return Ok(Some(Word {
                time,
                body: Body::Down,
            }));
        }
        if let Some(prefix) = self.withdrawn.next() {
            return Ok(Some(Word {
                time: self.time,
                body: Body::Withdraw(prefix),
            }));
        }
        let Some(attributes) = &self.attributes else {
            return Ok(None);
        };
        if self.announced.len() == 0 {
            return Ok(None);
        }
        let shared = attributes.clone()?;
        let time = self.time;
        Ok(
            self.announced.next().map(|prefix| Word {
                time,
                body: Body::Announce(prefix, shared),
            }),
        )
    }
}

// Puts the attributes if all announcements of an UPDATE can share them.
fn share(
    alloc: Global,
    attributes: Option<Attributes>,
) -> Result<Option<Arc<Attributes>>, AllocError>
    ensures value { IfOk result (λ shared. option_map (λ a. a.value) shared ≡ attributes) }
    ensures refused { OnErr result (IsSome attributes) }
{
    match attributes {
        None => Ok(None),
        Some(attributes) => Ok(Some(Arc::new(alloc, attributes)?)),
    }
}
