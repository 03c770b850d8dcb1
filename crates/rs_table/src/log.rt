//! The changes on the prefixes of one first octet, in the order in which they came (our choice).

ghost use Rattle.std.specs.Prelude.{◌≡◌, ◌/◌, ◌^◌, ◌<◌, ℕ, All, OnOk, if◌then◌else◌};
ghost use Rattle.std.specs.List.Sorted.{IsStrictlySortedBy};
ghost use Rattle.rs_types.specs.IpPrefix.{IpPrefix};
ghost use Rattle.rs_table.specs.Gathered.{IsEntryOf, counts, entry_route, first_octet, left_in};
ghost use Rattle.rs_table.specs.Gathered.{logged_cmp, of_others, IsAnnounced};

use crate::logged::LoggedChange;
use rs_types::Prefix;
use std::alloc::{AllocError, Global};

// The first octet of a prefix.
pub(crate) fn first_octet(prefix: Prefix) -> usize
    ensures value { result ≡ first_octet prefix }
    ensures bound { result < 256 }
{
    (prefix.address() >> 24) as usize
}

// The changes on the prefixes of one first octet.
#[derive(Drop)]
pub(crate) struct Log {
    pub(crate) entries: Vec<LoggedChange>,
    // So many entries are compacted before another one comes.
    pub(crate) limit: usize,
}

impl Log {
    // Takes one more change. If memory is refused, only this change is lost.
    pub(crate) fn push(&mut self, entry: LoggedChange, losses: &[u32]) -> Result<(), AllocError>
        ensures left { OnOk result ((peer : ℕ) → (prefix : IpPrefix)
            → left_in losses.now self.new.entries.items peer prefix
            ≡ (if counts losses.now peer prefix entry then entry_route entry
            else left_in losses.now self.old.entries.items peer prefix)) }
        ensures entries { (octet : ℕ) → IsEntryOf losses.now octet entry
            → All (IsEntryOf losses.now octet) self.old.entries.items
            → All (IsEntryOf losses.now octet) self.new.entries.items }
    {
        self.make_room(losses)?;
        self.entries.push(entry)?;
        Ok(())
    }

    // Removes the changes of a peer.
    pub(crate) fn forget(&mut self, peer: usize)
        ensures { self.new.entries.items ≡ of_others peer self.old.entries.items }
    {
        self.entries
            .retain(|entry| usize::from(entry.peer()) != peer);
    }

    // Compacts the list if it has as many entries as its limit. Its limit is then twice what is left.
    fn make_room(&mut self, losses: &[u32]) -> Result<(), AllocError>
        ensures left { OnOk result ((peer : ℕ) → (prefix : IpPrefix)
            → left_in losses.now self.new.entries.items peer prefix
            ≡ left_in losses.now self.old.entries.items peer prefix) }
        ensures entries { (octet : ℕ) → All (IsEntryOf losses.now octet) self.old.entries.items
            → All (IsEntryOf losses.now octet) self.new.entries.items }
    {
        if self.entries.len() >= self.limit {
            compact(&mut self.entries, losses)?;
            self.limit = self.limit.max(self.entries.len().saturating_mul(2));
        }
        Ok(())
    }
}

// Leaves in a list the last entry of each peer and prefix. An entry is dropped if it is a withdrawal, or if its peer
// has lost a session since. The list is then in ascending order of prefix, and within a prefix of peer.
pub(crate) fn compact(entries: &mut Vec<LoggedChange>, losses: &[u32]) -> Result<(), AllocError>
    ensures left { OnOk result ((peer : ℕ) → (prefix : IpPrefix)
        → left_in losses.now entries.new.items peer prefix ≡ left_in losses.now entries.old.items peer prefix) }
    ensures entries { (octet : ℕ) → All (IsEntryOf losses.now octet) entries.old.items
        → All (IsEntryOf losses.now octet) entries.new.items }
    ensures ascending { OnOk result (IsStrictlySortedBy logged_cmp entries.new.items) }
    ensures announced { OnOk result (All (IsAnnounced losses.now) entries.new.items) }
{
    entries.retain(|entry| entry.is_current(losses));
    // Later entries come first, so the first of equal ones is the last that came.
    entries.reverse();
    entries.sort_by(|one, other| one.compare(other))?;
    entries.dedup_by_key(|entry| entry.key());
    entries.retain(|entry| entry.announces());
    Ok(())
}
