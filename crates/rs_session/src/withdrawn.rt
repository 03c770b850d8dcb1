//! Which prefixes an UPDATE withdraws (RFC 4271, section 4.3).
//!
//! Our choices: a prefix that the same UPDATE announces isn't withdrawn, nor is a multicast prefix.

ghost use Rattle.std.specs.Prelude.{◌≡◌, ◌<◌, length, IsSorted, OnErr, OnOk};
ghost use Rattle.rs_update.specs.PrefixOrder.{prefix_cmp};
ghost use Rattle.rs_session.specs.UpdateChanges.{is_listed, unicast, withdrawn_only};

use rs_update::Prefix;
use std::alloc::{AllocError, Global};

// Up to so many prefixes are compared one by one.
const FEW: usize = 8;

// Leaves of the withdrawn prefixes those that `nlri` doesn't list. It takes time n log n for n prefixes in all.
pub(crate) fn keep_withdrawn_only(
    alloc: Global,
    withdrawn: &mut Vec<Prefix>,
    nlri: &[Prefix],
) -> Result<(), AllocError>
    ensures kept { OnOk result (withdrawn.new.items ≡ withdrawn_only withdrawn.old.items nlri.now) }
    ensures refused { OnErr result (0 < length withdrawn.old.items) }
{
    if withdrawn.len().min(nlri.len()) <= FEW {
        keep_unlisted(withdrawn, nlri);
        return Ok(());
    }
    let mut sorted = Vec::from_slice(alloc, nlri)?;
    sorted.sort_unstable();
    keep_unlisted_in_sorted(withdrawn, &sorted);
    Ok(())
}

// Leaves the prefixes that aren't listed, comparing each with each.
fn keep_unlisted(withdrawn: &mut Vec<Prefix>, nlri: &[Prefix])
    ensures { withdrawn.new.items ≡ withdrawn_only withdrawn.old.items nlri.now }
{
    withdrawn.retain(|prefix| !prefix.is_multicast() && !nlri.contains(prefix));
}

// Leaves the prefixes that aren't listed in a sorted list.
fn keep_unlisted_in_sorted(withdrawn: &mut Vec<Prefix>, sorted: &[Prefix])
    requires { IsSorted prefix_cmp sorted.now }
    ensures { withdrawn.new.items ≡ withdrawn_only withdrawn.old.items sorted.now }
{
    withdrawn.retain(|prefix| !prefix.is_multicast() && !is_listed(sorted, prefix));
}

// Whether a sorted list has the prefix.
fn is_listed(sorted: &[Prefix], prefix: &Prefix) -> bool
    ensures { IsSorted prefix_cmp sorted.now → result ≡ is_listed sorted.now prefix.now }
{
    sorted.binary_search(prefix).is_ok()
}

// Leaves the prefixes that routes can have.
pub(crate) fn keep_unicast(prefixes: &mut Vec<Prefix>)
    ensures { prefixes.new.items ≡ unicast prefixes.old.items }
{
    prefixes.retain(|prefix| !prefix.is_multicast());
}
