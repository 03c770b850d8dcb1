//! Sets of prefixes by patterns.

ghost use Rattle.std.specs.Prelude.{◌≡◌, ◌≤◌, ◌^◌, ◌-◌, [], IfOk, IfSome, find, length, reverse};
ghost use Rattle.std.specs.List.Sorted.{IsNonDecreasingBy, IsPermutation};
ghost use Rattle.rs_import.specs.Nesting.{rank_of};
ghost use Rattle.rs_import.specs.Patterns.{IsMostSpecific, is_match, matches_some};

use crate::nesting::{Nesting, rank_of};
use rs_types::{Pattern, Prefix, covers};
use std::alloc::{AllocError, Global};
use std::marker::Model;

/// The prefixes that match some pattern. They are looked for fast. It takes 12 octets for each pattern.
#[derive(Debug, Drop)]
pub struct PrefixSet {
    nesting: Nesting,
}

impl Model for PrefixSet {
    ghost use Rattle.std.specs.Prelude.{List};
    ghost use Rattle.std.specs.List.Sorted.{IsNonDecreasingBy};
    ghost use Rattle.rs_types.specs.declared.pattern.Pattern.{Pattern};
    ghost use Rattle.rs_import.specs.Nesting.{rank_of};

    ghost Value = { List Pattern };

    ghost view = { λ set. set.nesting };

    ghost invariant = { λ set. IsNonDecreasingBy (λ pattern. rank_of pattern.prefix) set.nesting };
}

impl PrefixSet {
    /// The set without a pattern. It takes no memory.
    pub fn empty(alloc: Global) -> PrefixSet
        ensures { result ≡ [] }
    {
        PrefixSet {
            nesting: Nesting::empty(alloc),
        }
    }

    /// The set of some patterns, which may stand in any order and more than once. It has them in the order of their
    /// prefixes.
    pub fn new(patterns: Vec<Pattern>) -> Result<PrefixSet, AllocError>
        requires { length patterns.items ≤ 2 ^ 32 - 1 }
        ensures members { IfOk result (λ set. IsPermutation patterns.items set) }
        ensures order { IfOk result (λ set. IsNonDecreasingBy (λ pattern. rank_of pattern.prefix) set) }
    {
        let alloc = *patterns.allocator();
        let mut sorted = patterns;
        sorted.sort_by_key(|pattern| rank_of(pattern.prefix))?;
        let nesting = nesting_of(alloc, &sorted)?;
        Ok(PrefixSet { nesting })
    }

    /// Whether some pattern matches a prefix. It takes no memory.
    pub fn matches(&self, prefix: Prefix) -> bool
        ensures { result ≡ matches_some self.now prefix }
    {
        self.matching(prefix).is_some()
    }

    /// The pattern that matches a prefix: of several the most specific one, which is the last in the set's order. It
    /// takes no memory.
    pub fn matching(&self, prefix: Prefix) -> Option<Pattern>
        ensures found { result ≡ find (is_match prefix) (reverse self.now) }
        ensures specific { IfSome result (λ found. IsMostSpecific self.now prefix found) }
    {
        let mut count = self.nesting.first(prefix);
        while count > 0 {
            let pattern = self.nesting.pattern(count - 1);
            if is_match(&pattern, prefix) {
                return Some(pattern);
            }
            count = self.nesting.next(prefix, count - 1);
        }
        None
    }

    /// How many patterns there are.
    pub fn len(&self) -> usize
        ensures { result ≡ length self.now }
    {
        self.nesting.len()
    }
}

// Patterns in the order of their prefixes, nested.
fn nesting_of(alloc: Global, patterns: &[Pattern]) -> Result<Nesting, AllocError>
    requires order { IsNonDecreasingBy (λ pattern. rank_of pattern.prefix) patterns.now }
    requires room { length patterns.now ≤ 2 ^ 32 - 1 }
    ensures { IfOk result (λ nesting. nesting ≡ patterns.now) }
{
    let mut nesting = Nesting::with_capacity(alloc, patterns.len())?;
    for pattern in patterns {
        nesting.push(*pattern)?;
    }
    Ok(nesting)
}

// Whether a pattern matches a prefix.
fn is_match(pattern: &Pattern, prefix: Prefix) -> bool
    ensures { result ≡ is_match prefix pattern.now }
{
    covers(pattern.prefix, prefix) && pattern.least <= prefix.len() && prefix.len() <= pattern.most
}
