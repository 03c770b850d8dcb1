//! Sets of AS numbers.

ghost use Rattle.std.specs.Prelude.{◌≡◌, ℕ, [], IfOk, length};
ghost use Rattle.rs_import.specs.AsRanges.{is_in_ranges};
ghost use Rattle.rs_import.specs.Bits.{AreBits};
ghost use Rattle.rs_import.specs.Reaches.{AreInOrder, AreReaches};

use crate::bits::{Bits, WORD_BITS};
use crate::blocks::{Blocks, Numbered};
use rs_types::AsRange;
use std::alloc::{AllocError, Global};
use std::marker::Model;

/// A set of AS numbers, in which one is found fast. It takes 13 octets for each range. One of many ranges takes up to
/// 65,536 octets more, so that each AS number below 524,288 has a bit.
#[derive(Debug, Drop)]
pub struct AsSet {
    ranges: Vec<AsRange>,
    // For each range, the greatest number that it or one before it has.
    reaches: Vec<u32>,
    blocks: Blocks,
    // The bits of small AS numbers, if there are many ranges.
    bits: Bits,
}

// From so many ranges on small AS numbers have bits.
const MANY: usize = 64;

// The greatest AS number that may have a bit.
const LAST_WITH_BIT: u32 = 524_287;

impl Model for AsSet {
    ghost use Rattle.std.specs.Prelude.{List};
    ghost use Rattle.rs_types.specs.declared.as_range.AsRange.{AsRange};
    ghost use Rattle.rs_import.specs.Bits.{AreBits};
    ghost use Rattle.rs_import.specs.Blocks.{AreStarts};
    ghost use Rattle.rs_import.specs.Reaches.{AreInOrder, AreReaches};

    ghost Value = { List AsRange };

    ghost view = { λ set. set.ranges.items };

    ghost invariant = { λ set.
        AreInOrder set.ranges.items
        × AreReaches set.ranges.items set.reaches.items
        × AreStarts (λ range. range.first) set.ranges.items set.blocks.shift set.blocks.starts.items
        × AreBits set.ranges.items set.bits.words.items };
}

impl Numbered for AsRange {
    ghost number_of = { λ range. range.first };

    fn number(&self) -> u32 {
        self.first
    }
}

impl AsSet {
    /// The set without a number. It takes no memory.
    pub fn empty(alloc: Global) -> AsSet
        ensures { result ≡ [] }
    {
        AsSet {
            ranges: Vec::new(alloc),
            reaches: Vec::new(alloc),
            blocks: Blocks::none(alloc),
            bits: Bits::none(alloc),
        }
    }

    /// The set of all numbers in some ranges, which may stand in any order and overlap.
    pub fn new(ranges: Vec<AsRange>) -> Result<AsSet, AllocError>
        ensures same { IfOk result (λ set. (asn : ℕ) → is_in_ranges set asn ≡ is_in_ranges ranges.items asn) }
        ensures count { IfOk result (λ set. length set ≡ length ranges.items) }
    {
        let alloc = *ranges.allocator();
        let mut sorted = ranges;
        sorted.sort_by_key(|range| range.first)?;
        let ranges = sorted.as_slice();
        let reaches = reaches_of(alloc, ranges)?;
        let blocks = Blocks::of(alloc, ranges)?;
        let bits = bits_of(alloc, ranges, &reaches)?;
        Ok(AsSet {
            ranges: sorted,
            reaches,
            blocks,
            bits,
        })
    }

    /// Whether a number is in the set. It takes no memory.
    pub fn holds(&self, asn: u32) -> bool
        ensures { result ≡ is_in_ranges self.now asn }
    {
        match self.bits.get(asn) {
            Some(bit) => bit,
            None => self.is_found(asn),
        }
    }

    // Whether a search finds a number in the set.
    fn is_found(&self, asn: u32) -> bool
        ensures { result ≡ is_in_ranges self.now asn }
    {
        let count = self.blocks.count_up_to(&self.ranges, asn);
        count > 0 && asn <= self.reaches[count - 1]
    }

    /// How many ranges it was made of.
    pub fn len(&self) -> usize
        ensures { result ≡ length self.now }
    {
        self.ranges.len()
    }
}

// For each range, the greatest number that it or one before it has.
fn reaches_of(alloc: Global, ranges: &[AsRange]) -> Result<Vec<u32>, AllocError>
    ensures { IfOk result (λ reaches. AreReaches ranges.now reaches.items) }
{
    let mut reaches = Vec::with_capacity(alloc, ranges.len())?;
    let mut reach = 0;
    for range in ranges {
        reach = reach.max(range.last);
        reaches.push(reach)?;
    }
    Ok(reaches)
}

// The bits of small numbers, if there are many ranges. Numbers that a range shares with earlier ones are set once.
fn bits_of(alloc: Global, ranges: &[AsRange], reaches: &[u32]) -> Result<Bits, AllocError>
    requires order { AreInOrder ranges.now }
    requires reaches { AreReaches ranges.now reaches.now }
    ensures { IfOk result (λ bits. AreBits ranges.now bits.words.items) }
{
    let Some(last) = reaches.last() else {
        return Ok(Bits::none(alloc));
    };
    if ranges.len() < MANY {
        return Ok(Bits::none(alloc));
    }
    // Up to the end of a word: each number that has a bit gets the right one.
    let last = LAST_WITH_BIT.min(*last) / WORD_BITS * WORD_BITS + (WORD_BITS - 1);
    let mut bits = Bits::up_to(alloc, last)?;
    let mut reach = 0;
    for range in ranges {
        bits.fill(range.first.max(reach), range.last.min(last));
        reach = reach.max(range.last);
    }
    Ok(bits)
}
