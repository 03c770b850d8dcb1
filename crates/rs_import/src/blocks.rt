//! Where to look for a number among items in ascending order.
//!
//! A binary search over many items waits for memory at its first steps, and the processor guesses half of them wrong.
//! So numbers that are equal but for their last bits make a block, and a search goes over one block alone (our choice).

ghost use Rattle.std.specs.Prelude.{◌≡◌, ◌+◌, ◌-◌, ◌<◌, ◌≤◌, ◌^◌, ℕ, [], IfOk, length};
ghost use Rattle.std.specs.List.{AllWithin};
ghost use Rattle.std.specs.List.Sorted.{IsNonDecreasingBy};
ghost use Rattle.rs_import.specs.Blocks.{AreStarts, IsWithinBlock};

use std::alloc::{AllocError, Global};

// How many items a block has on average, if their numbers are spread evenly up to the last one.
const ITEMS: usize = 8;

// How many items there may be, so that each place is a number of four octets.
const MAX_ITEMS: usize = 4_294_967_295;

/// What has a number by which it is in order.
pub(crate) trait Numbered {
    // The number.
    ghost number_of: { Self → ℕ };

    /// The number.
    fn number(&self) -> u32
        ensures { result ≡ number_of self.now };
}

/// Where the blocks of some items begin.
#[derive(Debug, Drop)]
pub(crate) struct Blocks {
    // By so many of its last bits a number differs from others of its block.
    shift: u32,
    // For each block, from that of 0 on, how many items stand before it.
    starts: Vec<u32>,
}

// Some items that stand one after another: behind so many, and up to so many.
#[derive(Clone, Copy, Debug, Drop)]
struct Block {
    from: usize,
    to: usize,
}

impl Blocks {
    /// No blocks: a search goes over all items. It takes no memory.
    pub(crate) fn none(alloc: Global) -> Blocks
        ensures shift { result.shift ≡ 0 }
        ensures starts { result.starts.items ≡ [] }
    {
        Blocks {
            shift: 0,
            starts: Vec::new(alloc),
        }
    }

    /// The blocks of some items: none of more than 4,294,967,295.
    pub(crate) fn of<T: Numbered>(alloc: Global, items: &[T]) -> Result<Blocks, AllocError>
        requires { IsNonDecreasingBy T.number_of items.now }
        ensures { IfOk result (λ blocks. AreStarts T.number_of items.now blocks.shift blocks.starts.items) }
    {
        match items.last() {
            Some(last) if items.len() <= MAX_ITEMS => {
                let last = last.number();
                let shift = shift_for(last, items.len() / ITEMS);
                let starts = starts_of(alloc, items, shift, last)?;
                Ok(Blocks { shift, starts })
            }
            _ => Ok(Blocks::none(alloc)),
        }
    }

    /// How many of the items have a number that is not above this one. It takes no memory.
    pub(crate) fn count_up_to<T: Numbered>(&self, items: &[T], number: u32) -> usize
        requires rising { IsNonDecreasingBy T.number_of items.now }
        requires starts { AreStarts T.number_of items.now self.now.shift self.now.starts.items }
        ensures within { result ≤ length items.now }
        ensures up_to { AllWithin (λ item. T.number_of item ≤ number) items.now 0 result }
        ensures behind { AllWithin (λ item. number < T.number_of item) items.now result (length items.now) }
    {
        let Block { from, to } = self.block(number, items);
        from + items[from..to].partition_point(|item| item.number() <= number)
    }

    // Items of which one is the first that has a number above this one, or which stand before it.
    fn block<T: Numbered>(&self, number: u32, items: &[T]) -> Block
        requires starts { AreStarts T.number_of items.now self.now.shift self.now.starts.items }
        ensures { IsWithinBlock T.number_of items.now number result.from result.to }
    {
        let starts = self.starts.as_slice();
        let block = (number >> self.shift) as usize;
        match (starts.get(block), starts.get(block + 1)) {
            (Some(from), Some(to)) => Block {
                from: *from as usize,
                to: *to as usize,
            },
            _ => Block {
                from: 0,
                to: items.len(),
            },
        }
    }
}

// The bits by which numbers up to the last one differ within a block, if there are at most so many blocks, and one
// more.
fn shift_for(last: u32, blocks: usize) -> u32
    ensures { result < 32 }
{
    let mut shift = 0;
    while shift < 31 && (last >> shift) as usize > blocks {
        shift += 1;
    }
    shift
}

// For each block, up to the one behind that of the last number, how many items stand before it.
fn starts_of<T: Numbered>(
    alloc: Global,
    items: &[T],
    shift: u32,
    last: u32,
) -> Result<Vec<u32>, AllocError>
    requires rising { IsNonDecreasingBy T.number_of items.now }
    requires room { length items.now ≤ 2 ^ 32 - 1 }
    requires shift { shift < 32 }
    ensures { IfOk result (λ starts. AreStarts T.number_of items.now shift starts.items) }
{
    let blocks = (last >> shift) as usize + 2;
    let mut starts = Vec::with_capacity(alloc, blocks)?;
    for block in 0..blocks {
        let start = items.partition_point(|item| ((item.number() >> shift) as usize) < block);
        starts.push(start as u32)?;
    }
    Ok(starts)
}
