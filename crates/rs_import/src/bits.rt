//! A set of small numbers: each has a bit.
//!
//! A search over a long list waits for memory several times. A bit is looked at in one step (our choice).

ghost use Rattle.std.specs.Prelude.{◌≡◌, ◌+◌, ◌/◌, ◌*◌, ◌<◌, ◌≤◌, ◌==◌, ◌&&◌, ◌||◌, ℕ, IfOk, IfSome, [], false, length, nat_le};
ghost use Rattle.rs_import.specs.Bits.{has_bit};

use std::alloc::{AllocError, Global};

/// How many numbers have their bits in one word.
pub(crate) const WORD_BITS: u32 = 64;

/// The numbers below a bound whose bits are set.
#[derive(Debug, Drop)]
pub(crate) struct Bits {
    words: Vec<u64>,
}

impl Bits {
    /// No number has a bit. It takes no memory.
    pub(crate) fn none(alloc: Global) -> Bits
        ensures { result.words.items ≡ [] }
    {
        Bits {
            words: Vec::new(alloc),
        }
    }

    /// The numbers up to `last` and a few more have a bit, and none is set.
    pub(crate) fn up_to(alloc: Global, last: u32) -> Result<Bits, AllocError>
        ensures count { IfOk result (λ bits. length bits.words.items ≡ last / 64 + 1) }
        ensures empty { IfOk result (λ bits. (number : ℕ) → has_bit bits.words.items number ≡ false) }
    {
        let count = (last / WORD_BITS) as usize + 1;
        let mut words = Vec::with_capacity(alloc, count)?;
        words.resize(count, 0)?;
        Ok(Bits { words })
    }

    /// Sets the bits of the numbers from `first` to `last`, both included.
    pub(crate) fn fill(&mut self, first: u32, last: u32)
        requires { last / 64 < length self.old.words.items }
        ensures count { length self.new.words.items ≡ length self.old.words.items }
        ensures bits { (number : ℕ) → has_bit self.new.words.items number
            ≡ (has_bit self.old.words.items number || (nat_le first number && nat_le number last)) }
    {
        let mut next = u64::from(first);
        while next <= u64::from(last) {
            self.set(next as u32);
            next += 1;
        }
    }

    // Sets the bit of a number.
    fn set(&mut self, number: u32)
        requires { number / 64 < length self.old.words.items }
        ensures count { length self.new.words.items ≡ length self.old.words.items }
        ensures bits { (other : ℕ) → has_bit self.new.words.items other
            ≡ (has_bit self.old.words.items other || other == number) }
    {
        let word = &mut self.words[(number / WORD_BITS) as usize];
        *word |= 1 << (number % WORD_BITS);
    }

    /// Whether the bit of a number is set; none if it has none.
    pub(crate) fn get(&self, number: u32) -> Option<bool>
        ensures { IfSome result (λ bit. (number / 64 < length self.now.words.items)
            × (bit ≡ has_bit self.now.words.items number)) }
    {
        let word = self.words.get((number / WORD_BITS) as usize)?;
        Some((*word >> (number % WORD_BITS)) & 1 == 1)
    }
}
