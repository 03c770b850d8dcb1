//! Numbers of four octets, one after another: AS numbers (RFC 6793) and communities (RFC 1997).

ghost use Rattle.std.specs.Prelude.{◌≡◌, ◌+◌, ◌*◌, ◌==◌, ◌≤◌, drop, length, IfOk};
ghost use Rattle.std.specs.List.{list_any};
ghost use Rattle.byteorder.specs.Endian.{big_number};
ghost use Rattle.rs_types.specs.Numbers.{numbers_at};

use byteorder::{BigEndian, ByteOrder};
use std::alloc::{AllocError, Global};

// The octets of a number.
pub(crate) const NUMBER_LEN: usize = 4;

/// Numbers at their place in the written form of a route's attributes: an iterator over them, in order. It takes no
/// memory.
#[derive(Clone, Copy, Debug)]
pub struct Numbers<'a> {
    pub(crate) count: usize,
    pub(crate) octets: &'a [u8],
    // The octets hold so many.
    pub ghost fits: { 4 * count ≤ length octets.now },
}

impl<'a> Iterator for Numbers<'a> {
    ghost use Rattle.std.specs.Iterator.{YieldsFirst, item_count};
    ghost use Rattle.rs_types.specs.Shapes.{numbers_in};

    type Item = u32;

    ghost next_gives = { YieldsFirst numbers_in };

    ghost remaining = { item_count numbers_in };

    fn next(&mut self) -> Option<u32> {
        if self.count == 0 {
            return None;
        }
        let number = number_at(self.octets, 0);
        *self = Numbers {
            count: self.count - 1,
            octets: &self.octets[NUMBER_LEN..],
        };
        Some(number)
    }
}

impl Numbers<'_> {
    /// How many numbers there are.
    pub fn len(&self) -> usize
        ensures { result ≡ length (numbers_at self.now.count self.now.octets.now) }
    {
        self.count
    }

    /// A copy of the numbers as a list.
    pub fn to_vec(&self, alloc: Global) -> Result<Vec<u32>, AllocError>
        ensures { IfOk result (λ numbers. numbers.items ≡ numbers_at self.now.count self.now.octets.now) }
    {
        read_numbers(alloc, self.count, self.octets)
    }

    // Whether a number is among these.
    pub(crate) fn contains(self, number: u32) -> bool
        ensures { result ≡ list_any (λ other. other == number) (numbers_at self.entry.count self.entry.octets.now) }
    {
        let mut rest = self;
        while let Some(other) = rest.next() {
            if other == number {
                return true;
            }
        }
        false
    }
}

// One number of those that stand one after another.
fn number_at(octets: &[u8], place: usize) -> u32
    requires { 4 * place + 4 ≤ length octets.now }
    ensures { result ≡ big_number 4 (drop (4 * place) octets.now) }
{
    BigEndian::read_u32(&octets[NUMBER_LEN * place..])
}

// The first `count` numbers of the octets.
fn read_numbers(alloc: Global, count: usize, octets: &[u8]) -> Result<Vec<u32>, AllocError>
    requires { 4 * count ≤ length octets.now }
    ensures { IfOk result (λ numbers. numbers.items ≡ numbers_at count octets.now) }
{
    let mut numbers = Vec::with_capacity(alloc, count)?;
    for place in 0..count {
        numbers.push(number_at(octets, place))?;
    }
    Ok(numbers)
}
