//! Numbers that look random, and what is picked by them.

ghost use Rattle.std.specs.Prelude.{◌<◌};

/// A generator of such numbers (multiplicative, modulo 2^32).
#[derive(Drop)]
pub struct Random {
    pub state: u32,
}

impl Random {
    /// The next number below a bound.
    pub fn below(&mut self, bound: u32) -> u32
        requires { 0 < bound }
        ensures { result < bound }
    {
        self.state = self
            .state
            .wrapping_mul(1_664_525)
            .wrapping_add(1_013_904_223);
        (self.state >> 8) % bound
    }

    /// One of some words.
    pub fn one_of(&mut self, words: &[&'static str]) -> &'static str {
        let place = self.below(64) as usize;
        words.get(place % words.len().max(1)).copied().unwrap_or("")
    }
}
