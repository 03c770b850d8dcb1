//! A reader whose first octets were looked at.

ghost use Rattle.std.specs.Prelude.{◌≡◌, ◌+◌, ◌<◌, ◌≤◌, ◌++◌, ◌==◌, false, true, drop, length, min, nat_lt};
ghost use Rattle.std.specs.Prelude.{take, IfErr, IfOk, OnErr, OnOk};
ghost use Rattle.rs_inventory.specs.Front.{IsFrontOf, ReadMayFail, RewoundGives, TakesMore, front_len, is_done};
ghost use Rattle.rs_inventory.specs.Front.{octets_wanted, rewound, rewound_may_come};

use crate::compression::FRONT;
use rs_mrt::{Failed, Read};
use std::marker::Model;

// How many octets there is room for: some that don't suffice, and those of one call more.
const ROOM: usize = 2 * FRONT;

/// The first octets of a reader, which were taken from it.
#[derive(Drop)]
pub(crate) struct Front {
    octets: [u8; ROOM],
    // How many of the octets there are.
    count: usize,
    // Whether the reader was at its end.
    ended: bool,
}

impl Model for Front {
    ghost use Rattle.std.specs.Prelude.{◌≤◌, take};
    ghost use Rattle.rs_inventory.specs.Front.{Taken, room_len};

    ghost Value = { Taken };

    ghost view = { λ f. record { octets = take f.count f.octets; ended = f.ended } };

    ghost invariant = { λ f. f.count ≤ room_len };
}

impl Front {
    /// Takes the first octets of a reader, as many as show whether it is compressed, or fewer if it has fewer.
    pub(crate) fn of<R: Read>(reader: &mut R) -> Result<Front, Failed>
        requires { R.failures reader.old < u64.MAX }
        ensures gives { IfOk result (IsFrontOf R.gives reader.old reader.new) }
        ensures done { IfOk result (λ front. is_done front ≡ true) }
        ensures failures { IfOk result (λ _. R.failures reader.new ≡ R.failures reader.old) }
        ensures fails { IfErr result (λ _. ReadMayFail R.gives reader.old) }
    {
        let mut front = Front {
            octets: [0; ROOM],
            count: 0,
            ended: false,
        };
        while !front.is_done() {
            front.take(reader)?;
        }
        Ok(front)
    }

    // Whether there are enough octets, or no more.
    fn is_done(&self) -> bool
        ensures { result ≡ is_done self.now }
    {
        self.ended || self.count >= FRONT
    }

    // Takes octets by one call.
    fn take<R: Read>(&mut self, reader: &mut R) -> Result<(), Failed>
        requires unfinished { is_done self.old ≡ false }
        requires failures { R.failures reader.old < u64.MAX }
        ensures takes { OnOk result (TakesMore R.gives R.failures self.old reader.old self.new reader.new) }
        ensures grows { OnOk result (octets_wanted self.new < octets_wanted self.old) }
        ensures fails { OnErr result (ReadMayFail (RewoundGives R.gives) (rewound self.old reader.old)) }
    {
        let mut piece = [0; FRONT];
        let taken = reader.read(&mut piece)?;
        self.add(&piece[..taken]);
        Ok(())
    }

    // Adds the octets of a call: none if the reader was at its end.
    fn add(&mut self, octets: &[u8])
        requires before { length self.old.octets < front_len }
        requires more { length octets.now ≤ front_len }
        ensures { self.new ≡ record { octets = self.old.octets ++ octets.now; ended = length octets.now == 0 } }
    {
        let end = self.count + octets.len();
        self.octets[self.count..end].copy_from_slice(octets);
        self.count = end;
        self.ended = octets.is_empty();
    }

    // Whether the reader was at its end.
    fn has_ended(&self) -> bool
        ensures { result ≡ self.now.ended }
    {
        self.ended
    }

    /// The octets.
    pub(crate) fn octets(&self) -> &[u8]
        ensures { result.now ≡ self.now.octets }
    {
        &self.octets[..self.count]
    }
}

/// A reader as it was before its first octets were taken.
#[derive(Drop)]
pub(crate) struct Whole<R> {
    front: Front,
    // How many of the first octets were given.
    given: usize,
    inner: R,
}

impl<R> Model for Whole<R> {
    ghost use Rattle.std.specs.Prelude.{drop, length, ◌≤◌};
    ghost use Rattle.rs_inventory.specs.Front.{Rewound};

    ghost Value = { Rewound R };

    ghost view = { λ w. record {
      held = drop w.given w.front.octets;
      ended = w.front.ended;
      inner = w.inner;
    } };

    ghost invariant = { λ w. w.given ≤ length w.front.octets };
}

impl<R> Whole<R> {
    /// The reader of which these octets were taken.
    pub(crate) fn new(front: Front, inner: R) -> Whole<R>
        ensures { result ≡ rewound front inner }
    {
        Whole {
            front,
            given: 0,
            inner,
        }
    }

    // Whether octets that were taken are still to be given.
    fn has_held(&self) -> bool
        ensures { result ≡ nat_lt 0 (length self.now.held) }
    {
        self.given < self.front.octets().len()
    }

    // Whether the reader was at its end.
    fn has_ended(&self) -> bool
        ensures { result ≡ self.now.ended }
    {
        self.front.has_ended()
    }

    // Gives octets that were taken, as many as there is room for. Answers how many.
    fn give(&mut self, into: &mut [u8]) -> usize
        ensures bound { result ≤ length into.new }
        ensures octets { take result into.new ≡ take result self.old.held }
        ensures left { self.new ≡ record self.old { held = drop result self.old.held } }
        ensures most { result ≡ min (length self.old.held) (length into.new) }
    {
        let left = &self.front.octets()[self.given..];
        let count = left.len().min(into.len());
        into[..count].copy_from_slice(&left[..count]);
        self.given += count;
        count
    }
}

impl<R: Read> Read for Whole<R> {
    ghost gives = { λ w. RewoundGives R.gives w };

    ghost failures = { λ w. R.failures w.inner };

    ghost may_come = { λ w. rewound_may_come R.gives R.may_come w };

    fn read(&mut self, into: &mut [u8]) -> Result<usize, Failed> {
        if self.has_held() {
            return Ok(self.give(into));
        }
        if self.has_ended() {
            return Ok(0);
        }
        self.inner.read(into)
    }
}
