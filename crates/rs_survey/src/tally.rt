//! How often each finding of a summary was made.

ghost use Rattle.std.specs.Prelude.{◌≡◌, ◌<◌, ◌≤◌, ◌∷◌, [], List, IfOk, count_by, length, min};
ghost use Rattle.rs_survey.specs.declared.finding.Finding.{Finding};
ghost use Rattle.rs_survey.specs.Findings.{IsKnown, is_same, key_of};
ghost use Rattle.rs_survey.specs.Grows.{Grows};
ghost use Rattle.rs_survey.specs.Joined.{AreSums, IsJoined};
ghost use Rattle.rs_survey.specs.Tally.{IsTally, digits, most, place_in};

use crate::finding::Finding as One;
use rs_choice::MAX_PEERS;
use std::alloc::{AllocError, Global};
use std::marker::Model;

// A digit of a place is below the number of peers and these: there are twenty reasons.
const MORE: usize = 20;

// How many kinds of findings there are.
const KINDS: usize = 9;

/// How often each finding was made. A count stops at the greatest number of 64 bits.
#[derive(Drop)]
pub struct Tally {
    peers: usize,
    counts: Vec<u64>,
}

impl Model for Tally {
    ghost use Rattle.rs_survey.specs.Tally.{HasRoom, TallyContent, tally_code, tally_view};

    ghost Value = { TallyContent };

    ghost coded = { tally_code };

    ghost view = { tally_view };

    ghost invariant = { HasRoom };
}

impl Tally {
    // Of an exchange of so many peers, before any finding.
    pub(crate) fn new(alloc: Global, peers: usize) -> Result<Tally, AllocError>
        requires { peers ≤ MAX_PEERS }
        ensures peers { IfOk result (λ tally. tally.peers ≡ peers) }
        ensures none { IfOk result (λ tally. IsTally tally []) }
    {
        let width = peers + MORE;
        let room = KINDS * width * width;
        let mut counts = Vec::with_capacity(alloc, room)?;
        counts.resize(room, 0)?;
        Ok(Tally { peers, counts })
    }

    // Counts a finding once more.
    pub(crate) fn add(&mut self, finding: One)
        requires { IsKnown self.old.peers finding }
        ensures { Grows self.old self.new (finding ∷ []) }
    {
        let place = self.place(finding);
        self.counts[place] = self.counts[place].saturating_add(1);
    }

    // Adds the counts of another tally.
    pub(crate) fn add_all(&mut self, other: &Tally)
        requires { other.now.peers ≡ self.old.peers }
        ensures { IsJoined self.old other.now self.new }
    {
        add_counts(&mut self.counts, &other.counts);
    }

    /// How often a finding was made.
    pub fn count(&self, finding: One) -> u64
        requires { IsKnown self.now.peers finding }
        ensures { (findings : List Finding) → IsTally self.now findings
            → result ≡ min (count_by (is_same finding) findings) most }
    {
        self.counts[self.place(finding)]
    }

    /// Of how many peers findings are counted.
    pub fn peers(&self) -> usize
        ensures { result ≡ self.now.peers }
    {
        self.peers
    }

    // Where a finding is counted.
    fn place(&self, finding: One) -> usize
        requires { IsKnown self.now.peers finding }
        ensures value { result ≡ place_in (digits self.now.peers) (key_of finding) }
        ensures within { result < length self.now.counts }
    {
        let width = self.peers + MORE;
        let key = finding.key();
        (key.kind * width + key.first) * width + key.second
    }
}

// Adds counts to others, place by place.
fn add_counts(counts: &mut [u64], others: &[u64])
    requires { length others.now ≡ length counts.old }
    ensures count { length counts.new ≡ length counts.old }
    ensures sums { AreSums counts.old others.now counts.new }
{
    for place in 0..counts.len() {
        counts[place] = counts[place].saturating_add(others[place]);
    }
}
