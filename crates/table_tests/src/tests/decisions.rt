//! Worked decisions: the choice among routes by both bodies (RFC 4271, sections 9.1.1 and 9.1.2.2).

ghost use Rattle.std.specs.Prelude.{◌<◌, ◌↔◌, IsTrue, length};
ghost use Rattle.std.specs.List.{All};

use super::check_rows;
use rs_choice::{Candidate, Exchange, HeldRoute, MAX_PEERS};
use std::alloc::Global;
use std::test::Fail;

// Whether all candidates are of peers of the exchange.
fn are_known(exchange: &Exchange, candidates: &[Candidate]) -> bool
    ensures { IsTrue result ↔ All (λ candidate. candidate.peer < length exchange.now.peers) candidates.now }
{
    let count = exchange.count();
    candidates.iter().all(|candidate| candidate.peer < count)
}

// The place of the choice, if both bodies make the same.
fn choice(exchange: &Exchange, candidates: &[Candidate]) -> Option<Option<usize>> {
    if !are_known(exchange, candidates) || candidates.len() > MAX_PEERS {
        return None;
    }
    let place = exchange.choose(candidates);
    if exchange.choose_by_groups(candidates) == place {
        Some(place)
    } else {
        None
    }
}

// A route as a candidate.
fn candidate(held: &HeldRoute) -> Candidate<'_> {
    Candidate {
        peer: usize::from(held.peer),
        attributes: &held.attributes,
    }
}

/// The place of the choice among routes.
pub fn chosen(alloc: Global, exchange: &Exchange, held: &[HeldRoute]) -> Option<String> {
    let candidates: Vec<Candidate> = held.iter().map(candidate).collect(alloc).ok()?;
    let place = choice(exchange, &candidates)?;
    format!(in alloc; "{place:?}").ok()
}

// Routes by their senders, and the place of the choice among them.
const CHOICES: &str = "
# MED is compared within one neighbour AS alone (RFC 4271, section 9.1.2.2, c). So no route is ahead of all others by
# pairs: b's of a's by MED, c's of b's and a's of c's by identifier. The order of the routes is no matter.
exchange 64500 192.0.2.0/24; a,64501,192.0.2.11,0.0.0.1; b,64501,192.0.2.12,0.0.0.9; \
    c,64502,192.0.2.13,0.0.0.5
chosen: a b c | a igp 64501-65010 hop-a med-10; b igp 64501-65010 hop-a med-5; c igp 64502-65010 hop-a | Some(2)
chosen: a c b | a igp 64501-65010 hop-a med-10; c igp 64502-65010 hop-a; b igp 64501-65010 hop-a med-5 | Some(1)
chosen: b a c | b igp 64501-65010 hop-a med-5; a igp 64501-65010 hop-a med-10; c igp 64502-65010 hop-a | Some(2)
chosen: b c a | b igp 64501-65010 hop-a med-5; c igp 64502-65010 hop-a; a igp 64501-65010 hop-a med-10 | Some(1)
chosen: c a b | c igp 64502-65010 hop-a; a igp 64501-65010 hop-a med-10; b igp 64501-65010 hop-a med-5 | Some(0)
chosen: c b a | c igp 64502-65010 hop-a; b igp 64501-65010 hop-a med-5; a igp 64501-65010 hop-a med-10 | Some(0)
chosen: b has withdrawn | a igp 64501-65010 hop-a med-10; c igp 64502-65010 hop-a | Some(0)
chosen: a has withdrawn | b igp 64501-65010 hop-a med-5; c igp 64502-65010 hop-a | Some(1)
chosen: c has withdrawn | a igp 64501-65010 hop-a med-10; b igp 64501-65010 hop-a med-5 | Some(1)
chosen: one route | b igp 64501-65010 hop-a med-5 | Some(0)
chosen: none | | None

# Each step decides, with a and b both of AS 64501. An AS_SET counts 1 in the path length (section 9.1.2.2, a), a
# missing MED is 0 (c), and then the lower identifier goes first (f), not the place.
exchange 64500 192.0.2.0/24; a,64501,192.0.2.11,192.0.2.11; b,64501,192.0.2.12,192.0.2.12
chosen: 3 against 2 | a igp {65010,65011,65012}-65013-65014 hop-a; b igp 64501-65010 hop-a | Some(1)
chosen: 3 against 4 | a igp {65010,65011,65012}-65013-65014 hop-a; b igp 64501-65010-65011-65012 hop-a | Some(0)
chosen: 1 against none | a igp 64501 hop-a; b igp no-path hop-a | Some(1)
chosen: EGP against IGP | a egp 64501 hop-a; b igp 64501 hop-a | Some(1)
chosen: EGP against INCOMPLETE | a egp 64501 hop-a; b incomplete 64501 hop-a | Some(0)
chosen: path length before origin | a igp 64501-65010 hop-a; b incomplete 64501 hop-a | Some(1)
chosen: origin before MED | a igp 64501 hop-a med-10; b egp 64501 hop-a med-5 | Some(0)
chosen: MED 1 against a missing one | a igp 64501 hop-a med-1; b igp 64501 hop-a | Some(1)
chosen: MED 0 against a missing one | a igp 64501 hop-a med-0; b igp 64501 hop-a | Some(0)
chosen: the lower identifier | b igp 64501 hop-a; a igp 64501 hop-a med-0 | Some(1)
chosen: two of one peer, the least place | a igp 64501 hop-a; a igp 64501 hop-a | Some(0)

# Of one identifier the lower address goes first (section 9.1.2.2, g).
exchange 64500 192.0.2.0/24; a,64501,192.0.2.11,192.0.2.9; b,64501,192.0.2.12,192.0.2.9
chosen: a b | a igp 64501 hop-a; b igp 64501 hop-a | Some(0)
chosen: b a | b igp 64501 hop-a; a igp 64501 hop-a | Some(1)
chosen: the least place of a's | b igp 64501 hop-a; a igp 64501 hop-a; a igp 64501 hop-a | Some(1)

# Preference goes before path length (section 9.1.1).
exchange 64500 192.0.2.0/24; a,64501,192.0.2.11,192.0.2.11; b,64502,192.0.2.12,192.0.2.12,101
chosen: b is preferred | a igp 64501 hop-a; b igp 64501-65010-65011-65012 hop-a | Some(1)
";

#[test]
fn both_bodies_choose_what_the_steps_leave(rt: HostRuntime) -> Result<(), Fail> {
    check_rows(&rt, rt.alloc(), CHOICES)
}
