//! Which condition of eligibility fails, and which rule of export policy refuses. At which of the six steps a route
//! loses, and to which peer. `why` gives the same answers in short.

use super::changes::after;
use super::check_rows;
use super::exchanges::{peer_of, prefix};
use rs_explain::{Explanation, explain};
use rs_table::{Tables, Why};
use std::alloc::Global;
use std::fmt::Write;
use std::test::Fail;

// The answer that is explained.
fn answer(explanation: &Explanation) -> Why {
    match explanation {
        Explanation::Own => Why::Own,
        Explanation::Absent => Why::Absent,
        Explanation::Ineligible(_) => Why::Ineligible,
        Explanation::Filtered(_) => Why::Filtered,
        Explanation::Refused(_) => Why::Refused,
        Explanation::Best(_) => Why::Best,
        Explanation::Lost(_) => Why::Lost,
    }
}

// An explanation as rows say it: of a route that lost, the step, its peer and path length, and those of its rival.
fn text_of(alloc: Global, explanation: &Explanation) -> Option<String> {
    let Explanation::Lost(removal) = explanation else {
        return format!(in alloc; "{explanation:?}").ok();
    };
    let (step, loser, rival) = (removal.step, removal.loser.peer, removal.rival.peer);
    let length = removal.loser.standing.path_length;
    let to = removal.rival.standing.path_length;
    format!(in alloc; "Lost({step:?}, {loser}, {length}, {rival}, {to})").ok()
}

// The explanation of a peer's route to a client; None if `why` says something else.
fn told_one(alloc: Global, tables: &Tables, client: &str, peer: &str) -> Option<String> {
    let (client, peer) = (
        peer_of(tables.plan(), client)?,
        peer_of(tables.plan(), peer)?,
    );
    let prefix = prefix("203.0.113.0/24")?;
    let explanation = explain(alloc, tables, client, peer, prefix).ok()?;
    if tables.why(client, peer, prefix) != answer(&explanation) {
        return None;
    }
    text_of(alloc, &explanation)
}

// Adds the explanation of a peer's route to a client, whose names a question begins with.
fn add_told(alloc: Global, tables: &Tables, question: &str, text: &mut String) -> Option<()> {
    let mut words = question.split_whitespace();
    let (client, peer) = (words.next()?, words.next()?);
    let told = told_one(alloc, tables, client, peer)?;
    let mark = if text.is_empty() { "" } else { "; " };
    write!(text, "{mark}{client} {peer} {told}").ok()
}

// The tables of an exchange in which these routes were announced at 100 on 203.0.113.0/24.
fn announced(alloc: Global, plan: &str, routes: &str) -> Option<Tables> {
    let mut changes = String::new(alloc);
    for route in routes.split(';') {
        if let Some((name, words)) = route.trim().split_once(' ') {
            write!(changes, "{name} 100 203.0.113.0/24 {words};").ok()?;
        }
    }
    after(alloc, plan, &changes)
}

/// The explanations of some routes, for each client and peer whose names stand behind a semicolon.
pub fn told(alloc: Global, plan: &str, routes: &str, questions: &str) -> Option<String> {
    let tables = announced(alloc, plan, routes)?;
    let mut text = String::new(alloc);
    for question in questions.split(';') {
        add_told(alloc, &tables, question, &mut text)?;
    }
    Some(text)
}

// Where a route lost: the step, the number and path length of the loser, and those of its rival.
const REASONS: &str = "
# The first condition of eligibility that fails (RFC 4271, section 9.1.2, then section 6.3).
exchange 64500 192.0.2.0/24; a,64501,192.0.2.11,0.0.0.11; b,64502,192.0.2.12,0.0.0.12; c,64503,192.0.2.13,0.0.0.13; \
    d,64504,192.0.2.14,0.0.0.14
told: an eligible route | a igp 64501 hop-a | b a Best([])
told: the server's AS in the path, and its address as next hop | a igp 64501-64500 hop-server | b a Ineligible(OwnAs(64500))
told: the server's AS in an AS_SET | a igp 64501-{64500} hop-a | b a Ineligible(OwnAs(64500))
told: the server's address | a igp 64501 hop-server | b a Ineligible(ServerAsNextHop(3221225985))
told: 198.51.100.1, outside the subnet | a igp 64501 hop-outside | b a Ineligible(NextHopOffExchange(3325256705))
told: no route | | b a Absent; b b Own
told: its own route | a igp 64501 hop-a | a a Own; a b Absent

# The rule of export policy that refuses (RFC 7947, section 2.3; the rules are our choice).
told: not to AS 64503 | a igp 64501 hop-a 0:64503 | b a Best([]); c a Refused(ToClient(64503))
told: not to AS 64502 | a igp 64501 hop-a 0:64502 | b a Refused(ToClient(64502)); c a Best([])
told: to nobody | a igp 64501 hop-a 0:64500 | b a Refused(ToAll(64500)); d a Refused(ToAll(64500))
told: to nobody, nor to AS 64502 | a igp 64501 hop-a 0:64500,0:64502 | b a Refused(ToClient(64502))
told: to nobody but AS 64502 | a igp 64501 hop-a 0:64500,64500:64502 | b a Best([]); c a Refused(ToAll(64500))
told: not to AS 64502, and to it | a igp 64501 hop-a 0:64502,64500:64502 | b a Refused(ToClient(64502))

# Large communities refuse and permit only where they count (RFC 8092; the rules are our choice).
told: they do not count | a igp 64501 hop-a large-64500:0:0 | b a Best([]); c a Best([])
exchange 64500 192.0.2.0/24 large; a,64501,192.0.2.11,0.0.0.11; b,64502,192.0.2.12,0.0.0.12; \
    c,64503,192.0.2.13,0.0.0.13; d,70000,192.0.2.14,0.0.0.14
told: not to AS 64502 | a igp 64501 hop-a large-64500:0:64502 | \
    b a Refused(LargeToClient { server: 64500, client: 64502 }); c a Best([])
told: not to AS 70000, of four octets | a igp 64501 hop-a large-64500:0:70000 | \
    d a Refused(LargeToClient { server: 64500, client: 70000 }); c a Best([])
told: to nobody | a igp 64501 hop-a large-64500:0:0 | b a Refused(LargeToAll(64500)); d a Refused(LargeToAll(64500))
told: to nobody but AS 64502 | a igp 64501 hop-a large-64500:0:0,64500:1:64502 | \
    b a Best([]); c a Refused(LargeToAll(64500))
told: not to AS 64502, and to it | a igp 64501 hop-a large-64500:1:64502,64500:0:64502 | \
    b a Refused(LargeToClient { server: 64500, client: 64502 })
told: those of another AS | a igp 64501 hop-a large-65010:0:64502 | b a Best([]); c a Best([])

# Beside communities, at each place the community comes first.
told: not to AS 64502, twice | a igp 64501 hop-a 0:64502 large-64500:0:64502 | b a Refused(ToClient(64502))
told: to AS 64502, and not to it | a igp 64501 hop-a 64500:64502 large-64500:0:64502 | \
    b a Refused(LargeToClient { server: 64500, client: 64502 }); c a Best([])
told: not to AS 64502, and to it | a igp 64501 hop-a 0:64502 large-64500:1:64502 | b a Refused(ToClient(64502))
told: to nobody, and to AS 64502 | a igp 64501 hop-a 0:64500 large-64500:1:64502 | \
    b a Best([]); c a Refused(ToAll(64500))
told: to AS 64502, and to nobody | a igp 64501 hop-a 64500:64502 large-64500:0:0 | \
    b a Best([]); c a Refused(LargeToAll(64500))
told: to nobody, twice | a igp 64501 hop-a 0:64500 large-64500:0:0 | b a Refused(ToAll(64500))

# The step at which a route loses (RFC 4271, sections 9.1.1 and 9.1.2.2), and all that the best one beat.
exchange 64500 192.0.2.0/24; a,64501,192.0.2.11,0.0.0.11; b,64502,192.0.2.12,0.0.0.12; c,64503,192.0.2.13,0.0.0.13; \
    d,64504,192.0.2.14,0.0.0.14
told: a longer path | a igp 64501-65010 hop-a; c igp 64501 hop-a; d egp 64501 hop-a | \
    b a Lost(PathLength, 0, 2, 2, 1); b c Best([0, 3]); b d Lost(Origin, 3, 1, 2, 1)
told: a higher origin | a egp 64501 hop-a; c igp 64501 hop-a; d igp 64501-65010 hop-a | \
    b a Lost(Origin, 0, 1, 2, 1); b c Best([0, 3])
told: INCOMPLETE against EGP | a incomplete 64501 hop-a; c egp 64501 hop-a | b a Lost(Origin, 0, 1, 2, 1); b c Best([0])
told: a higher MED | a igp 64501 hop-a med-5; c igp 64501 hop-a; d igp 64501-65010 hop-a | \
    b a Lost(Med, 0, 1, 2, 1); b c Best([0, 3])
told: a higher identifier | a igp 64501 hop-a; c igp 64501 hop-a; d igp 64501-65010 hop-a | \
    b c Lost(Identifier, 2, 1, 0, 1); b a Best([2, 3])
told: the best one with all that it beat | a igp 64501-65010 hop-a; c igp 64501 hop-a; d igp 64501 hop-a | \
    b a Lost(PathLength, 0, 2, 2, 1); b c Best([0, 3])

# MED is compared within one neighbour AS: d removes c there, though a, of another neighbour AS, is what b gets.
told: a route may lose by MED to one that isn't the best | a igp 64501 hop-a; c igp 64503 hop-a med-10; \
    d igp 64503 hop-a | b a Best([2, 3]); b c Lost(Med, 2, 1, 3, 1); b d Lost(Identifier, 3, 1, 0, 1)

# The name of a refused peer comes before communities.
exchange 64500 192.0.2.0/24 large; a,64501,192.0.2.11,0.0.0.11; b,64502,192.0.2.12,0.0.0.12,100,a; \
    c,64503,192.0.2.13,0.0.0.13
told: b refuses a | a igp 64501 hop-a 0:64502 large-64500:0:64502 | b a Refused(ByName); c a Best([])
told: b refuses a, though a permits it | a igp 64501 hop-a 64500:64502 large-64500:1:64502 | \
    b a Refused(ByName); c a Best([])

# The preference goes first.
exchange 64500 192.0.2.0/24; a,64501,192.0.2.11,0.0.0.11; b,64502,192.0.2.12,0.0.0.12; c,64503,192.0.2.13,0.0.0.13; \
    d,64504,192.0.2.14,0.0.0.14,200
told: d is preferred | a igp 64501 hop-a; c igp 64501-65010 hop-a; d igp 64501-65010 hop-a | \
    b a Lost(Preference, 0, 1, 3, 2); b c Lost(Preference, 2, 2, 3, 2); b d Best([0, 2])

# Of one identifier the lower address goes first.
exchange 64500 192.0.2.0/24; a,64501,192.0.2.11,0.0.0.11; b,64502,192.0.2.12,0.0.0.12; c,64503,192.0.2.13,0.0.0.11; \
    d,64504,192.0.2.14,0.0.0.11
told: a higher address | a igp 64501 hop-a; c igp 64501 hop-a; d igp 64501 hop-a | \
    b c Lost(Address, 2, 1, 0, 1); b d Lost(Address, 3, 1, 0, 1); b a Best([2, 3])
";

#[test]
fn what_fails_refuses_or_removes_is_named(rt: HostRuntime) -> Result<(), Fail> {
    check_rows(&rt, rt.alloc(), REASONS)
}
