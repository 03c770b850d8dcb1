//! Which route each client gets of several, and why; and what is left of a peer whose session closed or was lost.

use super::check_rows;
use std::test::Fail;

// `bests` has a letter for each client: the name of the peer whose route it gets on 203.0.113.0/24, or -.
const DECISIONS: &str = "
exchange 64500 192.0.2.0/24; a,64501,192.0.2.11,192.0.2.11; b,64502,192.0.2.12,192.0.2.12; \
    c,64503,192.0.2.13,192.0.2.13; d,64504,192.0.2.14,192.0.2.14
bests | ----
why b a | Absent
why b b | Own
after a 100 203.0.113.0/24 plain
bests | -aaa
why b a | Best

# What policy keeps from one client hides no other (RFC 7947, section 2.3.2.1).
after a 100 203.0.113.0/24 plain 0:64502; c 100 203.0.113.0/24 igp 64503-65010 hop-a
bests | ccaa
why b a | Refused
why b c | Best
why d c | Lost
why d a | Best
why a a | Own
why a b | Absent

# An ineligible route replaces an eligible one.
after a 100 203.0.113.0/24 plain; a 101 203.0.113.0/24 igp 64501-64500 hop-a
bests | ----
why b a | Ineligible
after a 100 203.0.113.0/24 plain; a 101 203.0.113.0/24 igp 64501 hop-server
bests | ----
why b a | Ineligible
after a 100 203.0.113.0/24 plain; a 101 203.0.113.0/24 igp 64501 hop-outside
bests | ----
why b a | Ineligible
after a 100 203.0.113.0/24 plain; a 101 203.0.113.0/24 igp 64501 hop-other
bests | -aaa
best b 203.0.113.0/24 | a 101 192.0.2.20

# Without a subnet any next hop will do but the server's address.
exchange 64500; a,64501,192.0.2.11,192.0.2.11; b,64502,192.0.2.12,192.0.2.12
after a 100 203.0.113.0/24 igp 64501 hop-outside
bests | -a
after a 100 203.0.113.0/24 igp 64501 hop-server
bests | --

# MED decides within a neighbour AS (RFC 4271, section 9.1.2.2, c), in any order of the announcements; and what d gets
# when b has withdrawn.
exchange 64500 192.0.2.0/24; a,64501,192.0.2.11,0.0.0.1; b,64501,192.0.2.12,0.0.0.9; c,64502,192.0.2.13,0.0.0.5; \
    d,64504,192.0.2.14,0.0.0.4
after a 100 203.0.113.0/24 igp 64501-65010 hop-a med-10; b 100 203.0.113.0/24 igp 64501-65010 hop-a med-5; \
    c 100 203.0.113.0/24 igp 64502-65010 hop-a
bests | cabc
after a 100 203.0.113.0/24 igp 64501-65010 hop-a med-10; c 100 203.0.113.0/24 igp 64502-65010 hop-a; \
    b 100 203.0.113.0/24 igp 64501-65010 hop-a med-5
bests | cabc
after b 100 203.0.113.0/24 igp 64501-65010 hop-a med-5; a 100 203.0.113.0/24 igp 64501-65010 hop-a med-10; \
    c 100 203.0.113.0/24 igp 64502-65010 hop-a
bests | cabc
after b 100 203.0.113.0/24 igp 64501-65010 hop-a med-5; c 100 203.0.113.0/24 igp 64502-65010 hop-a; \
    a 100 203.0.113.0/24 igp 64501-65010 hop-a med-10
bests | cabc
after c 100 203.0.113.0/24 igp 64502-65010 hop-a; a 100 203.0.113.0/24 igp 64501-65010 hop-a med-10; \
    b 100 203.0.113.0/24 igp 64501-65010 hop-a med-5
bests | cabc
after c 100 203.0.113.0/24 igp 64502-65010 hop-a; b 100 203.0.113.0/24 igp 64501-65010 hop-a med-5; \
    a 100 203.0.113.0/24 igp 64501-65010 hop-a med-10
bests | cabc
after a 100 203.0.113.0/24 igp 64501-65010 hop-a med-10; b 100 203.0.113.0/24 igp 64501-65010 hop-a med-5; \
    c 100 203.0.113.0/24 igp 64502-65010 hop-a; b 101 withdraw 203.0.113.0/24
bests | caaa
after b 100 203.0.113.0/24 igp 64501-65010 hop-a med-5; c 100 203.0.113.0/24 igp 64502-65010 hop-a; \
    a 100 203.0.113.0/24 igp 64501-65010 hop-a med-10; b 101 withdraw 203.0.113.0/24
bests | caaa
after c 100 203.0.113.0/24 igp 64502-65010 hop-a; b 100 203.0.113.0/24 igp 64501-65010 hop-a med-5; \
    a 100 203.0.113.0/24 igp 64501-65010 hop-a med-10; b 101 withdraw 203.0.113.0/24
bests | caaa

# The lower address breaks the last tie (section 9.1.2.2, g).
exchange 64500 192.0.2.0/24; a,64501,192.0.2.11,192.0.2.9; b,64501,192.0.2.12,192.0.2.9; c,64503,192.0.2.13,192.0.2.13
after b 100 203.0.113.0/24 igp 64501 hop-other; a 100 203.0.113.0/24 igp 64501 hop-other
bests | baa
";

#[test]
fn each_client_gets_what_the_rules_leave_it(rt: HostRuntime) -> Result<(), Fail> {
    check_rows(&rt, rt.alloc(), DECISIONS)
}

// What each client gets of several routes: `bests` has a letter for each, as in DECISIONS.
const WORKED: &str = "
exchange 64500 192.0.2.0/24; a,64501,192.0.2.11,192.0.2.11; b,64502,192.0.2.12,192.0.2.12; \
    c,64503,192.0.2.13,192.0.2.13; d,64504,192.0.2.14,192.0.2.14
# One choice for all, and the second for its sender.
after a 100 203.0.113.0/24 igp 64501-65010 hop-a; b 100 203.0.113.0/24 igp 64502-65010 hop-a; \
    c 100 203.0.113.0/24 igp 64503-65010 hop-a
bests | baaa
# The sender of the one route gets none.
after c 100 203.0.113.0/24 igp 64503-65010 hop-a
bests | cc-c
# The server's AS in a's path, which is shorter.
after a 100 203.0.113.0/24 igp 64500 hop-a; b 100 203.0.113.0/24 igp 64502-65010 hop-a
bests | b-bb
# No eligible route.
after a 100 203.0.113.0/24 igp 64500 hop-a
bests | ----
# a's isn't for b.
after a 100 203.0.113.0/24 igp 64501-65010 hop-a 0:64502; c 100 203.0.113.0/24 igp 64503-65010 hop-a
bests | ccaa
# a's, which is shorter, isn't for b.
after a 100 203.0.113.0/24 igp 64501 hop-a 0:64502; c 100 203.0.113.0/24 igp 64503-65010 hop-a
bests | ccaa
# a's is for none, and hides c's from none.
after a 100 203.0.113.0/24 igp 64501-65010 hop-a 0:64500; c 100 203.0.113.0/24 igp 64503-65010 hop-a
bests | cc-c
# a's is for b alone.
after a 100 203.0.113.0/24 igp 64501-65010 hop-a 0:64500,64500:64502; c 100 203.0.113.0/24 igp 64503-65010 hop-a
bests | ca-c
# b's isn't for d, to which it is nothing.
after a 100 203.0.113.0/24 igp 64501-65010 hop-a; b 100 203.0.113.0/24 igp 64502-65010 hop-a 0:64504; \
    c 100 203.0.113.0/24 igp 64503-65010 hop-a
bests | baaa

# b refuses a's routes.
exchange 64500 192.0.2.0/24; a,64501,192.0.2.11,192.0.2.11; b,64502,192.0.2.12,192.0.2.12,100,a; \
    c,64503,192.0.2.13,192.0.2.13; d,64504,192.0.2.14,192.0.2.14
# b gets c's.
after a 100 203.0.113.0/24 igp 64501-65010 hop-a; c 100 203.0.113.0/24 igp 64503-65010 hop-a
bests | ccaa
# b gets none.
after a 100 203.0.113.0/24 igp 64501-65010 hop-a
bests | --aa

# Two of one AS, with a lower identifier and a higher one than c's, which is of another AS.
exchange 64500 192.0.2.0/24; a,64501,192.0.2.11,0.0.0.1; b,64501,192.0.2.12,0.0.0.9; \
    c,64502,192.0.2.13,0.0.0.5; d,64504,192.0.2.14,192.0.2.14
# At b a's comes back, which b's keeps out by its MED, and c's doesn't win.
after a 100 203.0.113.0/24 igp 64501-65010 hop-a med-10; b 100 203.0.113.0/24 igp 64501-65010 hop-a med-5; \
    c 100 203.0.113.0/24 igp 64502-65010 hop-a
bests | cabc
# So it does at d, to which b's is refused.
after a 100 203.0.113.0/24 igp 64501-65010 hop-a med-10; \
    b 100 203.0.113.0/24 igp 64501-65010 hop-a med-5 0:64504; c 100 203.0.113.0/24 igp 64502-65010 hop-a
bests | caba
# a's and b's of equal MED, c's goes before b's.
after a 100 203.0.113.0/24 igp 64501-65010 hop-a med-5; b 100 203.0.113.0/24 igp 64501-65010 hop-a med-5; \
    c 100 203.0.113.0/24 igp 64502-65010 hop-a
bests | caaa

# Three of one AS, and d of another, whose identifier is the second.
exchange 64500 192.0.2.0/24; a,64501,192.0.2.11,0.0.0.1; b,64501,192.0.2.12,0.0.0.9; \
    c,64501,192.0.2.13,0.0.0.8; d,64502,192.0.2.14,0.0.0.5
# Either of two of the least MED keeps a's out without the other.
after a 100 203.0.113.0/24 igp 64501-65010 hop-a med-10; b 100 203.0.113.0/24 igp 64501-65010 hop-a med-5; \
    c 100 203.0.113.0/24 igp 64501-65010 hop-a med-5; d 100 203.0.113.0/24 igp 64502-65010 hop-a
bests | dddc
# At b a's comes back, where c's is refused too.
after a 100 203.0.113.0/24 igp 64501-65010 hop-a med-10; b 100 203.0.113.0/24 igp 64501-65010 hop-a med-5; \
    c 100 203.0.113.0/24 igp 64501-65010 hop-a med-5 0:64501; d 100 203.0.113.0/24 igp 64502-65010 hop-a
bests | dadc
";

#[test]
fn each_client_gets_its_own_best(rt: HostRuntime) -> Result<(), Fail> {
    check_rows(&rt, rt.alloc(), WORKED)
}

const SESSIONS: &str = "
# Routes stay at the end of the file, and go at any other close (our choice).
exchange 64500 192.0.2.0/24; a,64501,192.0.2.11,192.0.2.11; b,64502,192.0.2.12,192.0.2.12; \
    c,64503,192.0.2.13,192.0.2.13
after a 100 203.0.113.0/24 plain
closed |
after a 100 203.0.113.0/24 plain; a 101 ended
closed | a
bests | -aa
after a 100 203.0.113.0/24 plain; a 101 bgp-3/6
closed | a
bests | ---
after a 100 203.0.113.0/24 plain; a 101 mrt-2
closed | a
bests | ---
after a 100 203.0.113.0/24 plain; a 101 memory
closed | a
bests | ---
after a 100 203.0.113.0/24 plain; a 101 read; b 101 ended
closed | ab
bests | ---

# A lost session takes its routes (RFC 4271, section 8.2.2), and announces others when it is back.
after a 100 203.0.113.0/24 plain; c 100 203.0.113.0/24 igp 64503-65010 hop-a
closed |
bests | caa
why b a | Best
after a 100 203.0.113.0/24 plain; c 100 203.0.113.0/24 igp 64503-65010 hop-a; a 101 lost
closed |
bests | cc-
why b a | Absent
after a 100 203.0.113.0/24 plain; c 100 203.0.113.0/24 igp 64503-65010 hop-a; a 101 lost; a 102 lost; \
    a 103 203.0.113.0/24 plain
closed |
bests | caa
why b a | Best
table b | 203.0.113.0/24 a 103
";

#[test]
fn what_a_session_leaves_depends_on_how_it_ends(rt: HostRuntime) -> Result<(), Fail> {
    check_rows(&rt, rt.alloc(), SESSIONS)
}
