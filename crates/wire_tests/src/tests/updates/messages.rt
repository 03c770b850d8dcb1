//! What messages say: headers, the fields of an UPDATE, its prefixes, and each fault (RFC 4271, sections 4.1, 4.3, 6.1
//! and 6.3; RFC 7606, sections 2 to 7).

use super::*;
use rs_update::{HeaderFault, UpdateFault};

// A message, what it says, and what it says by RFC 7606 where that is something else.
const MESSAGES: &str = "
The lengths of each type (RFC 4271, section 6.1).
MARKER 001D 01 00*10 | OPEN
MARKER 001C 01 00*9 | BGP error 1/2
MARKER 0015 03 0602 | NOTIFICATION
MARKER 0014 03 06 | BGP error 1/2
MARKER 0013 04 | KEEPALIVE
MARKER 0014 04 00 | BGP error 1/2
MARKER 0017 05 00010001 | ROUTE-REFRESH
MARKER 0013 05 | ROUTE-REFRESH
MARKER 1000 05 00*4077 | ROUTE-REFRESH
MARKER 1001 05 00*4078 | BGP error 1/2
MARKER 0012 05 | BGP error 1/2
MARKER 0013 | BGP error 1/2
MARKER 0016 02 0000 00 | BGP error 1/2
MARKER 0017 02 0000 0000 | UPDATE
FF*18 | BGP error 1/2
00*18 | BGP error 1/2
00*0 | BGP error 1/2

Types that none is (section 6.1).
MARKER 0013 00 | BGP error 1/3
MARKER 0013 06 | BGP error 1/3
MARKER 0013 FF | BGP error 1/3

A Marker is sixteen octets of ones, and is tested before length and type (section 6.1).
00 FF*15 0013 04 | BGP error 1/1
FF 00 FF*14 0013 04 | BGP error 1/1
FF*2 00 FF*13 0013 04 | BGP error 1/1
FF*3 00 FF*12 0013 04 | BGP error 1/1
FF*4 00 FF*11 0013 04 | BGP error 1/1
FF*5 00 FF*10 0013 04 | BGP error 1/1
FF*6 00 FF*9 0013 04 | BGP error 1/1
FF*7 00 FF*8 0013 04 | BGP error 1/1
FF*8 00 FF*7 0013 04 | BGP error 1/1
FF*9 00 FF*6 0013 04 | BGP error 1/1
FF*10 00 FF*5 0013 04 | BGP error 1/1
FF*11 00 FF*4 0013 04 | BGP error 1/1
FF*12 00 FF*3 0013 04 | BGP error 1/1
FF*13 00 FF*2 0013 04 | BGP error 1/1
FF*14 00 FF 0013 04 | BGP error 1/1
FF*15 00 0013 04 | BGP error 1/1
FF*15 FE 0014 06 | BGP error 1/1

The lengths in an UPDATE (sections 4.3 and 6.3): 0 + 5 + 23 is more than 27.
MARKER 002F 02 0000 0014 MANDATORY ROUTE | UPDATE +203.0.113.0/24
MARKER 0030 02 0000 0014 MANDATORY ROUTE | BGP error 1/2
MARKER 0033 02 0004 ROUTE 0014 MANDATORY ROUTE | UPDATE -203.0.113.0/24 +203.0.113.0/24
MARKER 001B 02 0000 0005 ORIGIN | BGP error 3/1
MARKER 001B 02 0000 0004 ORIGIN | UPDATE
MARKER 0018 02 0001 0000 00 | UPDATE -0.0.0.0/0
MARKER 0017 02 0001 0000 | BGP error 3/1
MARKER 0018 02 0002 080A 00 | BGP error 3/1

MP_UNREACH_NLRI alone; MP_REACH_NLRI, and no NEXT_HOP.
MARKER 001D 02 0000 0006 800F03000201 | UPDATE
MARKER 0028 02 0000 0011 ORIGIN AS_PATH 800E0100 | UPDATE

Each field lists its prefixes in order; bits behind a length don't count (section 4.3).
// | UPDATE
00 // | UPDATE -0.0.0.0/0
080A // | UPDATE -10.0.0.0/8
180A0000 // | UPDATE -10.0.0.0/24
0C0AFF // | UPDATE -10.240.0.0/12
0C0AF3 // | UPDATE -10.240.0.0/12
20C0000201 // | UPDATE -192.0.2.1/32
03E0 // | UPDATE -224.0.0.0/3
18C63364 080A 080A // | UPDATE -198.51.100.0/24 -10.0.0.0/8 -10.0.0.0/8
080A / MANDATORY / | UPDATE -10.0.0.0/8
080A / MANDATORY / 00 | UPDATE -10.0.0.0/8 +0.0.0.0/0
080A / MANDATORY / 080A | UPDATE -10.0.0.0/8 +10.0.0.0/8
080A / MANDATORY / 180A0000 | UPDATE -10.0.0.0/8 +10.0.0.0/24
080A / MANDATORY / 0C0AFF | UPDATE -10.0.0.0/8 +10.240.0.0/12
080A / MANDATORY / 0C0AF3 | UPDATE -10.0.0.0/8 +10.240.0.0/12
080A / MANDATORY / 20C0000201 | UPDATE -10.0.0.0/8 +192.0.2.1/32
080A / MANDATORY / 03E0 | UPDATE -10.0.0.0/8 +224.0.0.0/3
080A / MANDATORY / 18C63364 080A 080A | UPDATE -10.0.0.0/8 +198.51.100.0/24 +10.0.0.0/8 +10.0.0.0/8

Faults in their order (section 6.3): an unknown well-known attribute before an ORIGIN of 3.
/ 40630100 40010103 / | BGP error 3/2
Attributes before withdrawn routes, and these before nothing else. What closes comes before what is treated (RFC 7606).
21 / 40010103 / | BGP error 3/6 | BGP error 3/10
21 // | BGP error 3/10
18CB00 // | BGP error 3/10
A missing attribute before withdrawn routes and NLRI.
/ ORIGIN / ROUTE | BGP error 3/3 | TREATED +203.0.113.0/24
/ ORIGIN AS_PATH / ROUTE | BGP error 3/3 | TREATED +203.0.113.0/24
/ ORIGIN NEXT_HOP / ROUTE | BGP error 3/3 | TREATED +203.0.113.0/24
/ AS_PATH NEXT_HOP / ROUTE | BGP error 3/3 | TREATED +203.0.113.0/24
21 / ORIGIN / ROUTE | BGP error 3/3 | BGP error 3/10
/ ORIGIN / 21 | BGP error 3/3 | BGP error 3/10
080A / ORIGIN / | UPDATE -10.0.0.0/8
A type again before its value, and a value before octets left over.
/ ORIGIN 40010103 / | BGP error 3/1 | UPDATE
/ 40010103 40 / | BGP error 3/6 | BGP error 3/1
/ 40010103 / ROUTE | BGP error 3/6 | TREATED +203.0.113.0/24
/ 40010103 / 21 | BGP error 3/6 | BGP error 3/10
NLRI cut short, and of length 33.
/ MANDATORY / ROUTE 21 | BGP error 3/10
/ MANDATORY / 18CB00 | BGP error 3/10
An attribute that closes the session behind one whose routes are treated as withdrawn, and before one (RFC 7606).
080A / 40010103 / ROUTE 18C63364 | BGP error 3/6 | TREATED -10.0.0.0/8 +203.0.113.0/24 +198.51.100.0/24
080A 00 / 80060100 / ROUTE 080A | BGP error 3/4 | TREATED -10.0.0.0/8 -0.0.0.0/0 +203.0.113.0/24 +10.0.0.0/8
/ 40010103 40630100 / ROUTE | BGP error 3/6 | BGP error 3/2
/ 800F0100 40010103 800F0100 / ROUTE | BGP error 3/6 | BGP error 3/1

MULTI_EXIT_DISC with the Transitive bit, and of 3 octets.
/ MANDATORY C0040400000007 / | BGP error 3/4 | TREATED
/ MANDATORY C0040400000007 / ROUTE | BGP error 3/4 | TREATED +203.0.113.0/24
/ MANDATORY 800403000007 / | BGP error 3/5 | TREATED
/ MANDATORY 800403000007 / ROUTE | BGP error 3/5 | TREATED +203.0.113.0/24
ATOMIC_AGGREGATE of 1 octet, which RFC 7606 discards, and with the Optional bit.
/ MANDATORY 40060101 / | BGP error 3/5 | UPDATE
/ MANDATORY 40060101 / ROUTE | BGP error 3/5 | UPDATE +203.0.113.0/24
/ MANDATORY C00600 / | BGP error 3/4 | TREATED
/ MANDATORY C00600 / ROUTE | BGP error 3/4 | TREATED +203.0.113.0/24
AGGREGATOR of a two-octet AS number, which RFC 7606 discards, and without the Transitive bit.
/ MANDATORY C00706FBF5C0000201 / | BGP error 3/5 | UPDATE
/ MANDATORY C00706FBF5C0000201 / ROUTE | BGP error 3/5 | UPDATE +203.0.113.0/24
/ MANDATORY 8007080000FBF5C0000201 / | BGP error 3/4 | TREATED
/ MANDATORY 8007080000FBF5C0000201 / ROUTE | BGP error 3/4 | TREATED +203.0.113.0/24
COMMUNITIES without a value, of 5 octets, and without the Transitive bit.
/ MANDATORY C00800 / | BGP error 3/5 | TREATED
/ MANDATORY C00800 / ROUTE | BGP error 3/5 | TREATED +203.0.113.0/24
/ MANDATORY C008050000000700 / | BGP error 3/5 | TREATED
/ MANDATORY C008050000000700 / ROUTE | BGP error 3/5 | TREATED +203.0.113.0/24
/ MANDATORY 80080400000007 / | BGP error 3/4 | TREATED
/ MANDATORY 80080400000007 / ROUTE | BGP error 3/4 | TREATED +203.0.113.0/24
Unknown, and not Optional.
/ MANDATORY 40200100 / | BGP error 3/2
/ MANDATORY 40200100 / ROUTE | BGP error 3/2
A dropped type, and an unknown one, twice: RFC 7606 discards the second one, but for MP_REACH_NLRI.
/ MANDATORY 800E0100 800E0100 / | BGP error 3/1
/ MANDATORY 800E0100 800E0100 / ROUTE | BGP error 3/1
/ MANDATORY 80200100 80200100 / | BGP error 3/1 | UPDATE
/ MANDATORY 80200100 80200100 / ROUTE | BGP error 3/1 | UPDATE +203.0.113.0/24
Octets left over: one; a value that would reach into the NLRI; half a length of two octets.
/ MANDATORY 80 / | BGP error 3/1
/ MANDATORY 80 / ROUTE | BGP error 3/1
/ MANDATORY 80200200 / | BGP error 3/1
/ MANDATORY 80200200 / ROUTE | BGP error 3/1
/ MANDATORY 902000 / | BGP error 3/1
/ MANDATORY 902000 / ROUTE | BGP error 3/1
/ MANDATORY F0080100 / | BGP error 3/1
/ MANDATORY F0080100 / ROUTE | BGP error 3/1

ORIGIN: of 2 and 3, of two octets, and with the Optional bit. Extended Length may stand with any length.
/ ORIGIN AS_PATH NEXT_HOP / ROUTE | UPDATE +203.0.113.0/24
/ 40010102 AS_PATH NEXT_HOP / ROUTE | UPDATE +203.0.113.0/24
/ 40010103 AS_PATH NEXT_HOP / ROUTE | BGP error 3/6 | TREATED +203.0.113.0/24
/ 4001020000 AS_PATH NEXT_HOP / ROUTE | BGP error 3/5 | TREATED +203.0.113.0/24
/ C0010100 AS_PATH NEXT_HOP / ROUTE | BGP error 3/4 | TREATED +203.0.113.0/24
/ 5001000100 AS_PATH NEXT_HOP / ROUTE | UPDATE +203.0.113.0/24
AS_PATH: empty; two numbers where one is there; a segment of no number; one of a confederation; an octet behind it.
/ ORIGIN 400200 NEXT_HOP / ROUTE | UPDATE +203.0.113.0/24
/ ORIGIN 40020602020000FBF5 NEXT_HOP / ROUTE | BGP error 3/11 | TREATED +203.0.113.0/24
/ ORIGIN 4002020200 NEXT_HOP / ROUTE | BGP error 3/11 | TREATED +203.0.113.0/24
/ ORIGIN 40020603010000FBF5 NEXT_HOP / ROUTE | BGP error 3/11 | TREATED +203.0.113.0/24
/ ORIGIN 40020702010000FBF502 NEXT_HOP / ROUTE | BGP error 3/11 | TREATED +203.0.113.0/24
A segment of no number, and behind it a well-known attribute of the unknown type 64, which closes by RFC 7606.
/ ORIGIN 400202020000 NEXT_HOP / ROUTE | BGP error 3/11 | BGP error 3/2
NEXT_HOP: of 3 octets; 223.255.255.255, 127.0.0.1, 224.0.2.11, 255.255.255.255, 0.0.2.11.
/ ORIGIN AS_PATH 400303C00002 / ROUTE | BGP error 3/5 | TREATED +203.0.113.0/24
/ ORIGIN AS_PATH 400304DFFFFFFF / ROUTE | UPDATE +203.0.113.0/24
/ ORIGIN AS_PATH 4003047F000001 / ROUTE | UPDATE +203.0.113.0/24
/ ORIGIN AS_PATH 400304E000020B / ROUTE | BGP error 3/8 | TREATED +203.0.113.0/24
/ ORIGIN AS_PATH 400304FFFFFFFF / ROUTE | BGP error 3/8 | TREATED +203.0.113.0/24
/ ORIGIN AS_PATH 4003040000020B / ROUTE | BGP error 3/8 | TREATED +203.0.113.0/24
";

// Appends what a message says by a standard.
fn add_by(said: &mut Said, alloc: Global, errors: Errors, message: &[u8]) {
    add_answer(said, &read_message_by(alloc, errors, message));
}

// Appends what a message says by RFC 7606, where that is something else than what was said.
fn add_other(said: &mut Said, alloc: Global, message: &[u8]) {
    let mut other = Said::new(alloc);
    add_by(&mut other, alloc, Errors::Rfc7606, message);
    match other.text() {
        Some(other) if Some(other) != said.text() => said.add(format_args!(" | {other}")),
        Some(_) => {}
        None => said.refuse(),
    }
}

/// Appends what a message of a row says, by both standards where they differ.
pub fn say(said: &mut Said, alloc: Global, text: &str) {
    match message(alloc, text).whole() {
        Some(message) => {
            add_by(said, alloc, Errors::Rfc4271, message);
            add_other(said, alloc, message);
        }
        None => said.refuse(),
    }
}

#[test]
fn messages_say_what_the_standards_say(rt: HostRuntime) -> Result<(), Fail> {
    check_rows(rt.alloc(), Topic::Message, MESSAGES)
}

// The texts of a fault of each kind (RFC 4271, section 4.5).
const FAULTS: &str =
    "Connection Not Synchronized, Bad Message Length, Malformed Attribute List, Malformed AS_PATH, out of memory";

#[test]
fn each_fault_has_a_text_of_the_standard(rt: HostRuntime) -> Result<(), Fail> {
    let (marker, length) = (HeaderFault::NotSynchronized, HeaderFault::BadLength);
    let (list, path) = (
        UpdateFault::MalformedAttributeList,
        UpdateFault::MalformedAsPath,
    );
    let memory = MessageFault::Memory;
    let texts = format!(in rt.alloc(); "{marker}, {length}, {list}, {path}, {memory}")?;
    assert_eq!(rt; texts.as_str(), FAULTS);
    Ok(())
}
