//! Which messages may concern 203.0.113.0/24, by either standard of handling faults (RFC 4271, sections 6 and
//! 9.1.4; RFC 7606, sections 2 and 3).

use super::prefixes::narrow;
use super::*;
use rs_update::concerns_prefix;

// A message, and whether it may concern the prefix by RFC 4271 and by RFC 7606.
const MESSAGES: &str = "
Nothing; the prefix announced, and withdrawn.
// | false false
/ MANDATORY / 18CB0071 | true true
18CB0071 // | true true
Less specific prefixes concern it: 203.0.0.0/16 announced, the default route withdrawn.
/ MANDATORY / 10CB00 | true true
00 // | true true
A more specific one, its neighbour, and others of 16 bits don't.
/ MANDATORY / 19CB007100 | false false
/ MANDATORY / 18CB0070 | false false
10CB01 / MANDATORY / 10CA00 | false false
A cover behind others, announced and withdrawn.
/ MANDATORY / 18CB0070 080A 17CB0070 | true true
18CB0070 00 / MANDATORY / 080A | true true
No NEXT_HOP, no AS_PATH, no ORIGIN; no attributes, and nothing announced.
/ ORIGIN AS_PATH / 080A | true false
/ ORIGIN NEXT_HOP / 080A | true false
/ AS_PATH NEXT_HOP / 080A | true false
080A // | false false
An ORIGIN of 3; with the prefix, which is treated as withdrawn.
080A / 40010103 / | true false
/ 40010103 / 18CB0071 | true true
A repeated ORIGIN; a repeated MP_REACH_NLRI.
080A / ORIGIN ORIGIN / | true false
/ 800E0100 800E0100 / | true true
An unknown well-known attribute; an octet behind the attributes.
/ 40200100 / | true true
080A / ORIGIN 40 / | true true
Withdrawn routes of 33 bits; NLRI cut short, also behind a cover.
21 // | true true
/ MANDATORY / 080A 18CB00 | true true
/ MANDATORY / 00 18CB00 | true true
A KEEPALIVE, a ROUTE-REFRESH, an unknown type, half a header.
MARKER 0013 04 | true true
MARKER 0017 05 00010001 | true true
MARKER 0013 06 | true true
MARKER 00 | true true
An UPDATE of nothing; withdrawn routes past the end, and attributes.
MARKER 0017 02 0000 0000 | false false
MARKER 0017 02 0001 0000 | true true
MARKER 0017 02 0000 0001 | true true
";

/// Appends whether a message may concern the prefix, by both standards.
pub fn say(said: &mut Said, alloc: Global, text: &str) {
    let message = message(alloc, text);
    let (Some(message), Some(prefix)) = (message.whole(), narrow()) else {
        return said.refuse();
    };
    let by_rfc_4271 = concerns_prefix(Errors::Rfc4271, message, prefix);
    let by_rfc_7606 = concerns_prefix(Errors::Rfc7606, message, prefix);
    said.add(format_args!("{by_rfc_4271} {by_rfc_7606}"));
}

#[test]
fn messages_that_may_concern_a_prefix(rt: HostRuntime) -> Result<(), Fail> {
    check_rows(rt.alloc(), Topic::Concern, MESSAGES)
}
