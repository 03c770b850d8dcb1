//! What a route's attributes say, and how they are written (RFC 4271, sections 4.3, 5 and 9.1.2.2; RFC 1997; RFC
//! 6793).

use super::*;

// Path attributes of a route, and what they say, in three parts:
// - ORIGIN, NEXT_HOP, the MED as received and as compared, whether ATOMIC_AGGREGATE is there, AGGREGATOR, and how
// long they are in writing.
// - AS_PATH, its length, the neighbour AS if the sending peer's is 64501, and which of some AS numbers it has.
// - The communities, and which of some communities are among them; the attributes of unknown type.
const ROUTES: &str = "
Attributes of every kind: an AS_SET counts 1, and gives no neighbour.
40010101 400210 0102 0000FBF7 0000FBF8 0201 0000FDF2 NEXT_HOP 80040400000007 400600 E00708 0000FBF5 C0000201 \
    C00808 FBF4FBF6 FDE80001 C0200107 \
    | Egp 192.0.2.11 Some(7) 7 true Some(Aggregator { asn: 64501, address: 3221225985, partial: true }) 66; \
    Set([64503, 64504]) Sequence([65010]) length 2 neighbour 64501 holds 64503 64504 65010; \
    2 communities, partial false, 64500:64502 65000:1 found 64500:64502 64500:* 65000:1 65000:*; 32 [7]
What was not received is not there.
MANDATORY \
    | Igp 192.0.2.11 None 0 false None 20; Sequence([64501]) length 1 neighbour 64501 holds 64501; none;
AS_PATH: empty; a sequence; a set; a set before a sequence; a set of three before a sequence; a sequence before a set.
ORIGIN 400200 NEXT_HOP \
    | Igp 192.0.2.11 None 0 false None 14; length 0 neighbour 64501 holds; none;
ORIGIN 40020A 0202 0000FBF6 0000FDF2 NEXT_HOP \
    | Igp 192.0.2.11 None 0 false None 24; Sequence([64502, 65010]) length 2 neighbour 64502 holds 64502 65010; none;
ORIGIN 40020A 0102 0000FBF6 0000FDF2 NEXT_HOP \
    | Igp 192.0.2.11 None 0 false None 24; Set([64502, 65010]) length 1 neighbour 64501 holds 64502 65010; none;
ORIGIN 400210 0102 0000FBF6 0000FDF2 0201 0000FDF3 NEXT_HOP \
    | Igp 192.0.2.11 None 0 false None 30; Set([64502, 65010]) Sequence([65011]) length 2 neighbour 64501 holds 64502 65010; none;
ORIGIN 400218 0103 0000FDF2 0000FDF3 0000FDF4 0202 0000FDF5 0000FDF6 NEXT_HOP \
    | Igp 192.0.2.11 None 0 false None 38; Set([65010, 65011, 65012]) Sequence([65013, 65014]) length 3 neighbour 64501 holds 65010; none;
ORIGIN 400210 0201 0000FBF6 0102 0000FDF2 0000FDF3 NEXT_HOP \
    | Igp 192.0.2.11 None 0 false None 30; Sequence([64502]) Set([65010, 65011]) length 2 neighbour 64502 holds 64502 65010; none;
A MED of 0 is there, and is compared as one that is not; COMMUNITIES with the Partial bit; AGGREGATOR without it.
MANDATORY 80040400000000 \
    | Igp 192.0.2.11 Some(0) 0 false None 27; Sequence([64501]) length 1 neighbour 64501 holds 64501; none;
MANDATORY C00708 0000FBF5 C0000201 E00804 FBF60001 \
    | Igp 192.0.2.11 None 0 false Some(Aggregator { asn: 64501, address: 3221225985, partial: false }) 38; \
    Sequence([64501]) length 1 neighbour 64501 holds 64501; 1 communities, partial true, 64502:1 found 64502:*;
";

// The AS numbers and the communities that are asked for.
const ASKED_NUMBERS: [u32; 5] = [64501, 64502, 64503, 64504, 65010];

const ASKED_COMMUNITIES: [(u32, u32); 6] = [
    (64500, 64502),
    (65000, 1),
    (64502, 64500),
    (0, 0xFBF4_FBF6),
    (0, 0),
    (1, 65000),
];

// Appends ORIGIN, NEXT_HOP, MED, ATOMIC_AGGREGATE, AGGREGATOR, and how long all are in writing.
fn add_values(said: &mut Said, attributes: &Attributes) {
    let next_hop = Ipv4Addr::from_bits(attributes.next_hop());
    let (origin, med) = (attributes.origin(), attributes.med());
    let (compared, atomic) = (attributes.compared_med(), attributes.atomic());
    let (aggregator, len) = (attributes.aggregator(), attributes.written_len());
    said.add(format_args!(
        "{origin:?} {next_hop} {med:?} {compared} {atomic} {aggregator:?} {len};"
    ));
}

// Appends the segments of AS_PATH.
fn add_path(alloc: Global, said: &mut Said, attributes: &Attributes) {
    for segment in attributes.path() {
        match segment.to_segment(alloc) {
            Ok(segment) => said.add(format_args!(" {segment:?}")),
            Err(_) => said.refuse(),
        }
    }
}

// Appends how long AS_PATH is, the neighbour AS, and what it holds of the AS numbers that are asked for.
fn add_length(said: &mut Said, attributes: &Attributes) {
    let (length, neighbour) = (attributes.path_length(), attributes.neighbour(64501));
    said.add(format_args!(" length {length} neighbour {neighbour} holds"));
    for asn in ASKED_NUMBERS {
        if attributes.holds_as(asn) {
            said.add(format_args!(" {asn}"));
        }
    }
    said.add(";");
}

// Appends communities by their halves.
fn add_halves(said: &mut Said, communities: &[u32]) {
    for value in communities {
        let (high, low) = (value / 65536, value % 65536);
        said.add(format_args!(" {high}:{low}"));
    }
}

// Appends the communities.
fn add_communities(alloc: Global, said: &mut Said, attributes: &Attributes) {
    let Some(communities) = attributes.communities() else {
        return said.add(" none");
    };
    let (count, partial) = (communities.values.len(), communities.partial);
    said.add(format_args!(" {count} communities, partial {partial},"));
    match communities.values.to_vec(alloc) {
        Ok(values) => add_halves(said, &values),
        Err(_) => said.refuse(),
    }
    said.add(" found");
}

// Appends the communities that are found of those that are asked for, and the AS numbers of which any is.
fn add_found(said: &mut Said, attributes: &Attributes) {
    for (high, low) in ASKED_COMMUNITIES {
        if attributes.has_community(high, low) {
            said.add(format_args!(" {high}:{low}"));
        }
        if attributes.has_community_of(high) {
            said.add(format_args!(" {high}:*"));
        }
    }
    said.add(";");
}

// Appends the attributes of unknown type.
fn add_others(said: &mut Said, attributes: &Attributes) {
    for other in attributes.others() {
        let (kind, value) = (other.kind, other.value);
        said.add(format_args!(" {kind} {value:?}"));
    }
}

// Appends what a route's attributes say.
fn add_all(said: &mut Said, alloc: Global, attributes: &Attributes) {
    add_values(said, attributes);
    add_path(alloc, said, attributes);
    add_length(said, attributes);
    add_communities(alloc, said, attributes);
    add_found(said, attributes);
    add_others(said, attributes);
}

/// Appends what the attributes of a route say.
pub fn say(said: &mut Said, alloc: Global, section: &str) {
    match route(alloc, section) {
        Some(attributes) => add_all(said, alloc, &attributes),
        None => said.add("no route"),
    }
}

// A message, with faults handled by RFC 7606 where RFC 4271 finds one.
fn read(alloc: Global, message: &[u8]) -> Result<Message, MessageFault> {
    match read_message(alloc, message) {
        Ok(message) => Ok(message),
        Err(_) => read_message_by(alloc, Errors::Rfc7606, message),
    }
}

// The attributes of a route with these path attributes.
fn route(alloc: Global, section: &str) -> Option<Attributes> {
    standing(read(alloc, update(alloc, "", section, "ROUTE").whole()?))
}

#[test]
fn attributes_say_what_was_received(rt: HostRuntime) -> Result<(), Fail> {
    check_rows(rt.alloc(), Topic::Route, ROUTES)
}

// Path attributes as received, and as written.
const WRITTEN: &str = "
Dropped: LOCAL_PREF, MP_REACH_NLRI, AS4_PATH, AS4_AGGREGATOR, and an unknown attribute that isn't transitive.
MANDATORY 4005020000 -> MANDATORY | so
MANDATORY 800E0100 -> MANDATORY | so
MANDATORY C0110100 -> MANDATORY | so
MANDATORY C0120100 -> MANDATORY | so
MANDATORY 80200100 -> MANDATORY | so
An unknown attribute that is, with the Partial bit and without it.
MANDATORY E0200100 -> MANDATORY E0200100 | so
MANDATORY C0200100 -> MANDATORY E0200100 | so
The low bits of the flags, and a length of two octets without need.
MANDATORY 8F040400000007 -> MANDATORY 80040400000007 | so
MANDATORY 9004000400000007 -> MANDATORY 80040400000007 | so
4F010100 5F02000602010000FBF5 400304C000020B -> MANDATORY | so
In ascending type, the Partial bits as received.
NEXT_HOP AS_PATH ORIGIN -> MANDATORY | so
MANDATORY E007080000FBF5C0000201 400600 -> MANDATORY 400600 E007080000FBF5C0000201 | so
MANDATORY C007080000FBF5C0000201 -> MANDATORY C007080000FBF5C0000201 | so
MANDATORY E00804FBF4FBF6 -> MANDATORY E00804FBF4FBF6 | so
MANDATORY C0630107 806200 C00900 C0080400000001 80040400000007 -> MANDATORY 80040400000007 C0080400000001 E00900 E0630107 | so
Type 0 comes first.
NEXT_HOP E0000108 AS_PATH ORIGIN -> E0000108 MANDATORY | so
63 communities, and 64 with the Partial bit.
MANDATORY D00800FC FB*252 -> MANDATORY C008FC FB*252 | so
MANDATORY F0080100 FB*256 -> MANDATORY F0080100 FB*256 | so
Attributes that other peers sent pass unchanged, but for LOCAL_PREF and a Partial bit.
ORIGIN 40020A02020000FBF50000FDF2 NEXT_HOP 80040400000007 400504000000C8 C00808FBF4FBF6FDE80001 C0200C0000FDE80000000100000002 \
    -> ORIGIN 40020A02020000FBF50000FDF2 NEXT_HOP 80040400000007 C00808FBF4FBF6FDE80001 E0200C0000FDE80000000100000002 | so
What RFC 7606 discards is as though not received, also where the type of a discarded one is repeated.
ORIGIN 40010103 AS_PATH NEXT_HOP -> MANDATORY | so
40010101 AS_PATH NEXT_HOP C007060000FBF5C000 -> 40010101 AS_PATH NEXT_HOP | so
4F010101 AS_PATH NEXT_HOP 40060100 400600 C007060000FBF5C000 C007080000FBF5C0000201 -> 40010101 AS_PATH NEXT_HOP | so
C0200107 40010101 AS_PATH C0200108 NEXT_HOP 40200109 80040400000007 80040400000008 -> 40010101 AS_PATH NEXT_HOP 80040400000007 E0200107 | so
";

// Appends what is written of a route with these path attributes, where that is something else than what is wanted.
fn add_other(said: &mut Said, alloc: Global, section: &str, wanted: Option<&[u8]>) {
    let mut written = Vec::new(alloc);
    let is_written = match route(alloc, section) {
        Some(attributes) => write_attributes(&attributes, &mut written).is_ok(),
        None => false,
    };
    if !is_written || Some(written.as_slice()) != wanted {
        said.add(format_args!(", but {section} is {written:?}"));
    }
}

/// Appends that a route is written so, and once more as what was written, or how it is.
pub fn say_of_writing(said: &mut Said, alloc: Global, text: &str) {
    let (section, wanted) = text.split_once(" -> ").unwrap_or((text, ""));
    let octets = spelled(alloc, wanted);
    said.add("so");
    add_other(said, alloc, section, octets.whole());
    add_other(said, alloc, wanted, octets.whole());
}

#[test]
fn attributes_are_written_in_ascending_type(rt: HostRuntime) -> Result<(), Fail> {
    check_rows(rt.alloc(), Topic::Written, WRITTEN)
}

// What is written of attributes of 20 octets behind an octet, and whether there is no more room for it than there was.
fn written_behind(alloc: Global, attributes: &Attributes) -> Option<(Vec<u8>, bool)> {
    let mut out = Vec::with_capacity(alloc, 21).ok()?;
    out.push(7).ok()?;
    let room = out.capacity();
    write_attributes(attributes, &mut out).ok()?;
    let is_same = out.capacity() == room;
    Some((out, is_same))
}

#[test]
fn writing_needs_no_memory_where_there_is_room(rt: HostRuntime) -> Result<(), Fail> {
    let attributes = route(rt.alloc(), "MANDATORY").ok_or("a route")?;
    let (written, is_same) = written_behind(rt.alloc(), &attributes).ok_or("memory")?;
    let wanted = spelled(rt.alloc(), "07 MANDATORY");
    assert_eq!(rt; (Some(written.as_slice()), is_same), (wanted.whole(), true));
    Ok(())
}
