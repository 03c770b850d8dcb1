//! Each attribute of a list alone, and before each of them, behind what is mandatory. The tests look at what an UPDATE
//! with them says by RFC 4271 and by RFC 7606, and at how its attributes are written. See RFC 4271, sections 4.3 and
//! 6.3; RFC 7606, sections 3 and 7.

use super::*;

// An attribute: its flags, type and length, and its value; the subcode of its fault by itself, 0 where it has none;
// and how it is written where it is kept.
const ATTRIBUTES: &str = "
ORIGIN: 1, 3, of two octets, with the Optional bit.
400101 01 | 0 | 40010101
400101 03 | 6 |
400102 0000 | 5 |
C00101 00 | 4 |
AS_PATH: empty, of two numbers with the Partial bit, of one number too few, of a confederation, of a segment without a
number, without the Transitive bit.
400200 | 0 | 400200
60020A 0202 0000FBF5 0000FDF2 | 0 | 40020A 0202 0000FBF5 0000FDF2
400206 0202 0000FBF5 | 11 |
400206 0301 0000FBF5 | 11 |
400202 0200 | 11 |
000200 | 4 |
NEXT_HOP: 223.0.2.11, 224.0.2.11, 0.0.2.11, of three octets, optional and not transitive.
400304 DF00020B | 0 | 400304 DF00020B
400304 E000020B | 8 |
400304 0000020B | 8 |
400303 C00002 | 5 |
800304 C000020B | 4 |
MULTI_EXIT_DISC: 7, of three octets, with the Transitive bit.
800404 00000007 | 0 | 800404 00000007
800403 000007 | 5 |
C00404 00000007 | 4 |
LOCAL_PREF is dropped, whatever it has.
000501 00 | 0 |
ATOMIC_AGGREGATE: of no octets, of one, with the Optional bit, and of one octet with that bit alone.
400600 | 0 | 400600
400601 00 | 5 |
C00600 | 4 |
800601 00 | 4 |
AGGREGATOR: of eight octets, of six, with the Partial bit, without the Transitive bit, of six without the Optional bit.
C00708 0000FBF5 C0000201 | 0 | C00708 0000FBF5 C0000201
E00706 FBF5 C0000201 | 5 |
E00708 0000FBF5 C0000201 | 0 | E00708 0000FBF5 C0000201
800708 0000FBF5 C0000201 | 4 |
400706 FBF5 C0000201 | 4 |
COMMUNITIES: two, one with the Partial bit and low bits, none, of five octets, without the Transitive bit.
C00808 FBF4FBF6 FDE80001 | 0 | C00808 FBF4FBF6 FDE80001
EF0804 00000007 | 0 | E00804 00000007
C00800 | 5 |
C00805 0000000700 | 5 |
800804 00000007 | 4 |
MP_REACH_NLRI, MP_UNREACH_NLRI, AS4_PATH and AS4_AGGREGATOR are dropped, whatever they have.
800E01 00 | 0 |
000F00 | 0 |
C01101 00 | 0 |
001201 00 | 0 |
Unknown types: transitive, not transitive, not Optional; the greatest one; the least one, not Optional.
C02001 07 | 0 | E02001 07
802001 07 | 0 |
402001 07 | 2 |
E0FF00 | 0 | E0FF00
200000 | 2 |
";

// An attribute of that list.
#[derive(Clone, Copy, Drop)]
struct Sample<'a> {
    received: &'a str,
    kind: u8,
    fault: u8,
    written: &'a str,
}

// What stands behind an attribute that is alone: nothing. No attribute of the list has this type.
const NOTHING: Sample<'static> = Sample {
    received: "",
    kind: 254,
    fault: 0,
    written: "",
};

// The attribute that is received so, with its fault and what is written of it.
fn read_sample<'a>(alloc: Global, received: &'a str, behind: &'a str) -> Option<Sample<'a>> {
    let (fault, written) = behind.split_once(" |")?;
    let kind = *spelled(alloc, received).whole()?.get(1)?;
    Some(Sample {
        received,
        kind,
        fault: fault.parse().ok()?,
        written,
    })
}

// The attributes of the list, without those for which memory is refused.
fn samples(alloc: Global) -> Vec<Sample<'static>> {
    let mut samples = Vec::new(alloc);
    for row in ATTRIBUTES.lines() {
        let (received, behind) = row.split_once(" | ").unwrap_or((row, ""));
        if let Some(sample) = read_sample(alloc, received, behind) {
            let _ = samples.push(sample);
        }
    }
    samples
}

// Two attributes, one behind the other.
#[derive(Clone, Copy)]
struct Pair<'a> {
    first: Sample<'a>,
    second: Sample<'a>,
}

// Whether RFC 7606 treats the routes of an attribute at fault as withdrawn: it discards two that have a bad length.
fn withdraws(one: Sample<'_>) -> bool {
    one.fault != 0 && !(one.fault == 5 && (one.kind == 6 || one.kind == 7))
}

impl<'a> Pair<'a> {
    // Whether the type of the first one is repeated.
    fn is_repeated(self) -> bool {
        self.first.kind == self.second.kind
    }

    // The subcode by which the two close the session by RFC 4271: the first fault.
    fn closes_by_rfc_4271(self) -> u8 {
        if self.first.fault != 0 {
            self.first.fault
        } else if self.is_repeated() {
            1
        } else {
            self.second.fault
        }
    }

    // The same by RFC 7606: an unknown well-known attribute, and a repeated MP_REACH_NLRI or MP_UNREACH_NLRI.
    fn closes_by_rfc_7606(self) -> u8 {
        if self.first.fault == 2 {
            2
        } else if self.is_repeated() {
            u8::from(self.first.kind == 14 || self.first.kind == 15)
        } else if self.second.fault == 2 {
            2
        } else {
            0
        }
    }

    // The subcode that closes the session by a standard, and whether the routes are treated as withdrawn.
    fn comes_to(self, errors: Errors) -> (u8, bool) {
        match errors {
            Errors::Rfc4271 => (self.closes_by_rfc_4271(), false),
            Errors::Rfc7606 => (
                self.closes_by_rfc_7606(),
                withdraws(self.first) || !self.is_repeated() && withdraws(self.second),
            ),
        }
    }

    // A mandatory attribute with its type, unless one of the two is of that type.
    fn mandatory(self, kind: u8, name: &'a str) -> (u8, &'a str) {
        if self.first.kind == kind || self.second.kind == kind {
            (kind, "")
        } else {
            (kind, name)
        }
    }

    // The mandatory attributes that stand before the two.
    fn before(self) -> [(u8, &'a str); 3] {
        [
            self.mandatory(1, "ORIGIN"),
            self.mandatory(2, "AS_PATH"),
            self.mandatory(3, "NEXT_HOP"),
        ]
    }

    // Appends the octets that are written if the routes stand: the first of each type, in ascending type.
    fn add_written(self, said: &mut Said, alloc: Global) {
        let second = if self.is_repeated() {
            ""
        } else {
            self.second.written
        };
        let [origin, path, next_hop] = self.before();
        let mut pieces = [
            origin,
            path,
            next_hop,
            (self.first.kind, self.first.written),
            (self.second.kind, second),
        ];
        pieces.sort_unstable();
        let mut written = Octets::new(alloc);
        for (_, piece) in pieces {
            written.spell(piece);
        }
        match written.whole() {
            Some(written) => said.add(format_args!(" {written:?}")),
            None => said.refuse(),
        }
    }

    // Appends the path attributes of an UPDATE with the two.
    fn add_section(self, said: &mut Said) {
        let [(_, origin), (_, path), (_, next_hop)] = self.before();
        let (first, second) = (self.first.received, self.second.received);
        said.add(format_args!("{origin} {path} {next_hop} {first} {second}"));
    }

    // Appends what an UPDATE with the two says by a standard, with these routes: what is written too, where they stand.
    fn add_wanted(self, said: &mut Said, alloc: Global, errors: Errors, routes: &str) {
        match self.comes_to(errors) {
            (0, true) => said.add(format_args!("TREATED{routes}")),
            (0, false) => {
                said.add(format_args!("UPDATE{routes}"));
                if !routes.is_empty() {
                    self.add_written(said, alloc);
                }
            }
            (subcode, _) => said.add(format_args!("BGP error 3/{subcode}")),
        }
    }
}

// Appends what is written of attributes.
fn add_written(alloc: Global, said: &mut Said, attributes: &Attributes) {
    let mut written = Vec::new(alloc);
    match write_attributes(attributes, &mut written) {
        Ok(()) => said.add(format_args!(" {written:?}")),
        Err(_) => said.refuse(),
    }
}

// Appends what a message says by a standard, and what is written of its attributes, where it has any.
fn add_found(said: &mut Said, alloc: Global, errors: Errors, message: &Octets) {
    let Some(message) = message.whole() else {
        return said.refuse();
    };
    let read = read_message_by(alloc, errors, message);
    add_answer(said, &read);
    if let Ok(
        Message::Update(
            Update {
                attributes: Some(attributes),
                ..
            },
        ),
    ) = &read
    {
        add_written(alloc, said, attributes);
    }
}

// Appends what an UPDATE with a pair says by a standard, where that is not what it is to say.
fn add_wrong(
    wrong: &mut Said,
    alloc: Global,
    pair: Pair<'_>,
    (errors, nlri, routes): (Errors, &str, &str),
) {
    let (mut section, mut found) = (Said::new(alloc), Said::new(alloc));
    let mut wanted = Said::new(alloc);
    pair.add_section(&mut section);
    let section = section.text().unwrap_or("");
    add_found(&mut found, alloc, errors, &update(alloc, "", section, nlri));
    pair.add_wanted(&mut wanted, alloc, errors, routes);
    compare(wrong, &found, wanted.text().unwrap_or(""), section);
}

// Appends what UPDATEs with a pair say, without a route and with one, where that is not what they are to say.
fn check_pair(wrong: &mut Said, alloc: Global, pair: Pair<'_>) {
    for errors in [Errors::Rfc4271, Errors::Rfc7606] {
        add_wrong(wrong, alloc, pair, (errors, "", ""));
        add_wrong(wrong, alloc, pair, (errors, "ROUTE", " +203.0.113.0/24"));
    }
}

// The same of UPDATEs with an attribute: alone, and before each of the list.
fn check_first(wrong: &mut Said, alloc: Global, first: Sample<'_>, list: &[Sample<'_>]) {
    let second = NOTHING;
    check_pair(wrong, alloc, Pair { first, second });
    for second in list {
        let second = *second;
        check_pair(wrong, alloc, Pair { first, second });
    }
}

#[test]
fn each_attribute_alone_and_before_each_other(rt: HostRuntime) -> Result<(), Fail> {
    let samples = samples(rt.alloc());
    assert_eq!(rt; samples.len(), 42);
    let mut wrong = Said::new(rt.alloc());
    for first in &samples {
        check_first(&mut wrong, rt.alloc(), *first, &samples);
    }
    wrong.nothing()
}
