//! How rows spell octets: in words, which are hexadecimal digits or names of some. `00*10` stands for ten such octets.

use rs_mrt::write_header;
use spelled_in_hex::octets;
use std::alloc::Global;

// The names of digits, first those for an UPDATE (RFC 4271, section 4.3):
// - The Marker of a header.
// - An attribute with its flags, type, length and value, which is IGP, 64501 or 192.0.2.11.
// - The three attributes together, and with an ORIGIN of 3.
// - The prefix 203.0.113.0/24.
//
// Those for a record (RFC 6396, section 4.4):
// - AS 64501 at 192.0.2.11 and the peers after it, recorded by AS 64500 at 192.0.2.1, interface 0, IPv4.
// - The first of these with two octets of AS number, and at an IPv6 address.
// - AS 4200000006 at 192.0.2.16, with four octets and with two.
//
// Those for messages behind their Marker:
// - An UPDATE that announces 203.0.113.0/24, and one that also announces 198.51.100.0/24 and withdraws 192.0.2.0/24.
// - An UPDATE with an ORIGIN that no standard knows.
// - An OPEN of AS 64501 with the BGP Identifier 192.0.2.111 and no parameter.
// - An OPEN of AS 4200000006, which doesn't fit into two octets, with the BGP Identifier 192.0.2.116. Its parameters
// list the capabilities of multiprotocol and of AS numbers of four octets.
// - A NOTIFICATION of Cease, Administrative Shutdown.
// - The other types.
const NAMES: &[(&str, &str)] = &[
    ("MARKER", "FFFFFFFF FFFFFFFF FFFFFFFF FFFFFFFF"),
    ("ORIGIN", "40010100"),
    ("AS_PATH", "40020602010000FBF5"),
    ("NEXT_HOP", "400304C000020B"),
    ("MANDATORY", "40010100 40020602010000FBF5 400304C000020B"),
    ("FAULTY", "40010103 40020602010000FBF5 400304C000020B"),
    ("ROUTE", "18CB0071"),
    ("of-64501", "0000FBF5 0000FBF4 0000 0001 C000020B C0000201"),
    ("of-64502", "0000FBF6 0000FBF4 0000 0001 C000020C C0000201"),
    ("of-64503", "0000FBF7 0000FBF4 0000 0001 C000020D C0000201"),
    ("of-64504", "0000FBF8 0000FBF4 0000 0001 C000020E C0000201"),
    ("of-two-octets", "FBF5 FBF4 0000 0001 C000020B C0000201"),
    (
        "of-ipv6",
        "0000FBF5 0000FBF4 0000 0002 20010DB8000000000000000000000011 20010DB8000000000000000000000001",
    ),
    (
        "of-4200000006",
        "FA56EA06 0000FBF4 0000 0001 C0000210 C0000201",
    ),
    ("of-as-trans", "5BA0 FBF4 0000 0001 C0000210 C0000201"),
    (
        "UPDATE",
        "002F 02 0000 0014 40010100 40020602010000FBF5 400304C000020B 18CB0071",
    ),
    (
        "CHANGES",
        "0037 02 0004 18C00002 0014 40010100 40020602010000FBF5 400304C000020B 18CB0071 18C63364",
    ),
    (
        "FAULTY_UPDATE",
        "002F 02 0000 0014 40010107 40020602010000FBF5 400304C000020B 18CB0071",
    ),
    ("OPEN", "001D 01 04 FBF5 005A C000026F 00"),
    (
        "OPEN-of-4200000006",
        "002D 01 04 5BA0 005A C0000274 10 0206 0104 00010001 0206 4104 FA56EA06",
    ),
    ("CEASE", "0015 03 0602"),
    ("KEEPALIVE", "0013 04"),
    ("REFRESH", "0017 05 00010001"),
    ("nothing", ""),
];

// The digits that a word stands for.
fn digits_of(word: &str) -> &str {
    for (name, digits) in NAMES {
        if word == *name {
            return digits;
        }
    }
    word
}

/// Octets that are spelled by words. They are not whole where a word spells none or memory was refused.
#[derive(Drop)]
pub struct Octets {
    alloc: Global,
    octets: Vec<u8>,
    is_whole: bool,
}

impl Octets {
    /// Nothing yet.
    pub fn new(alloc: Global) -> Octets {
        Octets {
            alloc,
            octets: Vec::new(alloc),
            is_whole: true,
        }
    }

    /// Appends octets.
    pub fn add(&mut self, octets: &[u8]) {
        if self.octets.extend_from_slice(octets).is_err() {
            self.is_whole = false;
        }
    }

    // Appends the octets that a word spells.
    fn add_word(&mut self, word: &str) {
        let (word, times) = word.split_once('*').unwrap_or((word, "1"));
        match (octets(self.alloc, &[digits_of(word)]), times.parse::<u32>()) {
            (Ok(octets), Ok(times)) => {
                for _ in 0..times {
                    self.add(&octets);
                }
            }
            _ => self.is_whole = false,
        }
    }

    /// Appends the octets that words spell.
    pub fn spell(&mut self, words: &str) {
        for word in words.split_whitespace() {
            self.add_word(word);
        }
    }

    /// How many octets words spell.
    pub fn len_of(&mut self, words: &str) -> usize {
        let spelled = spelled(self.alloc, words);
        if !spelled.is_whole {
            self.is_whole = false;
        }
        spelled.octets.len()
    }

    /// Appends the header of a record.
    pub fn add_header(&mut self, time: u32, kind: u16, subtype: u16, len: u32) {
        if write_header(&mut self.octets, time, kind, subtype, len).is_err() {
            self.is_whole = false;
        }
    }

    /// What was spelled, if that is whole.
    pub fn whole(&self) -> Option<&[u8]> {
        if self.is_whole {
            return Some(&self.octets);
        }
        None
    }
}

/// The octets that words spell.
pub fn spelled(alloc: Global, words: &str) -> Octets {
    let mut octets = Octets::new(alloc);
    octets.spell(words);
    octets
}
