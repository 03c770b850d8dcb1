//! What is left out of the sessions that a table begins, by reason.

ghost use Rattle.std.specs.Prelude.{◌≡◌, ◌∷◌, [], Some};
ghost use Rattle.rs_start.specs.Counting.{Counted, GrowsBy, one_if};
ghost use Rattle.rs_start.specs.Counting.{is_add_path, is_generic, is_ipv4_multicast, is_ipv6, is_other, is_two_octet};

use crate::added::{Added, Reason};
use crate::part::TABLE_DUMP_V2;

/// How many entries of a peer there are, by what became of them.
#[derive(Clone, Copy, Debug, PartialEq, Eq, Drop)]
pub struct Counts {
    /// Announced in the session.
    pub written: u64,
    /// Left out, since their prefix is multicast.
    pub multicast: u64,
    /// Left out, since no message holds their path attributes beside their prefix.
    pub too_long: u64,
    /// Left out, since their path attributes are at fault.
    pub at_fault: u64,
    /// Left out, since no session of the peer is written.
    pub unwritten: u64,
}

impl Counts {
    /// No entry.
    pub fn none() -> Counts {
        Counts {
            written: 0,
            multicast: 0,
            too_long: 0,
            at_fault: 0,
            unwritten: 0,
        }
    }

    // Counts an entry.
    pub(crate) fn add(&mut self, added: Added)
        ensures { Counted self.old self.new (Some added ∷ []) }
    {
        match added {
            Added::Written => grow(&mut self.written),
            Added::LeftOut(Reason::Multicast) => grow(&mut self.multicast),
            Added::LeftOut(Reason::TooLong) => grow(&mut self.too_long),
            Added::LeftOut(Reason::AttributesAtFault) => grow(&mut self.at_fault),
        }
    }
}

/// How many records of a table, and entries of no peer, are left out (RFC 6396, sections 4.2 and 4.3; RFC 8050).
#[derive(Clone, Copy, Debug, PartialEq, Eq, Drop)]
pub struct LeftOut {
    /// Records of TABLE_DUMP, whose peers have AS numbers of two octets.
    pub two_octet: u64,
    /// Records of IPv6 prefixes.
    pub ipv6: u64,
    /// Records of RIB_IPV4_MULTICAST.
    pub multicast: u64,
    /// Records of RIB_GENERIC.
    pub generic: u64,
    /// Records with ADD-PATH.
    pub add_path: u64,
    /// Records of other Types and Subtypes.
    pub other: u64,
    /// Entries of peers that the index does not have.
    pub unknown_peer: u64,
}

// The Type of older tables (RFC 6396, section 4).
const TABLE_DUMP: u16 = 12;

// Subtypes of TABLE_DUMP_V2 (RFC 6396, section 4.3; RFC 8050, section 4).
const RIB_IPV4_MULTICAST: u16 = 3;

const RIB_IPV6_UNICAST: u16 = 4;

const RIB_IPV6_MULTICAST: u16 = 5;

const RIB_GENERIC: u16 = 6;

const FIRST_ADD_PATH: u16 = 8;

const LAST_ADD_PATH: u16 = 12;

impl LeftOut {
    /// Nothing.
    pub fn nothing() -> LeftOut {
        LeftOut {
            two_octet: 0,
            ipv6: 0,
            multicast: 0,
            generic: 0,
            add_path: 0,
            other: 0,
            unknown_peer: 0,
        }
    }

    // Counts a record that is neither an index nor has routes of an IPv4 unicast prefix.
    pub(crate) fn add(&mut self, kind: u16, subtype: u16)
        ensures two_octet { GrowsBy self.old.two_octet self.new.two_octet (one_if (is_two_octet kind subtype)) }
        ensures ipv6 { GrowsBy self.old.ipv6 self.new.ipv6 (one_if (is_ipv6 kind subtype)) }
        ensures multicast { GrowsBy self.old.multicast self.new.multicast (one_if (is_ipv4_multicast kind subtype)) }
        ensures generic { GrowsBy self.old.generic self.new.generic (one_if (is_generic kind subtype)) }
        ensures add_path { GrowsBy self.old.add_path self.new.add_path (one_if (is_add_path kind subtype)) }
        ensures other { GrowsBy self.old.other self.new.other (one_if (is_other kind subtype)) }
        ensures unknown_peer { self.new.unknown_peer ≡ self.old.unknown_peer }
    {
        match (kind, subtype) {
            (TABLE_DUMP, _) => grow(&mut self.two_octet),
            (TABLE_DUMP_V2, RIB_IPV6_UNICAST | RIB_IPV6_MULTICAST) => grow(&mut self.ipv6),
            (TABLE_DUMP_V2, RIB_IPV4_MULTICAST) => grow(&mut self.multicast),
            (TABLE_DUMP_V2, RIB_GENERIC) => grow(&mut self.generic),
            (TABLE_DUMP_V2, FIRST_ADD_PATH..=LAST_ADD_PATH) => grow(&mut self.add_path),
            _ => grow(&mut self.other),
        }
    }
}

// Counts one more. Our choice: a count stays at the greatest number.
pub(crate) fn grow(count: &mut u64)
    ensures { GrowsBy count.old count.new 1 }
{
    *count = count.saturating_add(1);
}
