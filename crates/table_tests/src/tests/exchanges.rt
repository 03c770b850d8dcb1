//! Exchanges as text: the server, its peers, and the attributes of routes.
//!
//! An exchange is the server's AS and its subnet, if it has one, and behind each semicolon a peer: its name, AS,
//! address, BGP Identifier and preference, which is 100 if none stands, and the names from which it refuses routes.
//! Behind the subnet stands `large` if large communities count. Behind the last peer stand `import` and the import
//! policy, if there is one (module `import`). The server's address is 192.0.2.1. The attributes of a route are words,
//! which WORDS spells.

ghost use Rattle.std.specs.Prelude.{◌<◌, IfSome, length};

use super::import::policy;
use rs_choice::{Exchange, Local, PeerSpec, PlanFault};
use rs_update::{Attributes, Prefix};
use std::alloc::Global;
use std::net::Ipv4Addr;
use std::sync::Arc;

// Path attributes by the words of rows (RFC 4271, section 4.3).
const WORDS: &str = "
# ORIGIN (section 5.1.1).
igp = 40010100
egp = 40010101
incomplete = 40010102

# AS_PATH (section 5.1.2), of AS numbers of four octets (RFC 6793); an AS_SET stands in braces.
no-path = 400200
64500 = 400206 0201 0000FBF4
64501 = 400206 0201 0000FBF5
64502 = 400206 0201 0000FBF6
64503 = 400206 0201 0000FBF7
64501-64500 = 40020A 0202 0000FBF5 0000FBF4
64501-{64500} = 40020C 0201 0000FBF5 0101 0000FBF4
64501-{65010} = 40020C 0201 0000FBF5 0101 0000FDF2
64501-65009 = 40020A 0202 0000FBF5 0000FDF1
64501-65010 = 40020A 0202 0000FBF5 0000FDF2
64501-65011 = 40020A 0202 0000FBF5 0000FDF3
64501-65012 = 40020A 0202 0000FBF5 0000FDF4
65010-64501 = 40020A 0202 0000FDF2 0000FBF5
64502-65010 = 40020A 0202 0000FBF6 0000FDF2
64503-65010 = 40020A 0202 0000FBF7 0000FDF2
64501-65010-65011 = 40020E 0203 0000FBF5 0000FDF2 0000FDF3
64501-65010-65011-65012 = 400212 0204 0000FBF5 0000FDF2 0000FDF3 0000FDF4
{64501}-65010 = 40020C 0101 0000FBF5 0201 0000FDF2
64501-{65010,65011}-65012 = 400216 0201 0000FBF5 0102 0000FDF2 0000FDF3 0201 0000FDF4
{65010,65011}-65013 = 400210 0102 0000FDF2 0000FDF3 0201 0000FDF5
{65010,65011,65012}-65013-65014 = 400218 0103 0000FDF2 0000FDF3 0000FDF4 0202 0000FDF5 0000FDF6

# NEXT_HOP (section 5.1.3): of a, b and c, of the server, of no peer but in the subnet, and 198.51.100.1.
hop-a = 400304 C000020B
hop-b = 400304 C000020C
hop-c = 400304 C000020D
hop-server = 400304 C0000201
hop-other = 400304 C0000214
hop-outside = 400304 C6336401

# The three that each route needs.
plain = 40010100 400206 0201 0000FBF5 400304 C000020B

# MULTI_EXIT_DISC (section 5.1.4).
med-0 = 800404 00000000
med-1 = 800404 00000001
med-2 = 800404 00000002
med-5 = 800404 00000005
med-7 = 800404 00000007
med-10 = 800404 0000000A

# LOCAL_PREF (section 5.1.5), and a transitive attribute of type 32 (RFC 8092) without the bit Partial.
preference-200 = 400504 000000C8
large-65000:1:2 = C0200C 0000FDE8 00000001 00000002

# LARGE_COMMUNITY (RFC 8092).
large-64500:0:0 = C0200C 0000FBF4 00000000 00000000
large-64500:0:64502 = C0200C 0000FBF4 00000000 0000FBF6
large-64500:0:70000 = C0200C 0000FBF4 00000000 00011170
large-64500:1:64502 = C0200C 0000FBF4 00000001 0000FBF6
large-65010:0:64502 = C0200C 0000FDF2 00000000 0000FBF6
large-64500:0:0,64500:1:64502 = C02018 0000FBF4 00000000 00000000 0000FBF4 00000001 0000FBF6
large-64500:1:64502,64500:0:64502 = C02018 0000FBF4 00000001 0000FBF6 0000FBF4 00000000 0000FBF6

# COMMUNITIES (RFC 1997).
0:64500 = C00804 0000FBF4
0:64501 = C00804 0000FBF5
0:64502 = C00804 0000FBF6
0:64503 = C00804 0000FBF7
0:64504 = C00804 0000FBF8
0:64999 = C00804 0000FDE7
64500:64502 = C00804 FBF4FBF6
64500:4464 = C00804 FBF41170
0:64500,0:64502 = C00808 0000FBF4 0000FBF6
0:64500,64500:64501 = C00808 0000FBF4 FBF4FBF5
0:64500,64500:64502 = C00808 0000FBF4 FBF4FBF6
0:64500,64500:64503 = C00808 0000FBF4 FBF4FBF7
0:64500,64500:4464 = C00808 0000FBF4 FBF41170
0:64502,64500:64502 = C00808 0000FBF6 FBF4FBF6
64500:64502,65000:1 = C00808 FBF4FBF6 FDE80001
64500:64503,0:64500 = C00808 FBF4FBF7 0000FBF4
0:64500,64500:64501,64500:64503 = C0080C 0000FBF4 FBF4FBF5 FBF4FBF7
0:64500,64500:64757,0:64501 = C0080C 0000FBF4 FBF4FCF5 0000FBF5
0:64500,64500:64502,64500:64503,64500:64504 = C00810 0000FBF4 FBF4FBF6 FBF4FBF7 FBF4FBF8
";

// The octets of the attributes that a word stands for, in hexadecimal.
fn spelled(word: &str) -> Option<&'static str> {
    for line in WORDS.lines() {
        if let Some((name, octets)) = line.split_once(" = ") {
            if name == word {
                return Some(octets);
            }
        }
    }
    None
}

/// The attributes that some words stand for.
pub fn attributes(alloc: Global, words: &str) -> Option<Arc<Attributes>> {
    let mut texts = Vec::new(alloc);
    for word in words.split_whitespace() {
        texts.push(spelled(word)?).ok()?;
    }
    Arc::new(alloc, spelled_in_hex::attributes(alloc, &texts)?).ok()
}

// An address, or a BGP Identifier, in host order.
fn address(text: &str) -> Option<u32> {
    Some(text.parse::<Ipv4Addr>().ok()?.to_bits())
}

/// A number.
pub fn number(text: &str) -> Option<u32> {
    text.parse::<u32>().ok()
}

/// A prefix.
pub fn prefix(text: &str) -> Option<Prefix> {
    let (front, len) = text.split_once('/')?;
    Prefix::new(address(front)?, len.parse::<u8>().ok()?)
}

// The server of an AS, with its subnet if one is given.
fn server(text: &str) -> Option<Local> {
    let mut words = text.split_whitespace();
    Some(Local {
        asn: number(words.next()?)?,
        address: 0xC000_0201,
        id: 0xC000_0201,
        subnet: match words.next() {
            Some(subnet) => Some(prefix(subnet)?),
            None => None,
        },
    })
}

// The names that stand behind each other.
fn names(alloc: Global, text: &str) -> Option<Vec<String>> {
    let mut names = Vec::new(alloc);
    for name in text.split_whitespace() {
        names.push(String::from_str(alloc, name).ok()?).ok()?;
    }
    Some(names)
}

// A peer by its columns.
fn peer(alloc: Global, text: &str) -> Option<PeerSpec> {
    let mut columns = text.trim().split(',');
    let name = columns.next().unwrap_or("");
    let asn = number(columns.next().unwrap_or(""))?;
    let at = address(columns.next().unwrap_or(""))?;
    let id = address(columns.next().unwrap_or(""))?;
    let preference = number(columns.next().unwrap_or("100"))?;
    let refuse_from = names(alloc, columns.next().unwrap_or(""))?;
    let name = String::from_str(alloc, name).ok()?;
    Some(PeerSpec {
        name,
        asn,
        address: at,
        id,
        preference,
        refuse_from,
    })
}

/// The server and the peers that a text describes.
pub fn plan(alloc: Global, text: &str) -> Option<(Local, Vec<PeerSpec>)> {
    let mut parts = text.split(';');
    let server = server(parts.next()?)?;
    let mut peers = Vec::new(alloc);
    for part in parts {
        peers.push(peer(alloc, part)?).ok()?;
    }
    Some((server, peers))
}

/// The exchange that a text describes, or the fault of its plan.
pub fn judged(alloc: Global, text: &str) -> Option<Result<Exchange, PlanFault>> {
    let (server, peers) = plan(alloc, text)?;
    let counted = counts_large_communities(text);
    let judged = Exchange::new(alloc, server, peers);
    Some(judged.map(|exchange| exchange.with_large_communities(counted)))
}

// Whether large communities count in the exchange that a text describes.
fn counts_large_communities(text: &str) -> bool {
    let server = text.split(';').next().unwrap_or("");
    server.ends_with(" large")
}

/// The exchange that a text describes.
pub fn exchange(alloc: Global, text: &str) -> Option<Arc<Exchange>> {
    let (plan, asked) = text.split_once(" import ").unwrap_or((text, ""));
    let import = policy(alloc, asked)?;
    let exchange = judged(alloc, plan)?.ok()?;
    Arc::new(alloc, exchange.with_import(import)).ok()
}

/// The number of the peer of a name.
pub fn peer_of(exchange: &Exchange, name: &str) -> Option<usize>
    ensures { IfSome result (λ peer. peer < length exchange.now.peers) }
{
    for peer in 0..exchange.count() {
        if exchange.peer(peer).name.as_str() == name {
            return Some(peer);
        }
    }
    None
}
