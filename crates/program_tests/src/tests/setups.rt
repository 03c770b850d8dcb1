//! Configurations and what they set up. Each text was written by hand.

use super::check;
use rs_choice::PeerSpec;
use rs_setup::{Recording, Setup, read_setup};
use std::alloc::{AllocError, Global};
use std::net::Ipv4Addr;
use std::test::Fail;

// Every key, each with a value of its own. The tables stand in another order than faults are looked for.
const EVERY_KEY: &str = r#"
[[peer]]
file = "recorded/a 1.mrt"
begin = ["starts/a.mrt", "recorded/a 0.mrt"]
refuse_from = ["c", "b", "c"]
preference = 4294967295
id = "0.0.0.1"
address = "192.0.2.11"
as = 4294967295
name = "a"

[server]
large_communities = true
subnet = "192.0.2.0/24"
id = "10.20.30.40"
address = "192.0.2.1"
as = 64500

[[peer]]
name = "b"
as = 1
address = "255.255.255.255"
id = "0.0.0.0"
preference = 0
refuse_from = []
begin = []
file = ""

[[peer]]
name = "c"
as = 64503
address = "192.0.2.13"
id = "192.0.2.11"
preference = 101
refuse_from = ["a"]
file = "../c"
"#;

// What it sets up. First the AS number, the address, the BGP Identifier and the subnet of the server, and `large` if
// large communities count. Then for each peer the name, the AS number, the address, the BGP Identifier, the preference,
// whose routes it refuses, its file, and the files that are read before that.
const EVERY_KEY_SET_UP: &str = r#"64500 192.0.2.1 10.20.30.40 192.0.2.0/24 large
a 4294967295 192.0.2.11 0.0.0.1 4294967295 ["c", "b", "c"] "recorded/a 1.mrt" ["starts/a.mrt", "recorded/a 0.mrt"]
b 1 255.255.255.255 0.0.0.0 0 [] ""
c 64503 192.0.2.13 192.0.2.11 101 ["a"] "../c""#;

// The keys that must be there, alone, and what they set up: an id is its address, a preference is 100, no subnet is
// there, and large communities do not count.
const REQUIRED_KEYS: &str = r#"
peer = [
    { name = "b", as = 64502, address = "192.0.2.12", file = "b.mrt" },
    { name = "a", as = 64501, address = "192.0.2.11", file = "a.mrt" },
]
server.as = 64500
server.address = "192.0.2.1"
"#;

const REQUIRED_KEYS_SET_UP: &str = r#"64500 192.0.2.1 192.0.2.1 none
b 64502 192.0.2.12 192.0.2.12 100 [] "b.mrt"
a 64501 192.0.2.11 192.0.2.11 100 [] "a.mrt""#;

// Subnets as they are written, and what is set up of a server that has no other key: host bits are cleared.
const SUBNETS: [(&str, &str); 7] = [
    ("192.0.2.0/24", "64500 192.0.2.1 192.0.2.1 192.0.2.0/24"),
    ("192.0.2.77/24", "64500 192.0.2.1 192.0.2.1 192.0.2.0/24"),
    ("192.0.2.129/25", "64500 192.0.2.1 192.0.2.1 192.0.2.128/25"),
    ("192.0.2.77/32", "64500 192.0.2.1 192.0.2.1 192.0.2.77/32"),
    ("192.0.2.77/9", "64500 192.0.2.1 192.0.2.1 192.0.0.0/9"),
    ("192.0.2.77/0", "64500 192.0.2.1 192.0.2.1 0.0.0.0/0"),
    (
        "255.255.255.255/10",
        "64500 192.0.2.1 192.0.2.1 255.192.0.0/10",
    ),
];

// Whether large communities count, as it is written, and what is set up of a server that has no other key.
const LARGE_COMMUNITIES: [(&str, &str); 2] = [
    ("true", "64500 192.0.2.1 192.0.2.1 none large"),
    ("false", "64500 192.0.2.1 192.0.2.1 none"),
];

// Appends what is set up of the server.
fn push_server(text: &mut String, setup: &Setup) -> Result<(), AllocError> {
    let local = setup.plan.local();
    let (address, id) = (
        Ipv4Addr::from_bits(local.address),
        Ipv4Addr::from_bits(local.id),
    );
    write!(text, "{} {address} {id}", local.asn)?;
    match local.subnet {
        None => text.push_str(" none")?,
        Some(subnet) => {
            let (address, len) = (Ipv4Addr::from_bits(subnet.address()), subnet.len());
            write!(text, " {address}/{len}")?;
        }
    }
    if setup.plan.counts_large_communities() {
        text.push_str(" large")?;
    }
    Ok(())
}

// Appends a peer and its recording.
fn push_peer(
    text: &mut String,
    peer: &PeerSpec,
    recording: Option<Recording<'_>>,
) -> Result<(), AllocError> {
    let (name, asn, preference) = (&peer.name, peer.asn, peer.preference);
    let (address, id) = (
        Ipv4Addr::from_bits(peer.address),
        Ipv4Addr::from_bits(peer.id),
    );
    let refused = &peer.refuse_from;
    write!(
        text,
        "\n{name} {asn} {address} {id} {preference} {refused:?}"
    )?;
    let Some(recording) = recording else {
        return text.push_str(" no recording");
    };
    write!(text, " {:?}", recording.file)?;
    if recording.count() > 1 {
        write!(text, " {:?}", recording.begin)?;
    }
    Ok(())
}

// Appends all that is set up.
fn push_all(text: &mut String, setup: &Setup) -> Result<(), AllocError> {
    push_server(text, setup)?;
    for number in 0..setup.plan.count() {
        push_peer(text, setup.plan.peer(number), setup.recording(number))?;
    }
    Ok(())
}

// A configuration sets this up: a line of the server, and one of each peer.
fn check_set_up(alloc: Global, text: &str, wanted: &str) -> Result<(), Fail> {
    let setup = read_setup(alloc, text.as_bytes())?;
    let mut found = String::new(alloc);
    push_all(&mut found, &setup)?;
    check(&found, wanted, "a configuration")
}

#[test]
fn every_key_is_read_or_has_a_default(rt: HostRuntime) -> Result<(), Fail> {
    check_set_up(rt.alloc(), EVERY_KEY, EVERY_KEY_SET_UP)?;
    check_set_up(rt.alloc(), REQUIRED_KEYS, REQUIRED_KEYS_SET_UP)
}

// What is set up of the server where one more key has this value.
fn server_with(alloc: Global, key: &str, value: &str) -> Result<String, Fail> {
    let text = format!(in alloc; "{REQUIRED_KEYS}server.{key} = {value}")?;
    let mut found = String::new(alloc);
    push_server(&mut found, &read_setup(alloc, text.as_bytes())?)?;
    Ok(found)
}

#[test]
fn the_host_bits_of_a_subnet_are_cleared(rt: HostRuntime) -> Result<(), Fail> {
    for (subnet, wanted) in &SUBNETS {
        let value = format!(in rt.alloc(); "\"{subnet}\"")?;
        check(&server_with(rt.alloc(), "subnet", &value)?, wanted, subnet)?;
    }
    Ok(())
}

#[test]
fn large_communities_count_if_that_is_configured(rt: HostRuntime) -> Result<(), Fail> {
    for (value, wanted) in &LARGE_COMMUNITIES {
        check(
            &server_with(rt.alloc(), "large_communities", value)?,
            wanted,
            value,
        )?;
    }
    Ok(())
}

// Appends a peer of a number to a configuration, and to what it sets up.
fn push_number(text: &mut String, wanted: &mut String, number: u8) -> Result<(), AllocError> {
    let address = Ipv4Addr::from_bits(u32::from(number));
    write!(
        text,
        "[[peer]]\nname = \"p{number}\"\nas = 2\naddress = \"{address}\"\nfile = \"{number}\"\n"
    )?;
    write!(
        wanted,
        "\np{number} 2 {address} {address} 100 [] \"{number}\""
    )
}

// A configuration of 256 peers, and what it sets up.
fn crowd(alloc: Global) -> Result<(String, String), AllocError> {
    let mut text = String::from_str(alloc, "[server]\nas = 1\naddress = \"192.0.2.1\"\n")?;
    let mut wanted = String::from_str(alloc, "1 192.0.2.1 192.0.2.1 none")?;
    for number in 0..=255 {
        push_number(&mut text, &mut wanted, number)?;
    }
    Ok((text, wanted))
}

#[test]
fn as_many_peers_as_an_exchange_may_have_are_read(rt: HostRuntime) -> Result<(), Fail> {
    let (text, wanted) = crowd(rt.alloc())?;
    check_set_up(rt.alloc(), &text, &wanted)
}
