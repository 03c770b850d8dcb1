//! What configurations to start from have in common: texts of TOML 1.0, and the names of peers.
//!
//! Our choice: a peer is named after its AS number.

use std::alloc::{AllocError, Global};
use std::collections::BTreeMap;

/// The names of the peers in a configuration that is being written.
#[derive(Drop)]
pub struct PeerNames {
    // How many peers of an AS number there are so far.
    peers_of: BTreeMap<u32, u32>,
}

impl PeerNames {
    /// No name yet.
    pub fn new(alloc: Global) -> PeerNames {
        PeerNames {
            peers_of: BTreeMap::new(alloc),
        }
    }

    /// Adds the line of the name of the next peer with an AS number: after the first one it is numbered.
    pub fn add_name(&mut self, text: &mut String, asn: u32) -> Result<(), AllocError> {
        let Some(count) = self.peers_of.get_mut(&asn) else {
            self.peers_of.insert(asn, 1)?;
            return writeln!(text, "name = \"as{asn}\"");
        };
        *count = count.saturating_add(1);
        let count = *count;
        writeln!(text, "name = \"as{asn}-{count}\"")
    }
}

/// The text as a basic string of TOML (TOML 1.0, "String").
pub fn quoted(alloc: Global, text: &str) -> Result<String, AllocError> {
    let mut quoted = String::from_str(alloc, "\"")?;
    for character in text.chars() {
        push_quoted(&mut quoted, character)?;
    }
    quoted.push('"')?;
    Ok(quoted)
}

// Adds one character of a basic string.
fn push_quoted(quoted: &mut String, character: char) -> Result<(), AllocError> {
    match character {
        '"' => quoted.push_str("\\\""),
        '\\' => quoted.push_str("\\\\"),
        control if control.is_control() => {
            let number = control as u32;
            write!(quoted, "\\u{number:04x}")
        }
        character => quoted.push(character),
    }
}
