//! Of what format a file is that has no records, by its first octets: zip (APPNOTE, section 4.3.7), pcap and pcapng
//! (draft-ietf-opsawg-pcap, section 4; draft-ietf-opsawg-pcapng, section 4.1), and text.
//!
//! Our choice: a text has printable ASCII, tabs and line breaks alone in its first octets.

ghost use Rattle.std.specs.Prelude.{◌≡◌};
ghost use Rattle.std.specs.List.{list_all};
ghost use Rattle.rs_notes.specs.Format.{format_of, format_name, is_pcap, is_text, is_text_octet};

use rs_inventory::Compression;

/// Of what format a file is that isn't uncompressed MRT.
#[derive(Clone, Copy, Debug, PartialEq, Eq)]
pub enum Format {
    /// It is compressed.
    Compressed(Compression),
    /// An archive by zip.
    Zip,
    /// Packets, as pcap or pcapng.
    Pcap,
    /// A text.
    Text,
}

/// How many octets of a file show its format.
pub const FRONT_LEN: usize = 12;

// How a zip archive begins, and files of packets: pcap in either order of octets, by microseconds and by nanoseconds,
// and pcapng.
const ZIP: [u8; 4] = [b'P', b'K', 3, 4];

const PCAP: [u8; 4] = [0xa1, 0xb2, 0xc3, 0xd4];

const PCAP_TURNED: [u8; 4] = [0xd4, 0xc3, 0xb2, 0xa1];

const PCAP_NANOSECONDS: [u8; 4] = [0xa1, 0xb2, 0x3c, 0x4d];

const PCAP_NANOSECONDS_TURNED: [u8; 4] = [0x4d, 0x3c, 0xb2, 0xa1];

const PCAPNG: [u8; 4] = [0x0a, 0x0d, 0x0d, 0x0a];

impl Format {
    /// The format of a file without a record of a known kind that begins with these octets; None if they show none.
    pub(crate) fn of(front: &[u8]) -> Option<Format>
        ensures { result ≡ format_of front.now }
    {
        if front.starts_with(&ZIP) {
            return Some(Format::Zip);
        }
        if is_pcap(front) {
            return Some(Format::Pcap);
        }
        if is_text(front) {
            return Some(Format::Text);
        }
        None
    }

    /// Its name.
    pub fn name(self) -> &'static str
        ensures { result.now ≡ format_name self }
    {
        match self {
            Format::Compressed(compression) => compression.name(),
            Format::Zip => "zip",
            Format::Pcap => "pcap",
            Format::Text => "text",
        }
    }
}

// Whether a file begins as one of packets.
fn is_pcap(front: &[u8]) -> bool
    ensures { result ≡ is_pcap front.now }
{
    front.starts_with(&PCAP)
        || front.starts_with(&PCAP_TURNED)
        || front.starts_with(&PCAP_NANOSECONDS)
        || front.starts_with(&PCAP_NANOSECONDS_TURNED)
        || front.starts_with(&PCAPNG)
}

// Whether there are octets, and all of them are a text's.
fn is_text(front: &[u8]) -> bool
    ensures { result ≡ is_text front.now }
{
    !front.is_empty() && all_text(front)
}

// Whether all octets are a text's.
fn all_text(front: &[u8]) -> bool
    ensures { result ≡ list_all is_text_octet front.now }
{
    front.iter().all(|octet| is_text_octet(*octet))
}

// Whether an octet is printable ASCII, a tab or of a line break.
fn is_text_octet(octet: u8) -> bool
    ensures { result ≡ is_text_octet octet }
{
    b' ' <= octet && octet <= b'~' || octet == b'\t' || octet == b'\n' || octet == b'\r'
}
