//! Whether a file is compressed, by its first octets: RFC 1952 (gzip), RFC 8878 (zstd), and the formats of bzip2 and
//! xz.
//!
//! Our choice: of bzip2 the first octets of a block belong to it, since `BZh` alone is also the Timestamp of a record
//! of April 2005.

ghost use Rattle.std.specs.Prelude.{◌≡◌};
ghost use Rattle.rs_inventory.specs.Compression.{compression_name, compression_of, is_bzip2};

/// How a file is compressed.
#[derive(Clone, Copy, Debug, PartialEq, Eq)]
pub enum Compression {
    /// By gzip (RFC 1952, section 2.3.1).
    Gzip,
    /// By bzip2.
    Bzip2,
    /// By xz.
    Xz,
    /// By zstd (RFC 8878, section 3.1.1).
    Zstd,
}

/// How many octets of a file show whether it is compressed.
pub(crate) const FRONT: usize = 6;

// How files begin that gzip, xz and zstd make.
const GZIP: [u8; 3] = [0x1f, 0x8b, 8];

const XZ: [u8; 6] = [0xfd, b'7', b'z', b'X', b'Z', 0];

const ZSTD: [u8; 4] = [0x28, 0xb5, 0x2f, 0xfd];

// How a file begins that bzip2 makes, before a digit, and how its first block begins behind it.
const BZIP2: [u8; 3] = [b'B', b'Z', b'h'];

const BZIP2_BLOCK: [u8; 2] = [0x31, 0x41];

const BZIP2_BLOCK_AT: usize = 4;

const BZIP2_LEVEL_AT: usize = 3;

impl Compression {
    /// How a file is compressed that begins with these octets; none if it isn't. Six octets suffice.
    pub fn of(front: &[u8]) -> Option<Compression>
        ensures { result ≡ compression_of front.now }
    {
        if front.starts_with(&GZIP) {
            return Some(Compression::Gzip);
        }
        if is_bzip2(front) {
            return Some(Compression::Bzip2);
        }
        if front.starts_with(&XZ) {
            return Some(Compression::Xz);
        }
        if front.starts_with(&ZSTD) {
            return Some(Compression::Zstd);
        }
        None
    }

    /// The name of the program that made it.
    pub fn name(self) -> &'static str
        ensures { result.now ≡ compression_name self }
    {
        match self {
            Compression::Gzip => "gzip",
            Compression::Bzip2 => "bzip2",
            Compression::Xz => "xz",
            Compression::Zstd => "zstd",
        }
    }
}

// Whether a file begins as bzip2 makes it.
fn is_bzip2(front: &[u8]) -> bool
    ensures { result ≡ is_bzip2 front.now }
{
    if !front.starts_with(&BZIP2) || front.len() <= BZIP2_BLOCK_AT {
        return false;
    }
    let level = front[BZIP2_LEVEL_AT];
    b'1' <= level && level <= b'9' && front[BZIP2_BLOCK_AT..].starts_with(&BZIP2_BLOCK)
}
