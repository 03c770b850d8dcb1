//! What both programs answer to `--version`.

/// The version of both programs, and the licence under which they may be used, as an SPDX expression. `clap` puts the
/// program's name before it.
pub const VERSION: &str = "1.0.0\nLicence: MIT OR Apache-2.0";
