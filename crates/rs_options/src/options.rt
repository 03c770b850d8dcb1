//! What the command line asks for.

ghost use Rattle.std.specs.Prelude.{◌≡◌};
ghost use Rattle.rs_options.specs.declared.options.WordsFault.TheVariants.{Memory};

use rs_mrt::FileReading;
use rs_update::Errors;
use std::alloc::AllocError;
use thiserror::Error;

/// What the words of the command line ask for: what a run is given, how the recorded files are read before it, and what
/// becomes of it.
#[derive(Drop)]
pub struct CommandLine {
    /// What a run is given.
    pub options: Options,
    /// How each recorded file is read.
    pub reading: FileReading,
    /// What becomes of a run that is not clean.
    pub strict: Strictness,
}

/// What a run is given by the words of the command line. It is given the recorded files as readers.
#[derive(Drop)]
pub struct Options {
    /// The path of the configuration.
    pub config: String,
    /// The folder that takes the dumps.
    pub out: String,
    /// The Timestamp of every record written, in seconds since 1970 (RFC 6396, section 2).
    pub time: u32,
    /// How many changes wait at most between two threads of a run, 1 to 65,536.
    pub ring: usize,
    /// How many threads keep the tables, each of them some of the prefixes, 1 to 16.
    pub shards: usize,
    /// The standard by which faults in the path attributes of an UPDATE are handled (RFC 4271, section 6.3,
    /// or RFC 7606).
    pub errors: Errors,
}

/// What becomes of a run that is not clean: a session closed before the end of its file, or there is a note.
#[derive(Clone, Copy, Debug, PartialEq, Eq, Drop)]
pub enum Strictness {
    /// It is as any other.
    Off,
    /// It writes no dump and no report, and ends with a status of its own.
    BeforeWriting,
    /// It writes all dumps and the report, and ends with a status of its own.
    AfterWriting,
}

/// Why the words of the command line ask for nothing that can be done.
#[derive(Debug, Drop, Error)]
pub enum WordsFault {
    /// Help or the version was asked for: its text.
    #[error("{0}")]
    Help(String),
    /// The words are refused: the text that says why.
    #[error("{0}")]
    Refused(String),
    /// Memory was refused.
    #[error("memory was refused while the command line was read")]
    Memory,
}

impl From<AllocError> for WordsFault {
    ghost from_gives = { λ _ fault. fault ≡ Memory };

    fn from(_refused: AllocError) -> WordsFault {
        WordsFault::Memory
    }
}
