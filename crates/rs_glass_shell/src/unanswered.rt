//! Why a question isn't answered, and with which status the program ends then.

ghost use Rattle.std.specs.Prelude.{◌≡◌};
ghost use Rattle.rs_glass_shell.specs.Status.{diff_status_of, status_in, status_of, unanswered_by};

use rs_host::{
    DONE, FAILED, OUT_OF_MEMORY, REFUSED, Unready, WordsFault, setup_status, words_status,
};
use rs_query::QueryFault;
use rs_setup::SetupFault;
use std::alloc::AllocError;
use std::io;
use std::io::ErrorKind;

/// Why a question isn't answered.
#[derive(Drop)]
pub enum Unanswered {
    /// Help or the version was asked for, or the command line is refused, with this text.
    Words(WordsFault),
    /// The configuration is refused.
    Setup(SetupFault),
    /// No peer of the configuration has this name, address or AS number.
    NoPeer(String),
    /// Several peers of the configuration have an AS number: the number, and that it is that of the peers of these names.
    SeveralPeers(String),
    /// The file at this path can't be read.
    Unread(String),
    /// A file is at fault or can't be written, as this text says.
    AtFault(String),
    /// The file at this path can't be written.
    Unwritten(String),
    /// Not all changes of the peer of this name are known to be in the tables.
    Unsettled(String),
    /// Whoever reads the answer closed its pipe, and so wants no more of it.
    Closed,
    /// Standard output can't be written.
    Output,
    /// Memory was refused.
    Memory,
}

impl Unanswered {
    /// The status with which the program ends. 0: help or the version was asked for, or a reader wants no more. 1: the command line or the
    /// configuration is refused. 2: a file or a device failed. 3: memory was refused.
    pub fn status(&self) -> u8
        ensures { result ≡ status_of self.now }
    {
        match self {
            Unanswered::Words(fault) => words_status(fault),
            Unanswered::Setup(fault) => setup_status(fault),
            Unanswered::NoPeer(_) => REFUSED,
            Unanswered::SeveralPeers(_) => REFUSED,
            Unanswered::Unread(_) => FAILED,
            Unanswered::AtFault(_) => FAILED,
            Unanswered::Unwritten(_) => FAILED,
            Unanswered::Unsettled(_) => FAILED,
            Unanswered::Closed => DONE,
            Unanswered::Output => FAILED,
            Unanswered::Memory => OUT_OF_MEMORY,
        }
    }

    // The status if `diff` isn't answered: 2 if the command line or a configuration is refused, since 1 says there
    // that something differs.
    fn diff_status(&self) -> u8
        ensures { result ≡ diff_status_of self.now }
    {
        let status = self.status();
        if status == REFUSED { FAILED } else { status }
    }
}

/// That a question isn't answered, and how the program ends.
#[derive(Drop)]
pub struct NoReply {
    /// Why it isn't answered.
    pub why: Unanswered,
    /// The status with which the program ends.
    pub status: u8,
}

impl NoReply {
    /// Of a question that isn't answered, which is `diff` or another one. The status is that of `Unanswered::status`. Of
    /// `diff` it is 2 if the command line or a configuration is refused, since 1 says there that something differs.
    pub fn new(why: Unanswered, of_diff: bool) -> NoReply
        ensures why { result.why ≡ why }
        ensures status { result.status ≡ status_in of_diff why }
    {
        let status = if of_diff {
            why.diff_status()
        } else {
            why.status()
        };
        NoReply { why, status }
    }
}

impl From<WordsFault> for NoReply {
    fn from(fault: WordsFault) -> NoReply {
        NoReply::new(Unanswered::Words(fault), false)
    }
}

impl From<QueryFault> for NoReply {
    fn from(refused: QueryFault) -> NoReply {
        NoReply::new(Unanswered::Words(refused.fault), refused.of_diff)
    }
}

impl From<AllocError> for Unanswered {
    fn from(_refused: AllocError) -> Unanswered {
        Unanswered::Memory
    }
}

/// Why standard output takes no more.
impl From<io::Error> for Unanswered {
    fn from(error: io::Error) -> Unanswered {
        match error.kind() {
            ErrorKind::BrokenPipe => Unanswered::Closed,
            _ => Unanswered::Output,
        }
    }
}

impl From<Unready> for Unanswered {
    ghost from_gives = { λ unready unanswered. unanswered ≡ unanswered_by unready };

    fn from(unready: Unready) -> Unanswered {
        match unready {
            Unready::Setup(fault) => Unanswered::Setup(fault),
            Unready::Unread(path) => Unanswered::Unread(path),
            Unready::Memory => Unanswered::Memory,
        }
    }
}
