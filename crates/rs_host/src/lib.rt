//! What both programs need of the machine: files, texts on one line, times, why a configuration is refused, and how a
//! program ends. What they need of a command line is that of `rs_options`, and passed on.
//!
//! Reading order: `fault` (why a file can't be read), `whole` (a file that is read whole), `recorded` (a recorded file,
//! which is read in pieces of some size). `joined` (the octets of a recording), `reached` and `seams` (which of its files
//! has an octet). `file_identity` (which file a path names), `read_once` (what is seen before any is opened). `unready`
//! (why what a program needs can't be read), `list_disk` (the files of configurations and lists), `setup_file` (the
//! configuration). `part_file` (files that are written whole or not at all), `overwritten` (that none of them is written
//! over a file that is read). `escaped` (texts whose control characters are escaped), `times` (times of records as texts,
//! RFC 6396, section 2). `arguments` (the words of the command line). `refusal` (why a command line or a configuration is
//! refused), `line` and `status` (how a program ends).
//!
//! A call that allocates fails if memory is refused.
#![tactic(auto)]

mod arguments;
mod escaped;
mod fault;
mod file_identity;
mod joined;
mod line;
mod list_disk;
mod overwritten;
mod part_file;
mod reached;
mod read_once;
mod recorded;
mod refusal;
mod seams;
mod setup_file;
mod status;
mod times;
mod unready;
mod whole;

pub use arguments::read_arguments;
pub use escaped::{each_on_one_line, on_one_line};
pub use fault::FileFault;
pub use file_identity::{FileIdentity, found_at};
pub use joined::Joined;
pub use line::{MEMORY_TEXT, OUTPUT_TEXT, end_with, program_line, unread_line};
pub use overwritten::{files_of_setup, files_read, writes_over};
pub use part_file::{part_path, takes_part_file};
pub use reached::{Reached, unread_at};
pub use read_once::{Unreadable, UnreadableReason, first_unreadable};
pub use recorded::{PIECE_LEN, Recorded, in_pieces, open, open_file, open_recording};
pub use refusal::{setup_line, words_text};
pub use rs_options::{Options, Strictness, VERSION, WordsFault, losses_of, read_time, standard_of};
pub use seams::{FilePlace, Seams};
pub use setup_file::{configuration, configuration_of, configurations};
pub use status::{
    DONE, FAILED, NOT_CLEAN, OUT_OF_MEMORY, REFUSED, UNSETTLED, setup_status, words_status,
};
pub use times::{Utc, civil_time};
pub use unready::Unready;
pub use whole::{FILE_LIMIT, read_file};
