//! What the route server does beside the run itself: it keeps dumps in a folder, shows progress, and ends with a status.
//! `rs_options` reads its command line.
//!
//! Reading order: `start` (what the program does before the run, and how it ends). `ended` (the ways to fail, and their
//! statuses), `texts` (their lines), `paths` (the path of a dump). `amount` (how much was read, and the line that says
//! it), `files` (how much there is), `progress` (that line on standard error). `counted` (a reader whose octets are
//! counted), `cleared` (a writer that takes the line away first). `folder_outlet` (dumps), `overwritten` and `tried`
//! (what is seen beforehand).
//!
//! A call that allocates fails if memory is refused.
#![tactic(auto)]

mod amount;
mod cleared;
mod counted;
mod ended;
mod files;
mod folder_outlet;
mod overwritten;
mod paths;
mod progress;
mod start;
mod texts;
mod tried;

pub use amount::Amount;
pub use cleared::Cleared;
pub use counted::Counted;
pub use ended::{Ended, run_status, status};
pub use folder_outlet::FolderOutlet;
pub use progress::Progress;
pub use rs_options::{read_command_line, read_words};
pub use start::{command_line, end, ended_by, progress_on, refuse_unwritable};
pub use texts::{PROGRAM, line};
