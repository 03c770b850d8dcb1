//! Notes on recorded files: what is probably wrong with them, or missing from them, in both programs. All of it is our
//! choice.
//!
//! Reading order, what may be wrong with a file first: `format` (its format), `hint` (the note on a file without a
//! record of its peer), `near` (which peer is meant then), `swapped` (two peers with swapped AS numbers). `lost` finds
//! a loss with the address of no peer, and `down` a session that is down at the end. Then what notes are about:
//! `subject`, `peers`, `contents` (what files hold), `outlines` (how that is known while files are read), `look` (what a
//! file shows of which nothing was kept). Then the notes: `note` (their texts), `group` (one line on several peers),
//! `mistakes`, `doubts`, `all_filtered` (which peers left only routes that are filtered), `import_notes`. Notes on several
//! peers follow: `silent` (a missing piece), `exchange`, `unnamed` (a loss that may be of several peers), `unconfigured`
//! (peers that the configuration has not). Then `notes`, which puts all of them in order. Last `findings`: what a run finds
//! that is not clean, notes among that.
//!
//! A call that allocates fails if memory is refused.
#![tactic(auto)]

mod all_filtered;
mod contents;
mod doubts;
mod down;
mod exchange;
mod findings;
mod format;
mod group;
mod hint;
mod import_notes;
mod look;
mod lost;
mod mistakes;
mod near;
mod note;
mod notes;
mod outlines;
mod peers;
mod silent;
mod subject;
mod swapped;
mod unconfigured;
mod unnamed;

pub use contents::{Contents, contents_of, format_at, has_files, is_file, read_contents};
pub use down::{Down, down_of};
pub use findings::{Findings, outlines_for};
pub use format::Format;
pub use hint::{Hint, hint_on};
pub use import_notes::{BEFORE_IMPORT, add_filtered};
pub use note::{cut_line, note_line};
pub use notes::{Notes, notes_of, notes_on, print_texts};
pub use outlines::Outlines;
pub use subject::{Close, Ending, Subject, Telling};
pub use unconfigured::add_unconfigured;
