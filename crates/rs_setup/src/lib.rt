//! What the configuration of an exchange sets up: the server, its peers, the paths of the files of each peer's recording,
//! and import policy.
//!
//! Reading order: `setup` (what is set up, and why a configuration is refused), `peers` (the server's table and those of
//! the peers), `recording` (the files of a peer's recording). `keys` (a table's keys), `values`. Import policy:
//! `import_setup` (what a configuration says of it), `entries` (the lists in it), `list_files` (where its other lists are
//! read from), `lists` (the policy by what these say). Then `laws`. A configuration is a TOML table (our choice: RFC 4271
//! leaves configuration to the implementation).
//!
//! A call that allocates fails if memory is refused.
#![tactic(auto)]

mod entries;
mod import_setup;
mod keys;
mod laws;
mod list_files;
mod lists;
mod peers;
mod recording;
mod setup;
mod values;

pub use laws::{a_configuration_has_a_file_for_each_peer, a_configuration_sets_up_one_exchange};
pub use list_files::ListFiles;
pub use recording::Recording;
pub use setup::{NoSetup, Setup, SetupFault, read_setup, read_whole_setup};
pub use values::slashed_subnet;
