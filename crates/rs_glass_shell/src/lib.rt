//! What all answers of the looking glass have in common: the peer that a word names, how tables are built, why there is
//! no answer, and how peers, reasons and path attributes are written.
//! All of it is our choice, but for JSON (RFC 8259) and TOML 1.0.
//!
//! Reading order: `setup` (the peer that a word names). `built` and `serving` (how tables are built). `known` (what is
//! known of the files that were read). `reply` (an answer). `unanswered`, `lines` and `causes` (why there is none).
//! `writing` (a file that is written whole). `names`, `import_text`, `reasons` and `route_text` (texts).
//! `import_fields`, `reason_fields` and `route_fields` (fields of rows). `toml_text` (TOML). `shell_words` (words of a
//! command).
//!
//! A call that allocates fails if memory is refused.
#![tactic(auto)]

mod built;
mod causes;
mod import_fields;
mod import_text;
mod known;
mod lines;
mod names;
mod reason_fields;
mod reasons;
mod reply;
mod route_fields;
mod route_text;
mod serving;
mod setup;
mod shell_words;
mod toml_text;
mod unanswered;
mod writing;

pub use built::Built;
pub use causes::line_with_cause;
pub use import_fields::hand_rpki;
pub use import_text::{PatternText, rpki_validity, validity_key, validity_name};
pub use known::{Known, PeerSession, Whose, inferred_of, known_of, sessions_of};
pub use lines::{PROGRAM, line};
pub use names::{
    PrefixText, add_again, add_down, add_gets, asn_at, downs_text, name_at, name_width, names_text,
    peer_name,
};
pub use reason_fields::{hand_peer, hand_reason};
pub use reasons::{
    Because, answer_name, close_text, filter_key, origin_name, reason_answer, reason_key, step_key,
    step_name,
};
pub use reply::{Reply, answer_with};
pub use route_fields::{DOUBT, hand_attributes, hand_doubt, hand_route};
pub use route_text::{
    attributes_text, community_texts, hex_text, large_community_texts, lists_large_communities,
    path_text,
};
pub use rs_notes::Down;
pub use serving::{served, served_as_checked};
pub use setup::{peer_named, peer_of_name};
pub use shell_words::add_shell_word;
pub use toml_text::{PeerNames, quoted};
pub use unanswered::{NoReply, Unanswered};
pub use writing::{check_place, write_whole};
