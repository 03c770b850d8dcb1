//! An exchange on one page of HTML, in pictures that need no script and load nothing.
//! HTML is that of the WHATWG's standard, written so that XML 1.0 reads it too; pictures are of SVG 1.1. All else is
//! our choice.
//!
//! Reading order, what is shown first: `spans` (when a session was up), `changes` (how many changes came when), `times`
//! (what recordings show of both), `members` (the numbers of each peer), `shown` (all of it). Then the parts of the
//! page: `elements` (what they have in common), `bars`, `axis`, `style`; `head`, `matrix`, `cards`, `lanes`, `filters`,
//! `causes`, `histogram`. Last `answering` (the whole answer).
#![tactic(auto)]

mod answering;
mod axis;
mod bars;
mod cards;
mod causes;
mod changes;
mod elements;
mod filters;
mod head;
mod histogram;
mod lanes;
mod matrix;
mod members;
mod shown;
mod spans;
mod style;
mod times;

pub use answering::page;
