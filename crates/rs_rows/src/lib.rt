//! Rows of answers. A row hands over its fields, each with its key, and is written as columns of text, as CSV or as JSON.
//! So each key, title and column stands once.
//! Columns of text are our choice; CSV is that of RFC 4180, and JSON that of RFC 8259.
//!
//! Reading order: `form` (how an answer is printed), `column` (the columns of a list), `row_writer` (what takes the
//! fields), `sheet` (what is written so far). `cells` (lines of columns and of words).
//!
//! A call that allocates fails if memory is refused.
#![tactic(auto)]

mod cells;
mod column;
mod form;
mod row_writer;
mod sheet;

pub use cells::{add_cell, add_sentence, add_words, fill_cell};
pub use column::{Align, Column};
pub use form::Form;
pub use row_writer::{RowWriter, joined};
