//! Messages and recorded files by hand, as rows of text, and what each row wants. `words` says how octets are spelled in
//! all rows, and `said` how what is found becomes a text. `updates` says how a row of a message is read, and
//! `recordings` how a row of a file is read.

mod recordings;
mod said;
mod updates;
mod words;
