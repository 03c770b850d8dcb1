//! What takes the fields of rows.
//!
//! Our choice: a row hands over its fields in the order of its columns. A column for which it has none stays empty.

use crate::column::Column;
use crate::form::Form;
use crate::sheet::Sheet;
use serde_json::Value;
use std::alloc::{AllocError, Global};
use std::fmt::Display;
use std::mem;

/// Takes the fields of rows, and writes them in a form. It keeps the first refusal of memory, and answers it at its end.
#[derive(Drop)]
pub struct RowWriter<'a> {
    alloc: Global,
    columns: &'a [Column],
    // How many columns of the row that is under way have their fields.
    place: usize,
    sheet: Sheet,
    refused: bool,
}

impl<'a> RowWriter<'a> {
    /// A writer of rows with these columns. JSON has each field that is handed over, whatever the columns.
    pub fn new(alloc: Global, form: Form, columns: &'a [Column]) -> RowWriter<'a> {
        RowWriter {
            alloc,
            columns,
            place: 0,
            sheet: Sheet::new(alloc, form),
            refused: false,
        }
    }

    /// A writer of one object of JSON.
    pub fn object(alloc: Global) -> RowWriter<'static> {
        RowWriter::new(alloc, Form::Json, &[])
    }

    /// A writer of a list of objects, which are a value of JSON.
    pub fn objects(alloc: Global) -> RowWriter<'static> {
        RowWriter {
            alloc,
            columns: &[],
            place: 0,
            sheet: Sheet::of_objects(alloc),
            refused: false,
        }
    }

    /// How it writes.
    pub fn form(&self) -> Form {
        self.sheet.form()
    }

    /// The allocator of what it writes.
    pub fn alloc(&self) -> Global {
        self.alloc
    }

    /// How many octets are written that were not taken; some of the last row of CSV may not count yet.
    pub fn len(&self) -> usize {
        self.sheet.len()
    }

    /// Whether nothing is written that was not taken.
    pub fn is_empty(&self) -> bool {
        self.len() == 0
    }

    /// Writes the line of titles. JSON has none.
    pub fn titles(&mut self) {
        let form = self.form();
        if form == Form::Json {
            return;
        }
        for column in self.columns {
            if column.is_in(form) {
                let title = if form == Form::Csv {
                    column.key
                } else {
                    column.title
                };
                let added = self.sheet.add_field(title, column);
                self.keep(added);
            }
        }
        self.place = self.columns.len();
        self.end_row();
    }

    /// Takes a text.
    pub fn text(&mut self, key: &str, text: &str) {
        self.words(key, text);
        if self.form() == Form::Json {
            self.value(key, Value::try_from_str(self.alloc, text));
        }
    }

    /// Takes a text for people, which JSON does not have.
    pub fn words(&mut self, key: &str, text: &str) {
        if let Some(column) = self.find(key) {
            let added = self.sheet.add_field(text, &column);
            self.keep(added);
        }
    }

    /// Takes a text that was made, or that memory was refused for it.
    pub fn made(&mut self, key: &str, text: Result<String, AllocError>) {
        match text {
            Ok(text) if self.form() == Form::Json => self.put(key, Value::String(text)),
            Ok(text) => self.words(key, &text),
            Err(_) => self.refused = true,
        }
    }

    /// The same of a text for people, which JSON does not have.
    pub fn made_words(&mut self, key: &str, text: Result<String, AllocError>) {
        match text {
            Ok(text) => self.words(key, &text),
            Err(_) => self.refused = true,
        }
    }

    /// Takes what a value shows.
    pub fn shown<T: Display>(&mut self, key: &str, value: &T) {
        if self.form() == Form::Json {
            let text = value.to_string(self.alloc);
            return self.made(key, text);
        }
        self.shown_words(key, value);
    }

    /// Takes what a value shows for people, which JSON does not have.
    pub fn shown_words<T: Display>(&mut self, key: &str, value: &T) {
        if let Some(column) = self.find(key) {
            let added = self.sheet.add_shown(self.alloc, value, &column);
            self.keep(added);
        }
    }

    /// Takes a number.
    pub fn number(&mut self, key: &str, number: u64) {
        if self.form() == Form::Json {
            return self.put(key, Value::from(number));
        }
        self.shown_words(key, &number);
    }

    /// Takes a text, or that there is none: null in JSON, an empty field in CSV, and these words in text.
    pub fn text_or(&mut self, key: &str, text: Option<&str>, none: &str) {
        match text {
            Some(text) => self.text(key, text),
            None if self.form() == Form::Json => self.put(key, Value::Null),
            None if self.form() == Form::Text => self.words(key, none),
            None => {}
        }
    }

    /// Takes a number, or that there is none: null in JSON, and else an empty field.
    pub fn number_or_none(&mut self, key: &str, number: Option<u32>) {
        match number {
            Some(number) => self.number(key, u64::from(number)),
            None => self.put(key, Value::Null),
        }
    }

    /// Takes texts: a list of them in JSON, and else one text with spaces between them.
    pub fn list(&mut self, key: &str, texts: Result<Vec<String>, AllocError>) {
        match texts {
            Ok(texts) if self.form() == Form::Json => {
                self.value(key, list_of(self.alloc, texts));
            }
            Ok(texts) => self.made_words(key, joined(self.alloc, &texts)),
            Err(_) => self.refused = true,
        }
    }

    /// Takes a value that JSON alone has, or that memory was refused for it.
    pub fn value(&mut self, key: &str, value: Result<Value, AllocError>) {
        match value {
            Ok(value) => self.put(key, value),
            Err(_) => self.refused = true,
        }
    }

    /// Takes lines between rows, which text alone has: each with its line break, or that memory was refused for them.
    pub fn lines(&mut self, lines: Result<String, AllocError>) {
        let added = match lines {
            Ok(lines) => self.sheet.add_lines(&lines),
            Err(refused) => Err(refused),
        };
        self.keep(added);
    }

    /// Takes a line of words between rows, which text alone has and breaks if it is too long.
    pub fn sentence(&mut self, words: Result<String, AllocError>) {
        let added = match words {
            Ok(words) => self.sheet.add_sentence(&words),
            Err(refused) => Err(refused),
        };
        self.keep(added);
    }

    /// Ends a row.
    pub fn end_row(&mut self) {
        self.pass_to(self.columns.len());
        self.place = 0;
        let ended = self.sheet.end_row(self.alloc);
        self.keep(ended);
    }

    /// What was written since the last call, whole rows alone. Fails if memory was refused for any of it.
    pub fn take(&mut self) -> Result<String, AllocError> {
        let fresh = Sheet::new(self.alloc, self.form());
        let sheet = mem::replace(&mut self.sheet, fresh);
        if mem::replace(&mut self.refused, false) {
            return Err(AllocError);
        }
        sheet.into_text(self.alloc)
    }

    /// The object that was written, or the list of objects. Fails if memory was refused for any of it; null where the
    /// form is not JSON.
    pub fn into_value(self) -> Result<Value, AllocError> {
        if self.refused {
            return Err(AllocError);
        }
        match self.sheet {
            Sheet::Json(_, object) => Ok(Value::Object(object)),
            Sheet::Objects(objects, _) => Ok(Value::Array(objects)),
            _ => Ok(Value::Null),
        }
    }

    // Puts a member into the object that is under way, in JSON.
    fn put(&mut self, key: &str, value: Value) {
        let added = self.sheet.put(self.alloc, key, value);
        self.keep(added);
    }

    // Goes to the column of a key, and answers it; none if the form has no such column from here on.
    fn find(&mut self, key: &str) -> Option<Column> {
        let form = self.form();
        if form == Form::Json {
            return None;
        }
        let mut place = self.place;
        for column in self.columns.iter().skip(self.place) {
            if column.key == key && column.is_in(form) {
                self.pass_to(place);
                self.place = place.saturating_add(1);
                return Some(*column);
            }
            place = place.saturating_add(1);
        }
        None
    }

    // Leaves the columns before this place empty.
    fn pass_to(&mut self, place: usize) {
        let form = self.form();
        for column in self.columns.iter().take(place).skip(self.place) {
            if column.is_in(form) {
                let added = self.sheet.add_field("", column);
                self.keep(added);
            }
        }
    }

    // Keeps the first refusal.
    fn keep(&mut self, added: Result<(), AllocError>) {
        if added.is_err() {
            self.refused = true;
        }
    }
}

// Texts as a value of JSON.
fn list_of(alloc: Global, texts: Vec<String>) -> Result<Value, AllocError> {
    let mut list = Vec::with_capacity(alloc, texts.len())?;
    for text in texts {
        list.push(Value::String(text))?;
    }
    Ok(Value::Array(list))
}

/// Texts with spaces between them.
pub fn joined(alloc: Global, texts: &[String]) -> Result<String, AllocError> {
    let mut all = String::new(alloc);
    for text in texts {
        if !all.is_empty() {
            all.push(' ')?;
        }
        all.push_str(text)?;
    }
    Ok(all)
}
