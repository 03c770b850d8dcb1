//! What is written of an answer so far.

use crate::cells::{add_cell, add_right, add_sentence, add_words, fill_cell};
use crate::column::{Align, Column};
use crate::form::Form;
use csv::{Terminator, Writer, WriterBuilder};
use serde_json::{Map, Value, put};
use std::alloc::{AllocError, Global};
use std::fmt::Display;
use std::mem;

// What is written so far, in one of the three forms.
#[derive(Drop)]
pub(crate) enum Sheet {
    // Lines of columns, and where the last one begins.
    Text(String, usize),
    // Records of CSV.
    Csv(Writer<Vec<u8>>),
    // The lines of the objects so far, and the members of the one that is under way.
    Json(String, Map<String, Value>),
    // The objects so far as values, and the members of the one that is under way.
    Objects(Vec<Value>, Map<String, Value>),
}

impl Sheet {
    // An empty one.
    pub(crate) fn new(alloc: Global, form: Form) -> Sheet {
        match form {
            Form::Text => Sheet::Text(String::new(alloc), 0),
            Form::Csv => Sheet::Csv(csv_writer(alloc)),
            Form::Json => Sheet::Json(String::new(alloc), Map::new(alloc)),
        }
    }

    // An empty one of objects as values.
    pub(crate) fn of_objects(alloc: Global) -> Sheet {
        Sheet::Objects(Vec::new(alloc), Map::new(alloc))
    }

    // Its form.
    pub(crate) fn form(&self) -> Form {
        match self {
            Sheet::Text(_, _) => Form::Text,
            Sheet::Csv(_) => Form::Csv,
            Sheet::Json(_, _) | Sheet::Objects(_, _) => Form::Json,
        }
    }

    // How many octets are written; CSV may hold some back, and objects as values are none.
    pub(crate) fn len(&self) -> usize {
        match self {
            Sheet::Text(text, _) => text.len(),
            Sheet::Csv(writer) => writer.get_ref().len(),
            Sheet::Json(text, _) => text.len(),
            Sheet::Objects(_, _) => 0,
        }
    }

    // Adds a field to a column. JSON has no columns.
    pub(crate) fn add_field(&mut self, field: &str, column: &Column) -> Result<(), AllocError> {
        match self {
            Sheet::Text(text, start) => add_to_line(text, *start, field, column),
            Sheet::Csv(writer) => writer.write_field(field.as_bytes()).map_err(|_| AllocError),
            _ => Ok(()),
        }
    }

    // Adds what a value shows, in the same way.
    pub(crate) fn add_shown<T: Display>(
        &mut self,
        alloc: Global,
        value: &T,
        column: &Column,
    ) -> Result<(), AllocError> {
        match self {
            Sheet::Text(text, _) if column.align == Align::Left => {
                let start = text.len();
                write!(text, "{value}")?;
                if column.width == 0 {
                    Ok(())
                } else {
                    fill_cell(text, start, column.width)
                }
            }
            _ => {
                let field = value.to_string(alloc)?;
                self.add_field(&field, column)
            }
        }
    }

    // Adds lines that text alone has. No row is under way.
    pub(crate) fn add_lines(&mut self, lines: &str) -> Result<(), AllocError> {
        if let Sheet::Text(text, start) = self {
            text.push_str(lines)?;
            *start = text.len();
        }
        Ok(())
    }

    // Adds a line of words that text alone has. No row is under way.
    pub(crate) fn add_sentence(&mut self, words: &str) -> Result<(), AllocError> {
        if let Sheet::Text(text, start) = self {
            add_sentence(text, words)?;
            *start = text.len();
        }
        Ok(())
    }

    // Adds a member to the object that is under way. Text and CSV have no members.
    pub(crate) fn put(&mut self, alloc: Global, key: &str, value: Value) -> Result<(), AllocError> {
        match self {
            Sheet::Json(_, object) | Sheet::Objects(_, object) => put(object, alloc, key, value),
            _ => Ok(()),
        }
    }

    // Ends the row.
    pub(crate) fn end_row(&mut self, alloc: Global) -> Result<(), AllocError> {
        match self {
            Sheet::Text(text, start) => {
                text.push('\n')?;
                *start = text.len();
                Ok(())
            }
            Sheet::Csv(writer) => writer.end_record().map_err(|_| AllocError),
            Sheet::Json(text, object) => {
                let row = mem::replace(object, Map::new(alloc));
                let line = Value::Object(row).to_string(alloc)?;
                text.push_str(&line)?;
                text.push('\n')
            }
            Sheet::Objects(objects, object) => {
                let row = mem::replace(object, Map::new(alloc));
                Ok(objects.push(Value::Object(row))?)
            }
        }
    }

    // What is written, as a text.
    pub(crate) fn into_text(self, alloc: Global) -> Result<String, AllocError> {
        match self {
            Sheet::Text(text, _) => Ok(text),
            Sheet::Json(text, _) => Ok(text),
            Sheet::Csv(writer) => {
                let octets = writer.into_inner().map_err(|_| AllocError)?;
                String::from_utf8(octets).map_err(|_| AllocError)
            }
            Sheet::Objects(objects, _) => Value::Array(objects).to_string(alloc),
        }
    }
}

// Adds a field to the line of a text that begins at this place.
fn add_to_line(
    text: &mut String,
    start: usize,
    field: &str,
    column: &Column,
) -> Result<(), AllocError> {
    match column.align {
        Align::Left if column.width == 0 => text.push_str(field),
        Align::Left => add_cell(text, field, column.width),
        Align::Right => add_right(text, field, column.width),
        Align::Broken => add_words(text, start, field),
    }
}

// A writer of CSV with its line breaks (RFC 4180, section 2).
fn csv_writer(alloc: Global) -> Writer<Vec<u8>> {
    let mut builder = WriterBuilder::new();
    builder.terminator(Terminator::CRLF);
    builder.from_writer(Vec::new(alloc))
}
