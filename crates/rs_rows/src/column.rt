//! The columns of a list.

use crate::form::Form;

/// How text lays out the fields of a column.
#[derive(Clone, Copy, Debug, PartialEq, Eq, Drop)]
pub enum Align {
    /// To the left, with spaces behind them.
    Left,
    /// To the right, with spaces before them and two behind.
    Right,
    /// Broken between words if a line is too long: for the last column.
    Broken,
}

/// A column of a list.
#[derive(Clone, Copy, Debug, PartialEq, Eq, Drop)]
pub struct Column {
    /// The key of its fields. It is the title in CSV.
    pub key: &'static str,
    /// The title in text.
    pub title: &'static str,
    /// How wide the column is in text, in characters; 0 for the last column, which is as wide as each of its fields.
    pub width: usize,
    /// Whether text has it.
    pub in_text: bool,
    /// Whether CSV has it.
    pub in_csv: bool,
    /// How text lays out its fields.
    pub align: Align,
}

impl Column {
    /// A column of text and of CSV.
    pub fn new(key: &'static str, title: &'static str, width: usize) -> Column {
        Column {
            key,
            title,
            width,
            in_text: true,
            in_csv: true,
            align: Align::Left,
        }
    }

    /// A column whose fields text lays out to the right.
    pub fn right(key: &'static str, title: &'static str, width: usize) -> Column {
        Column {
            align: Align::Right,
            ..Column::new(key, title, width)
        }
    }

    /// The last column, whose fields text breaks between words if a line is too long.
    pub fn broken(key: &'static str, title: &'static str) -> Column {
        Column {
            align: Align::Broken,
            ..Column::new(key, title, 0)
        }
    }

    /// A column of text alone.
    pub fn of_text(key: &'static str, title: &'static str, width: usize) -> Column {
        Column {
            in_csv: false,
            ..Column::new(key, title, width)
        }
    }

    /// A column of CSV alone.
    pub fn of_csv(key: &'static str) -> Column {
        Column {
            in_text: false,
            ..Column::new(key, "", 0)
        }
    }

    // Whether a form has it.
    pub(crate) fn is_in(&self, form: Form) -> bool {
        match form {
            Form::Text => self.in_text,
            Form::Csv => self.in_csv,
            Form::Json => false,
        }
    }
}
