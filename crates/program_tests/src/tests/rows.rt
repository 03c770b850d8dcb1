//! Rows in each form, beside texts written by hand.

use super::check;
use rs_rows::{Column, Form, RowWriter};
use serde_json::Value;
use std::alloc::{AllocError, Global};
use std::test::Fail;

// The rows as text, as CSV and as JSON.
const WRITTEN: &str = concat!(
    "peer  AS    since    gets  because\n",
    "a     64501 00:00:07 d     MED 5, \"d\" has 2\n",
    "toolong                none  \n",
    "peer,as,time,best,because\r\n",
    "a,64501,7,d,\"MED 5, \"\"d\"\" has 2\"\r\n",
    "toolong,,,,\r\n",
    "{\"as\":64501,\"best\":\"d\",\"peer\":\"a\",\"rival\":\"d\",\"time\":7}\n",
    "{\"best\":null,\"med\":null,\"peer\":\"toolong\"}\n",
);

// The columns of the rows.
fn columns() -> [Column; 6] {
    [
        Column::new("peer", "peer", 6),
        Column::new("as", "AS", 6),
        Column::of_csv("time"),
        Column::of_text("since", "since", 9),
        Column::new("best", "gets", 6),
        Column::new("because", "because", 0),
    ]
}

// Two rows: one with all fields, and one without some.
fn rows_in(alloc: Global, form: Form) -> Result<String, AllocError> {
    let columns = columns();
    let mut row = RowWriter::new(alloc, form, &columns);
    row.titles();
    row.text("peer", "a");
    row.number("as", 64501);
    row.number("time", 7);
    row.words("since", "00:00:07");
    row.text_or("best", Some("d"), "none");
    row.value("rival", Value::try_from_str(alloc, "d"));
    row.made_words("because", String::from_str(alloc, "MED 5, \"d\" has 2"));
    row.end_row();
    row.made("peer", String::from_str(alloc, "toolong"));
    row.text_or("best", None, "none");
    row.number_or_none("med", None);
    row.end_row();
    row.take()
}

// The rows in all three forms, one behind the other.
fn rows_in_all_forms(alloc: Global) -> Result<String, AllocError> {
    let mut all = rows_in(alloc, Form::Text)?;
    all.push_str(&rows_in(alloc, Form::Csv)?)?;
    all.push_str(&rows_in(alloc, Form::Json)?)?;
    Ok(all)
}

#[test]
fn a_row_is_written_in_each_form(rt: HostRuntime) -> Result<(), Fail> {
    check(&rows_in_all_forms(rt.alloc())?, WRITTEN, "rows")
}

// A list with a column to the right, one that is broken between words, and lines between its rows.
const BROKEN: &str = concat!(
    "A sentence goes on in the next line where it has more than eighty columns, so\n",
    "  here.\n",
    "count  why\n",
    "   12  these words go on below where they begin, since the line is full at its\n",
    "       end\n",
    "beside\n",
    "    7  \n",
);

// Its rows.
fn broken_rows(alloc: Global) -> Result<String, AllocError> {
    let columns = [
        Column::right("count", "count", 5),
        Column::broken("why", "why"),
    ];
    let mut row = RowWriter::new(alloc, Form::Text, &columns);
    row.sentence(String::from_str(
        alloc,
        "A sentence goes on in the next line where it has more than eighty columns, so here.",
    ));
    row.titles();
    row.number("count", 12);
    row.words(
        "why",
        "these words go on below where they begin, since the line is full at its end",
    );
    row.end_row();
    row.lines(String::from_str(alloc, "beside\n"));
    row.number("count", 7);
    row.end_row();
    row.take()
}

#[test]
fn a_column_is_laid_out_to_the_right_or_broken(rt: HostRuntime) -> Result<(), Fail> {
    check(&broken_rows(rt.alloc())?, BROKEN, "rows")
}

// An object with a list of objects, of which text has no line.
fn nested_rows(alloc: Global) -> Result<String, AllocError> {
    let mut list = RowWriter::objects(alloc);
    list.number("up", 1);
    list.sentence(String::from_str(alloc, "for people"));
    list.end_row();
    list.number_or_none("up", None);
    list.end_row();
    let mut object = RowWriter::object(alloc);
    object.value("sessions", list.into_value());
    object.end_row();
    object.take()
}

#[test]
fn objects_are_a_value_of_an_object(rt: HostRuntime) -> Result<(), Fail> {
    let wanted = "{\"sessions\":[{\"up\":1},{\"up\":null}]}\n";
    check(&nested_rows(rt.alloc())?, wanted, "rows")
}
