//! An exchange on one page.

use crate::cards::add_cards;
use crate::causes::add_causes;
use crate::head::add_head;
use crate::histogram::add_histogram;
use crate::lanes::add_sessions;
use crate::matrix::add_matrix;
use crate::members::members_of;
use crate::shown::Shown;
use crate::style::STYLE;
use crate::times::times_of;
use rs_glass_shell::{Reply, Unanswered, check_place, served, write_whole};
use rs_host::{DONE, configuration};
use rs_mrt::Losses;
use rs_notes::{Subject, Telling, add_filtered, add_unconfigured, notes_of};
use rs_picture::PALETTE;
use rs_query::PageQuery;
use rs_survey::summary_on_threads;
use std::alloc::{AllocError, Global};
use std::fs::Files;
use std::sync::Wait;
use std::thread::Threads;

/// Writes an exchange to a file, as a page of HTML in pictures. The answer is empty. A file over one that is read is
/// refused, and nothing is written.
pub fn page<R: AllocGlobal + Files + Threads + Wait + Sync>(
    rt: &R,
    query: &PageQuery,
) -> Result<Reply, Unanswered>
where
    R::File: Send,
    R::Dir: Send,
{
    let alloc = rt.alloc();
    let setup = configuration(rt, &query.tables.config)?;
    check_place(rt, &query.out, &query.tables.config, &setup)?;
    let served = served(rt, &setup, &query.tables)?;
    let tally = summary_on_threads(rt, alloc, served.tables())?;
    let (outlines, losses) = (served.outlines(), query.tables.losses);
    let bounds = outlines.bounds();
    let contents = outlines.contents(rt, &setup);
    let times = times_of(rt, &setup, &contents, bounds, &query.tables)?;
    let members = members_of(alloc, &tally, &times)?;
    let subject = Subject {
        setup: &setup,
        bounds,
        endings: None,
        telling: Telling::Page,
        inferred: losses == Losses::Inferred,
    };
    let mut notes = notes_of(rt, subject, &contents);
    add_filtered(alloc, served.tables(), &mut notes);
    add_unconfigured(alloc, &setup, &contents, &mut notes);
    let text = page_text(
        alloc,
        &Shown {
            alloc,
            query,
            setup: &setup,
            tally: &tally,
            times: &times,
            members: &members,
            sessions: &times.sessions,
            notes: &notes.texts,
        },
    )?;
    write_whole(rt, &query.out, &text)?;
    Ok(Reply {
        text: String::new(alloc),
        status: DONE,
        notes: notes.texts,
    })
}

// The text of the page.
fn page_text(alloc: Global, shown: &Shown<'_>) -> Result<String, AllocError> {
    let mut text = String::new(alloc);
    let asn = shown.setup.plan.local().asn;
    text.push_str(
        "<!DOCTYPE html>\n<html xmlns=\"http://www.w3.org/1999/xhtml\" lang=\"en\">\n<head>\n",
    )?;
    text.push_str(
        "<meta charset=\"utf-8\"/>\n<meta name=\"viewport\" content=\"width=device-width\"/>\n",
    )?;
    writeln!(text, "<title>Exchange of AS {asn}</title>")?;
    text.push_str("<style>")?;
    text.push_str(PALETTE)?;
    text.push_str(STYLE)?;
    text.push_str("</style>\n</head>\n<body>\n")?;
    add_head(&mut text, alloc, shown)?;
    text.push_str("<main>\n")?;
    add_matrix(&mut text, shown)?;
    add_cards(&mut text, shown)?;
    add_sessions(&mut text, alloc, shown)?;
    add_causes(&mut text, shown)?;
    add_histogram(&mut text, alloc, shown)?;
    text.push_str("</main>\n</body>\n</html>\n")?;
    Ok(text)
}
