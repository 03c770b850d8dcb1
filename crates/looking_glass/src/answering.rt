//! Answers the question of the command line: reads what it names, and writes what comes of it.

use rs_files::{check, peers, start};
use rs_glass_shell::{NoReply, PROGRAM, Reply, Unanswered, answer_with};
use rs_host::{WordsFault, read_arguments};
use rs_lists::{diff, missing, summary, table};
use rs_page::page;
use rs_query::{Query, read_query};
use rs_why::{history, why};
use std::alloc::Global;
use std::env::Env;
use std::fs::Files;
use std::io::Print;
use std::sync::Wait;
use std::thread::Threads;

// Answers the question of the command line: reads the configuration and the recorded files that it names. Prints all
// parts of a list but the last, which the reply has. Fails with why there is no answer, and the status of that.
pub(crate) fn answer<R: AllocGlobal + Env + Files + Threads + Wait + Sync + Print>(
    rt: &R,
) -> Result<Reply, NoReply>
where
    R::File: Send,
    R::Dir: Send,
{
    let query = match command_line(rt) {
        Ok(query) => query,
        Err(no_reply) => return help(rt.alloc(), no_reply),
    };
    let of_diff = query.is_diff();
    match answer_to(rt, query) {
        Ok(reply) => Ok(reply),
        Err(why) => Err(NoReply::new(why, of_diff)),
    }
}

// Answers a question.
fn answer_to<R: AllocGlobal + Env + Files + Threads + Wait + Sync + Print>(
    rt: &R,
    query: Query,
) -> Result<Reply, Unanswered>
where
    R::File: Send,
    R::Dir: Send,
{
    match query {
        Query::Why(query) => why(rt, &query),
        Query::History(query) => history(rt, &query),
        Query::Peers(query) => Ok(answer_with(peers(rt, query)?, Vec::new(rt.alloc()))),
        Query::Check(query) => check(rt, &query),
        Query::Start(query) => start(rt, &query),
        Query::Table(query) => table(rt, &query),
        Query::Missing(query) => missing(rt, &query),
        Query::Summary(query) => summary(rt, &query),
        Query::Page(query) => page(rt, &query),
        Query::Diff(query) => diff(rt, &query),
    }
}

// The text of help or the version, if the command line asks for it.
fn help(alloc: Global, no_reply: NoReply) -> Result<Reply, NoReply> {
    let NoReply { why, status } = no_reply;
    match why {
        Unanswered::Words(WordsFault::Help(text)) => Ok(Reply {
            text,
            status,
            notes: Vec::new(alloc),
        }),
        why => Err(NoReply { why, status }),
    }
}

// The question of the command line.
fn command_line<R: AllocGlobal + Env>(rt: &R) -> Result<Query, NoReply> {
    Ok(read_query(rt.alloc(), read_arguments(rt, PROGRAM)?)?)
}
