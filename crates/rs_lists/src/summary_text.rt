//! A summary of whole tables: as rows, or as a text of four tables, and of one more if there is an import policy.

ghost use Rattle.std.specs.Prelude.{◌<◌};

use crate::summary_row::{
    NUMBER_WIDTH, filter_columns, hand_filters, hand_hidden, hand_pair, hand_sender, hand_step,
    summary_columns,
};
use rs_choice::Exchange;
use rs_explain::STEPS;
use rs_glass_shell::{PeerSession, downs_text, name_at, name_width, step_name};
use rs_rows::{Form, RowWriter, add_cell, fill_cell};
use rs_survey::{Finding, Tally};
use std::alloc::{AllocError, Global};

// How wide the column of steps is.
const STEP_WIDTH: usize = 14;

// The title of the table of filters.
const FILTERS_TITLE: &str =
    "filtered: routes that import policy does not take in, by sender and reason\n";

// The summary, in the form that is asked for. A text begins with the sessions that are down.
pub(crate) fn summary_answer(
    alloc: Global,
    plan: &Exchange,
    sessions: &[PeerSession],
    form: Form,
    tally: &Tally,
) -> Result<String, AllocError> {
    let columns = summary_columns(plan);
    let mut rows = RowWriter::new(alloc, form, &columns);
    rows.titles();
    for peer in 0..tally.peers() {
        hand_sender(&mut rows, plan, tally, peer);
    }
    if form == Form::Text {
        let tables = tables_text(alloc, plan, tally, &rows.take()?)?;
        return match downs_text(alloc, plan, sessions)? {
            Some(downs) => format!(in alloc; "{downs}\n\n{tables}"),
            None => Ok(tables),
        };
    }
    for peer in 0..tally.peers() {
        hand_filters(&mut rows, plan, tally, peer);
    }
    for client in 0..tally.peers() {
        hand_client(&mut rows, plan, tally, client);
    }
    for step in STEPS {
        hand_step(&mut rows, tally, step);
    }
    hand_hidden(&mut rows, tally);
    rows.take()
}

// Hands over the rows of a client, one for each other peer.
fn hand_client(rows: &mut RowWriter<'_>, plan: &Exchange, tally: &Tally, client: usize)
    requires { client < tally.now.peers }
{
    for peer in 0..tally.peers() {
        if peer != client {
            hand_pair(rows, plan, tally, client, peer);
        }
    }
}

// The text, of which the table of peers is given.
fn tables_text(
    alloc: Global,
    plan: &Exchange,
    tally: &Tally,
    peers: &str,
) -> Result<String, AllocError> {
    let hidden = tally.count(Finding::Hidden);
    let (unfit, filters) = if plan.import().is_configured() {
        ("ineligible and filtered", filters_text(alloc, plan, tally)?)
    } else {
        ("ineligible", String::new(alloc))
    };
    let mut matrix = String::new(alloc);
    add_matrix(&mut matrix, plan, tally)?;
    let mut steps = String::new(alloc);
    add_steps(&mut steps, tally)?;
    format!(in alloc;
        "peers: prefixes left, of these {unfit}; at the other peers refused, lost, best\n{peers}\n{filters}{matrix}\n{steps}\nhidden paths: prefixes on which one decision for all clients would leave a client none\n{hidden}\n"
    )
}

// The table of filters, with the empty line behind it.
fn filters_text(alloc: Global, plan: &Exchange, tally: &Tally) -> Result<String, AllocError> {
    let columns = filter_columns(plan);
    let mut rows = RowWriter::new(alloc, Form::Text, &columns);
    rows.lines(String::from_str(alloc, FILTERS_TITLE));
    rows.titles();
    for peer in 0..tally.peers() {
        hand_filters(&mut rows, plan, tally, peer);
    }
    rows.lines(String::from_str(alloc, "\n"));
    rows.take()
}

// Adds how many routes each client gets from each sender.
fn add_matrix(text: &mut String, plan: &Exchange, tally: &Tally) -> Result<(), AllocError> {
    let (clients, senders) = (name_width(plan, "client"), sender_width(plan));
    text.push_str("clients: routes that each gets from each peer\n")?;
    add_cell(text, "client", clients)?;
    for peer in 0..tally.peers() {
        add_cell(text, name_at(plan, peer), senders)?;
    }
    text.push_str("all\n")?;
    for client in 0..tally.peers() {
        add_client(text, plan, tally, client)?;
    }
    Ok(())
}

// How wide the column of a sender is.
fn sender_width(plan: &Exchange) -> usize {
    name_width(plan, "peer").max(NUMBER_WIDTH)
}

// Adds the line of a client.
fn add_client(
    text: &mut String,
    plan: &Exchange,
    tally: &Tally,
    client: usize,
) -> Result<(), AllocError>
    requires { client < tally.now.peers }
{
    let width = sender_width(plan);
    let mut all: u64 = 0;
    add_cell(text, name_at(plan, client), name_width(plan, "client"))?;
    for peer in 0..tally.peers() {
        let routes = tally.count(Finding::Best(client, peer));
        all = all.saturating_add(routes);
        let start = text.len();
        write!(text, "{routes}")?;
        fill_cell(text, start, width)?;
    }
    writeln!(text, "{all}")
}

// Adds how many routes each step removed.
fn add_steps(text: &mut String, tally: &Tally) -> Result<(), AllocError> {
    text.push_str("decision: routes lost by the step that removed them\n")?;
    for step in STEPS {
        add_cell(text, step_name(step), STEP_WIDTH)?;
        let lost = tally.count(Finding::Removed(step));
        writeln!(text, "{lost}")?;
    }
    Ok(())
}
