//! The history of a prefix: what happened, and what a client gets after each.

ghost use Rattle.std.specs.Option.{option_map, option_to_list};
ghost use Rattle.std.specs.Prelude.{◌≡◌, [], ◌∷◌, IfOk, OnOk, None};
ghost use Rattle.rs_session.specs.Change.{body_of};
ghost use Rattle.rs_glass.specs.Histories.{IsHistory, Notes, TakesIf, best_for, event_content, event_of};
ghost use Rattle.rs_glass.specs.Histories.{gets_by, gets_content, is_before, is_open};

use crate::answers::best_from;
use crate::cause::{Cause, cause_known};
use crate::happened::Happening;
use crate::loss::Loss;
use crate::question::Question;
use crate::treated::Treated;
use rs_choice::Exchange;
use rs_session::{Body, Reason};
use rs_table::Tables;
use rs_update::{Attributes, Prefix};
use std::alloc::{AllocError, Global};
use std::sync::Arc;

/// What happened to a peer's route or session.
#[derive(Drop)]
pub enum Event {
    /// The peer announced the prefix with these attributes.
    Announced(Arc<Attributes>),
    /// The peer withdrew the prefix.
    Withdrawn,
    /// The peer announced the prefix in an UPDATE with this fault, which is treated as a withdrawal of its routes (RFC
    /// 7606, section 2).
    Treated(Treated),
    /// The session was lost, in this way; none if the record says nothing of it.
    Lost(Option<Loss>),
    /// The session closed, for this reason.
    Closed(Reason),
}

/// One thing that happened, and what the client gets from then on.
#[derive(Drop)]
pub struct Gets {
    /// When it counts, in seconds since 1970.
    pub time: u32,
    /// The microseconds of that time, if they are known.
    pub microseconds: Option<u32>,
    /// The number of the peer.
    pub peer: usize,
    /// What happened.
    pub event: Event,
    /// The number of the peer whose route the client gets from then on, if any; none if no client is asked for.
    pub best: Option<usize>,
}

/// The history of a prefix.
#[derive(Drop)]
pub struct History {
    /// The prefix.
    pub prefix: Prefix,
    /// The number of the client, if one is asked for.
    pub client: Option<usize>,
    /// From when on changes are shown, in seconds since 1970, if that was asked for.
    pub from: Option<u32>,
    /// The number of the peer whose route the client gets before what is shown, if any.
    pub before: Option<usize>,
    /// What happened, in the order of time.
    pub events: Vec<Gets>,
}

impl History {
    /// A history of what is asked, before anything happened.
    pub fn of(
        alloc: Global,
        question: &Question,
        client: Option<usize>,
        from: Option<u32>,
    ) -> History
        ensures prefix { result.prefix ≡ question.now.prefix }
        ensures client { result.client ≡ client }
        ensures from { result.from ≡ from }
        ensures nothing { (result.before ≡ None) × (result.events.items ≡ []) }
    {
        History {
            prefix: question.prefix,
            client,
            from,
            before: None,
            events: Vec::new(alloc),
        }
    }
}

/// Goes through what happened, one event after another, and says what the client gets after each. Events before
/// `from` count and aren't shown. Events of a peer that isn't there, or behind its close, don't count.
pub fn fill_history(
    alloc: Global,
    plan: &Arc<Exchange>,
    happenings: Vec<Happening>,
    asked: History,
) -> Result<History, AllocError>
    ensures { IfOk result (IsHistory plan.now.value happenings.items asked) }
{
    let mut tables = Tables::new(alloc, plan.clone()?)?;
    let mut history = asked;
    for happening in happenings {
        go_on(&mut tables, &mut history, happening)?;
    }
    Ok(history)
}

// Takes what happened, and notes what the client gets from then on.
fn go_on(tables: &mut Tables, history: &mut History, happening: Happening) -> Result<(), AllocError>
    ensures takes { OnOk result
        (TakesIf (is_open tables.old happening.peer) tables.old happening tables.new) }
    ensures notes { OnOk result (Notes history.old
        (option_to_list (gets_by (is_open tables.old happening.peer) tables.new history.old.client
        history.old.prefix happening)) history.new) }
{
    match take(tables, history.client, history.prefix, happening)? {
        Some(gets) => note(history, gets),
        None => Ok(()),
    }
}

// Takes an event, and says what the client gets from then on. Events of a peer that isn't there, or behind its
// close, don't count.
fn take(
    tables: &mut Tables,
    client: Option<usize>,
    prefix: Prefix,
    happening: Happening,
) -> Result<Option<Gets>, AllocError>
    ensures takes { OnOk result
        (TakesIf (is_open tables.old happening.peer) tables.old happening tables.new) }
    ensures gets { IfOk result (λ gets. option_map gets_content gets
        ≡ gets_by (is_open tables.old happening.peer) tables.new client prefix happening) }
{
    if !is_open(tables, happening.peer) {
        return Ok(None);
    }
    let Happening {
        peer,
        time,
        microseconds,
        word,
        cause,
        put_in,
    } = happening;
    let event = event_of(&word.body, cause_known(put_in, cause))?;
    tables.apply(peer, word)?;
    Ok(Some(Gets {
        time,
        microseconds,
        peer,
        event,
        best: best_for(tables, client, prefix),
    }))
}

// Whether a peer is there, and its session open.
fn is_open(tables: &Tables, peer: usize) -> bool
    ensures { result ≡ is_open tables.now peer }
{
    peer < tables.count() && !tables.is_closed(peer)
}

// The peer whose route the client gets on a prefix, if a client is asked for.
fn best_for(tables: &Tables, client: Option<usize>, prefix: Prefix) -> Option<usize>
    ensures { result ≡ best_for tables.now client prefix }
{
    match client {
        Some(client) => best_from(tables, client, prefix),
        None => None,
    }
}

// Notes what the client gets: before what is shown, or as the next thing that is.
fn note(history: &mut History, gets: Gets) -> Result<(), AllocError>
    ensures { OnOk result (Notes history.old (gets_content gets ∷ []) history.new) }
{
    if is_before(gets.time, history.from) {
        history.before = gets.best;
        return Ok(());
    }
    history.events.push(gets)?;
    Ok(())
}

// Whether a time is before another, if that is given.
fn is_before(time: u32, from: Option<u32>) -> bool
    ensures { result ≡ is_before time from }
{
    match from {
        Some(from) => time < from,
        None => false,
    }
}

// What happened, by a change and why it came.
fn event_of(body: &Body, cause: Option<Cause>) -> Result<Event, AllocError>
    ensures { IfOk result (λ event. event_content event ≡ event_of (body_of body.now) cause) }
{
    match body {
        Body::Announce(_, attributes) => Ok(Event::Announced(attributes.clone()?)),
        Body::Withdraw(_) => match cause {
            Some(Cause::Treated(fault)) => Ok(Event::Treated(fault)),
            _ => Ok(Event::Withdrawn),
        },
        Body::Down => match cause {
            Some(Cause::Lost(loss)) => Ok(Event::Lost(Some(loss))),
            _ => Ok(Event::Lost(None)),
        },
        Body::Close(reason) => Ok(Event::Closed(*reason)),
    }
}
