//! What becomes of a route at a client, as the picture of a history shows it.

use crate::canvas::Canvas;
use crate::lives::Life;
use rs_choice::Exchange;
use rs_explain::failed_condition;
use rs_glass::Event;
use rs_update::{Attributes, Prefix};

/// What becomes of a route at a client.
#[derive(Clone, Copy, Debug, PartialEq, Eq)]
pub(crate) enum Fate {
    /// No client is asked for.
    Unasked,
    /// It is the client's own route: a client never gets that.
    Own,
    /// It is not eligible (RFC 4271, sections 6.3 and 9.1.2).
    Ineligible,
    /// Import policy does not take it in (RFC 4271, section 9.1.1).
    Filtered,
    /// Export policy refuses it to the client (RFC 7947, section 2.3).
    Refused,
    /// It is a candidate, and the decision process chose another one.
    Lost,
    /// The client gets it.
    Best,
}

impl Fate {
    /// That of a peer's route in a time.
    pub(crate) fn of(canvas: &Canvas<'_>, peer: usize, life: &Life) -> Fate {
        let Some(client) = canvas.history.client else {
            return Fate::Unasked;
        };
        if life.chosen {
            return Fate::Best;
        }
        if peer == client {
            return Fate::Own;
        }
        match canvas.history.events.get(life.announced) {
            Some(gets) => match &gets.event {
                Event::Announced(attributes) => {
                    let prefix = canvas.history.prefix;
                    Fate::unchosen(canvas.view.plan, client, peer, prefix, attributes)
                }
                _ => Fate::Lost,
            },
            None => Fate::Lost,
        }
    }

    // That of another peer's route that the client does not get.
    fn unchosen(
        plan: &Exchange,
        client: usize,
        peer: usize,
        prefix: Prefix,
        attributes: &Attributes,
    ) -> Fate {
        if client >= plan.count() || peer >= plan.count() {
            return Fate::Lost;
        }
        if failed_condition(plan, peer, attributes).is_some() {
            return Fate::Ineligible;
        }
        if !plan.accepts(peer, prefix, attributes) {
            return Fate::Filtered;
        }
        if plan.permits(client, peer, attributes) {
            Fate::Lost
        } else {
            Fate::Refused
        }
    }

    /// What a title says of it behind the name of the client; none if no client is asked for.
    pub(crate) fn words(self) -> Option<&'static str> {
        match self {
            Fate::Unasked => None,
            Fate::Own => Some("does not get its own route"),
            Fate::Ineligible => Some("does not get it: ineligible"),
            Fate::Filtered => Some("does not get it: filtered"),
            Fate::Refused => Some("does not get it: refused"),
            Fate::Lost => Some("does not get it: not chosen"),
            Fate::Best => Some("gets it"),
        }
    }
}
