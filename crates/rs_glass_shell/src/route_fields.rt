//! Routes as fields of rows.

use crate::names::add_again;
use crate::reason_fields::hand_peer;
use crate::reasons::origin_name;
use crate::route_text::{attributes_text, community_texts, large_community_texts, path_text};
use rs_choice::Exchange;
use rs_host::Utc;
use rs_rows::{Form, RowWriter};
use rs_table::Route;
use rs_update::Attributes;
use std::alloc::{AllocError, Global};
use std::net::Ipv4Addr;

/// Hands over a route: its sender, since when it is there, and the attributes that decide where it goes. As a text these
/// are one field, `route`.
pub fn hand_route(row: &mut RowWriter<'_>, plan: &Exchange, route: &Route) {
    hand_peer(row, plan, route.peer);
    row.number("time", u64::from(route.time));
    row.shown_words("since", &Utc(route.time));
    if row.form() == Form::Text {
        row.made_words("route", attributes_text(row.alloc(), route.attributes));
    } else {
        hand_attributes(row, route.attributes);
    }
}

/// Hands over the attributes of a route that decide where it goes, each as a field.
pub fn hand_attributes(row: &mut RowWriter<'_>, attributes: &Attributes) {
    let alloc = row.alloc();
    row.shown("next_hop", &Ipv4Addr::from_bits(attributes.next_hop()));
    row.made("path", path_text(alloc, attributes));
    row.text("origin", origin_name(attributes.origin()));
    row.number_or_none("med", attributes.med());
    row.list("communities", community_texts(alloc, attributes));
    row.list(
        "large_communities",
        large_community_texts(alloc, attributes),
    );
}

/// The key of the field that says that a route is from before a loss which is not recorded.
pub const DOUBT: &str = "session_began_again";

/// Hands over when the session of a route's sender began again behind the route, without a recorded loss between them. If
/// it did not, nothing is handed over.
pub fn hand_doubt(row: &mut RowWriter<'_>, again: Option<u32>) {
    let Some(again) = again else {
        return;
    };
    if row.form() == Form::Text {
        row.made_words(DOUBT, doubt_text(row.alloc(), again));
    } else {
        row.number(DOUBT, u64::from(again));
    }
}

// The same in words, behind other words of the line.
fn doubt_text(alloc: Global, again: u32) -> Result<String, AllocError> {
    let mut text = String::from_str(alloc, "; ")?;
    add_again(&mut text, again)?;
    Ok(text)
}
