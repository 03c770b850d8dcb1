//! Why import policy doesn't take a route in, and the validity of a route by RPKI: as fields of rows.

use crate::import_text::{PatternText, is_repeated, rpki_validity, validity_key};
use crate::names::PrefixText;
use rs_choice::Exchange;
use rs_explain::FilteredBy;
use rs_import::Vrp;
use rs_rows::{Form, RowWriter};
use rs_update::{Attributes, Prefix};

/// Hands over the validity of a route by RPKI, if the exchange has VRPs. As a text nothing is handed over.
pub fn hand_rpki(
    row: &mut RowWriter<'_>,
    plan: &Exchange,
    prefix: Prefix,
    attributes: &Attributes,
) {
    if row.form() == Form::Text {
        return;
    }
    if let Some(validity) = rpki_validity(plan, prefix, attributes) {
        row.text("rpki", validity_key(validity));
    }
}

// Hands over the value that fails a condition of import policy, in JSON: null if it has none. With an origin AS that
// RPKI finds invalid come the VRPs that cover the prefix.
pub(crate) fn hand_filtered(
    row: &mut RowWriter<'_>,
    plan: &Exchange,
    prefix: Prefix,
    failed: FilteredBy,
) {
    match failed {
        FilteredBy::PrefixLength(len) => row.number("value", u64::from(len)),
        FilteredBy::RefusedPrefix(pattern) => row.shown("value", &PatternText(pattern)),
        FilteredBy::PathLengthLimit(length) => row.number("value", u64::from(length)),
        FilteredBy::RefusedAs(asn) => row.number("value", u64::from(asn)),
        FilteredBy::FirstAs(first) => row.number_or_none("value", first),
        FilteredBy::PrefixList => row.number_or_none("value", None),
        FilteredBy::OriginAs(origin) => row.number_or_none("value", origin),
        FilteredBy::RpkiInvalid(origin) => {
            row.number_or_none("value", origin);
            hand_covering(row, plan, prefix);
        }
    }
}

// Hands over the VRPs that cover a prefix, each once, the most specific ones first.
fn hand_covering(row: &mut RowWriter<'_>, plan: &Exchange, prefix: Prefix) {
    let mut list = RowWriter::objects(row.alloc());
    if let Some(vrps) = &plan.import().rules().vrps {
        let mut place: usize = 0;
        for vrp in vrps.covering(prefix) {
            if !is_repeated(vrps, prefix, place, &vrp) {
                hand_vrp(&mut list, vrp);
            }
            place = place.saturating_add(1);
        }
    }
    row.value("vrps", list.into_value());
}

// Hands over a VRP.
fn hand_vrp(row: &mut RowWriter<'_>, vrp: Vrp) {
    row.shown("prefix", &PrefixText(vrp.prefix));
    row.number("max_length", u64::from(vrp.max_len));
    row.number("as", u64::from(vrp.asn));
    row.end_row();
}
