//! All path attributes of a route as fields of an object, and its validity by RPKI.

use rs_choice::Exchange;
use rs_glass_shell::{hand_attributes, hand_rpki, hex_text, lists_large_communities};
use rs_rows::RowWriter;
use rs_update::{Aggregator, Attributes, Prefix, Unrecognized};
use serde_json::Value;
use std::alloc::{AllocError, Global};
use std::net::Ipv4Addr;

// All path attributes of a route on a prefix, and its validity by RPKI, if the exchange has VRPs: as an object.
pub(crate) fn attributes_object(
    alloc: Global,
    plan: &Exchange,
    prefix: Prefix,
    attributes: &Attributes,
) -> Result<Value, AllocError> {
    let mut object = RowWriter::object(alloc);
    hand_attributes(&mut object, attributes);
    hand_rare(&mut object, attributes);
    hand_rpki(&mut object, plan, prefix, attributes);
    object.into_value()
}

// Hands over those that an announcement is not told by.
pub(crate) fn hand_rare(object: &mut RowWriter<'_>, attributes: &Attributes) {
    let alloc = object.alloc();
    object.value("atomic_aggregate", Ok(Value::from(attributes.atomic())));
    object.value(
        "aggregator",
        aggregator_value(alloc, attributes.aggregator()),
    );
    object.value("unrecognized", others_value(alloc, attributes));
}

// The AGGREGATOR of a route, or null.
fn aggregator_value(alloc: Global, aggregator: Option<Aggregator>) -> Result<Value, AllocError> {
    match aggregator {
        Some(aggregator) => {
            let (asn, address) = (aggregator.asn, Ipv4Addr::from_bits(aggregator.address));
            Ok(Value::String(format!(in alloc; "AS {asn} {address}")?))
        }
        None => Ok(Value::Null),
    }
}

// The unrecognized attributes of a route.
fn others_value(alloc: Global, attributes: &Attributes) -> Result<Value, AllocError> {
    let mut others = Vec::new(alloc);
    for other in attributes.others() {
        if !lists_large_communities(&other) {
            others.push(other_object(alloc, &other)?)?;
        }
    }
    Ok(Value::Array(others))
}

// An unrecognized attribute: its type, and its octets.
fn other_object(alloc: Global, other: &Unrecognized<'_>) -> Result<Value, AllocError> {
    let mut object = RowWriter::object(alloc);
    object.number("type", u64::from(other.kind));
    object.made("value", hex_text(alloc, other.value));
    object.into_value()
}
