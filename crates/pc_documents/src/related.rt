//! The related information of a finding: the other places that its detail names.

ghost use Rattle.std.specs.Prelude.{◌≡◌, IfOk, map, option_map};
ghost use Rattle.serde_json.specs.View.{view};
ghost use Rattle.pc_position.specs.Positions.{IsPositionOf};
ghost use Rattle.pc_documents.specs.Agreed.{agreed_of};
ghost use Rattle.pc_documents.specs.Diagnostics.{location_of, related_entry, place_data, related_data};

use crate::checker::ToldDetail;
use crate::ranges::{ends_of, range_value};
use crate::settings::Settings;
use pc_position::{Encoding, Mark};
use pc_source::Place;
use serde_json::{Value, json};
use std::alloc::{AllocError, Global};

/// Returns a range of the document with this URI as JSON.
pub(crate) fn location_value(alloc: Global, uri: &str, range: Value) -> Result<Value, AllocError>
    ensures { IfOk result (λ v. view v ≡ location_of uri.now (view range)) }
{
    json!(in alloc; {"range": range, "uri": uri})
}

/// Returns an entry of related information, given a place of the document as JSON.
fn entry_value(alloc: Global, location: Value) -> Result<Value, AllocError>
    ensures { IfOk result (λ v. view v ≡ related_entry (view location)) }
{
    json!(in alloc; {"location": location, "message": "see here"})
}

/// Returns an entry of related information for a place of the document with this URI, and the mark of its start. Counts
/// from the mark `known`.
fn place_value(
    alloc: Global,
    encoding: Encoding,
    text: &[u8],
    uri: &str,
    known: Mark,
    place: &Place,
) -> Result<(Value, Mark), AllocError>
    requires { IsPositionOf encoding text.now known.byte known.position }
    ensures value { IfOk result (λ r. view r.0 ≡ place_data encoding text.now uri.now place.now) }
    ensures mark { IfOk result (λ r. IsPositionOf encoding text.now r.1.byte r.1.position) }
{
    let (start, end) = ends_of(text, encoding, known, place.start, place.end);
    let range = range_value(alloc, start.position, end.position)?;
    let location = location_value(alloc, uri, range)?;
    let value = entry_value(alloc, location)?;
    Ok((value, start))
}

/// Returns entries of related information for places of the document with this URI, in order, and the mark of the start
/// of the last one. Counts from the mark `known`.
fn place_values(
    alloc: Global,
    encoding: Encoding,
    text: &[u8],
    uri: &str,
    known: Mark,
    places: &[Place],
) -> Result<(Vec<Value>, Mark), AllocError>
    requires { IsPositionOf encoding text.now known.byte known.position }
    ensures value { IfOk result (λ r. map view r.0.items ≡ map (place_data encoding text.now uri.now) places.now) }
    ensures mark { IfOk result (λ r. IsPositionOf encoding text.now r.1.byte r.1.position) }
{
    let mut values = Vec::with_capacity(alloc, places.len())?;
    let mut known = known;
    for place in places {
        let (value, start) = place_value(alloc, encoding, text, uri, known, place)?;
        values.push(value)?;
        known = start;
    }
    Ok((values, known))
}

/// Returns the related information of a finding with this detail, if the client accepts it and the detail names other
/// places, and the mark of the last of them. Counts from the mark `known`.
pub(crate) fn related_value(
    alloc: Global,
    settings: &Settings,
    text: &[u8],
    uri: &str,
    known: Mark,
    detail: &Option<ToldDetail>,
) -> Result<(Option<Value>, Mark), AllocError>
    requires { IsPositionOf settings.now.encoding text.now known.byte known.position }
    ensures value { IfOk result
        (λ r. option_map view r.0 ≡ related_data (agreed_of settings.now) text.now uri.now detail.now) }
    ensures mark { IfOk result (λ r. IsPositionOf settings.now.encoding text.now r.1.byte r.1.position) }
{
    let Some(detail) = detail else {
        return Ok((None, known));
    };
    if settings.related && detail.others.len() != 0 {
        let (values, last) = place_values(
            alloc,
            settings.encoding,
            text,
            uri,
            known,
            &detail.others,
        )?;
        Ok((Some(Value::Array(values)), last))
    } else {
        Ok((None, known))
    }
}
