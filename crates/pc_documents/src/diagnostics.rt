//! Diagnostics of findings and refusals.

ghost use Rattle.std.specs.Prelude.{◌≡◌, ◌≤◌, ◌∷◌, [], IfOk, None, Some, length, map, option_map, string_bytes, take};
ghost use Rattle.serde_json.specs.View.{view};
ghost use Rattle.pc_position.specs.Positions.{IsPositionOf};
ghost use Rattle.pc_documents.specs.Agreed.{agreed_of};
ghost use Rattle.pc_documents.specs.Diagnostics.{severity_of, meaning_with_types, message_text};
ghost use Rattle.pc_documents.specs.Diagnostics.{diagnostic_data, item_data, refusal_data, found_data};
ghost use Rattle.pc_documents.specs.Diagnostics.{note_data, unknown_data, more_data, limited, position_in_first_line};

use crate::anchors::{anchor, entry, refusal_anchor};
use crate::checker::{CheckOutcome, ReportedFinding};
use crate::ranges::{end_of, ends_of, position_value, range_value, start_of};
use crate::related::related_value;
use crate::settings::Settings;
use pc_code_texts::{meaning, refusal_meaning};
use pc_position::{Mark, Position};
use pc_source::Refusal;
use pc_tree::Code;
use serde_json::{Value, json};
use std::alloc::{AllocError, Global};

/// Returns the severity of a code: 1 for an error, `dynamic` for a dynamic place.
fn severity(dynamic: u64, code: Code) -> u64
    ensures { result ≡ severity_of dynamic code }
{
    if code.is_error() { 1 } else { dynamic }
}

/// Returns the meaning of a finding's code, after the two types of its flow, if any.
fn meaning_of(alloc: Global, item: &ReportedFinding) -> Result<String, AllocError>
    ensures { IfOk result (λ s. string_bytes s ≡ meaning_with_types item.now.finding.code item.now.flow) }
{
    let text = meaning(item.finding.code);
    match &item.flow {
        None => String::from_str(alloc, text),
        Some(flow) => {
            let from = flow.from.as_str();
            let to = flow.to.as_str();
            format!(in alloc; "{from} -> {to}: {text}")
        }
    }
}

/// Returns the message of a finding: the sentence of its detail, or without one the meaning of its code.
fn message_of(alloc: Global, item: &ReportedFinding) -> Result<String, AllocError>
    ensures { IfOk result
        (λ s. string_bytes s ≡ message_text item.now.finding.code item.now.flow item.now.detail) }
{
    match &item.detail {
        None => meaning_of(alloc, item),
        Some(detail) => String::from_str(alloc, detail.sentence.as_str()),
    }
}

/// Returns a diagnostic without related information, with a link to the entry of its code if there is one.
fn plain_diagnostic(
    alloc: Global,
    entry: &Option<String>,
    range: Value,
    severity: u64,
    code: &str,
    message: &str,
) -> Result<Value, AllocError>
    ensures { IfOk result (λ v. view v
        ≡ diagnostic_data (option_map string_bytes entry.now) None (view range) severity code.now message.now) }
{
    match entry {
        None => json!(in alloc; {
            "code": code,
            "message": message,
            "range": range,
            "severity": severity,
            "source": "pycheck"
        }),
        Some(entry) => json!(in alloc; {
            "code": code,
            "codeDescription": {"href": entry.as_str()},
            "message": message,
            "range": range,
            "severity": severity,
            "source": "pycheck"
        }),
    }
}

/// Returns a diagnostic with related information, with a link to the entry of its code if there is one.
fn related_diagnostic(
    alloc: Global,
    entry: &Option<String>,
    related: Value,
    range: Value,
    severity: u64,
    code: &str,
    message: &str,
) -> Result<Value, AllocError>
    ensures { IfOk result (λ v. view v ≡ diagnostic_data (option_map string_bytes entry.now) (Some (view related))
        (view range) severity code.now message.now) }
{
    match entry {
        None => json!(in alloc; {
            "code": code,
            "message": message,
            "range": range,
            "relatedInformation": related,
            "severity": severity,
            "source": "pycheck"
        }),
        Some(entry) => json!(in alloc; {
            "code": code,
            "codeDescription": {"href": entry.as_str()},
            "message": message,
            "range": range,
            "relatedInformation": related,
            "severity": severity,
            "source": "pycheck"
        }),
    }
}

/// Returns a diagnostic, with a link to the entry of its code and with related information, if there are any.
fn diagnostic(
    alloc: Global,
    entry: &Option<String>,
    related: Option<Value>,
    range: Value,
    severity: u64,
    code: &str,
    message: &str,
) -> Result<Value, AllocError>
    ensures { IfOk result (λ v. view v ≡ diagnostic_data (option_map string_bytes entry.now) (option_map view related)
        (view range) severity code.now message.now) }
{
    match related {
        None => plain_diagnostic(alloc, entry, range, severity, code, message),
        Some(related) => {
            related_diagnostic(alloc, entry, related, range, severity, code, message)
        }
    }
}

/// The marks of a place and of another place, from which the next ones are counted.
#[derive(Clone, Copy)]
struct Marks {
    place: Mark,
    other: Mark,
}

/// Returns the diagnostic of a finding in the text of the document with this URI, and the marks of its start and of the
/// last other place. Counts from the marks `known`.
fn item_value(
    alloc: Global,
    settings: &Settings,
    text: &[u8],
    uri: &str,
    known: Marks,
    item: &ReportedFinding,
) -> Result<(Value, Marks), AllocError>
    requires place { IsPositionOf settings.now.encoding text.now known.place.byte known.place.position }
    requires other { IsPositionOf settings.now.encoding text.now known.other.byte known.other.position }
    ensures value { IfOk result (λ r. view r.0 ≡ item_data (agreed_of settings.now) text.now uri.now item.now) }
    ensures place { IfOk result (λ r. IsPositionOf settings.now.encoding text.now r.1.place.byte r.1.place.position) }
    ensures other { IfOk result (λ r. IsPositionOf settings.now.encoding text.now r.1.other.byte r.1.other.position) }
{
    let place = item.finding.place;
    let (start, end) = ends_of(text, settings.encoding, known.place, place.start, place.end);
    let range = range_value(alloc, start.position, end.position)?;
    let (related, other) = related_value(alloc, settings, text, uri, known.other, &item.detail)?;
    let message = message_of(alloc, item)?;
    let code = item.finding.code;
    let severity = severity(settings.dynamic_severity, code);
    let anchor = anchor(alloc, code)?;
    let entry = entry(alloc, &settings.codes_page, anchor.as_str())?;
    let value = diagnostic(
        alloc,
        &entry,
        related,
        range,
        severity,
        code.text(),
        message.as_str(),
    )?;
    Ok((
        value,
        Marks {
            place: start,
            other,
        },
    ))
}

/// Returns the diagnostics of findings in the text of the document with this URI, in order.
fn item_values(
    alloc: Global,
    settings: &Settings,
    text: &[u8],
    uri: &str,
    items: &[ReportedFinding],
) -> Result<Vec<Value>, AllocError>
    ensures { IfOk result
        (λ v. map view v.items ≡ map (item_data (agreed_of settings.now) text.now uri.now) items.now) }
{
    let mut values = Vec::with_capacity(alloc, items.len())?;
    let mut known = Marks {
        place: Mark::start(),
        other: Mark::start(),
    };
    for item in items {
        let (value, marks) = item_value(alloc, settings, text, uri, known, item)?;
        values.push(value)?;
        known = marks;
    }
    Ok(values)
}

/// Maximum number of diagnostics of a text.
const DIAGNOSTICS_LIMIT: usize = 1000;

/// Number of findings that are shown if there are more than the maximum.
const SHOWN: usize = 999;

/// Returns a position in the first line as JSON.
fn first_line(alloc: Global, character: u64) -> Result<Value, AllocError>
    ensures { IfOk result (λ v. view v ≡ position_in_first_line character) }
{
    position_value(alloc, Position { line: 0, character })
}

/// Returns a warning about the whole text, at its first character.
fn note(alloc: Global, message: &str) -> Result<Value, AllocError>
    ensures { IfOk result (λ v. view v ≡ note_data message.now) }
{
    let start = first_line(alloc, 0)?;
    let end = first_line(alloc, 1)?;
    json!(in alloc; {
        "message": message,
        "range": {"end": end, "start": start},
        "severity": 2u64,
        "source": "pycheck"
    })
}

/// Returns the diagnostics of a document whose text is not known: a single one that says so.
pub fn unknown_values(alloc: Global) -> Result<Vec<Value>, AllocError>
    ensures { IfOk result (λ v. map view v.items ≡ unknown_data ∷ []) }
{
    let text = "not checked: the text of this document is not known until it changes";
    let mut values = Vec::with_capacity(alloc, 1)?;
    values.push(note(alloc, text)?)?;
    Ok(values)
}

/// Returns the diagnostic that says how many findings are not shown.
fn more(alloc: Global, left: usize) -> Result<Value, AllocError>
    ensures { IfOk result (λ v. view v ≡ more_data left) }
{
    let text = format!(in alloc; "{left} more findings are not shown")?;
    note(alloc, text.as_str())
}

/// Returns the diagnostics of the first `most` findings, in order.
fn first_values(
    alloc: Global,
    settings: &Settings,
    text: &[u8],
    uri: &str,
    items: &[ReportedFinding],
    most: usize,
) -> Result<Vec<Value>, AllocError>
    requires { most ≤ length items.now }
    ensures { IfOk result (λ v. map view v.items
        ≡ map (item_data (agreed_of settings.now) text.now uri.now) (take most items.now)) }
{
    let first = &items[..most];
    item_values(alloc, settings, text, uri, first)
}

/// Returns the diagnostics of findings, in order. Past the maximum, the last one says how many are not shown.
#[tactic(auto, using(crate::proofs::Limits::within, crate::proofs::Limits::beyond))]
fn limited_values(
    alloc: Global,
    settings: &Settings,
    text: &[u8],
    uri: &str,
    items: &[ReportedFinding],
) -> Result<Vec<Value>, AllocError>
    ensures { IfOk result (λ v. map view v.items
        ≡ limited (map (item_data (agreed_of settings.now) text.now uri.now) items.now)) }
{
    if items.len() <= DIAGNOSTICS_LIMIT {
        return item_values(alloc, settings, text, uri, items);
    }
    let mut values = first_values(alloc, settings, text, uri, items, SHOWN)?;
    values.push(more(alloc, items.len() - SHOWN)?)?;
    Ok(values)
}

/// Returns the diagnostic of a refusal, at the character of its byte.
fn refusal_value(
    alloc: Global,
    settings: &Settings,
    text: &[u8],
    refusal: Refusal,
) -> Result<Value, AllocError>
    ensures { IfOk result (λ v. view v ≡ refusal_data (agreed_of settings.now) text.now refusal) }
{
    let start = start_of(text, refusal.byte);
    let end = end_of(text, refusal.byte);
    let (start, end) = ends_of(text, settings.encoding, Mark::start(), start, end);
    let range = range_value(alloc, start.position, end.position)?;
    let message = refusal_meaning(refusal.code);
    let entry = entry(alloc, &settings.codes_page, refusal_anchor(refusal.code))?;
    plain_diagnostic(alloc, &entry, range, 1, refusal.code.text(), message)
}

/// Returns the diagnostics of the findings in the text of the document with this URI, or of its refusal.
pub(crate) fn found_values(
    alloc: Global,
    settings: &Settings,
    text: &[u8],
    uri: &str,
    found: &CheckOutcome,
) -> Result<Vec<Value>, AllocError>
    ensures { IfOk result (λ v. map view v.items ≡ found_data (agreed_of settings.now) text.now uri.now found.now) }
{
    match found {
        CheckOutcome::Items(items) => limited_values(alloc, settings, text, uri, items),
        CheckOutcome::Refused(refusal) => {
            let mut values = Vec::with_capacity(alloc, 1)?;
            values.push(refusal_value(alloc, settings, text, *refusal)?)?;
            Ok(values)
        }
    }
}
