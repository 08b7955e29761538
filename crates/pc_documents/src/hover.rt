//! Hover texts: explanations of the findings at a position.

ghost use Rattle.std.specs.Prelude.{◌≡◌, ℕ, List, Option, Some, OnOk, IfOk, string_bytes, fold, filter};
ghost use Rattle.pc_position.specs.Positions.{IsPositionOf};
ghost use Rattle.pc_documents.specs.Agreed.{agreed_of};
ghost use Rattle.pc_documents.specs.Hovers.{has_position, flow_text, told_reason, item_text, refusal_text};
ghost use Rattle.pc_documents.specs.Hovers.{ruled, said_after, code_block, with_declaration, hover_text};
ghost use Rattle.pc_documents.specs.Within.{is_before, is_within};

use crate::checker::{CheckOutcome, FlowTypes, ReportedFinding};
use crate::ranges::{ends_of, start_of};
use crate::settings::Settings;
use pc_code_texts::{meaning, mending, refusal_meaning, refusal_mending, refusal_title};
use pc_position::{Encoding, Mark, Position, mark_after};
use pc_source::Refusal;
use std::alloc::{AllocError, Global};

/// Returns whether `first` is before `other`.
fn is_before(first: Position, other: Position) -> bool
    ensures { result ≡ is_before first other }
{
    first.line < other.line || (first.line == other.line && first.character < other.character)
}

/// Returns whether `position` is between `start` and `end`, both included.
pub(crate) fn is_within(start: Position, position: Position, end: Position) -> bool
    ensures { result ≡ is_within start position end }
{
    !is_before(position, start) && !is_before(end, position)
}

/// Returns the two types of a flow in Markdown; empty without a flow.
fn flow_text(alloc: Global, flow: &Option<FlowTypes>) -> Result<String, AllocError>
    ensures { IfOk result (λ s. string_bytes s ≡ flow_text flow.now) }
{
    match flow {
        None => Ok(String::new(alloc)),
        Some(flow) => {
            let from = flow.from.as_str();
            let to = flow.to.as_str();
            format!(in alloc; ": `{from}` to `{to}`")
        }
    }
}

/// Returns the reason for a finding in Markdown: the sentence of its detail, as a block of code, or without a detail the
/// two types of its flow.
fn told_reason(alloc: Global, item: &ReportedFinding) -> Result<String, AllocError>
    ensures { IfOk result (λ s. string_bytes s ≡ told_reason item.now.flow item.now.detail) }
{
    match &item.detail {
        None => flow_text(alloc, &item.flow),
        Some(detail) => {
            let sentence = detail.sentence.as_str();
            format!(in alloc; "\n\n```text\n{sentence}\n```")
        }
    }
}

/// Returns the explanation of a finding in Markdown.
fn item_text(alloc: Global, item: &ReportedFinding) -> Result<String, AllocError>
    ensures { IfOk result (λ s. string_bytes s ≡ item_text item.now) }
{
    let code = item.finding.code;
    let name = code.text();
    let label = code.label();
    let reason = told_reason(alloc, item)?;
    let reason = reason.as_str();
    let means = meaning(code);
    let mends = mending(code);
    format!(in alloc; "**{name}** {label}{reason}\n\n{means}\n\n{mends}")
}

/// Returns the explanation of a refusal in Markdown.
fn refusal_text(alloc: Global, refusal: Refusal) -> Result<String, AllocError>
    ensures { IfOk result (λ s. string_bytes s ≡ refusal_text refusal) }
{
    let name = refusal.code.text();
    let title = refusal_title(refusal.code);
    let means = refusal_meaning(refusal.code);
    let mends = refusal_mending(refusal.code);
    format!(in alloc; "**{name}** {title}\n\n{means}\n\n{mends}")
}

/// Appends a horizontal rule, unless the text is empty.
pub(crate) fn add_rule(told: &mut String) -> Result<(), AllocError>
    ensures { OnOk result (string_bytes told.new ≡ ruled (string_bytes told.old)) }
{
    if told.is_empty() {
        return Ok(());
    }
    told.push_str("\n\n---\n\n")
}

/// Appends the explanation of a finding, below a horizontal rule if the text is not empty.
fn add_item(alloc: Global, told: &mut String, item: &ReportedFinding) -> Result<(), AllocError>
    ensures { OnOk result (string_bytes told.new ≡ said_after (string_bytes told.old) item.now) }
{
    add_rule(told)?;
    let text = item_text(alloc, item)?;
    told.push_str(text.as_str())
}

/// Returns whether the place of a finding covers a position, and the mark of its start. Counts from the mark `known`.
fn has_position(
    text: &[u8],
    encoding: Encoding,
    known: Mark,
    item: &ReportedFinding,
    position: Position,
) -> (bool, Mark)
    requires { IsPositionOf encoding text.now known.byte known.position }
    ensures has { result.0 ≡ has_position encoding text.now position item.now }
    ensures mark { IsPositionOf encoding text.now result.1.byte result.1.position }
{
    let place = item.finding.place;
    let (start, end) = ends_of(text, encoding, known, place.start, place.end);
    (is_within(start.position, position, end.position), start)
}

/// Returns a type or a line of a module as code in Markdown.
pub(crate) fn code_block(alloc: Global, code: &str) -> Result<String, AllocError>
    ensures { IfOk result (λ s. string_bytes s ≡ code_block (Some code.now)) }
{
    format!(in alloc; "```python\n{code}\n```")
}

/// Appends the explanations of the findings at a position, in order.
fn add_items(
    alloc: Global,
    told: &mut String,
    encoding: Encoding,
    text: &[u8],
    items: &[ReportedFinding],
    position: Position,
) -> Result<(), AllocError>
    ensures { OnOk result (string_bytes told.new ≡ fold said_after (string_bytes told.old)
        (filter (has_position encoding text.now position) items.now)) }
{
    let mut known = Mark::start();
    for item in items {
        let (has, start) = has_position(text, encoding, known, item, position);
        known = start;
        if has {
            add_item(alloc, told, item)?;
        }
    }
    Ok(())
}

/// Returns the hover text at a position in Markdown, given the text of the type and of the declaration there; empty if
/// there is none of them and no finding.
pub(crate) fn hover_text(
    alloc: Global,
    settings: &Settings,
    text: &[u8],
    found: &CheckOutcome,
    said: String,
    position: Position,
) -> Result<String, AllocError>
    ensures { IfOk result (λ s. (type declaration : Option (List ℕ))
        → string_bytes said ≡ with_declaration (code_block type) declaration
        → string_bytes s ≡ hover_text (agreed_of settings.now) text.now found.now type declaration position) }
{
    match found {
        CheckOutcome::Items(items) => {
            let mut told = said;
            add_items(alloc, &mut told, settings.encoding, text, items, position)?;
            Ok(told)
        }
        CheckOutcome::Refused(refusal) => {
            let start = start_of(text, refusal.byte);
            let at = mark_after(text, settings.encoding, Mark::start(), start).position;
            if at.line == position.line {
                refusal_text(alloc, *refusal)
            } else {
                Ok(String::new(alloc))
            }
        }
    }
}
