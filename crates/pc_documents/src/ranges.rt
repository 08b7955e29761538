//! Ranges between positions as JSON, the marks of a place, and the ends of the character at a byte.

ghost use Rattle.std.specs.List.{suffix_len};
ghost use Rattle.std.specs.Prelude.{◌≡◌, ◌≤◌, IfOk, length};
ghost use Rattle.serde_json.specs.View.{view};
ghost use Rattle.pc_position.specs.Positions.{IsPositionOf};
ghost use Rattle.pc_documents.specs.Diagnostics.{position_data, range_data};
ghost use Rattle.pc_documents.specs.Diagnostics.{width_of, is_continuation, start_of, end_of};

use pc_position::{Encoding, Mark, Position, mark_after};
use serde_json::{Value, json};
use std::alloc::{AllocError, Global};

/// Returns a position as JSON.
pub(crate) fn position_value(alloc: Global, position: Position) -> Result<Value, AllocError>
    ensures { IfOk result (λ v. view v ≡ position_data position) }
{
    json!(in alloc; {"character": position.character, "line": position.line})
}

/// Returns a range between two positions as JSON.
pub(crate) fn range_value(
    alloc: Global,
    start: Position,
    end: Position,
) -> Result<Value, AllocError>
    ensures { IfOk result (λ v. (encoding : _) (text : _) (from : _) (to : _)
        → IsPositionOf encoding text from start → IsPositionOf encoding text to end
        → view v ≡ range_data encoding text from to) }
{
    let start = position_value(alloc, start)?;
    let end = position_value(alloc, end)?;
    json!(in alloc; {"end": end, "start": start})
}

/// Returns the marks of the start and the end of a place. Counts from the mark `known`.
pub(crate) fn ends_of(
    text: &[u8],
    encoding: Encoding,
    known: Mark,
    start: usize,
    end: usize,
) -> (Mark, Mark)
    requires { IsPositionOf encoding text.now known.byte known.position }
    ensures start { IsPositionOf encoding text.now start result.0.position }
    ensures start_byte { result.0.byte ≡ start }
    ensures end { IsPositionOf encoding text.now end result.1.position }
{
    let start = mark_after(text, encoding, known, start);
    let end = mark_after(text, encoding, start, end);
    (start, end)
}

/// Returns the number of bytes of the character that begins with `byte`; 2 for a carriage return with its line feed.
fn width_of(byte: u8) -> usize
    ensures width { result ≡ width_of byte }
    ensures small { result ≤ 4 }
{
    match byte {
        b'\r' => 2,
        0..=191 => 1,
        192..=223 => 2,
        224..=239 => 3,
        240..=255 => 4,
    }
}

/// Returns whether a byte is a continuation byte of UTF-8.
fn is_continuation(byte: u8) -> bool
    ensures { result ≡ is_continuation byte }
{
    byte >= 128 && byte < 192
}

/// Returns the number of continuation bytes at the end of a text.
fn continued(text: &[u8]) -> usize
    ensures count { result ≡ suffix_len is_continuation text.now }
    ensures within { result ≤ length text.now }
{
    text.iter()
        .rev()
        .take_while(|b| is_continuation(**b))
        .count()
}

/// Returns the start of the character at a byte, or of the last character if the byte is past the end.
pub(crate) fn start_of(text: &[u8], byte: usize) -> usize
    ensures { result ≡ start_of text.now byte }
{
    if byte < text.len() {
        byte
    } else {
        text.len().saturating_sub(1 + continued(text))
    }
}

/// Returns the end of the character at a byte.
pub(crate) fn end_of(text: &[u8], byte: usize) -> usize
    ensures { result ≡ end_of text.now byte }
{
    let start = start_of(text, byte);
    match text.get(start) {
        None => start,
        Some(first) => start + width_of(*first),
    }
}
