//! The source text.

ghost use Rattle.std.specs.Prelude.{◌≡◌, ◌==◌, ◌<◌, List, ℕ, string_bytes, take, length, ◌≤◌, IfOk, IfErr, IfSome};
ghost use Rattle.std.specs.Prelude.{MatchOption};
ghost use Rattle.std.specs.List.{after_last};
ghost use Rattle.pc_source.specs.Text.{IsText, IsSourceRefusal, IsFirstControl, IsFirstCoding, IsCharacterFault};
ghost use Rattle.pc_source.specs.Control.{IsControl};
ghost use Rattle.pc_source.specs.Coding.{IsCoding};
ghost use Rattle.pc_source.specs.Answers.{OnRefusal};
ghost use Rattle.pc_source.specs.Within.{IsWithin};
ghost use Rattle.pc_source.specs.Lines.{line_of, column_of};

use crate::coding::first_coding;
use crate::control::first_control;
use crate::fault::{Fault, Refusal, RefusalCode};
use std::alloc::Global;
use std::marker::Model;

/// A source text: valid UTF-8 within the limit. Contracts see it as the list of its bytes.
#[derive(Drop)]
pub struct Source {
    text: String,
}

impl Model for Source {
    ghost Value = { List ℕ };

    ghost view = { λ s. string_bytes s.text };

    ghost invariant = { λ s. IsText (string_bytes s.text) };
}

/// The greatest length of a source text, in bytes.
const LIMIT: usize = 1_048_576;

/// The byte order mark in UTF-8.
const BYTE_ORDER_MARK: [u8; 3] = [0xEF, 0xBB, 0xBF];

/// Reads the bytes as a source text.
///
/// Python Language Reference 3.12, 2.1 "Line structure" and 2.1.4 "Encoding declarations"; the limit and the refusals
/// are own rules of the profile.
///
/// # Errors
///
/// `S1` at byte 1,048,576 if there are more bytes; `S3` at byte 0 if they begin with the byte order mark; `S2` at the
/// end of the longest valid prefix if they are not UTF-8. Otherwise the first of these: `S4` at a NUL, a form feed or a
/// carriage return that no line feed follows; `S5` at the first `#` of line 1 or 2 if `coding:` or `coding=`, later in
/// that line, is not followed, spaces aside, by `utf-8`. `OutOfMemory` if the text cannot be allocated.
pub fn read_source(alloc: Global, bytes: &[u8]) -> Result<Source, Fault>
    ensures text { IfOk result (λ s. s ≡ bytes.now) }
    ensures readable { IfOk result (λ _. IsText bytes.now) }
    ensures refused { IfErr result (OnRefusal (IsSourceRefusal bytes.now)) }
    ensures within { IfErr result (IsWithin (length bytes.now)) }
{
    // Checked first, so that nothing of a long file is read.
    if bytes.len() > LIMIT {
        return Err(Fault::refused_at(RefusalCode::S1, LIMIT));
    }
    if bytes.starts_with(&BYTE_ORDER_MARK) {
        return Err(Fault::refused_at(RefusalCode::S3, 0));
    }
    let text = match simdutf8::compat::from_utf8(bytes) {
        Ok(text) => text,
        Err(e) => return Err(Fault::refused_at(RefusalCode::S2, e.valid_up_to())),
    };
    if let Some(fault) = character_fault(bytes) {
        return Err(Fault::Refused(fault));
    }
    Ok(Source {
        text: String::from_str(alloc, text)?,
    })
}

/// Returns the first fault among the characters, a control character (`S4`) or a coding comment (`S5`).
fn character_fault(bytes: &[u8]) -> Option<Refusal>
    ensures first { MatchOption result
        (((k : ℕ) → ¬ (IsControl bytes.now k)) × ((k : ℕ) → ¬ (IsCoding bytes.now k)))
        (λ r. IsCharacterFault bytes.now r.code r.byte) }
    ensures within { IfSome result (λ r. r.byte < length bytes.now) }
{
    match (first_control(bytes), first_coding(bytes)) {
        (None, None) => None,
        (Some(byte), None) => Some(Refusal {
            code: RefusalCode::S4,
            byte,
        }),
        (None, Some(byte)) => Some(Refusal {
            code: RefusalCode::S5,
            byte,
        }),
        (Some(control), Some(coding)) => Some(if control <= coding {
            Refusal {
                code: RefusalCode::S4,
                byte: control,
            }
        } else {
            Refusal {
                code: RefusalCode::S5,
                byte: coding,
            }
        }),
    }
}

/// Returns the first `end` bytes, or all if there are fewer.
fn front(bytes: &[u8], end: usize) -> &[u8]
    ensures { result.now ≡ take end bytes.now }
{
    if end < bytes.len() {
        &bytes[..end]
    } else {
        bytes
    }
}

/// Returns the bytes after the last line feed.
fn last_line(bytes: &[u8]) -> &[u8]
    ensures { result.now ≡ after_last (λ b. b == 10) bytes.now }
{
    let mut start = bytes.len();
    while start > 0 && bytes[start - 1] != b'\n' {
        start -= 1;
    }
    &bytes[start..]
}

impl Source {
    /// Returns the text.
    pub fn text(&self) -> &str
        ensures text { result.now ≡ self.now }
        ensures readable { IsText self.now }
    {
        self.text.as_str()
    }

    /// Returns the line and the column of a byte, both from 1. The column counts characters: one more than those that
    /// begin in the line before the byte. Own rule of the profile.
    pub fn line_col(&self, byte: usize) -> (u64, u64)
        ensures line { result.0 ≡ line_of self.now byte }
        ensures column { result.1 ≡ column_of self.now byte }
    {
        let before = front(self.text.as_bytes(), byte);
        let line_feeds = before.iter().filter(|b| **b == b'\n').count();
        let characters = last_line(before)
            .iter()
            .filter(|b| **b < 128 || **b >= 192)
            .count();
        (line_feeds as u64 + 1, characters as u64 + 1)
    }
}
