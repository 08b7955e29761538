//! Texts, and the lines of tokens of each.
use pc_source::{Fault, read_source};
use pc_token::{Line, TokenKind, tokens};
use std::alloc::{AllocError, Global};

/// Returns the letter of a kind of token.
fn letter(kind: TokenKind) -> &'static str {
    match kind {
        TokenKind::Name => "n",
        TokenKind::Int => "i",
        TokenKind::Str => "s",
        TokenKind::Keyword(_) => "k",
        TokenKind::Operator(_) => "o",
        _ => "?",
    }
}

/// Appends a line: its column, and then for each token the kind, the text, and the form if it has one.
fn add_line(out: &mut String, line: &Line<'_>) -> Result<(), AllocError> {
    let column = line.column;
    write!(out, "{column}")?;
    for token in line.tokens.iter() {
        out.push_str(" ")?;
        out.push_str(letter(token.kind))?;
        out.push_str(token.text)?;
        if let Some(form) = &token.form {
            out.push_str("=")?;
            out.push_str(form.as_str())?;
        }
    }
    Ok(())
}

/// Returns whether each token of a line is the part of the text at its place.
fn is_placed(text: &str, line: &Line<'_>) -> bool {
    for token in line.tokens.iter() {
        if text.get(token.place.start..token.place.end) != Some(token.text) {
            return false;
        }
    }
    true
}

/// Returns the lines of tokens of a text, in one line.
fn listed(alloc: Global, text: &str, lines: &[Line<'_>]) -> Result<String, AllocError> {
    let mut out = String::new(alloc);
    for line in lines {
        if !out.is_empty() {
            out.push_str(" ; ")?;
        }
        add_line(&mut out, line)?;
        if !is_placed(text, line) {
            out.push_str(" with a token at another place")?;
        }
    }
    if out.is_empty() {
        out.push_str("no line")?;
    }
    Ok(out)
}

/// Returns the lines of tokens of a text that is read first, or its refusal.
pub fn lines_text(alloc: Global, text: &str) -> Result<String, Fault> {
    let source = read_source(alloc, text.as_bytes())?;
    let lines = tokens(alloc, &source)?;
    Ok(listed(alloc, text, lines.as_slice())?)
}
