//! The listing of a text: its tokens with the marks of the layout, and its tree or its refusal.
use crate::items::list_module;
use pc_front::parse_source;
use pc_layout::layout_of;
use pc_source::{Fault, Refusal, Source, read_source};
use pc_token::{TextToken, TokenKind, lines};
use std::alloc::{AllocError, Global};

/// Adds the row of a token: its kind, the bytes at which it starts and ends, and its form if it has one.
fn list_token(out: &mut String, source: &Source, token: &TextToken<'_>) -> Result<(), AllocError> {
    let (start, end) = (token.place.start, token.place.end);
    match token.kind {
        TokenKind::Keyword(word) => write!(out, "token {word:?} {start} {end}")?,
        TokenKind::Operator(sign) => write!(out, "token {sign:?} {start} {end}")?,
        kind => write!(out, "token {kind:?} {start} {end}")?,
    }
    if let Some(form) = &token.form {
        write!(out, " {form}")?;
    }
    if source.text().get(start..end) != Some(token.text) {
        out.push_str(" with another text")?;
    }
    out.push_str("\n")
}

/// Adds the rows of the tokens of the layout, up to the first fault.
fn list_tokens(out: &mut String, alloc: Global, source: &Source) -> Result<(), Fault> {
    for token in layout_of(alloc, source, lines(alloc, source)) {
        list_token(out, source, &token?)?;
    }
    Ok(())
}

/// Adds the rows of the tokens and of the tree that bytes spell, up to their refusal.
fn list_rows(out: &mut String, alloc: Global, bytes: &[u8]) -> Result<(), Fault> {
    let source = read_source(alloc, bytes)?;
    list_tokens(out, alloc, &source)?;
    let module = parse_source(alloc, &source)?;
    list_module(out, &module)?;
    Ok(())
}

/// Returns the rows of the tokens that bytes spell, and after them those of the tree, or the code and the byte of the
/// refusal.
///
/// # Errors
///
/// `AllocError` if an allocation failed.
pub fn listing(alloc: Global, bytes: &[u8]) -> Result<String, AllocError> {
    let mut out = String::new(alloc);
    if let Err(fault) = list_rows(&mut out, alloc, bytes) {
        let Refusal { code, byte } = fault.refusal().map_err(|_| AllocError)?;
        write!(out, "refused {code} {byte}\n")?;
    }
    Ok(out)
}
