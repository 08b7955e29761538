//! Lists of tokens that no text spells, and the trees of statements.
//!
//! In a text the words `NL`, `IN`, `OUT` and `END` represent the layout tokens. Names are ASCII.
use crate::texts::tables::fault_text;
use pc_parse::{parse, parse_from};
use pc_source::{Fault, Refusal, RefusalCode, read_source};
use pc_token::{Line, TextToken, Token, TokenKind, tokens};
use pc_tree::{ItemKind, Keys, Module};
use std::alloc::{AllocError, Global};

/// The text before a suite of `main`.
const BEFORE: &str = "from __future__ import annotations NL def main ( ) : ";

/// Returns the layout token that a token represents, or else the token itself.
fn marked<'a>(token: &TextToken<'a>) -> TextToken<'a> {
    let kind = match token.text {
        "NL" => TokenKind::Newline,
        "IN" => TokenKind::Indent,
        "OUT" => TokenKind::Dedent,
        "END" => TokenKind::End,
        _ => token.kind,
    };
    Token {
        kind,
        place: token.place,
        text: token.text,
        form: None,
    }
}

/// Returns the tokens of lines, some of which represent layout tokens.
fn items_of<'a>(alloc: Global, lines: &[Line<'a>]) -> Result<Vec<TextToken<'a>>, AllocError> {
    let mut items = Vec::new(alloc);
    for line in lines {
        for token in line.tokens.iter() {
            items.push(marked(token))?;
        }
    }
    Ok(items)
}

/// Returns the module that a text spells.
fn parsed(alloc: Global, text: &str) -> Result<Module, Fault> {
    let source = read_source(alloc, text.as_bytes())?;
    let lines = tokens(alloc, &source)?;
    let items = items_of(alloc, lines.as_slice())?;
    parse(alloc, Keys::of(text.as_bytes()), items.as_slice())
}

/// Returns the tokens of lines as a stream gives them, with a fault after them at this byte.
fn stream_of<'a>(
    alloc: Global,
    lines: &[Line<'a>],
    byte: usize,
) -> Result<Vec<Result<TextToken<'a>, Fault>>, AllocError> {
    let mut items = Vec::new(alloc);
    for line in lines {
        for token in line.tokens.iter() {
            items.push(Ok(marked(token)))?;
        }
    }
    let code = RefusalCode::L1;
    items.push(Err(Fault::Refused(Refusal { code, byte })))?;
    Ok(items)
}

/// Returns the module that the tokens of a text spell, with a fault of the stream after them.
fn broken_off(alloc: Global, text: &str) -> Result<Module, Fault> {
    let source = read_source(alloc, text.as_bytes())?;
    let lines = tokens(alloc, &source)?;
    let items = stream_of(alloc, lines.as_slice(), text.len())?;
    parse_from(alloc, Keys::of(text.as_bytes()), items.into_iter())
}

/// Returns whether a suite of `main` is part of a module, or the code of its refusal and the byte in the suite.
fn suite_text(alloc: Global, suite: &str) -> Result<String, AllocError> {
    let text = format!(in alloc; "{BEFORE}{suite}")?;
    match parsed(alloc, text.as_str()) {
        Ok(_) => String::from_str(alloc, "module"),
        Err(fault) => fault_text(alloc, fault, BEFORE.len()),
    }
}

/// Returns the statements of the first function of a module, as they are printed.
pub fn statements(alloc: Global, text: &str) -> Result<String, Fault> {
    let module = parsed(alloc, text)?;
    match module.items.first().map(|item| &item.kind) {
        Some(ItemKind::Def(def)) => Ok(format!(in alloc; "{:?}", def.body)?),
        _ => Ok(String::from_str(alloc, "no function comes first")?),
    }
}

/// Returns the answer to a row of a part of this name: that its tokens are a module (`LIST`), or a suite of `main`
/// (`SUITE`), or with a fault of the stream after them (`STREAM`), or the module as it is printed.
pub fn tokens_text(alloc: Global, name: &str, text: &str) -> Result<String, Fault> {
    if name == "SUITE" {
        return Ok(suite_text(alloc, text)?);
    }
    let module = match name {
        "STREAM" => broken_off(alloc, text)?,
        _ => parsed(alloc, text)?,
    };
    if name == "MODULE" {
        return Ok(format!(in alloc; "{module:?}")?);
    }
    Ok(String::from_str(alloc, "module")?)
}
