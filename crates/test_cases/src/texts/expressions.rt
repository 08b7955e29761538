//! Expressions read from a stream of tokens.
use pc_reader::Reader;
use pc_source::{Fault, read_source};
use pc_token::{Line, TextToken, Token, tokens};
use std::alloc::{AllocError, Global};

/// Returns a printed expression without its places.
fn without_places(alloc: Global, printed: &str) -> Result<String, AllocError> {
    let mut out = String::new(alloc);
    for (piece, part) in printed.split("Place {").enumerate() {
        if piece == 0 {
            out.push_str(part)?;
        } else if let Some((_, rest)) = part.split_once('}') {
            out.push_str(rest)?;
        }
    }
    Ok(out)
}

/// Returns the tokens of lines as a stream gives them.
fn stream_of<'a>(
    alloc: Global,
    lines: &[Line<'a>],
) -> Result<Vec<Result<TextToken<'a>, Fault>>, AllocError> {
    let mut items = Vec::new(alloc);
    for line in lines {
        for token in line.tokens.iter() {
            items.push(Ok(Token {
                kind: token.kind,
                place: token.place,
                text: token.text,
                form: None,
            }))?;
        }
    }
    Ok(items)
}

/// Returns the expression that tokens spell, as it is printed.
fn read(alloc: Global, items: Vec<Result<TextToken<'_>, Fault>>) -> Result<String, Fault> {
    let mut reader = Reader::new(items.into_iter())?;
    let operand = reader.operators(alloc, 0)?;
    Ok(format!(in alloc; "{:?}", operand.expr)?)
}

/// Returns the expression that a text spells, as it is printed; its names are ASCII.
fn printed(alloc: Global, text: &str) -> Result<String, Fault> {
    let source = read_source(alloc, text.as_bytes())?;
    let lines = tokens(alloc, &source)?;
    read(alloc, stream_of(alloc, lines.as_slice())?)
}

/// Returns the expression that a text spells without places, or its refusal.
fn bare(alloc: Global, text: &str) -> Result<String, Fault> {
    let printed = printed(alloc, text)?;
    Ok(without_places(alloc, printed.as_str())?)
}

/// Returns the answer to a row of a part of this name: its expression as a tree with places (`PLACES`) or without them
/// (`TREES`). In a part of texts with all their parentheses (`GROUPED`) it is the row's expected text, if both spell
/// the same expression.
pub fn expression_text(alloc: Global, name: &str, text: &str, want: &str) -> Result<String, Fault> {
    if name == "PLACES" {
        return printed(alloc, text);
    }
    let tree = bare(alloc, text)?;
    if name == "GROUPED" && bare(alloc, want)?.as_str() == tree.as_str() {
        return Ok(String::from_str(alloc, want)?);
    }
    Ok(tree)
}
