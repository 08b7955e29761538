//! Texts, and the layout of the lines of each.
use pc_layout::{layout, layout_of};
use pc_source::{Fault, RefusalCode, Source, read_source};
use pc_token::{TextToken, lines, tokens};
use std::alloc::{AllocError, Global};

/// The greatest number of tokens of a layout that a table lists.
const FEW: usize = 20;

/// Returns the number of tokens in the layout of a text.
pub fn layout_text(alloc: Global, text: &str) -> Result<String, Fault> {
    let source = read_source(alloc, text.as_bytes())?;
    let mut count: usize = 0;
    for token in layout_of(alloc, &source, lines(alloc, &source)) {
        let _ = token?;
        count = count.saturating_add(1);
    }
    Ok(format!(in alloc; "{count}")?)
}

/// Returns the number of these tokens, and if they are few, each with the bytes at which it starts and ends, and its
/// form if it has one.
fn listed(alloc: Global, text: &str, tokens: &[TextToken<'_>]) -> Result<String, AllocError> {
    let mut out = format!(in alloc; "{}", tokens.len())?;
    if tokens.len() > FEW {
        return Ok(out);
    }
    for token in tokens {
        let (kind, start, end) = (token.kind, token.place.start, token.place.end);
        write!(out, "; {kind:?} {start} {end}")?;
        if let Some(form) = &token.form {
            write!(out, " {form}")?;
        }
        if text.get(start..end) != Some(token.text) {
            out.push_str(" with another text")?;
        }
    }
    Ok(out)
}

/// Returns the layout of the list of a text's lines.
pub fn list_text(alloc: Global, text: &str) -> Result<String, Fault> {
    let source = read_source(alloc, text.as_bytes())?;
    let lines = tokens(alloc, &source)?;
    let tokens = layout(alloc, &source, lines.as_slice())?;
    Ok(listed(alloc, text, tokens.as_slice())?)
}

/// Returns the fault that follows the lines of a part of this name.
fn fault_after(name: &str) -> Option<Fault> {
    match name {
        "LATE" => Some(Fault::refused_at(RefusalCode::L1, 87)),
        "MEMORY" => Some(Fault::OutOfMemory),
        _ => None,
    }
}

/// Returns the first fault of the layout of a text's lines with a fault after them, and whether nothing follows it.
fn first_layout_fault(
    alloc: Global,
    source: &Source,
    after: Option<Fault>,
) -> Result<(Option<Fault>, bool), Fault> {
    let mut items = Vec::new(alloc);
    for line in tokens(alloc, source)? {
        items.push(Ok(line))?;
    }
    if let Some(fault) = after {
        items.push(Err(fault))?;
    }
    let mut tokens = layout_of(alloc, source, items.into_iter());
    let mut found = None;
    for _ in 0..source.text().len().saturating_add(1) {
        match tokens.next() {
            None => break,
            Some(Ok(_)) => {}
            Some(Err(fault)) => {
                found = Some(fault);
                break;
            }
        }
    }
    Ok((found, tokens.next().is_none()))
}

/// Returns the fault of the layout of a text's lines with a fault after them, by the name of the part.
pub fn layout_fault_text(alloc: Global, name: &str, text: &str) -> Result<String, Fault> {
    let source = read_source(alloc, text.as_bytes())?;
    match first_layout_fault(alloc, &source, fault_after(name))? {
        (None, true) => Ok(String::from_str(alloc, "none")?),
        (Some(fault), true) => Ok(format!(in alloc; "{fault}")?),
        (_, false) => Ok(String::from_str(alloc, "more after the end")?),
    }
}
