//! Texts, some of which are refused while their lines are read.
use crate::texts::tables::fault_text;
use pc_source::{Fault, Source, read_source};
use pc_token::lines;
use std::alloc::Global;

/// Returns the number of lines of a text before the fault that ends them, and that fault.
fn ended(alloc: Global, source: &Source) -> (usize, Option<Fault>) {
    let mut before: usize = 0;
    for line in lines(alloc, source) {
        match line {
            Ok(_) => before = before.saturating_add(1),
            Err(fault) => return (before, Some(fault)),
        }
    }
    (before, None)
}

/// Returns whether the lines of a text have ended for good after this many results.
fn has_ended(alloc: Global, source: &Source, answers: usize) -> bool {
    let mut left = lines(alloc, source);
    for _ in 0..answers {
        let _ = left.next();
    }
    left.next().is_none() && left.next().is_none()
}

/// Returns `read` if a text is read, else the number of lines before its refusal, the code and the byte.
pub fn reading_text(alloc: Global, text: &str) -> Result<String, Fault> {
    let source = read_source(alloc, text.as_bytes())?;
    let (before, fault) = ended(alloc, &source);
    let answers = before.saturating_add(fault.is_some() as usize);
    if !has_ended(alloc, &source, answers) {
        return Ok(String::from_str(alloc, "lines after the end")?);
    }
    match fault {
        None => Ok(String::from_str(alloc, "read")?),
        Some(fault) => {
            let fault = fault_text(alloc, fault, 0)?;
            Ok(format!(in alloc; "{before} {fault}")?)
        }
    }
}
