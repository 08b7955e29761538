//! Answers of several lines, as a row writes them.
use std::alloc::{AllocError, Global};

/// Joins the lines of an answer, with ` / ` between them.
pub fn in_one_line(alloc: Global, answer: &str) -> Result<String, AllocError> {
    let lines = answer.strip_suffix('\n').unwrap_or(answer);
    lines.replace(alloc, "\n", " / ")
}
