//! Whole texts, byte for byte, with their reports or refusals.
use crate::reports::checker::ReportMaker;
use crate::reports::stores::answer_to;
use pc_report::{Format, ReadFault, WriteFault};
use std::alloc::{AllocError, Global};
use test_rows::{TableFault, bytes_of, in_one_line};

/// Returns the report or the refusal of the bytes that a text represents, in one line.
pub fn report_text<C: ReportMaker>(
    alloc: Global,
    text: &str,
    checker: &C,
) -> Result<String, TableFault> {
    let bytes = bytes_of(alloc, text)?;
    let answer = answer_to(alloc, bytes.as_slice(), Format::One, checker)?;
    Ok(in_one_line(alloc, answer.as_str())?)
}

/// Returns the number of bytes before the last line of a text, or `None` if it has one line only.
fn before_last(text: &str) -> Option<usize> {
    match text.rsplit_once(" / ") {
        Some((before, _)) => Some(before.len()),
        None => None,
    }
}

/// Returns the end of the report or the refusal of a text: its last two lines, or its only one.
pub fn end_text<C: ReportMaker>(
    alloc: Global,
    text: &str,
    checker: &C,
) -> Result<String, TableFault> {
    let report = report_text(alloc, text, checker)?;
    let whole = report.as_str();
    let last = before_last(whole).unwrap_or(0);
    let start = match before_last(whole.get(..last).unwrap_or("")) {
        Some(before) => before.saturating_add(3),
        None => 0,
    };
    let end = whole.get(start..).unwrap_or("");
    Ok(String::from_str(alloc, end)?)
}

/// Returns the text of a fault that no bytes cause, by its name.
pub fn fault_text<C: ReportMaker>(
    alloc: Global,
    name: &str,
    checker: &C,
) -> Result<String, AllocError> {
    match name {
        "report: Write" => format!(in alloc; "{}", WriteFault::Write),
        "input: OutOfMemory" => format!(in alloc; "{}", ReadFault::OutOfMemory),
        "input: Read" => format!(in alloc; "{}", ReadFault::Read),
        _ => match checker.fault(alloc, name)? {
            Some(text) => Ok(text),
            None => String::from_str(alloc, "no fault has this name"),
        },
    }
}
