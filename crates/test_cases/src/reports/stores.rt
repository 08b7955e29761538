//! The reports of a module with both stores of types, which must be the same.
use crate::reports::checker::ReportMaker;
use pc_report::Format;
use std::alloc::{AllocError, Global};
use test_rows::{BETWEEN, TableFault, Tally};

/// The text before the report with types in boxes, if it differs.
const BY_BOXES: &str = "by types in boxes: ";

/// The start of the last line of a module in a table.
const LAST_ROW: &str = "\n> ";

/// Returns a checker's report of bytes in a format, or their refusal, with types as numbers. If types in boxes give
/// another answer, that one is appended, so that no table agrees.
pub fn answer_to<C: ReportMaker>(
    alloc: Global,
    bytes: &[u8],
    format: Format,
    checker: &C,
) -> Result<String, AllocError> {
    let mut answer = checker.by_numbers(alloc, bytes, format)?;
    let other = checker.by_boxes(alloc, bytes, format)?;
    if answer.as_str() != other.as_str() {
        answer.push_str(BY_BOXES)?;
        answer.push_str(other.as_str())?;
    }
    Ok(answer)
}

/// Returns whether an answer is a report: it ends with its counts, and both stores give it.
fn is_report(answer: &str) -> bool {
    match answer.lines().last() {
        Some(line) => {
            line.starts_with("errors ") && line.contains(", dynamic ") && !answer.contains(BY_BOXES)
        }
        None => false,
    }
}

/// Counts the modules of a table that says of each that it has a report, or its refusal; the content of the reports is
/// only compared between the two stores.
pub fn count_stores<C: ReportMaker>(
    alloc: Global,
    table: &str,
    checker: &C,
    tally: &mut Tally,
) -> Result<(), TableFault> {
    for case in table.split(BETWEEN) {
        let (text, row) = case.rsplit_once(LAST_ROW).ok_or(TableFault::Form)?;
        let answer = answer_to(alloc, text.as_bytes(), Format::Two, checker)?;
        let got = if is_report(answer.as_str()) {
            "a report"
        } else {
            answer.as_str()
        };
        tally.count(text, row.trim_end(), got)?;
    }
    Ok(())
}
