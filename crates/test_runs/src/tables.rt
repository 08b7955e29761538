//! Tables of runs, of actions, and of the words of command lines.

use crate::actions::count_actions;
use crate::cases::{Case, cases};
use crate::devices::{reason_text, status_text};
use crate::modules::{module_of_lines, module_of_statements, trace_of, trace_of_bytes};
use crate::options::{check_text, run_text};
use std::alloc::{AllocError, Global};
use test_rows::{TableFault, TableRow, Tally, rows};

/// The start of the heading of a part of a table.
const HEADING: &str = "\n==== ";

/// The line between a part's lines before `main` and its cases.
const CASES: &str = "----\n";

/// A part of a table: the form of its cases, and the form of their answers.
#[derive(Clone, Copy)]
struct Part<'t> {
    /// The form of a case: `modules` without their first and last line, `statements` of `main`, whole `texts`, or the
    /// `bytes` of whole texts.
    of: &'t str,
    /// The lines before `main`, if the cases have only its statements.
    before: &'t str,
    /// Whether the table gives only the end, and not each event.
    is_end: bool,
    cases: &'t str,
}

/// Returns the part of a table that begins with this heading.
fn part_of(text: &str) -> Result<Part<'_>, TableFault> {
    let (heading, lines) = text.split_once('\n').ok_or(TableFault::Form)?;
    let (what, of) = heading.split_once(" of ").ok_or(TableFault::Form)?;
    let (before, cases) = match of {
        "statements" => lines.split_once(CASES).ok_or(TableFault::Form)?,
        _ => ("", lines),
    };
    Ok(Part {
        of,
        before,
        is_end: what == "ends",
        cases,
    })
}

/// Returns the text of the module of a case.
fn module_of(alloc: Global, part: &Part<'_>, case: &Case) -> Result<String, AllocError> {
    match part.of {
        "statements" => module_of_statements(alloc, part.before, case.text.as_str()),
        "texts" | "bytes" => String::from_str(alloc, case.text.as_str()),
        _ => module_of_lines(alloc, case.text.as_str()),
    }
}

/// Returns the last line of a text that ends with a line feed.
fn last_line(text: &str) -> &str {
    let lines = text.strip_suffix('\n').unwrap_or(text);
    match lines.rsplit_once('\n') {
        Some((_, last)) => last,
        None => lines,
    }
}

/// Returns the lines of the trace of the module of a case.
fn trace_in(alloc: Global, part: &Part<'_>, text: &str, case: &Case) -> Result<String, AllocError> {
    match part.of {
        "bytes" => trace_of_bytes(alloc, text.as_bytes(), case),
        _ => trace_of(alloc, text, case),
    }
}

/// Runs the module of a case, and counts it.
fn count(alloc: Global, part: &Part<'_>, case: &Case, tally: &mut Tally) -> Result<(), AllocError> {
    let text = module_of(alloc, part, case)?;
    let trace = trace_in(alloc, part, text.as_str(), case)?;
    if part.is_end {
        let want = format!(in alloc; "end {}", case.want.as_str().trim_end())?;
        tally.count(text.as_str(), want.as_str(), last_line(trace.as_str()))
    } else {
        tally.count(text.as_str(), case.want.as_str(), trace.as_str())
    }
}

/// Counts the cases of a part of a table.
fn count_part(alloc: Global, text: &str, tally: &mut Tally) -> Result<(), TableFault> {
    let part = part_of(text)?;
    for case in cases(alloc, part.cases)? {
        count(alloc, &part, &case, tally)?;
    }
    Ok(())
}

/// Counts the cases of a table. The text before the heading of its first part describes the table.
fn count_runs(alloc: Global, table: &str, tally: &mut Tally) -> Result<(), TableFault> {
    for part in table.split(HEADING).skip(1) {
        count_part(alloc, part, tally)?;
    }
    Ok(())
}

/// Returns the answer to a row of another kind of tables.
fn answer(alloc: Global, kind: &str, row: &TableRow<'_>) -> Result<String, AllocError> {
    let text = row.text.as_str();
    match kind {
        "check_words" => check_text(alloc, text, row.want),
        "run_words" => run_text(alloc, text, row.want),
        "statuses" => status_text(alloc, text),
        "reasons" => reason_text(alloc, text),
        _ => String::from_str(alloc, "no table is of this kind"),
    }
}

/// Counts each case of a table of runs, or of the words of command lines, of this kind.
///
/// # Errors
///
/// `Form` if a part of the table is no case.
pub fn judge(alloc: Global, kind: &str, table: &str, tally: &mut Tally) -> Result<(), TableFault> {
    match kind {
        "runs" => return count_runs(alloc, table, tally),
        "actions" => return count_actions(alloc, table, tally),
        _ => {}
    }
    for row in rows(alloc, table)? {
        let got = answer(alloc, kind, &row)?;
        tally.count(row.written.as_str(), row.want, got.as_str())?;
    }
    Ok(())
}
