//! Modules with their reports.
use crate::reports::checker::ReportMaker;
use crate::reports::stores::answer_to;
use pc_report::Format;
use std::alloc::{AllocError, Global};
use test_rows::{BETWEEN, ROW, TableFault, Tally, written_out};

/// The first line of each module of a table.
pub const HEADER: &str = "from __future__ import annotations\n";

/// The end of a module that does not itself end with a call of `main`.
const TAIL: &str = "def main():\n    pass\nmain()\n";

/// A module of a table with its expected report, without the last line.
#[derive(Drop)]
struct Case {
    text: String,
    ends: bool,
    report: String,
    errors: u64,
    dynamic: u64,
}

/// Returns a case without lines.
fn no_case(alloc: Global) -> Result<Case, AllocError> {
    Ok(Case {
        text: String::from_str(alloc, HEADER)?,
        ends: false,
        report: String::new(alloc),
        errors: 0,
        dynamic: 0,
    })
}

/// Reads a line of a table: a line of the module, or one of its report.
fn read_line(case: &mut Case, line: &str) -> Result<(), AllocError> {
    let Some(row) = line.strip_prefix(ROW) else {
        case.text.push_str(line)?;
        case.text.push_str("\n")?;
        case.ends = line == "main()";
        return Ok(());
    };
    case.report.push_str(row)?;
    case.report.push_str("\n")?;
    let (_, code) = row.split_once(' ').unwrap_or(("", ""));
    if code.starts_with("E") {
        case.errors = case.errors.saturating_add(1);
    } else {
        case.dynamic = case.dynamic.saturating_add(1);
    }
    Ok(())
}

/// Returns the module of these lines, with its report.
fn case_of(alloc: Global, lines: &str) -> Result<Case, TableFault> {
    if lines.is_empty() {
        return Err(TableFault::Form);
    }
    let mut case = no_case(alloc)?;
    for line in lines.lines() {
        read_line(&mut case, line)?;
    }
    if !case.ends {
        case.text.push_str(TAIL)?;
    }
    Ok(case)
}

/// Counts the modules of a table whose reports have details.
pub fn count_details<C: ReportMaker>(
    alloc: Global,
    table: &str,
    checker: &C,
    tally: &mut Tally,
) -> Result<(), TableFault> {
    for lines in table.split(BETWEEN) {
        let lines = written_out(alloc, lines)?;
        let case = case_of(alloc, lines.as_str())?;
        let got = checker.explained(alloc, case.text.as_bytes())?;
        let (report, errors, dynamic) = (case.report.as_str(), case.errors, case.dynamic);
        let want = format!(in alloc; "{report}errors {errors}, dynamic {dynamic}\n")?;
        tally.count(case.text.as_str(), want.as_str(), got.as_str())?;
    }
    Ok(())
}

/// Counts the modules of a table whose reports are in this format.
pub fn count_modules<C: ReportMaker>(
    alloc: Global,
    table: &str,
    format: Format,
    checker: &C,
    tally: &mut Tally,
) -> Result<(), TableFault> {
    for lines in table.split(BETWEEN) {
        let lines = written_out(alloc, lines)?;
        let case = case_of(alloc, lines.as_str())?;
        let got = answer_to(alloc, case.text.as_bytes(), format, checker)?;
        let (report, errors, dynamic) = (case.report.as_str(), case.errors, case.dynamic);
        let want = format!(in alloc; "{report}errors {errors}, dynamic {dynamic}\n")?;
        tally.count(case.text.as_str(), want.as_str(), got.as_str())?;
    }
    Ok(())
}
