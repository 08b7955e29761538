//! The kinds of tables of reports.
use crate::reports::checker::ReportMaker;
use crate::reports::findings::forms_text;
use crate::reports::forms::count_forms;
use crate::reports::listings::listed_text;
use crate::reports::modules::{count_details, count_modules};
use crate::reports::stores::count_stores;
use crate::reports::streams::count_streams;
use crate::reports::texts::{end_text, fault_text, report_text};
use pc_report::Format;
use pc_source::Fault;
use std::alloc::{AllocError, Global};
use test_rows::{TableFault, TableRow, Tally, rows};

/// Returns the text of an answer, or its fault.
fn told(alloc: Global, answer: Result<String, Fault>) -> Result<String, AllocError> {
    match answer {
        Ok(text) => Ok(text),
        Err(fault) => format!(in alloc; "{fault}"),
    }
}

/// Returns the answer to a row of a table of this kind.
fn answer<C: ReportMaker>(
    alloc: Global,
    kind: &str,
    row: &TableRow<'_>,
    checker: &C,
) -> Result<String, TableFault> {
    let text = row.text.as_str();
    match kind {
        "texts" | "bytes" => report_text(alloc, text, checker),
        "ends" => end_text(alloc, text, checker),
        "listed" => listed_text(alloc, row.part, text, checker),
        "faults" => Ok(fault_text(alloc, text, checker)?),
        "written" => Ok(told(alloc, forms_text(alloc, text))?),
        _ => Err(TableFault::Kind),
    }
}

/// Counts each row of a table of this kind.
fn count_rows<C: ReportMaker>(
    alloc: Global,
    kind: &str,
    table: &str,
    checker: &C,
    tally: &mut Tally,
) -> Result<(), TableFault> {
    for row in rows(alloc, table)? {
        let got = answer(alloc, kind, &row, checker)?;
        tally.count(row.written.as_str(), row.want, got.as_str())?;
    }
    Ok(())
}

/// Counts each case of a table of reports of this kind.
///
/// # Errors
///
/// `Kind` if there are no tables of this kind, and `Form` if a part of the table is no case.
pub fn judge<C: ReportMaker>(
    alloc: Global,
    kind: &str,
    table: &str,
    checker: &C,
    tally: &mut Tally,
) -> Result<(), TableFault> {
    match kind {
        "modules" => count_modules(alloc, table, Format::One, checker, tally),
        "explained" => count_modules(alloc, table, Format::Two, checker, tally),
        "details" => count_details(alloc, table, checker, tally),
        "stores" => count_stores(alloc, table, checker, tally),
        "streams" => count_streams(alloc, table, checker, tally),
        "forms" => count_forms(alloc, table, false, checker, tally),
        "detailed" => count_forms(alloc, table, true, checker, tally),
        _ => count_rows(alloc, kind, table, checker, tally),
    }
}
