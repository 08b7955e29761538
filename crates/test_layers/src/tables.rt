//! The kinds of tables of the layers.
use crate::classes::count_classes;
use crate::environments::row_answer;
use crate::modules::module_text;
use crate::names::{meaning_text, words_text};
use crate::types::count_types;
use pc_source::Fault;
use std::alloc::{AllocError, Global};
use test_rows::{TableFault, TableRow, Tally, rows};

/// The line between the lines that precede each row's text and the rows.
const ROWS: &str = "----\n";

/// Returns the answer to a row of a table of this kind, given the lines that precede each row's text.
fn answer(alloc: Global, kind: &str, before: &str, row: &TableRow<'_>) -> Result<String, Fault> {
    let (part, text) = (row.part, row.text.as_str());
    match kind {
        "environments" => row_answer(alloc, before, text),
        "names" => meaning_text(alloc, before, text),
        "questions" => module_text(alloc, part, text),
        "words" => words_text(alloc, part, text),
        _ => Ok(String::from_str(alloc, "no table is of this kind")?),
    }
}

/// Returns the answer to a row, or its refusal.
fn told(alloc: Global, kind: &str, before: &str, row: &TableRow<'_>) -> Result<String, AllocError> {
    match answer(alloc, kind, before, row) {
        Ok(text) => Ok(text),
        Err(fault) => format!(in alloc; "{fault}"),
    }
}

/// Counts each case of a table of this kind.
///
/// # Errors
///
/// `Form` if a part of the table is no case.
pub fn judge(alloc: Global, kind: &str, table: &str, tally: &mut Tally) -> Result<(), TableFault> {
    match kind {
        "types" => return count_types(alloc, table, tally),
        "classes" => return count_classes(alloc, table, tally),
        _ => {}
    }
    let (before, lines) = table.split_once(ROWS).unwrap_or(("", table));
    for row in rows(alloc, lines)? {
        let got = told(alloc, kind, before, &row)?;
        tally.count(row.written.as_str(), row.want, got.as_str())?;
    }
    Ok(())
}
