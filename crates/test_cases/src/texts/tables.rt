//! Tables of texts and of the modules that they spell.

use crate::texts::asking::asking_text;
use crate::texts::expressions::expression_text;
use crate::texts::layouts::{layout_fault_text, layout_text, list_text};
use crate::texts::lines::lines_text;
use crate::texts::lists::{statements, tokens_text};
use crate::texts::modules::module_text;
use crate::texts::random::random_text;
use crate::texts::refusals::reading_text;
use crate::texts::sources::{place_text, source_text};
use pc_source::{Fault, Refusal};
use std::alloc::{AllocError, Global};
use test_rows::{TableFault, TableRow, Tally, rows};

/// Returns a fault as tables write it: the code of a refusal, and its byte, counted from the end of this many bytes.
pub fn fault_text(alloc: Global, fault: Fault, before: usize) -> Result<String, AllocError> {
    match fault.refusal() {
        Ok(Refusal { code, byte }) => {
            let byte = byte.wrapping_sub(before);
            format!(in alloc; "{code} {byte}")
        }
        Err(error) => format!(in alloc; "{error}"),
    }
}

/// Returns the answer for a text that has a layout.
fn has_layout(alloc: Global, text: &str) -> Result<String, Fault> {
    let _count = layout_text(alloc, text)?;
    Ok(String::from_str(alloc, "none")?)
}

/// Returns the answer to a row of a table of this kind.
fn answer(alloc: Global, kind: &str, row: &TableRow<'_>) -> Result<String, Fault> {
    let (part, text) = (row.part, row.text.as_str());
    match kind {
        "modules" => Ok(module_text(alloc, part, text)?),
        "tokens" => tokens_text(alloc, part, text),
        "expressions" => expression_text(alloc, part, text, row.want),
        "trees" => statements(alloc, text),
        "sources" => source_text(alloc, text),
        "places" => place_text(alloc, text),
        "lines" => lines_text(alloc, text),
        "refusals" => reading_text(alloc, text),
        "random" => random_text(alloc, part, text),
        "layouts" => layout_text(alloc, text),
        "line_lists" => list_text(alloc, text),
        "faults" => has_layout(alloc, text),
        "settled" => layout_fault_text(alloc, part, text),
        "askings" => asking_text(alloc, text),
        _ => Ok(String::from_str(alloc, "no table is of this kind")?),
    }
}

/// Returns the answer to a row, or its refusal.
fn told(alloc: Global, kind: &str, row: &TableRow<'_>) -> Result<String, AllocError> {
    match answer(alloc, kind, row) {
        Ok(text) => Ok(text),
        Err(fault) => fault_text(alloc, fault, 0),
    }
}

/// Counts each row of a table of texts of this kind.
///
/// # Errors
///
/// `Form` if a part of the table is no row.
pub fn judge(alloc: Global, kind: &str, table: &str, tally: &mut Tally) -> Result<(), TableFault> {
    for row in rows(alloc, table)? {
        let got = told(alloc, kind, &row)?;
        tally.count(row.written.as_str(), row.want, got.as_str())?;
    }
    Ok(())
}
