//! Tables of the flows and findings of modules, and of notes.
use crate::checks::checked;
use crate::notes::note_text;
use std::alloc::{AllocError, Global};
use test_rows::{TableFault, TableRow, Tally, rows};

/// Returns the answer to a row of a table, of notes or of modules.
fn answer(alloc: Global, of_notes: bool, row: &TableRow<'_>) -> Result<String, AllocError> {
    if of_notes {
        return note_text(alloc, row.part).map_err(|_| AllocError);
    }
    checked(alloc, row.part, row.text.as_str())
}

/// Counts each row of a table of this kind.
///
/// # Errors
///
/// `Kind` if there are no tables of this kind, and `Form` if a part of the table is no row.
pub fn judge(alloc: Global, kind: &str, table: &str, tally: &mut Tally) -> Result<(), TableFault> {
    let of_notes = kind == "notes";
    if !of_notes && kind != "checked" {
        return Err(TableFault::Kind);
    }
    for row in rows(alloc, table)? {
        let got = answer(alloc, of_notes, &row)?;
        tally.count(row.written.as_str(), row.want, got.as_str())?;
    }
    Ok(())
}
