//! The folders of tables.
use crate::checking::Checking;
use std::alloc::Global;
use test_rows::{TableFault, Tally};

/// Counts each case of a table in a file, whose name is `FOLDER/NAME.KIND`.
///
/// # Errors
///
/// `Kind` if there are no tables of this kind in this folder, and `Form` if a part of the table is no case.
pub fn judge(alloc: Global, file: &str, table: &str, tally: &mut Tally) -> Result<(), TableFault> {
    let (folder, name) = file.split_once('/').ok_or(TableFault::Kind)?;
    let (_, kind) = name.rsplit_once('.').ok_or(TableFault::Kind)?;
    match folder {
        "texts" => test_cases::texts::judge(alloc, kind, table, tally),
        "runs" => test_runs::judge(alloc, kind, table, tally),
        "layers" => test_layers::judge(alloc, kind, table, tally),
        "typing" => test_typing::judge(alloc, kind, table, tally),
        "reports" | "details" => test_cases::reports::judge(alloc, kind, table, &Checking, tally),
        _ => Err(TableFault::Kind),
    }
}
