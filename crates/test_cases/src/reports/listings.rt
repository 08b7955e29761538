//! Modules with the listings of their types, and with the types at their bytes.
use crate::reports::checker::ReportMaker;
use std::alloc::Global;
use test_rows::{TableFault, bytes_of, in_one_line};

/// Returns the listing of the bytes that a text represents, in one line.
fn listing<C: ReportMaker>(alloc: Global, text: &str, checker: &C) -> Result<String, TableFault> {
    let bytes = bytes_of(alloc, text)?;
    let answer = checker.listed(alloc, bytes.as_slice())?;
    Ok(in_one_line(alloc, answer.as_str())?)
}

/// Returns the listing of the bytes that a text represents as JSON, without the line feed.
fn json_listing<C: ReportMaker>(
    alloc: Global,
    text: &str,
    checker: &C,
) -> Result<String, TableFault> {
    let bytes = bytes_of(alloc, text)?;
    let answer = checker.listed_as_json(alloc, bytes.as_slice())?;
    Ok(in_one_line(alloc, answer.as_str())?)
}

/// Returns the type at a byte of the bytes that a text represents; the number of the byte is the first line.
fn type_at<C: ReportMaker>(alloc: Global, row: &str, checker: &C) -> Result<String, TableFault> {
    let (number, text) = row.split_once('\n').ok_or(TableFault::Form)?;
    let byte = number.parse().map_err(|_| TableFault::Form)?;
    let bytes = bytes_of(alloc, text)?;
    Ok(checker.type_around(alloc, bytes.as_slice(), byte)?)
}

/// Returns the answer to a row of a part of this name: a listing as text or as JSON, or the type at a byte.
///
/// # Errors
///
/// `Form` if there is no such part, or a row has no number of a byte where it should.
pub fn listed_text<C: ReportMaker>(
    alloc: Global,
    part: &str,
    text: &str,
    checker: &C,
) -> Result<String, TableFault> {
    match part {
        "TEXT" => listing(alloc, text, checker),
        "JSON" => json_listing(alloc, text, checker),
        "AT" => type_at(alloc, text, checker),
        _ => Err(TableFault::Form),
    }
}
