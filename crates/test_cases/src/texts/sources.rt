//! Bytes read as texts, and the lines and columns of texts.
use pc_source::{Fault, read_source};
use std::alloc::Global;
use test_rows::bytes_of;

/// Returns whether the bytes that a text represents are read as that text, or their refusal, as words.
pub fn source_text(alloc: Global, text: &str) -> Result<String, Fault> {
    let Ok(bytes) = bytes_of(alloc, text) else {
        return Ok(String::from_str(alloc, "no bytes")?);
    };
    let source = read_source(alloc, bytes.as_slice())?;
    let is_same = source.text().as_bytes() == bytes.as_slice();
    let told = if is_same { "read" } else { "another text" };
    Ok(String::from_str(alloc, told)?)
}

/// Returns the line and the column of the byte named in a row's first line, in the text after that line.
pub fn place_text(alloc: Global, row: &str) -> Result<String, Fault> {
    let (byte, text) = row.split_once('\n').unwrap_or(("", ""));
    let byte = byte.parse().unwrap_or(0);
    let Ok(bytes) = bytes_of(alloc, text) else {
        return Ok(String::from_str(alloc, "no bytes")?);
    };
    let source = read_source(alloc, bytes.as_slice())?;
    let (line, column) = source.line_col(byte);
    Ok(format!(in alloc; "{line} {column}")?)
}
