//! The rows of a table.

use crate::TableFault;
use std::alloc::{AllocError, Global};

/// The start of a line that names a part of a table.
const PART: &str = "§ ";

/// The separator of a row's text and its answer.
const ARROW: &str = "  ⇒ ";

/// A row of a table: the name of its part, its text as written and in full, and the answer that the table expects.
#[derive(Drop)]
pub struct TableRow<'t> {
    pub part: &'t str,
    pub written: String,
    pub text: String,
    pub want: &'t str,
}

/// Appends a part, with this number for each `#` in it, and the number before for each `♭`.
fn add_numbered(
    text: &mut String,
    alloc: Global,
    part: &str,
    number: usize,
) -> Result<(), AllocError> {
    let this = format!(in alloc; "{number}")?;
    let before = format!(in alloc; "{}", number.saturating_sub(1))?;
    let part = part.replace(alloc, "#", this.as_str())?;
    let part = part.as_str().replace(alloc, "♭", before.as_str())?;
    text.push_str(part.as_str())
}

/// Appends a repeated part: `65×+a` that many times, `1..65×+a#` once for each of these numbers.
fn add_repeated(text: &mut String, alloc: Global, repeated: &str) -> Result<(), TableFault> {
    let (times, part) = repeated.split_once('×').ok_or(TableFault::Form)?;
    let Some((first, last)) = times.split_once("..") else {
        let times = times.parse().map_err(|_| TableFault::Form)?;
        text.push_str(part.repeat(alloc, times)?.as_str())?;
        return Ok(());
    };
    let first: usize = first.parse().map_err(|_| TableFault::Form)?;
    let last: usize = last.parse().map_err(|_| TableFault::Form)?;
    for number in first..last {
        add_numbered(text, alloc, part, number)?;
    }
    Ok(())
}

/// Returns the text of a row with its repeated parts written out: `⟨65×+a⟩` is `+a` 65 times, and `⟨1..65×+a#⟩` is
/// `+a1`, `+a2` and so on up to `+a64`; `♭` in it is the number before.
///
/// # Errors
///
/// `Form` if a repeated part has no number.
pub fn written_out(alloc: Global, row: &str) -> Result<String, TableFault> {
    let mut text = String::new(alloc);
    for piece in row.split('⟨') {
        match piece.split_once('⟩') {
            Some((repeated, rest)) => {
                add_repeated(&mut text, alloc, repeated)?;
                text.push_str(rest)?;
            }
            None => text.push_str(piece)?,
        }
    }
    Ok(text)
}

/// Returns the rows of a table. Each row is some lines of text, with an arrow and the expected answer after the last
/// one. Empty lines before a row are not part of it. A line with `§` begins a part of the table: the rows after it
/// belong to the part named there before a colon. The text before the first such line describes the table.
///
/// # Errors
///
/// `Form` if lines are left without an arrow after them, or a repeated part has no number.
pub fn rows(alloc: Global, table: &str) -> Result<Vec<TableRow<'_>>, TableFault> {
    let mut rows = Vec::new(alloc);
    let mut part = "";
    let mut written = String::new(alloc);
    for line in table.split('\n') {
        if let Some(heading) = line.strip_prefix(PART) {
            let (name, _) = heading.split_once(':').ok_or(TableFault::Form)?;
            part = name;
            written = String::new(alloc);
        } else if let Some((last, want)) = line.rsplit_once(ARROW) {
            written.push_str(last)?;
            let text = written_out(alloc, written.as_str())?;
            rows.push(TableRow {
                part,
                written,
                text,
                want,
            })?;
            written = String::new(alloc);
        } else if !written.is_empty() || !line.is_empty() {
            written.push_str(line)?;
            written.push_str("\n")?;
        }
    }
    if written.is_empty() {
        Ok(rows)
    } else {
        Err(TableFault::Form)
    }
}
