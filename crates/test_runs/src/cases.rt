//! The cases of a table of runs.

use std::alloc::Global;
use test_rows::TableFault;

/// Fuel for a case that names none: more than it needs.
const AMPLE: u64 = 1_000_000;

/// A case of a table: lines of a module, the fuel and the choices of its run, and the expected lines of its trace.
#[derive(Drop)]
pub struct Case {
    pub text: String,
    pub fuel: u64,
    pub choices: Vec<u8>,
    pub want: String,
}

/// Returns the choices that a table writes one after another.
fn choices_of(alloc: Global, written: &str) -> Result<Vec<u8>, TableFault> {
    let mut choices = Vec::new(alloc);
    for choice in written.split(' ') {
        choices.push(choice.parse().map_err(|_| TableFault::Form)?)?;
    }
    Ok(choices)
}

/// Returns the case of these lines, whose comment has the fuel or the choices, if it names them, and then the expected
/// trace.
fn case_of(alloc: Global, text: String, comment: &str) -> Result<Case, TableFault> {
    let mut case = Case {
        text,
        fuel: AMPLE,
        choices: Vec::new(alloc),
        want: String::new(alloc),
    };
    for part in comment.split(", ") {
        if let Some(fuel) = part.strip_prefix("fuel ") {
            case.fuel = fuel.parse().map_err(|_| TableFault::Form)?;
        } else if let Some(choices) = part.strip_prefix("choices ") {
            case.choices = choices_of(alloc, choices)?;
        } else {
            case.want.push_str(part)?;
            case.want.push_str("\n")?;
        }
    }
    Ok(case)
}

/// Splits a line of a table into its text and the comment after it, which ends a case.
fn case_end(line: &str) -> (&str, Option<&str>) {
    match line.rsplit_once("  # ") {
        Some((text, comment)) => (text, Some(comment)),
        None => (line, None),
    }
}

/// Returns the cases of a table. Each is some lines, the last of which has a comment with the expected trace. Empty
/// lines before a case are not part of it.
///
/// # Errors
///
/// `Form` if lines are left without a comment after them, or a number in a comment is none.
pub fn cases(alloc: Global, table: &str) -> Result<Vec<Case>, TableFault> {
    let mut cases = Vec::new(alloc);
    let mut text = String::new(alloc);
    for line in table.split('\n') {
        let (part, comment) = case_end(line);
        text.push_str(part)?;
        match comment {
            Some(comment) => {
                cases.push(case_of(alloc, text, comment)?)?;
                text = String::new(alloc);
            }
            None if text.is_empty() => {}
            None => text.push_str("\n")?,
        }
    }
    if text.is_empty() {
        Ok(cases)
    } else {
        Err(TableFault::Form)
    }
}
