//! The requests of the words of command lines, by `pc_commands`.
use pc_commands::{CheckOptions, OptionFault, RunOptions, check_options, run_options};
use std::alloc::{AllocError, Global};
use test_rows::in_one_line;

/// The answer of a row for mistaken words whose message it does not give.
const MISTAKEN: &str = "mistaken";

/// Returns the message for words that are no request, after the kind of their fault.
pub fn fault_text(alloc: Global, fault: &OptionFault) -> Result<String, AllocError> {
    let kind = match fault {
        OptionFault::Usage(_) => MISTAKEN,
        OptionFault::Help(_) => "help",
        OptionFault::OutOfMemory => "memory",
    };
    let text = format!(in alloc; "{kind}: {fault}")?;
    in_one_line(alloc, text.as_str())
}

/// Returns the message for words that are no request, or only the kind of their fault if the row gives no more.
fn told(alloc: Global, fault: &OptionFault, want: &str) -> Result<String, AllocError> {
    match fault {
        OptionFault::Usage(_) if want == MISTAKEN => String::from_str(alloc, MISTAKEN),
        _ => fault_text(alloc, fault),
    }
}

/// Returns the request of words for `pycheck`, each of which follows a bar: the form, the format of the report or the
/// word `types` or `details`, and the file, or the message of their fault.
pub fn check_text(alloc: Global, row: &str, want: &str) -> Result<String, AllocError> {
    let words: Vec<&str> = row.split('|').skip(1).collect(alloc)?;
    match check_options(alloc, words.as_slice()) {
        Ok(
            CheckOptions {
                json,
                types,
                details,
                format,
                file,
            },
        ) => {
            let form = if json { "json" } else { "text" };
            if types {
                return format!(in alloc; "{form} types <{file}>");
            }
            if details {
                return format!(in alloc; "{form} details <{file}>");
            }
            let number = format.number();
            format!(in alloc; "{form} {number} <{file}>")
        }
        Err(fault) => told(alloc, &fault, want),
    }
}

/// Returns the request of words for `pyrun`: the fuel, the word for the choices in brackets if it is not empty, and the
/// file, or the message of their fault.
pub fn run_text(alloc: Global, row: &str, want: &str) -> Result<String, AllocError> {
    let words: Vec<&str> = row.split('|').skip(1).collect(alloc)?;
    match run_options(alloc, words.as_slice()) {
        Ok(
            RunOptions {
                fuel,
                choices,
                file,
            },
        ) => {
            if choices.is_empty() {
                return format!(in alloc; "{fuel} <{file}>");
            }
            format!(in alloc; "{fuel} [{choices}] <{file}>")
        }
        Err(fault) => told(alloc, &fault, want),
    }
}
