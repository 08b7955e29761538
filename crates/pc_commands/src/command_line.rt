//! The words that a program was started with, and the message if they are no request.

use crate::faults::OptionFault;
use std::alloc::Global;
use std::io::ErrorKind;
use std::rt::Env;
use std::{env, io};

/// Returns the fault of words that could not be read: memory, or a word that is not UTF-8.
fn unread(alloc: Global, error: &io::Error) -> OptionFault {
    if error.kind() == ErrorKind::OutOfMemory {
        return OptionFault::OutOfMemory;
    }
    match String::from_str(alloc, "error: a word of the command line is not UTF-8\n") {
        Ok(text) => OptionFault::Usage(text),
        Err(_) => OptionFault::OutOfMemory,
    }
}

/// Returns the words that the program was started with, without its name.
///
/// # Errors
///
/// `Usage` if a word is not UTF-8; `OutOfMemory` only if an allocation failed.
pub fn given_words<R: Env + AllocGlobal>(rt: &R) -> Result<Vec<String>, OptionFault> {
    match env::args(rt) {
        Ok(words) => Ok(words.skip(1).collect(rt.alloc())?),
        Err(error) => Err(unread(rt.alloc(), &error)),
    }
}

/// Prints a fault, help and the version on standard output, anything else on standard error. Returns the exit status: 0
/// after help or the version, else 3.
pub fn tell<R: Print + Eprint>(rt: &R, fault: &OptionFault) -> u8 {
    if let OptionFault::Help(text) = fault
        && print!(rt; "{text}").is_ok()
    {
        return 0;
    }
    let _ = eprint!(rt; "{fault}");
    3
}
