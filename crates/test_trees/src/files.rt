//! The program that lists the tokens and the trees of files.
use crate::listing::listing;
use std::rt::{Env, Files};
use std::{env, fs, io};

/// Prints the name of a file and its listing.
fn list_file<R: Print + Files + AllocGlobal>(rt: &R, file: &str) -> io::Result<()> {
    let bytes = fs::read(rt, file)?;
    let rows = listing(rt.alloc(), bytes.as_slice())?;
    print!(rt; "file {file}\n{rows}")?;
    Ok(())
}

/// Prints the listing of each file that the words of the command line name, and returns whether there are any.
fn list_words<R: Print + Env + Files + AllocGlobal>(rt: &R) -> io::Result<bool> {
    let mut files: usize = 0;
    for file in env::args(rt)?.skip(1) {
        list_file(rt, file.as_str())?;
        files = files.saturating_add(1);
    }
    Ok(files > 0)
}

/// Prints the listing of each file that the words of the command line name. Returns the exit status: 0 if there are
/// files and each was read, else 1; the reason is on standard error.
pub fn list_files<R: Print + Eprint + Env + Files + AllocGlobal>(rt: &R) -> u8 {
    match list_words(rt) {
        Ok(true) => 0,
        Ok(false) => 1,
        Err(fault) => {
            let _ = eprintln!(rt; "{fault}");
            1
        }
    }
}
