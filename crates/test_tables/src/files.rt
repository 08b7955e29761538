//! The program that counts the cases of the tables in its files.
use crate::tables::judge;
use std::rt::{Env, Files};
use std::{env, fs, io};
use test_rows::{TableFault, Tally};

/// Returns the tally of the table in a file.
fn judged<R: Files + AllocGlobal>(rt: &R, file: &str) -> Result<Tally, TableFault> {
    let table = fs::read_to_string(rt, file).map_err(|_| TableFault::Read)?;
    let mut tally = Tally::new(rt.alloc());
    judge(rt.alloc(), file, table.as_str(), &mut tally)?;
    Ok(tally)
}

/// Prints the tally of the table in a file, and returns whether all of it agrees.
fn judge_file<R: Print + Files + AllocGlobal>(rt: &R, file: &str) -> io::Result<bool> {
    match judged(rt, file) {
        Ok(tally) => {
            let (told, summary) = (tally.told(), tally.summary(rt.alloc())?);
            println!(rt; "{told}{file}: {summary}")?;
            Ok(tally.agrees())
        }
        Err(fault) => {
            println!(rt; "{file}: {fault}")?;
            Ok(false)
        }
    }
}

/// Prints the tally of each table that the words of the command line name, and returns whether all agree.
fn judge_words<R: Print + Env + Files + AllocGlobal>(rt: &R) -> io::Result<bool> {
    let mut tables: usize = 0;
    let mut agree = true;
    for file in env::args(rt)?.skip(1) {
        agree = judge_file(rt, file.as_str())? && agree;
        tables = tables.saturating_add(1);
    }
    Ok(agree && tables > 0)
}

/// Judges each table that the words of the command line name, prints a line on each, and lists every case that differs
/// from its table. Returns the exit status: 0 if there are tables, each was read and has cases, and no case differs,
/// else 1.
pub fn judge_files<R: Print + Eprint + Env + Files + AllocGlobal>(rt: &R) -> u8 {
    match judge_words(rt) {
        Ok(true) => 0,
        Ok(false) => 1,
        Err(fault) => {
            let _ = eprintln!(rt; "{fault}");
            1
        }
    }
}
