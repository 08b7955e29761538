//! Compares the answers to worked texts, runs, layers and reports with their tables.
//! Run as `test_tables FOLDER/FILE..`.
#![tactic(auto)]

mod checking;
mod files;
mod tables;

use crate::files::judge_files;
use std::process::ExitCode;

fn main(rt: HostRuntime) -> ExitCode {
    ExitCode::from(judge_files(&rt))
}
