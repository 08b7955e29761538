//! Prints the tokens and the tree of each file, with their places.
//! Run as `test_trees FILE..`.
#![tactic(auto)]

mod annotations;
mod expressions;
mod files;
mod items;
mod listing;
mod rows;
mod statements;
mod words;

use crate::files::list_files;
use std::process::ExitCode;

fn main(rt: HostRuntime) -> ExitCode {
    ExitCode::from(list_files(&rt))
}
