//! Tables of worked texts and of modules with their reports, each case with its expected answer.
#![tactic(auto)]

pub mod reports;
pub mod texts;
