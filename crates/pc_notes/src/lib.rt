//! Findings as they are gathered, with the two types of each flow that they report.
#![tactic(auto)]

mod by_place;
mod notes;
mod rebuilding;
mod sharing;
mod texts;

pub use notes::Notes;
pub use rebuilding::transfer;
