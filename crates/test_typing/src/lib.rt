//! The flows and findings of worked modules, with both stores of types, and the notes that a check makes.
#![tactic(auto)]

mod checks;
mod notes;
mod signatures;
mod tables;

pub use tables::judge;
