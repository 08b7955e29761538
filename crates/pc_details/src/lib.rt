//! The reason for each finding of a module: its types, names and places.
#![tactic(auto)]

mod by_code;
mod explained;
mod overriding;
mod walked;

pub use explained::{DetailedFinding, details_of};
