//! Findings about a module's names and the places of its statements: conditions that need no types.
#![tactic(auto)]

mod completion;
mod early;
mod module_findings;
mod parts;
mod unknown;
mod unreached;

pub use module_findings::scope_findings;
