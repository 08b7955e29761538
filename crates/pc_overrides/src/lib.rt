//! Overriding: each method that a class binds is judged against those of its name that the class inherits.
#![tactic(auto)]

mod alike;
mod finding;
mod judging;
mod known;
mod overriding;
mod representing;
mod subsuming;

pub use finding::override_findings;
