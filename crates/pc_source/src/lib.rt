//! The source text, places in it, and the faults that every stage may return.
#![tactic(auto)]

mod coding;
mod control;
mod counted;
mod fault;
pub mod laws;
mod place;
mod reserved;
mod source;

pub use counted::Counted;
pub use fault::{Fault, OutOfMemory, Refusal, RefusalCode};
pub use place::Place;
pub use reserved::is_reserved;
pub use source::{Source, read_source};
