//! The signatures and constants of a module, and the findings in them.
#![tactic(auto)]

mod constants;
mod signatures;

pub use signatures::{Signatures, read_signatures};
