//! The grammar of modules: the token lists that spell one, the refusals of all others, and laws.
#![tactic(auto)]

mod laws;

pub use laws::{fronts, one_module};
