//! The meaning of each code, and advice on mending it, in one sentence each.
#![tactic(auto)]

mod findings;
mod refusals;

pub use findings::{meaning, mending};
pub use refusals::{refusal_meaning, refusal_mending, refusal_title};
