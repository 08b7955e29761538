//! The check of a module: of its suites, functions and classes.
#![tactic(auto)]

mod bodies;
mod entering;
mod explaining;
mod modules;
mod statements;

pub use explaining::{explain_flow, flow_texts};
pub use modules::check_module;
