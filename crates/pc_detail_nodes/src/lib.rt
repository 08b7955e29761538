//! The nodes of a module by their places.
#![tactic(auto)]

mod annotations_at;
mod by_place;
mod exprs;
mod nodes;
mod parts;
mod stmts;

pub use nodes::{Nodes, module_exprs};
