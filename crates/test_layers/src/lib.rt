//! Tables of answers of the layers below the checker: names, codes that prevent running, types, classes, locals.
#![tactic(auto)]

mod classes;
mod conditions;
mod environments;
mod junctions;
mod locals;
mod modules;
mod names;
mod questions;
mod tables;
mod types;

pub use tables::judge;
