//! Types as numbers: a store that has each type tree once.
#![tactic(auto)]

mod gathering;
mod joining;
mod memo;
mod sizes;
mod store;
mod table;

pub use store::{InternStore, TypeId};
