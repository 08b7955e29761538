//! Maps and lists that share their common parts with the ones they are built on.
#![tactic(auto)]

mod lists;
mod named;
mod shared;

pub use lists::{ListPlace, SharedList, SharedLists};
pub use named::{NameNumbers, NamedMaps, number};
pub use shared::SharedMaps;
