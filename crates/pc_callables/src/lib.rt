//! The signatures of the functions of a module and of the members of its classes, and the findings in them.
#![tactic(auto)]

mod bound;
mod copies;
mod defaults;
mod members;
mod signatures;

pub use bound::{BoundNames, bind};
pub use defaults::{binds, find_into};
pub use members::{ClassNumbers, read_members};
pub use signatures::{read_annotation, read_functions};
