//! The names that occur in a module, and the name that binds each.
#![tactic(auto)]

mod binding;
mod definitions;
mod expressions;
mod mention;
mod statements;

pub use binding::binding_of;
pub use definitions::mentions;
pub use mention::{Mention, Scope};
