//! The statements that hold an expression: the environment after each, and its findings.
#![tactic(auto)]

mod binding;
mod iterables;
mod leaving;
mod store_offers;
mod stores;
mod targets;
mod typing;

pub use binding::bind_annotated;
pub use iterables::item_type;
pub use leaving::{check_assert, find_return};
pub use targets::assign_target;
pub use typing::{type_condition, type_in};
