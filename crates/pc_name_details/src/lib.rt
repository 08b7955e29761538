//! The details of names, of members of classes and of statements.
#![tactic(auto)]

mod bindings;
mod bound_names;
mod class_members;
mod first_places;
mod leaving;
mod module_names;
mod naming;
mod offers;
mod repeated;
mod uses;

pub use bindings::Bindings;
pub use leaving::add_statements;
pub use module_names::{add_arguments, add_module, main_fault};
pub use offers::Offers;
pub use uses::{early_detail, unassigned_detail, unknown_detail};
