//! Name resolution: the meaning of each name of a module.
#![tactic(auto)]

mod build;
mod globals;
mod instance_test;
mod laws;
mod local_names;
mod locals;
mod module_names;
mod module_scopes;
mod reserved;
mod resolution;
mod tables;

pub use build::scopes;
pub use instance_test::is_instance_test;
pub use laws::{reserved_names_are_unbound, tables_resolve_names};
pub use module_scopes::Scopes;
pub use resolution::{Builtin, NameMeaning, Owner};
