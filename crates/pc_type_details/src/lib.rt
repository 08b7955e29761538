//! The details of calls, operations, annotations and displays, by the types of their parts.
#![tactic(auto)]

mod annotating;
mod attributes;
mod calls;
mod given;
mod operations;
mod sizes;
mod statements;

pub use annotating::{annotation_detail, union_detail};
pub use attributes::{attribute_target, method_target, used_attribute_detail, value_detail};
pub use calls::{any_call_detail, builtin_detail, call_detail, loop_detail};
pub use operations::{Use, index_detail, operator_detail, store_detail};
pub use sizes::{annotation_nodes, size_detail};
pub use statements::{keys_detail, list_test_detail, no_return_detail, no_test_detail};
