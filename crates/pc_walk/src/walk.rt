//! The state of a walk over the statements of a function.

use crate::context::BodyContext;
use pc_flow::DeclaredTypes;
use pc_notes::Notes;
use pc_types::TypeStore;
use std::alloc::Global;

/// State of a walk over the statements of a function. The caller lends everything it mutates.
///
/// Own rule of the profile.
#[derive(Drop)]
pub struct Walk<'w, S: TypeStore> {
    /// The store of the types.
    pub store: &'w mut S,
    /// The allocator.
    pub alloc: Global,
    /// The context of the statements.
    pub context: BodyContext<'w, S::Ty>,
    /// The declared types of the locals so far.
    pub declared: &'w mut DeclaredTypes<S::Ty>,
    /// The findings so far.
    pub found: &'w mut Notes,
}
