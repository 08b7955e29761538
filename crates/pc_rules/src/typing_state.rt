//! The state of a check.

use pc_notes::Notes;
use pc_types::TypeStore;
use std::alloc::Global;

/// The state of a check: the store of its types, its allocator, and the findings so far. The caller lends the store and
/// the findings. Own rule of the profile.
#[derive(Drop)]
pub struct TypingState<'c, S: TypeStore> {
    pub store: &'c mut S,
    pub alloc: Global,
    pub found: &'c mut Notes,
}
