//! The outline of a module.

use pc_scope::Scopes;
use pc_tree::Module;
use pc_types::Parents;

/// The outline of a module, by which its annotations are read: its tree, its scopes, and the parents of its classes.
/// Typing specification, "Type annotations".
#[derive(Drop)]
pub struct ModuleOutline<'m> {
    /// The tree of the module.
    pub tree: &'m Module,
    /// The meaning of its names.
    pub scopes: &'m Scopes,
    /// The parents of its classes.
    pub parents: &'m Parents,
}
