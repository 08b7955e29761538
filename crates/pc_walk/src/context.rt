//! The context of a function's statements.

use pc_flow::OwnerNames;
use pc_rules::ModuleContext;

/// The context of a function's statements: the globals that they may name, the meanings of names, and the return type.
///
/// Own rule of the profile.
#[derive(Drop)]
pub struct BodyContext<'b, Ty: Drop> {
    /// The globals that may be named.
    pub globals: &'b ModuleContext<'b, Ty>,
    /// The meanings of names in the function.
    pub names: &'b OwnerNames<'b>,
    /// The return type of the function.
    pub returned: &'b Ty,
}
