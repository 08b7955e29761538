//! Builds the scopes of a module from its tree.

ghost use Rattle.std.specs.Prelude.{IfOk};
ghost use Rattle.pc_tree.specs.Tree.{module_of};
ghost use Rattle.pc_scope.specs.ModuleScopes.{AreScopes};

use crate::module_names::names_of;
use crate::module_scopes::Scopes;
use pc_source::OutOfMemory;
use pc_tree::Module;
use std::alloc::Global;

/// Returns the scopes of a module. Language Reference 4.2 "Naming and binding".
pub fn scopes(alloc: Global, module: &Module) -> Result<Scopes, OutOfMemory>
    ensures scopes { IfOk result (λ s. AreScopes (module_of module.now) s) }
{
    let names = names_of(alloc, module)?;
    Ok(Scopes { names })
}
