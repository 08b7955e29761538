//! Builds the name tables of a module.

ghost use Rattle.std.specs.Prelude.{IfOk};
ghost use Rattle.pc_tree.specs.Tree.{module_of};
ghost use Rattle.pc_scope.specs.Tables.{AreTables};

use crate::globals::globals;
use crate::locals::{locals_of_classes, locals_of_functions};
use crate::tables::Names;
use pc_source::OutOfMemory;
use pc_tree::Module;
use std::alloc::Global;

/// Returns the name tables of a module. Language Reference 4.2 "Naming and binding".
pub fn names_of(alloc: Global, module: &Module) -> Result<Names, OutOfMemory>
    ensures tables { IfOk result (λ s. AreTables (module_of module.now) s) }
{
    let globals = globals(alloc, module.keys, &module.items)?;
    let functions = locals_of_functions(alloc, module.keys, &module.items)?;
    let methods = locals_of_classes(alloc, module.keys, &module.items)?;
    Ok(Names {
        globals,
        functions,
        methods,
    })
}
