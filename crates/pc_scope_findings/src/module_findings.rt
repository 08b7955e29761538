//! All findings about a module's names and the places of its statements.

ghost use Rattle.std.specs.Prelude.{◌≡◌, ◌↔◌, ◌++◌, [], map, Contains, OnOk, IfOk};
ghost use Rattle.pc_tree.specs.declared.code.Finding.{Finding as FindingOf};
ghost use Rattle.pc_tree.specs.Tree.{module_of, item_of};
ghost use Rattle.pc_scope.specs.Tables.{meaning_by_tables};
ghost use Rattle.pc_scope.specs.ModuleScopes.{AreScopes};
ghost use Rattle.pc_scope_findings.specs.Findings.{ScopeFinds};
ghost use Rattle.pc_scope_findings.specs.Internal.FindingLists.{name_findings, scope_findings};

use crate::early::find_early_names;
use crate::unknown::{find_unknown_decorators, find_unknown_in_bodies, find_unknown_in_constants};
use crate::unreached::find_unreached_in_defs;
use pc_scope::Scopes;
use pc_source::OutOfMemory;
use pc_stopping::find_in_scopes;
use pc_tree::{Findings, Module};
use std::alloc::Global;

/// Adds E02 for each unknown name and E03 for each name or callee that an initializer may not use.
fn find_names(found: &mut Findings, scopes: &Scopes, program: &Module) -> Result<(), OutOfMemory>
    ensures { OnOk result (found.new.items
        ≡ found.old.items ++ name_findings (meaning_by_tables scopes.now.tables) (module_of program.now)) }
{
    find_unknown_in_constants(found, scopes, &program.items)?;
    find_unknown_in_bodies(found, scopes, &program.items)?;
    find_unknown_decorators(found, program.imports_dataclass, &program.items)?;
    find_early_names(found, scopes, &program.items)
}

/// Returns all findings about a module's names and the places of its statements.
fn find_all(alloc: Global, scopes: &Scopes, program: &Module) -> Result<Findings, OutOfMemory>
    ensures { IfOk result (λ fs. fs.items
        ≡ scope_findings (meaning_by_tables scopes.now.tables) (module_of program.now)) }
{
    let mut found = Vec::new(alloc);
    find_in_scopes(&mut found, alloc, program.keys, program)?;
    find_unreached_in_defs(&mut found, &program.items)?;
    find_names(&mut found, scopes, program)?;
    Ok(found)
}

/// Returns the findings about a module's names and the places of its statements, in any order, if the scopes are those
/// of the module: E01, E02, E03, E05, E28, E29, E30, E31. Own rules of the profile.
///
/// # Errors
///
/// `OutOfMemory` only if an allocation failed.
pub fn scope_findings(
    alloc: Global,
    module: &Module,
    scopes: &Scopes,
) -> Result<Findings, OutOfMemory>
    ensures found { AreScopes (module_of module.now) scopes.now → IfOk result
        (λ fs. (f : FindingOf) → Contains fs.items f ↔ ScopeFinds (module_of module.now) f) }
{
    let all = find_all(alloc, scopes, module)?;
    Ok(all)
}
