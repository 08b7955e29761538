//! The parents of the classes of a module.

ghost use Rattle.std.specs.Prelude.{◌≡◌, IfOk};
ghost use Rattle.pc_tree.specs.Tree.{Module as Tree, module_of, option_name_of};
ghost use Rattle.pc_scope.specs.ModuleScopes.{AreScopes};
ghost use Rattle.pc_annotations.specs.Bases.{base_named, bases_of};

use pc_scope::{NameMeaning, Owner, Scopes};
use pc_source::OutOfMemory;
use pc_tree::{ItemKind, Module, Name};
use pc_types::Parents;
use std::alloc::Global;

/// Returns the parents of the classes of a module, given its scopes: for each class the class that its base names, if
/// that comes before it.
pub fn parents_of(alloc: Global, tree: &Module, scopes: &Scopes) -> Result<Parents, OutOfMemory>
    requires { AreScopes (module_of tree.now) scopes.now }
    ensures { IfOk result (λ p. p ≡ bases_of (module_of tree.now)) }
{
    let mut bases = Vec::new(alloc);
    for item in &tree.items {
        if let ItemKind::Class(class) = &item.kind {
            bases.push(base_named(scopes, bases.len(), &class.base))?;
        }
    }
    match Parents::new(bases) {
        Some(parents) => Ok(parents.with_leaps(alloc)?),
        // `base_named` gives only classes before this one, which no type says.
        None => unreachable!(),
    }
}

/// Returns the class before `class` that the name of a base means, if there is one.
fn base_named(scopes: &Scopes, class: usize, base: &Option<Name>) -> Option<usize>
    ensures { (m : Tree) → AreScopes m scopes.now → result ≡ base_named m class (option_name_of base.now) }
{
    match base {
        None => None,
        Some(name) => match scopes.resolve(Owner::Module, name.text.as_str()) {
            NameMeaning::Class(earlier) => { if earlier < class { Some(earlier) } else { None } }
            _ => None,
        },
    }
}
