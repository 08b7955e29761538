//! The locals that names mean.

ghost use Rattle.std.specs.Prelude.{◌≡◌, ◌++◌, ◌∷◌, [], map, IfOk, OnOk};
ghost use Rattle.pc_tree.specs.Tree.{name_of};
ghost use Rattle.pc_tree.specs.Lists.{name_seen};
ghost use Rattle.pc_walk.specs.Touched.{numbers_of};
ghost use Rattle.pc_flow.specs.Naming.{meanings};

use pc_flow::OwnerNames;
use pc_scope::NameMeaning;
use pc_source::OutOfMemory;
use pc_tree::Name;
use std::alloc::Global;

/// Appends the local that a name means, if it means one.
fn add_local(locals: &mut Vec<usize>, names: &OwnerNames, name: &Name) -> Result<(), OutOfMemory>
    ensures { OnOk result (locals.new.items
        ≡ locals.old.items ++ numbers_of (meanings names.now) (name_of name.now ∷ [])) }
{
    match names.resolve(name.text.as_str()) {
        NameMeaning::Local(local) => {
            locals.push(local)?;
            Ok(())
        }
        _ => Ok(()),
    }
}

/// Returns the numbers of the locals that these names mean, in order, with repetitions. Leaves out names that mean no
/// local.
pub(crate) fn numbers_of_locals(
    alloc: Global,
    names: &OwnerNames,
    bound: &[&Name],
) -> Result<Vec<usize>, OutOfMemory>
    ensures { IfOk result (λ locals. locals.items ≡ numbers_of (meanings names.now) (map name_seen bound.now)) }
{
    let mut locals = Vec::new(alloc);
    for name in bound {
        add_local(&mut locals, names, name)?;
    }
    Ok(locals)
}
