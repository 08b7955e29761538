//! E28: there is no function `main` without parameters for the last line to call. Own rule of the profile.
ghost use Rattle.std.specs.Prelude.{◌≡◌, ◌++◌, map, codes, OnOk};
ghost use Rattle.pc_tree.specs.declared.code.Code.TheVariants.{E28};
ghost use Rattle.pc_tree.specs.Tree.{item_of, module_of};
ghost use Rattle.pc_tree.specs.Stopping.{is_plain_def, no_main};
ghost use Rattle.pc_tree.specs.Code.{at_code};

use pc_source::OutOfMemory;
use pc_tree::{Code, Findings, Item, ItemKind, Module, find_if};

/// Returns whether the first item named `main` is a function without parameters.
fn has_main(items: &[Item]) -> bool
    ensures { result ≡ is_plain_def (codes "main") (map item_of items.now) }
{
    for item in items {
        if item.name().text.as_str() == "main" {
            return match &item.kind {
                ItemKind::Constant(_) => false,
                ItemKind::Class(_) => false,
                ItemKind::Def(def) => def.params.is_empty(),
            };
        }
    }
    false
}

/// Adds E28 at the last line unless `main` is a function without parameters.
pub fn find_no_main(found: &mut Findings, program: &Module) -> Result<(), OutOfMemory>
    ensures { OnOk result (found.new.items ≡ found.old.items ++ at_code E28 (no_main (module_of program.now))) }
{
    find_if(found, !has_main(&program.items), Code::E28, program.main)
}
