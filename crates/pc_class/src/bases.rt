//! E07: a base that is no earlier class.
#![tactic(auto, using(pc_tree::proofs::Finds::at_both, pc_tree::proofs::Joints::joined))]

ghost use Rattle.std.specs.Prelude.{◌≡◌, ◌++◌, map, OnOk};
ghost use Rattle.pc_tree.specs.declared.code.Code.TheVariants.{E07};
ghost use Rattle.pc_tree.specs.Tree.{item_of, option_name_of};
ghost use Rattle.pc_scope.specs.Bindings.{classes_in};
ghost use Rattle.pc_tree.specs.Code.{at_code};
ghost use Rattle.pc_class.specs.Entries.{missing_base, missing_bases};

use pc_source::OutOfMemory;
use pc_tree::{Code, Finding, Findings, Item, ItemKind, Name};
use pc_types::Parents;

/// Adds E07 at the name of a base if the class has no base.
fn find_missing_base(
    found: &mut Findings,
    base: Option<usize>,
    name: &Option<Name>,
) -> Result<(), OutOfMemory>
    ensures { OnOk result (found.new.items
        ≡ found.old.items ++ at_code E07 (missing_base base (option_name_of name.now))) }
{
    if base.is_some() {
        return Ok(());
    }
    match name {
        None => Ok(()),
        Some(name) => {
            found.push(Finding {
                place: name.place,
                code: Code::E07,
            })?;
            Ok(())
        }
    }
}

/// Adds E07 at each name of a base that is no earlier class. Own rule of the profile.
pub fn find_missing_bases(
    found: &mut Findings,
    parents: &Parents,
    items: &[Item],
) -> Result<(), OutOfMemory>
    ensures { OnOk result (found.new.items
        ≡ found.old.items ++ at_code E07 (missing_bases parents.now 0 (classes_in (map item_of items.now)))) }
{
    let mut class = 0;
    for item in items {
        match &item.kind {
            ItemKind::Constant(_) => {}
            ItemKind::Class(definition) => {
                find_missing_base(found, parents.base(class), &definition.base)?;
                class += 1;
            }
            ItemKind::Def(_) => {}
        }
    }
    Ok(())
}
