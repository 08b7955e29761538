//! E29: a reserved name that is bound, or a field named `mro`. Own rule of the profile.
#![tactic(auto, using(pc_tree::proofs::Finds::at_both, pc_tree::proofs::Joints::joined))]

ghost use Rattle.std.specs.Prelude.{◌≡◌, ◌++◌, ◌∷◌, [], map, OnOk};
ghost use Rattle.pc_tree.specs.declared.code.Code.TheVariants.{E29};
ghost use Rattle.pc_tree.specs.Lists.{name_seen};
ghost use Rattle.pc_tree.specs.Tree.{func_of, member_of, item_of};
ghost use Rattle.pc_tree.specs.Stopping.{name_of_item, reserved_among, reserved_members, reserved_in_classes};
ghost use Rattle.pc_tree.specs.Stopping.{reserved_in_def, is_reserved_member};
ghost use Rattle.pc_tree.specs.Code.{at_code};

use crate::names::{add_params, names_of};
use pc_source::{OutOfMemory, is_reserved};
use pc_tree::{Code, Findings, FuncDef, Item, ItemKind, Member, Name, add_bound, find_if};
use std::alloc::Global;

/// Adds E29 for each reserved name among bound names.
fn find_reserved(found: &mut Findings, names: &[&Name]) -> Result<(), OutOfMemory>
    ensures { OnOk result (found.new.items ≡ found.old.items
        ++ at_code E29 (reserved_among (map name_seen names.now))) }
{
    for name in names {
        find_if(
            found,
            is_reserved(name.text.as_str()),
            Code::E29,
            name.place,
        )?;
    }
    Ok(())
}

/// Adds E29 for each reserved name that an item of the module binds.
pub fn find_reserved_items(
    found: &mut Findings,
    alloc: Global,
    items: &[Item],
) -> Result<(), OutOfMemory>
    ensures { OnOk result (found.new.items
        ≡ found.old.items ++ at_code E29 (reserved_among (map name_of_item (map item_of items.now)))) }
{
    let names = names_of(alloc, items)?;
    find_reserved(found, &names)
}

/// Returns whether a member has a reserved name or is a field named `mro`.
pub fn has_reserved_name(member: &Member) -> bool
    ensures { result ≡ is_reserved_member (member_of member.now) }
{
    match member {
        Member::Field(field) => {
            let text = field.name.text.as_str();
            is_reserved(text) || text == "mro"
        }
        Member::Method(def) => is_reserved(def.name.text.as_str()),
    }
}

/// Adds E29 for each member of a class that has a reserved name or is a field named `mro`.
fn find_reserved_members(found: &mut Findings, members: &[Member]) -> Result<(), OutOfMemory>
    ensures { OnOk result (found.new.items
        ≡ found.old.items ++ at_code E29 (reserved_members (map member_of members.now))) }
{
    for member in members {
        find_if(
            found,
            has_reserved_name(member),
            Code::E29,
            member.name().place,
        )?;
    }
    Ok(())
}

/// Adds E29 for each member of the module's classes that has a reserved name or is a field named `mro`.
pub fn find_reserved_in_classes(found: &mut Findings, items: &[Item]) -> Result<(), OutOfMemory>
    ensures { OnOk result (found.new.items
        ≡ found.old.items ++ at_code E29 (reserved_in_classes (map item_of items.now))) }
{
    for item in items {
        match &item.kind {
            ItemKind::Constant(_) => {}
            ItemKind::Class(class) => find_reserved_members(found, &class.members)?,
            ItemKind::Def(_) => {}
        }
    }
    Ok(())
}

/// Adds E29 for each reserved name that a function binds, as a parameter or in its body.
pub fn find_reserved_names(
    found: &mut Findings,
    alloc: Global,
    def: &FuncDef,
) -> Result<(), OutOfMemory>
    ensures { OnOk result (found.new.items ≡ found.old.items ++ at_code E29 (reserved_in_def (func_of def.now))) }
{
    let mut names = Vec::new(alloc);
    add_params(&mut names, &def.params)?;
    add_bound(&mut names, &def.body)?;
    find_reserved(found, &names)
}
