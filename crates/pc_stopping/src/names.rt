//! The names that items and parameters bind.
ghost use Rattle.std.specs.Prelude.{◌≡◌, ◌++◌, map, OnOk, IfOk};
ghost use Rattle.pc_tree.specs.Tree.{param_of, item_of};
ghost use Rattle.pc_tree.specs.Lists.{name_seen};
ghost use Rattle.pc_tree.specs.Stopping.{name_of_item, name_of_param};

use pc_source::OutOfMemory;
use pc_tree::{Item, Name, Param};
use std::alloc::Global;

/// Returns the names of items, in text order.
pub fn names_of<'m>(alloc: Global, items: &'m [Item]) -> Result<Vec<&'m Name>, OutOfMemory>
    ensures { IfOk result (λ ns. map name_seen ns.items ≡ map name_of_item (map item_of items.now)) }
{
    let mut names = Vec::new(alloc);
    for item in items {
        names.push(item.name())?;
    }
    Ok(names)
}

/// Appends the names of parameters.
pub fn add_params<'m>(names: &mut Vec<&'m Name>, params: &'m [Param]) -> Result<(), OutOfMemory>
    ensures { OnOk result (map name_seen names.new.items
        ≡ map name_seen names.old.items ++ map name_of_param (map param_of params.now)) }
{
    for param in params {
        names.push(&param.name)?;
    }
    Ok(())
}
