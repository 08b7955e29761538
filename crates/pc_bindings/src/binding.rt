//! The name that binds a name.

ghost use Rattle.std.specs.Prelude.{◌≡◌, ◌++◌, map, option_map, OnOk, IfOk};
ghost use Rattle.pc_tree.specs.Lists.{name_seen};
ghost use Rattle.pc_tree.specs.Stopping.{name_of_item, name_of_member, name_of_param};
ghost use Rattle.pc_tree.specs.Tree.{param_of, func_of, member_of, item_of, module_of};
ghost use Rattle.pc_bindings.specs.Bindings.{bound_in_function, names_around, first_named, is_receiver, is_unbound};
ghost use Rattle.pc_bindings.specs.Bindings.{binding_of};
ghost use Rattle.pc_bindings.specs.Written.{scope_of, mention_of};

use crate::mention::{Mention, Scope};
use pc_source::{OutOfMemory, is_reserved};
use pc_tree::{FuncDef, Item, Member, Module, Name, Param, add_bound};
use std::alloc::Global;

/// Adds the names that items bind in the module.
fn add_items<'m>(names: &mut Vec<&'m Name>, items: &'m [Item]) -> Result<(), OutOfMemory>
    ensures { OnOk result (map name_seen names.new.items
        ≡ map name_seen names.old.items ++ map name_of_item (map item_of items.now)) }
{
    for item in items {
        names.push(item.name())?;
    }
    Ok(())
}

/// Adds the names that members bind in their class.
fn add_members<'m>(names: &mut Vec<&'m Name>, members: &'m [Member]) -> Result<(), OutOfMemory>
    ensures { OnOk result (map name_seen names.new.items
        ≡ map name_seen names.old.items ++ map name_of_member (map member_of members.now)) }
{
    for member in members {
        names.push(member.name())?;
    }
    Ok(())
}

/// Adds the names of parameters.
fn add_parameters<'m>(names: &mut Vec<&'m Name>, params: &'m [Param]) -> Result<(), OutOfMemory>
    ensures { OnOk result (map name_seen names.new.items
        ≡ map name_seen names.old.items ++ map name_of_param (map param_of params.now)) }
{
    for param in params {
        names.push(&param.name)?;
    }
    Ok(())
}

/// Adds the names that a function binds, as parameters and in its body.
fn add_locals<'m>(names: &mut Vec<&'m Name>, def: &'m FuncDef) -> Result<(), OutOfMemory>
    ensures { OnOk result (map name_seen names.new.items
        ≡ map name_seen names.old.items ++ bound_in_function (func_of def.now)) }
{
    add_parameters(names, &def.params)?;
    add_bound(names, &def.body)
}

/// Adds the names by which a name in this scope may be bound, the nearest scope first.
fn add_around<'m>(
    names: &mut Vec<&'m Name>,
    module: &'m Module,
    scope: Scope<'m>,
) -> Result<(), OutOfMemory>
    ensures { OnOk result (map name_seen names.new.items
        ≡ map name_seen names.old.items ++ names_around (module_of module.now) (scope_of scope.entry)) }
{
    match scope {
        Scope::Module => add_items(names, &module.items),
        Scope::Function(def) => {
            add_locals(names, def)?;
            add_items(names, &module.items)
        }
        Scope::Method(_, def) => {
            add_locals(names, def)?;
            add_items(names, &module.items)
        }
        Scope::Class(class) => add_members(names, &class.members),
    }
}

/// Returns the first of the names with this text.
fn first_named<'m>(names: &[&'m Name], text: &str) -> Option<&'m Name>
    ensures { option_map name_seen result ≡ first_named text.now (map name_seen names.now) }
{
    for name in names {
        if text == name.text.as_str() {
            return Some(*name);
        }
    }
    None
}

/// Returns whether a name in this scope is the `self` of a method.
fn is_receiver(scope: Scope, text: &str) -> bool
    ensures { result ≡ is_receiver (scope_of scope.entry) text.now }
{
    match scope {
        Scope::Module => false,
        Scope::Function(_) => false,
        Scope::Method(_, _) => text == "self",
        Scope::Class(_) => false,
    }
}

/// Returns whether nothing in the tree binds a name: it is reserved, or the `self` of a method.
fn is_unbound(mention: &Mention) -> bool
    ensures { result ≡ is_unbound (mention_of mention.now) }
{
    let text = mention.name.text.as_str();
    is_reserved(text) || is_receiver(mention.scope, text)
}

/// Returns the name that binds a name of a module: the first with its text in the nearest scope that has one, or `None`
/// if there is none. Language Reference 4.2.2 "Resolution of names".
pub fn binding_of<'m>(
    alloc: Global,
    module: &'m Module,
    mention: &Mention<'m>,
) -> Result<Option<&'m Name>, OutOfMemory>
    ensures { IfOk result (λ n. option_map name_seen n ≡ binding_of (module_of module.now) (mention_of mention.now)) }
{
    if is_unbound(mention) {
        return Ok(None);
    }
    let mut names = Vec::new(alloc);
    add_around(&mut names, module, mention.scope)?;
    Ok(first_named(&names, mention.name.text.as_str()))
}
