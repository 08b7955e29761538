//! The names in functions, classes and constants.

ghost use Rattle.std.specs.Prelude.{◌≡◌, ◌++◌, map, OnOk, IfOk};
ghost use Rattle.pc_tree.specs.Tree.{param_of, func_of, class_of, member_of, option_name_of, item_of, module_of};
ghost use Rattle.pc_bindings.specs.Mentions.{in_params, in_def, in_member, in_members, in_base, in_class};
ghost use Rattle.pc_bindings.specs.Mentions.{in_item, in_items, mentions_in};
ghost use Rattle.pc_bindings.specs.Written.{scope_of, mention_of};

use crate::expressions::{add_in_ann, add_in_expr, add_in_option_ann};
use crate::mention::{Mention, Scope, add_name};
use crate::statements::add_in_body;
use pc_source::OutOfMemory;
use pc_tree::{ClassDef, FuncDef, Item, ItemKind, Member, Module, Name, Param};
use std::alloc::Global;

/// Adds the names of parameters, and those in their annotations.
fn add_in_params<'m>(
    mentions: &mut Vec<Mention<'m>>,
    scope: Scope<'m>,
    params: &'m [Param],
) -> Result<(), OutOfMemory>
    ensures { OnOk result (map mention_of mentions.new.items
        ≡ map mention_of mentions.old.items ++ in_params (scope_of scope.entry) (map param_of params.now)) }
{
    for param in params {
        add_name(mentions, scope, &param.name)?;
        add_in_option_ann(mentions, &param.annotation)?;
    }
    Ok(())
}

/// Adds the names in a function or method, other than its own.
fn add_in_def<'m>(
    mentions: &mut Vec<Mention<'m>>,
    scope: Scope<'m>,
    def: &'m FuncDef,
) -> Result<(), OutOfMemory>
    ensures { OnOk result (map mention_of mentions.new.items
        ≡ map mention_of mentions.old.items ++ in_def (scope_of scope.entry) (func_of def.now)) }
{
    add_in_params(mentions, scope, &def.params)?;
    add_in_option_ann(mentions, &def.returns)?;
    add_in_body(mentions, scope, &def.body)
}

/// Adds the names in a member of a class.
fn add_in_member<'m>(
    mentions: &mut Vec<Mention<'m>>,
    class: &'m ClassDef,
    member: &'m Member,
) -> Result<(), OutOfMemory>
    ensures { OnOk result (map mention_of mentions.new.items
        ≡ map mention_of mentions.old.items ++ in_member (class_of class.now) (member_of member.now)) }
{
    match member {
        Member::Field(field) => {
            add_name(mentions, Scope::Class(class), &field.name)?;
            add_in_ann(mentions, &field.annotation)
        }
        Member::Method(def) => {
            add_name(mentions, Scope::Class(class), &def.name)?;
            add_in_def(mentions, Scope::Method(class, def), def)
        }
    }
}

/// Adds the names in members of a class.
fn add_in_members<'m>(
    mentions: &mut Vec<Mention<'m>>,
    class: &'m ClassDef,
    members: &'m [Member],
) -> Result<(), OutOfMemory>
    ensures { OnOk result (map mention_of mentions.new.items
        ≡ map mention_of mentions.old.items ++ in_members (class_of class.now) (map member_of members.now)) }
{
    for member in members {
        add_in_member(mentions, class, member)?;
    }
    Ok(())
}

/// Adds the name of a base, if there is one.
fn add_base<'m>(mentions: &mut Vec<Mention<'m>>, base: &'m Option<Name>) -> Result<(), OutOfMemory>
    ensures { OnOk result (map mention_of mentions.new.items
        ≡ map mention_of mentions.old.items ++ in_base (option_name_of base.now)) }
{
    match base {
        Some(name) => add_name(mentions, Scope::Module, name),
        None => Ok(()),
    }
}

/// Adds the names in a class, other than its own.
fn add_in_class<'m>(mentions: &mut Vec<Mention<'m>>, class: &'m ClassDef) -> Result<(), OutOfMemory>
    ensures { OnOk result (map mention_of mentions.new.items
        ≡ map mention_of mentions.old.items ++ in_class (class_of class.now)) }
{
    add_base(mentions, &class.base)?;
    add_in_members(mentions, class, &class.members)
}

/// Adds the names in an item of a module.
fn add_in_item<'m>(mentions: &mut Vec<Mention<'m>>, item: &'m Item) -> Result<(), OutOfMemory>
    ensures { OnOk result (map mention_of mentions.new.items
        ≡ map mention_of mentions.old.items ++ in_item (item_of item.now)) }
{
    match &item.kind {
        ItemKind::Constant(constant) => {
            add_name(mentions, Scope::Module, &constant.name)?;
            add_in_option_ann(mentions, &constant.annotation)?;
            add_in_expr(mentions, Scope::Module, &constant.value)
        }
        ItemKind::Class(class) => {
            add_name(mentions, Scope::Module, &class.name)?;
            add_in_class(mentions, class)
        }
        ItemKind::Def(def) => {
            add_name(mentions, Scope::Module, &def.name)?;
            add_in_def(mentions, Scope::Function(def), def)
        }
    }
}

/// Adds the names in items of a module.
fn add_in_items<'m>(mentions: &mut Vec<Mention<'m>>, items: &'m [Item]) -> Result<(), OutOfMemory>
    ensures { OnOk result (map mention_of mentions.new.items
        ≡ map mention_of mentions.old.items ++ in_items (map item_of items.now)) }
{
    for item in items {
        add_in_item(mentions, item)?;
    }
    Ok(())
}

/// Returns the names that occur in a module, each with its scope, in text order. The names of arguments by name are
/// left out, and of attributes all but those of `self`.
pub fn mentions<'m>(alloc: Global, module: &'m Module) -> Result<Vec<Mention<'m>>, OutOfMemory>
    ensures { IfOk result (λ v. map mention_of v.items ≡ mentions_in (module_of module.now)) }
{
    let mut mentions = Vec::new(alloc);
    add_in_items(&mut mentions, &module.items)?;
    Ok(mentions)
}
