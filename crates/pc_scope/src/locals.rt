//! The locals of a function, numbered by their order.

ghost use Rattle.std.specs.Prelude.{◌≡◌, map, fold, true, false, OnOk, IfOk};
ghost use Rattle.pc_tree.specs.Tree.{func_of, param_of, member_of, item_of};
ghost use Rattle.pc_tree.specs.Lists.{name_seen};
ghost use Rattle.pc_tree.specs.Stopping.{self_before};
ghost use Rattle.pc_scope.specs.Bindings.{texts, param_names, methods_in, functions_in, classes_in};
ghost use Rattle.pc_scope.specs.Tables.{locals_by, methods_locals};
ghost use Rattle.pc_scope.specs.Internal.WalkViews.{with_new_local, locals_in, methods_texts};

use crate::local_names::Locals;
use pc_source::OutOfMemory;
use pc_tree::{FuncDef, Item, ItemKind, Keys, Member, Name, Param, add_bound};
use std::alloc::Global;

/// Binds `self` as a local of a method.
fn bind_self(locals: &mut Locals, alloc: Global, is_method: bool) -> Result<(), OutOfMemory>
    ensures { OnOk result (locals_in locals.new
        ≡ fold with_new_local (locals_in locals.old) (self_before is_method)) }
{
    if is_method {
        locals.bind(alloc, "self")?;
    }
    Ok(())
}

/// Binds the names of parameters as locals.
fn bind_parameters(locals: &mut Locals, alloc: Global, params: &[Param]) -> Result<(), OutOfMemory>
    ensures { OnOk result (locals_in locals.new
        ≡ fold with_new_local (locals_in locals.old) (texts (param_names (map param_of params.now)))) }
{
    for param in params {
        locals.bind(alloc, param.name.text.as_str())?;
    }
    Ok(())
}

/// Binds names as locals.
fn bind_all(locals: &mut Locals, alloc: Global, names: &[&Name]) -> Result<(), OutOfMemory>
    ensures { OnOk result (locals_in locals.new
        ≡ fold with_new_local (locals_in locals.old) (texts (map name_seen names.now))) }
{
    for name in names {
        locals.bind(alloc, name.text.as_str())?;
    }
    Ok(())
}

/// Binds `self` of a method, the parameters and the names that a body binds as locals.
fn bind_locals(
    locals: &mut Locals,
    alloc: Global,
    is_method: bool,
    params: &[Param],
    names: &[&Name],
) -> Result<(), OutOfMemory>
    ensures { OnOk result (locals_in locals.new ≡ fold with_new_local (fold with_new_local
        (fold with_new_local (locals_in locals.old) (self_before is_method))
        (texts (param_names (map param_of params.now)))) (texts (map name_seen names.now))) }
{
    bind_self(locals, alloc, is_method)?;
    bind_parameters(locals, alloc, params)?;
    bind_all(locals, alloc, names)
}

/// Returns the locals of a function: `self` of a method, the parameters, and the names that its body binds. Language
/// Reference 4.2.1 "Binding of names".
fn locals(alloc: Global, keys: Keys, is_method: bool, def: &FuncDef) -> Result<Locals, OutOfMemory>
    ensures { IfOk result (λ s. locals_in s ≡ locals_by is_method (func_of def.now)) }
{
    let mut names = Vec::new(alloc);
    add_bound(&mut names, &def.body)?;
    let mut locals = Locals::new(alloc, keys, def.params.len(), names.len())?;
    bind_locals(&mut locals, alloc, is_method, &def.params, &names)?;
    Ok(locals)
}

/// Returns the locals of each method of a class, in text order.
fn locals_of_methods(
    alloc: Global,
    keys: Keys,
    members: &[Member],
) -> Result<Vec<Locals>, OutOfMemory>
    ensures { IfOk result (λ ls. map locals_in ls.items
        ≡ map (locals_by true) (methods_in (map member_of members.now))) }
{
    let mut all = Vec::new(alloc);
    for member in members {
        match member {
            Member::Field(_) => {}
            Member::Method(def) => all.push(locals(alloc, keys, true, def)?)?,
        }
    }
    Ok(all)
}

/// Returns the locals of each function of a module, in text order.
pub fn locals_of_functions(
    alloc: Global,
    keys: Keys,
    items: &[Item],
) -> Result<Vec<Locals>, OutOfMemory>
    ensures { IfOk result (λ ls. map locals_in ls.items
        ≡ map (locals_by false) (functions_in (map item_of items.now))) }
{
    let mut all = Vec::new(alloc);
    for item in items {
        match &item.kind {
            ItemKind::Constant(_) => {}
            ItemKind::Class(_) => {}
            ItemKind::Def(def) => all.push(locals(alloc, keys, false, def)?)?,
        }
    }
    Ok(all)
}

/// Returns the locals of each method of each class of a module, in text order.
pub fn locals_of_classes(
    alloc: Global,
    keys: Keys,
    items: &[Item],
) -> Result<Vec<Vec<Locals>>, OutOfMemory>
    ensures { IfOk result (λ ls. map methods_texts ls.items ≡ map methods_locals (classes_in (map item_of items.now))) }
{
    let mut all = Vec::new(alloc);
    for item in items {
        match &item.kind {
            ItemKind::Constant(_) => {}
            ItemKind::Class(class) => all.push(locals_of_methods(alloc, keys, &class.members)?)?,
            ItemKind::Def(_) => {}
        }
    }
    Ok(all)
}
