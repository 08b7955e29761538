//! E01: a name that the module or a parameter list binds again. Language Reference 4.2.1 "Binding of names".
ghost use Rattle.std.specs.Prelude.{◌≡◌, ◌++◌, ◌&&◌, not, map, [], OnOk, List, ℕ};
ghost use Rattle.pc_source.specs.ReservedNames.{is_reserved};
ghost use Rattle.pc_tree.specs.declared.code.Code.TheVariants.{E01};
ghost use Rattle.pc_tree.specs.Lists.{name_seen};
ghost use Rattle.pc_tree.specs.Tree.{name_of, param_of, item_of};
ghost use Rattle.pc_tree.specs.Stopping.{is_among, one_if, bound_again, name_of_item, name_of_param, self_before};
ghost use Rattle.pc_tree.specs.Code.{at_code};
ghost use Rattle.pc_tree.specs.Names.{texts_in};

use crate::names::{add_params, names_of};
use indexmap::IndexSet;
use pc_source::{OutOfMemory, is_reserved};
use pc_tree::{Code, Findings, Item, Keys, Name, NameSet, Param, find_if, put};
use std::alloc::Global;

/// Adds E01 for a name if it is bound again and not reserved.
fn find_again(found: &mut Findings, again: bool, name: &Name) -> Result<(), OutOfMemory>
    ensures { OnOk result (found.new.items
        ≡ found.old.items ++ at_code E01
        (one_if (again && not (is_reserved (name_of name.now).text)) (name_of name.now).place)) }
{
    if is_reserved(name.text.as_str()) {
        return Ok(());
    }
    find_if(found, again, Code::E01, name.place)
}

/// Adds E01 for each name that is among those before it and is not reserved.
fn find_bound_again<'m>(
    found: &mut Findings,
    before: &mut NameSet<'m>,
    names: &[&'m Name],
) -> Result<(), OutOfMemory>
    ensures { OnOk result (found.new.items
        ≡ found.old.items ++ at_code E01 (bound_again (texts_in before.old) (map name_seen names.now))) }
{
    for name in names {
        let again = put(before, name.text.as_str())?;
        find_again(found, again, name)?;
    }
    Ok(())
}

/// Adds E01 for each name that the module binds again.
pub fn find_items_again(
    found: &mut Findings,
    alloc: Global,
    keys: Keys,
    items: &[Item],
) -> Result<(), OutOfMemory>
    ensures { OnOk result (found.new.items
        ≡ found.old.items ++ at_code E01 (bound_again [] (map name_of_item (map item_of items.now)))) }
{
    let names = names_of(alloc, items)?;
    let mut before = IndexSet::with_hasher(alloc, keys);
    find_bound_again(found, &mut before, &names)
}

/// Puts `self` before the parameters of a method.
fn put_self(before: &mut NameSet<'_>, is_method: bool) -> Result<(), OutOfMemory>
    ensures { OnOk result ((text : List ℕ)
        → is_among (texts_in before.new) text ≡ is_among (self_before is_method ++ texts_in before.old) text) }
{
    if is_method {
        put(before, "self")?;
    }
    Ok(())
}

/// Most parameters that are each compared with all before them: a set of this few costs more than it saves.
const FEW: usize = 8;

/// Returns whether one of the parameters has this name.
fn is_named(params: &[Param], name: &str) -> bool
    ensures { result ≡ is_among (map (λ p. (name_of_param (param_of p)).text) params.now) name.now }
{
    for param in params {
        if param.name.text.as_str() == name {
            return true;
        }
    }
    false
}

/// Returns whether a name is that of a parameter or the `self` of a method.
fn is_bound(is_method: bool, params: &[Param], name: &str) -> bool
    ensures { result
        ≡ is_among (map (λ p. (name_of_param (param_of p)).text) params.now ++ self_before is_method) name.now }
{
    is_named(params, name) || (is_method && name == "self")
}

/// Adds E01 for each parameter named like an earlier one or like the `self` of a method, by comparing each with all
/// before it.
fn find_few_again(
    found: &mut Findings,
    is_method: bool,
    params: &[Param],
) -> Result<(), OutOfMemory>
    ensures { OnOk result (found.new.items
        ≡ found.old.items ++ at_code E01
        (bound_again (self_before is_method) (map name_of_param (map param_of params.now)))) }
{
    for at in 0..params.len() {
        let name = &params[at].name;
        let again = is_bound(is_method, &params[..at], name.text.as_str());
        find_again(found, again, name)?;
    }
    Ok(())
}

/// Adds E01 for each name that is among those before it or is the `self` of a method, unless it is reserved.
fn find_named_again(
    found: &mut Findings,
    alloc: Global,
    keys: Keys,
    is_method: bool,
    names: &[&Name],
) -> Result<(), OutOfMemory>
    ensures { OnOk result (found.new.items
        ≡ found.old.items ++ at_code E01 (bound_again (self_before is_method) (map name_seen names.now))) }
{
    let mut before = IndexSet::with_hasher(alloc, keys);
    put_self(&mut before, is_method)?;
    find_bound_again(found, &mut before, names)
}

/// Adds E01 for each parameter named like an earlier one or like the `self` of a method.
pub fn find_parameters_again(
    found: &mut Findings,
    alloc: Global,
    keys: Keys,
    is_method: bool,
    params: &[Param],
) -> Result<(), OutOfMemory>
    ensures { OnOk result (found.new.items
        ≡ found.old.items ++ at_code E01
        (bound_again (self_before is_method) (map name_of_param (map param_of params.now)))) }
{
    if params.len() <= FEW {
        return find_few_again(found, is_method, params);
    }
    let mut names = Vec::new(alloc);
    add_params(&mut names, params)?;
    find_named_again(found, alloc, keys, is_method, &names)
}
