//! The details of the ends of functions, of tests of types, and of displays.

ghost use Rattle.std.specs.Prelude.{[], ◌∷◌, ◌≡◌, ◌≤◌, All, IfOk, List, OnOk, length};
ghost use Rattle.std.specs.List.{list_any};
ghost use Rattle.std.specs.Option.{option_and_then};
ghost use Rattle.pc_tree.specs.Lists.{entries_of_list, exprs_of_list};
ghost use Rattle.pc_tree.specs.Tree.{expr_of};
ghost use Rattle.pc_types.specs.Boxed.{tree_of, IsGiven};
ghost use Rattle.pc_types.specs.Tree.{Tree};
ghost use Rattle.pc_types.specs.Join.{same_tree};
ghost use Rattle.pc_flow.specs.Narrowing.{first_argument};
ghost use Rattle.pc_detail_facts.specs.Held.{AreFacts, IsGivenLent, ShowsDetail, ShowsOne, body_of, known_held, module_held};
ghost use Rattle.pc_detail_facts.specs.Held.{trees_lent};
ghost use Rattle.pc_type_details.specs.Keys.{first_keys};
ghost use Rattle.pc_detail_rules.specs.Operations.{key_types_here, keys_detail};
ghost use Rattle.pc_detail_rules.specs.Statements.{list_test_detail, no_return_detail, no_test_detail};
ghost use Rattle.pc_detail_rules.specs.Statements.{tested_local};

use pc_detail_facts::{Body, Facts};
use pc_detail_texts::{Detail, RuleFault, TypeFault};
use pc_source::OutOfMemory;
use pc_tree::{Entry, Expr};
use pc_types::{BoxStore, BoxType, TypeStore, is_same};

/// The number of types of keys that a detail names.
const KEYS: usize = 3;

/// Returns whether a type is among others.
fn is_among(types: &[&BoxType], ty: &BoxType) -> bool
    ensures { result ≡ list_any (same_tree (tree_of ty.now)) (trees_lent types.now) }
{
    for other in types {
        if is_same(ty, *other) {
            return true;
        }
    }
    false
}

/// Adds the type of a key, unless it is among the types or there are enough.
fn add_key_type<'t>(types: &mut Vec<&'t BoxType>, ty: &'t BoxType) -> Result<(), OutOfMemory>
    requires ty { IsGiven ty.now }
    requires given { All IsGivenLent types.old.items }
    requires few { length types.old.items ≤ 3 }
    ensures trees { OnOk result ((rest : List Tree) → first_keys (trees_lent types.new.items) rest
        ≡ first_keys (trees_lent types.old.items) (tree_of ty.now ∷ rest)) }
    ensures given { OnOk result (All IsGivenLent types.new.items) }
    ensures few { OnOk result (length types.new.items ≤ 3) }
{
    if types.len() >= KEYS {
        return Ok(());
    }
    if is_among(types, ty) {
        return Ok(());
    }
    types.push(ty)?;
    Ok(())
}

/// Returns the detail of `E21`: the function, and the type that it promises.
pub fn no_return_detail(facts: &Facts<'_, '_>, body: Body<'_>) -> Result<Detail, OutOfMemory>
    requires { AreFacts facts.now }
    ensures { IfOk result (ShowsOne facts.now (no_return_detail (module_held facts.now) (body_of body.entry))) }
{
    let mut found = Vec::new(facts.alloc);
    let mut store = BoxStore::new();
    let returns = &body.function.returns;
    let ty = pc_annotations::read_option(
        &mut store,
        facts.alloc,
        facts.outline,
        &mut found,
        returns,
    )?;
    let name = facts.body_words(body)?;
    let ty = facts.type_words(&ty)?;
    Ok(Detail::Rule(RuleFault::NoReturn(name, ty)))
}

/// Returns the detail of `E25`: the name that the test is for, if it is one.
pub fn no_test_detail(facts: &Facts<'_, '_>, expr: &Expr) -> Result<Detail, OutOfMemory>
    ensures { IfOk result (ShowsOne facts.now (no_test_detail (expr_of expr.now))) }
{
    let name = match expr {
        Expr::Name(name) => Some(facts.words(name.text.as_str())?),
        _ => None,
    };
    Ok(Detail::Rule(RuleFault::NoTest(name)))
}

/// Returns the detail of a local that is tested for a list.
fn tested_local(facts: &Facts<'_, '_>, argument: &Expr) -> Result<Option<Detail>, OutOfMemory>
    requires { AreFacts facts.now }
    ensures { IfOk result (ShowsDetail facts.now
        (tested_local (known_held facts.now) (expr_of argument.now))) }
{
    let Expr::Name(name) = argument else {
        return Ok(None);
    };
    let ty = facts.type_words(facts.type_at(name.place))?;
    let name = facts.words(name.text.as_str())?;
    Ok(Some(Detail::Types(TypeFault::ListTest(name, ty))))
}

/// Returns the detail of the first argument, if it is a local that is tested for a list.
fn first_tested(facts: &Facts<'_, '_>, arguments: &[Expr]) -> Result<Option<Detail>, OutOfMemory>
    requires { AreFacts facts.now }
    ensures { IfOk result (ShowsDetail facts.now (option_and_then (tested_local (known_held facts.now))
        (first_argument (exprs_of_list arguments.now)))) }
{
    match arguments.first() {
        Some(argument) => tested_local(facts, argument),
        None => Ok(None),
    }
}

/// Returns the detail of `A7`: the local that is tested for a list, and its type.
pub fn list_test_detail(facts: &Facts<'_, '_>, expr: &Expr) -> Result<Option<Detail>, OutOfMemory>
    requires { AreFacts facts.now }
    ensures { IfOk result (ShowsDetail facts.now
        (list_test_detail (known_held facts.now) (expr_of expr.now))) }
{
    let Expr::Call { arguments, .. } = expr else {
        return Ok(None);
    };
    first_tested(facts, arguments)
}

/// Returns the first different types of the keys of a dict display.
fn key_types<'m>(facts: &Facts<'m, '_>, entries: &[Entry]) -> Result<Vec<&'m BoxType>, OutOfMemory>
    requires { AreFacts facts.now }
    ensures trees { IfOk result (λ v. trees_lent v.items ≡ first_keys []
        (key_types_here (module_held facts.now) (known_held facts.now) (entries_of_list entries.now))) }
    ensures given { IfOk result (λ v. All IsGivenLent v.items) }
{
    let mut types = Vec::new(facts.alloc);
    for entry in entries {
        add_key_type(&mut types, facts.type_of(&entry.key))?;
    }
    Ok(types)
}

/// Returns the detail of `E22`: the first three different types of the keys of a dict display.
pub fn keys_detail(facts: &Facts<'_, '_>, expr: &Expr) -> Result<Option<Detail>, OutOfMemory>
    requires { AreFacts facts.now }
    ensures { IfOk result (ShowsDetail facts.now
        (keys_detail (module_held facts.now) (known_held facts.now) (expr_of expr.now))) }
{
    let Expr::Dict(_, entries) = expr else {
        return Ok(None);
    };
    let types = key_types(facts, entries)?;
    let texts = facts.all_type_words(&types)?;
    Ok(Some(Detail::Rule(RuleFault::Keys(texts))))
}
