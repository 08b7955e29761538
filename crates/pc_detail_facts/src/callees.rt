//! The targets of a call, one for each member of the callee's type.

ghost use Rattle.std.specs.Prelude.{◌≡◌, ◌++◌, ◌∷◌, [], All, IfOk, OnOk, flat_map, map};
ghost use Rattle.pc_tree.specs.Tree.{expr_of};
ghost use Rattle.pc_scope.specs.Resolution.{resolve};
ghost use Rattle.pc_types.specs.Boxed.{tree_of, IsGiven};
ghost use Rattle.pc_types.specs.Shape.{members};
ghost use Rattle.pc_class.specs.Facts.{class_facts_at, classes_of, field_by_name, method_by_name};
ghost use Rattle.pc_detail_facts.specs.Callees.{IsHeldCalled, called_of};
ghost use Rattle.pc_detail_facts.specs.declared.facts.Facts.{Facts as FactsOf};
ghost use Rattle.pc_detail_rules.specs.Calls.{builtin_callees, called_on, callees_of, member_called, named_callees};
ghost use Rattle.pc_detail_rules.specs.Calls.{value_called};
ghost use Rattle.pc_detail_facts.specs.Held.{AreFacts, known_held, module_held};

use crate::called::CallTarget;
use crate::facts::{Facts, members_of_type};
use pc_scope::{Builtin, NameMeaning, Owner};
use pc_source::OutOfMemory;
use pc_tree::Expr;
use pc_types::BoxType;

/// Adds what is called.
fn add_one<'c>(called: &mut Vec<CallTarget<'c>>, target: CallTarget<'c>) -> Result<(), OutOfMemory>
    requires held { All IsHeldCalled called.old.items }
    requires one { IsHeldCalled target }
    ensures called { OnOk result ((facts : FactsOf) → map (called_of facts) called.new.items
        ≡ map (called_of facts) called.old.items ++ called_of facts target.entry ∷ []) }
    ensures held { OnOk result (All IsHeldCalled called.new.items) }
{
    called.push(target)?;
    Ok(())
}

/// Adds a value of this type, called; none of type `Any`, which is no error.
fn add_value<'c>(called: &mut Vec<CallTarget<'c>>, ty: &'c BoxType) -> Result<(), OutOfMemory>
    requires ty { IsGiven ty.now }
    requires held { All IsHeldCalled called.old.items }
    ensures called { OnOk result ((facts : FactsOf) → map (called_of facts) called.new.items
        ≡ map (called_of facts) called.old.items ++ value_called (tree_of ty.now)) }
    ensures held { OnOk result (All IsHeldCalled called.new.items) }
{
    match ty {
        BoxType::Any => Ok(()),
        _ => add_one(called, CallTarget::Value(ty)),
    }
}

/// Adds a value of each member of a type, called; none of type `Any`, which is no error.
fn add_values<'c>(
    facts: &Facts<'c, '_>,
    called: &mut Vec<CallTarget<'c>>,
    ty: &'c BoxType,
) -> Result<(), OutOfMemory>
    requires ty { IsGiven ty.now }
    requires held { All IsHeldCalled called.old.items }
    ensures called { OnOk result (map (called_of facts.now) called.new.items
        ≡ map (called_of facts.now) called.old.items ++ flat_map value_called (members (tree_of ty.now))) }
    ensures held { OnOk result (All IsHeldCalled called.new.items) }
{
    let members = members_of_type(facts.alloc, ty)?;
    for member in &members {
        add_value(called, *member)?;
    }
    Ok(())
}

/// Adds the method of this name of an instance, or else its field, whose value is called.
fn add_member<'c>(
    facts: &Facts<'c, '_>,
    called: &mut Vec<CallTarget<'c>>,
    class: usize,
    name: &str,
) -> Result<(), OutOfMemory>
    requires facts { AreFacts facts.now }
    requires held { All IsHeldCalled called.old.items }
    ensures called { OnOk result (map (called_of facts.now) called.new.items
        ≡ map (called_of facts.now) called.old.items ++ member_called (module_held facts.now)
        (method_by_name (class_facts_at (classes_of (module_held facts.now)) class).methods name.now)
        (field_by_name (class_facts_at (classes_of (module_held facts.now)) class).fields name.now)) }
    ensures held { OnOk result (All IsHeldCalled called.new.items) }
{
    if let Some(method) = facts.method_named(class, name) {
        add_one(called, CallTarget::Method(method))?;
        return Ok(());
    }
    match facts.field_named(class, name) {
        Some(field) => add_values(facts, called, &field.ty),
        None => Ok(()),
    }
}

/// Adds what `e.m` calls on one member of the type of `e`.
fn add_called_on<'c>(
    facts: &Facts<'c, '_>,
    called: &mut Vec<CallTarget<'c>>,
    member: &'c BoxType,
    name: &'c str,
) -> Result<(), OutOfMemory>
    requires facts { AreFacts facts.now }
    requires member { IsGiven member.now }
    requires held { All IsHeldCalled called.old.items }
    ensures called { OnOk result (map (called_of facts.now) called.new.items
        ≡ map (called_of facts.now) called.old.items ++ called_on (module_held facts.now) name.now
        (tree_of member.now)) }
    ensures held { OnOk result (All IsHeldCalled called.new.items) }
{
    match member {
        BoxType::Class(class) => add_member(facts, called, *class, name),
        BoxType::List(item) => match name {
            "append" => Ok(add_one(
                called,
                CallTarget::Member(member, name, Some(item.as_ref())),
            )?),
            "pop" => Ok(add_one(called, CallTarget::Member(member, name, None))?),
            _ => Ok(()),
        },
        BoxType::Dict(key, _) => match name {
            "get" => Ok(add_one(called, CallTarget::Member(member, name, Some(key.as_ref())))?),
            _ => Ok(()),
        },
        _ => Ok(()),
    }
}

/// Adds what `e.m` calls on each member of the type of `e`.
fn add_called_on_each<'c>(
    facts: &Facts<'c, '_>,
    called: &mut Vec<CallTarget<'c>>,
    ty: &'c BoxType,
    name: &'c str,
) -> Result<(), OutOfMemory>
    requires facts { AreFacts facts.now }
    requires ty { IsGiven ty.now }
    requires held { All IsHeldCalled called.old.items }
    ensures called { OnOk result (map (called_of facts.now) called.new.items
        ≡ map (called_of facts.now) called.old.items ++ flat_map (called_on (module_held facts.now) name.now)
        (members (tree_of ty.now))) }
    ensures held { OnOk result (All IsHeldCalled called.new.items) }
{
    let members = members_of_type(facts.alloc, ty)?;
    for member in &members {
        add_called_on(facts, called, *member, name)?;
    }
    Ok(())
}

/// Adds a built-in, called: `print` takes any number of arguments, so here as many as it is given.
fn add_builtin<'c>(
    called: &mut Vec<CallTarget<'c>>,
    given: usize,
    builtin: Builtin,
) -> Result<(), OutOfMemory>
    requires held { All IsHeldCalled called.old.items }
    ensures called { OnOk result ((facts : FactsOf) → map (called_of facts) called.new.items
        ≡ map (called_of facts) called.old.items ++ builtin_callees given builtin) }
    ensures held { OnOk result (All IsHeldCalled called.new.items) }
{
    match builtin {
        Builtin::Print => Ok(add_one(called, CallTarget::Builtin("print", given, false))?),
        Builtin::Str => Ok(add_one(called, CallTarget::Builtin("str", 1, false))?),
        Builtin::Len => Ok(add_one(called, CallTarget::Builtin("len", 1, false))?),
        Builtin::IsInstance => Ok(add_one(called, CallTarget::Builtin("isinstance", 2, false))?),
        Builtin::Range => Ok(add_one(called, CallTarget::Builtin("range", 1, true))?),
        _ => Ok(()),
    }
}

/// Adds what a name of this meaning calls: a function, a class, a built-in, or each member of a value's type.
fn add_named<'c>(
    facts: &Facts<'c, '_>,
    called: &mut Vec<CallTarget<'c>>,
    given: usize,
    ty: &'c BoxType,
    meaning: NameMeaning,
) -> Result<(), OutOfMemory>
    requires facts { AreFacts facts.now }
    requires ty { IsGiven ty.now }
    requires held { All IsHeldCalled called.old.items }
    ensures called { OnOk result (map (called_of facts.now) called.new.items
        ≡ map (called_of facts.now) called.old.items ++ named_callees (module_held facts.now) given (tree_of ty.now)
        meaning) }
    ensures held { OnOk result (All IsHeldCalled called.new.items) }
{
    match meaning {
        NameMeaning::Func(number) => match facts.function_at(number) {
            Some(def) => Ok(add_one(called, CallTarget::Function(def))?),
            None => Ok(()),
        },
        NameMeaning::Class(class) => Ok(add_one(called, CallTarget::Class(class))?),
        NameMeaning::Builtin(builtin) => Ok(add_builtin(called, given, builtin)?),
        NameMeaning::Local(_) | NameMeaning::Const(_) | NameMeaning::None => {
            add_values(facts, called, ty)
        }
    }
}

/// Returns what a callee calls in a function or method, member by member, with so many arguments by position.
pub fn callees_of<'c>(
    facts: &Facts<'c, '_>,
    owner: Owner,
    given: usize,
    callee: &'c Expr,
) -> Result<Vec<CallTarget<'c>>, OutOfMemory>
    requires { AreFacts facts.now }
    ensures called { IfOk result (λ v. map (called_of facts.now) v.items
        ≡ callees_of (module_held facts.now) (known_held facts.now) (resolve (module_held facts.now) owner) given
        (expr_of callee.now)) }
    ensures held { IfOk result (λ v. All IsHeldCalled v.items) }
{
    let mut called = Vec::new(facts.alloc);
    match callee {
        Expr::Name(name) => {
            let meaning = facts.outline.scopes.resolve(owner, name.text.as_str());
            let ty = facts.type_at(name.place);
            add_named(facts, &mut called, given, ty, meaning)?;
            Ok(called)
        }
        Expr::Attribute { object, name, .. } => {
            let ty = facts.type_at(object.place());
            add_called_on_each(facts, &mut called, ty, name.text.as_str())?;
            Ok(called)
        }
        _ => {
            add_values(facts, &mut called, facts.type_at(callee.place()))?;
            Ok(called)
        }
    }
}
