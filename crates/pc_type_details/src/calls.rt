//! The details of calls.

ghost use Rattle.std.specs.Prelude.{◌≡◌, ℕ, IfOk, List, Some, codes, if◌then◌else◌, option_map};
ghost use Rattle.pc_tree.specs.Lists.{exprs_of_list};
ghost use Rattle.pc_tree.specs.Tree.{expr_of};
ghost use Rattle.pc_scope.specs.Expressions.{is_named};
ghost use Rattle.pc_scope.specs.declared.resolution.NameMeaning.{NameMeaning as MeaningOf};
ghost use Rattle.pc_scope.specs.Resolution.{resolve};
ghost use Rattle.pc_detail_texts.specs.Details as detail;
ghost use Rattle.pc_types.specs.Tree.{Any};
ghost use Rattle.pc_calls.specs.JudgedCalls.{given_with};
ghost use Rattle.pc_detail_facts.specs.Callees.{IsHeldCalled, called_of};
ghost use Rattle.pc_detail_rules.specs.Calls.{called_misfit};
ghost use Rattle.pc_detail_rules.specs.Calls.{any_call_detail, builtin_detail, call_detail, calls_length, length_of_first};
ghost use Rattle.pc_detail_rules.specs.Explains.{loop_detail};
ghost use Rattle.pc_detail_facts.specs.Held.{AreFacts, ShowsDetail, known_held, module_held};

use crate::given::misfit;
use crate::operations::{ItemOperation, iterate_detail, without};
use pc_calls::Given;
use pc_calls::given::given;
use pc_detail_facts::{CallTarget, Facts, OwnedExpr, callees_of};
use pc_detail_texts::{Callable, Detail, Misfit, RuleFault, TypeFault};
use pc_scope::{Builtin, NameMeaning, Owner};
use pc_source::OutOfMemory;
use pc_tree::Expr;

/// Returns what is called with its misfit, if it has one.
fn misfit_detail<'m>(
    facts: &Facts<'m, '_>,
    called: CallTarget<'m>,
    given: &Given<'m>,
) -> Result<Option<Detail>, OutOfMemory>
    requires facts { AreFacts facts.now }
    requires held { IsHeldCalled called }
    ensures { IfOk result (ShowsDetail facts.now (option_map
        (detail.call (called_of facts.now called.entry).what)
        (called_misfit (given_with given.now) (called_of facts.now called.entry)))) }
{
    match misfit(facts, called, given)? {
        Some(misfit) => {
            let what = called.shown(facts)?;
            Ok(Some(Detail::Types(TypeFault::Call(what, misfit))))
        }
        None => Ok(None),
    }
}

/// Returns the detail of `E14`: what is called and the first misfit, of the first member that has one.
pub fn call_detail<'m>(
    facts: &Facts<'m, '_>,
    owned: OwnedExpr<'m>,
) -> Result<Option<Detail>, OutOfMemory>
    requires { AreFacts facts.now }
    ensures { IfOk result (ShowsDetail facts.now (call_detail (module_held facts.now) (known_held facts.now)
        (resolve (module_held facts.now) owned.entry.owner) (expr_of owned.entry.expr.now))) }
{
    let Expr::Call {
        callee,
        arguments,
        keywords,
        ..
    } = owned.expr
    else {
        return Ok(None);
    };
    let given = given(facts.alloc, facts.outline.tree.keys, arguments, keywords)?;
    let callees = callees_of(facts, owned.owner, given.positional, callee)?;
    for called in &callees {
        let detail = misfit_detail(facts, *called, &given)?;
        if detail.is_some() {
            return Ok(detail);
        }
    }
    Ok(None)
}

/// Returns whether a callee is a name that means `len`.
fn calls_length(facts: &Facts<'_, '_>, owner: Owner, callee: &Expr) -> bool
    requires { AreFacts facts.now }
    ensures { result ≡ calls_length (module_held facts.now) (known_held facts.now) (resolve (module_held facts.now) owner)
        (expr_of callee.now) }
{
    match callee {
        Expr::Name(name) => {
            let meaning = facts.outline.scopes.resolve(owner, name.text.as_str());
            matches!(meaning, NameMeaning::Builtin(Builtin::Len))
        }
        _ => false,
    }
}

/// Returns the detail of the first argument of `len`: its type, and its members without a length.
fn length_detail(facts: &Facts<'_, '_>, arguments: &[Expr]) -> Result<Option<Detail>, OutOfMemory>
    requires { AreFacts facts.now }
    ensures { (names : List ℕ → MeaningOf) → IfOk result (ShowsDetail facts.now
        (length_of_first (module_held facts.now) (known_held facts.now) names (exprs_of_list arguments.now))) }
{
    match arguments.first() {
        Some(operand) => {
            let of = without(facts, ItemOperation::Length, facts.type_of(operand))?;
            Ok(Some(Detail::Types(TypeFault::Length(of))))
        }
        None => Ok(None),
    }
}

/// Returns the detail of `len`, or of `range` elsewhere than in the head of a loop, by what is called.
fn builtin_of(
    facts: &Facts<'_, '_>,
    owner: Owner,
    callee: &Expr,
    arguments: &[Expr],
) -> Result<Option<Detail>, OutOfMemory>
    requires { AreFacts facts.now }
    ensures { IfOk result (ShowsDetail facts.now (if calls_length (module_held facts.now) (known_held facts.now)
        (resolve (module_held facts.now) owner) (expr_of callee.now)
        then length_of_first (module_held facts.now) (known_held facts.now) (resolve (module_held facts.now) owner)
        (exprs_of_list arguments.now)
        else Some detail.range_elsewhere)) }
{
    if calls_length(facts, owner, callee) {
        return length_detail(facts, arguments);
    }
    Ok(Some(Detail::Rule(RuleFault::RangeElsewhere)))
}

/// Returns the detail of `E27`: the operand of `len`, or `range` elsewhere than in the head of a loop.
pub fn builtin_detail<'m>(
    facts: &Facts<'m, '_>,
    owned: OwnedExpr<'m>,
) -> Result<Option<Detail>, OutOfMemory>
    requires { AreFacts facts.now }
    ensures { IfOk result (ShowsDetail facts.now (builtin_detail (module_held facts.now) (known_held facts.now)
        (resolve (module_held facts.now) owned.entry.owner) (expr_of owned.entry.expr.now))) }
{
    let Expr::Call {
        callee,
        arguments,
        ..
    } = owned.expr
    else {
        return Ok(None);
    };
    builtin_of(facts, owned.owner, callee, arguments)
}

/// Returns the detail of `len`, or of a value of type `Any` that is called, by what is called.
fn any_call_of(
    facts: &Facts<'_, '_>,
    owner: Owner,
    callee: &Expr,
    arguments: &[Expr],
) -> Result<Option<Detail>, OutOfMemory>
    requires { AreFacts facts.now }
    ensures { IfOk result (ShowsDetail facts.now (if calls_length (module_held facts.now) (known_held facts.now)
        (resolve (module_held facts.now) owner) (expr_of callee.now)
        then length_of_first (module_held facts.now) (known_held facts.now) (resolve (module_held facts.now) owner)
        (exprs_of_list arguments.now)
        else Some (detail.call (detail.called_value Any) detail.not_callable))) }
{
    if calls_length(facts, owner, callee) {
        return length_detail(facts, arguments);
    }
    let what = Callable::Value(facts.words("Any")?);
    Ok(Some(Detail::Types(TypeFault::Call(what, Misfit::NotCallable))))
}

/// Returns the detail of `A6`: the operand of `len`, or the value of type `Any` that is called.
pub fn any_call_detail<'m>(
    facts: &Facts<'m, '_>,
    owned: OwnedExpr<'m>,
) -> Result<Option<Detail>, OutOfMemory>
    requires { AreFacts facts.now }
    ensures { IfOk result (ShowsDetail facts.now (any_call_detail (module_held facts.now) (known_held facts.now)
        (resolve (module_held facts.now) owned.entry.owner) (expr_of owned.entry.expr.now))) }
{
    let Expr::Call {
        callee,
        arguments,
        ..
    } = owned.expr
    else {
        return Ok(None);
    };
    any_call_of(facts, owned.owner, callee, arguments)
}

/// Returns the detail of `A5` and `E18` at an iterable: the misfit of a call of `range`, or the type of the
/// iterable.
pub fn loop_detail<'m>(facts: &Facts<'m, '_>, expr: &'m Expr) -> Result<Option<Detail>, OutOfMemory>
    requires { AreFacts facts.now }
    ensures { IfOk result (ShowsDetail facts.now (loop_detail (module_held facts.now) (known_held facts.now) (expr_of expr.now))) }
{
    let Expr::Call {
        callee,
        arguments,
        keywords,
        ..
    } = expr
    else {
        return Ok(Some(iterate_detail(facts, expr)?));
    };
    if !is_range(callee) {
        return Ok(Some(iterate_detail(facts, expr)?));
    }
    let given = given(facts.alloc, facts.outline.tree.keys, arguments, keywords)?;
    match misfit(facts, CallTarget::Builtin("range", 1, true), &given)? {
        Some(misfit) => Ok(Some(Detail::Types(TypeFault::IterateRange(misfit)))),
        None => Ok(None),
    }
}

/// Returns whether an expression is the name `range`.
fn is_range(callee: &Expr) -> bool
    ensures { result ≡ is_named (codes "range") (expr_of callee.now) }
{
    match callee {
        Expr::Name(name) => "range" == name.text.as_str(),
        _ => false,
    }
}
