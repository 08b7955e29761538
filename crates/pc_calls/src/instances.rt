//! Calls of `isinstance`: the label, and the code at the second argument.

ghost use Rattle.std.specs.Prelude.{◌≡◌, ◌∷◌, [], IfOk, if◌then◌else◌};
ghost use Rattle.pc_tree.specs.declared.code.Code.TheVariants.{A7};
ghost use Rattle.pc_tree.specs.Lists.{exprs_of_list};
ghost use Rattle.pc_types.specs.Store.{KeepsTypes};
ghost use Rattle.pc_flow.specs.Narrowing.{first_argument, second_argument, local_of_argument, test_of_argument};
ghost use Rattle.pc_flow.specs.Stored.{HasEach, env_of};
ghost use Rattle.pc_flow.specs.Tests.{option_tested};
ghost use Rattle.pc_rules.specs.Calls.{test_codes, test_label};
ghost use Rattle.pc_rules.specs.Computed.Standing.{context_with, MeansLabel};
ghost use Rattle.pc_calls.specs.JudgedCalls.{rule_of, second_code_of};
ghost use Rattle.pc_flow.specs.Naming.{meanings};

use crate::call_offers::CallRule;
use crate::calling::has_object_or_any;
use pc_flow::{Env, OwnerNames, Test, local_named, test_of};
use pc_rules::{ExprContext, Label};
use pc_source::OutOfMemory;
use pc_tree::{Code, Expr};
use pc_types::TypeStore;
use std::alloc::Global;

/// Returns the test that the second argument of an instance test asks for, `None` if it names no type that can be
/// tested.
fn tested(names: &OwnerNames, arguments: &[Expr]) -> Option<Test>
    ensures { option_tested result
        ≡ test_of_argument (meanings names.now) (second_argument (exprs_of_list arguments.now)) }
{
    match arguments {
        [] => None,
        [_] => None,
        [_, kind, ..] => test_of(names, kind),
    }
}

/// Returns the local that the first argument names, if it is the name of one.
fn first_local(names: &OwnerNames, arguments: &[Expr]) -> Option<usize>
    ensures { result ≡ local_of_argument (meanings names.now) (first_argument (exprs_of_list arguments.now)) }
{
    match arguments {
        [] => None,
        [first, ..] => local_named(names, first),
    }
}

/// Returns whether a local whose current type has a member `Any` or `object` is tested for a list: A7. Own rule of the
/// profile.
fn is_unsure_test<S: TypeStore>(
    store: &S,
    alloc: Global,
    names: &OwnerNames,
    env: &Env<S::Ty>,
    arguments: &[Expr],
) -> Result<bool, OutOfMemory>
    requires { HasEach (S.has store.now) env.now }
    ensures { IfOk result (λ b. (if b then A7 ∷ [] else [])
        ≡ test_codes (env_of S.tree env.now)
        (local_of_argument (meanings names.now) (first_argument (exprs_of_list arguments.now)))
        (test_of_argument (meanings names.now) (second_argument (exprs_of_list arguments.now)))) }
{
    match tested(names, arguments) {
        Some(Test::List) => {}
        _ => return Ok(false),
    }
    match first_local(names, arguments) {
        Some(local) => match env.current(local) {
            Some(ty) => has_object_or_any(store, alloc, ty),
            None => Ok(false),
        },
        None => Ok(false),
    }
}

/// Returns the label of an instance test: `bool`, with A7 if the test is a dynamic place. Library reference, "Built-in
/// Functions".
pub fn test_label<S: TypeStore>(
    store: &mut S,
    alloc: Global,
    context: &ExprContext<'_, S::Ty>,
    env: &Env<S::Ty>,
    arguments: &[Expr],
) -> Result<Label<S::Ty>, OutOfMemory>
    requires { HasEach (S.has store.old) env.now }
    ensures label { IfOk result
        (λ l. MeansLabel S.has S.tree store.new l
        (test_label (context_with S.tree context.now) (env_of S.tree env.now) (exprs_of_list arguments.now))) }
    ensures kept { KeepsTypes S.has store.old store.new }
{
    let mut codes = Vec::new(alloc);
    if is_unsure_test(store, alloc, context.names, env, arguments)? {
        codes.push(Code::A7)?;
    }
    let ty = store.bool(alloc)?;
    Ok(Label { ty, codes })
}

/// Returns the code at the second argument of a call, which only an instance test has: E25 if the argument names no
/// test, none if it is E03 (`early`). Own rule of the profile.
pub fn second_code(
    names: &OwnerNames,
    rule: CallRule,
    arguments: &[Expr],
    early: bool,
) -> Option<Code>
    ensures { result ≡ second_code_of (meanings names.now) (rule_of rule) (exprs_of_list arguments.now) early }
{
    match rule {
        CallRule::Member | CallRule::Length => None,
        CallRule::Test => match tested(names, arguments) {
            Some(_) => None,
            None if early => None,
            None => Some(Code::E25),
        },
    }
}
