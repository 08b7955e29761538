//! Narrowing: the environments where a condition is true and where it is false.

ghost use Rattle.std.specs.Prelude.{◌≡◌, List, IfOk, true, false, if◌then◌else◌};
ghost use Rattle.pc_tree.specs.Tree.{expr_of};
ghost use Rattle.pc_tree.specs.Lists.{exprs_of_list};
ghost use Rattle.pc_types.specs.Tree.{Tree};
ghost use Rattle.pc_types.specs.Store.{KeepsTypes};
ghost use Rattle.pc_flow.specs.Declarations.{narrow_with};
ghost use Rattle.pc_flow.specs.Environment.{assign};
ghost use Rattle.pc_flow.specs.Narrowing.{first_argument, second_argument, local_of_argument, test_of_argument};
ghost use Rattle.pc_flow.specs.Narrowing.{for_none, local_named, narrow_local, narrow_instance, IsSimple};
ghost use Rattle.pc_flow.specs.WellFormed.{IsWellFormedEnv, AreWellFormed};
ghost use Rattle.pc_flow.specs.Stored.{env_of, declared_of, HasEach, GivesEnv};
ghost use Rattle.pc_flow.specs.Tests.{tested_of};
ghost use Rattle.pc_flow.specs.Ways.{GivesBoth, GivesWellFormed};
ghost use Rattle.pc_flow.specs.Naming.{meanings};

use crate::copying::copy_env;
use crate::junctions::{Connective, Junction, narrow_junction};
use crate::naming::{local_named, test_of};
use crate::testing::{Split, Test, split_type};
use crate::{Declarations, Env};
use pc_scope::is_instance_test;
use pc_source::OutOfMemory;
use pc_tree::Expr;
use pc_types::{Parents, TypeStore};
use std::alloc::Global;

/// The environments where a condition is true and where it is false.
#[derive(Drop)]
pub struct BothWays<Ty: Drop> {
    pub where_true: Env<Ty>,
    pub where_false: Env<Ty>,
}

impl<Ty: Drop> BothWays<Ty> {
    /// Swaps the two environments, as for `not`.
    pub fn swapped(self) -> BothWays<Ty>
        ensures where_true { result.where_true ≡ self.where_false }
        ensures where_false { result.where_false ≡ self.where_true }
    {
        BothWays {
            where_true: self.where_false,
            where_false: self.where_true,
        }
    }
}

/// Returns `env` as the environment where a condition is true and where it is false: it narrows nothing.
fn unchanged<S: TypeStore>(
    store: &S,
    alloc: Global,
    env: Env<S::Ty>,
) -> Result<BothWays<S::Ty>, OutOfMemory>
    requires { HasEach (S.has store.now) env }
    ensures { IfOk result (λ n. GivesBoth S.has S.tree store.now n (λ _. env_of S.tree env)) }
{
    let where_true = copy_env(store, alloc, &env)?;
    Ok(BothWays {
        where_true,
        where_false: env,
    })
}

/// Returns the environments where a test of a local is true and where it is false, given the types that the local has
/// there.
fn assign_split<S: TypeStore>(
    store: &S,
    alloc: Global,
    local: usize,
    split: Split<S::Ty>,
    env: Env<S::Ty>,
) -> Result<BothWays<S::Ty>, OutOfMemory>
    requires passing { S.has store.now split.passing }
    requires failing { S.has store.now split.failing }
    requires env { HasEach (S.has store.now) env }
    ensures { IfOk result (λ n.
        GivesBoth S.has S.tree store.now n
        (λ holds. assign (env_of S.tree env) local (if holds then S.tree split.passing else S.tree split.failing))) }
{
    let mut where_false = env;
    let mut where_true = copy_env(store, alloc, &where_false)?;
    where_true.assign(alloc, local, split.passing)?;
    where_false.assign(alloc, local, split.failing)?;
    Ok(BothWays {
        where_true,
        where_false,
    })
}

/// Returns the environments where a test of a local is true and where it is false.
fn narrow_at<S: TypeStore>(
    store: &mut S,
    alloc: Global,
    parents: &Parents,
    test: Test,
    local: usize,
    env: Env<S::Ty>,
) -> Result<BothWays<S::Ty>, OutOfMemory>
    requires env { HasEach (S.has store.old) env }
    requires well_formed { IsWellFormedEnv parents.now (env_of S.tree env) }
    ensures value { IfOk result
        (λ n. GivesBoth S.has S.tree store.new n
        (λ holds. narrow_local parents.now holds (tested_of test) (Some local) (env_of S.tree env))) }
    ensures kept { KeepsTypes S.has store.old store.new }
{
    match env.current(local) {
        None => unchanged(store, alloc, env),
        Some(ty) => {
            let split = split_type(store, alloc, parents, test, ty)?;
            assign_split(store, alloc, local, split, env)
        }
    }
}

/// Returns the environments where a test of a local is true and where it is false, both `env` if there is no local.
fn narrow_local<S: TypeStore>(
    store: &mut S,
    alloc: Global,
    parents: &Parents,
    test: Test,
    local: Option<usize>,
    env: Env<S::Ty>,
) -> Result<BothWays<S::Ty>, OutOfMemory>
    requires env { HasEach (S.has store.old) env }
    requires well_formed { IsWellFormedEnv parents.now (env_of S.tree env) }
    ensures value { IfOk result
        (λ n. GivesBoth S.has S.tree store.new n
        (λ holds. narrow_local parents.now holds (tested_of test) local (env_of S.tree env))) }
    ensures kept { KeepsTypes S.has store.old store.new }
{
    match local {
        None => unchanged(store, alloc, env),
        Some(local) => narrow_at(store, alloc, parents, test, local, env),
    }
}

/// Returns the environments where a call is true and where it is false. They differ only if the call is an `isinstance`
/// test (`is_test`) of a local for a type that can be tested for; else both are `env`.
fn narrow_instance<S: TypeStore>(
    store: &mut S,
    alloc: Global,
    declarations: &Declarations<'_, S::Ty>,
    is_test: bool,
    arguments: &[Expr],
    env: Env<S::Ty>,
) -> Result<BothWays<S::Ty>, OutOfMemory>
    requires env { HasEach (S.has store.old) env }
    requires well_formed { IsWellFormedEnv declarations.now.parents.now (env_of S.tree env) }
    ensures value { (declared : List Tree)
        → IfOk result (λ n. GivesBoth S.has S.tree store.new n
        (λ holds. narrow_instance declarations.now.parents.now declared (meanings declarations.now.names.now) holds
        is_test (local_of_argument (meanings declarations.now.names.now) (first_argument (exprs_of_list arguments.now)))
        (test_of_argument (meanings declarations.now.names.now) (second_argument (exprs_of_list arguments.now)))
        (env_of S.tree env))) }
    ensures kept { KeepsTypes S.has store.old store.new }
{
    if !is_test {
        return unchanged(store, alloc, env);
    }
    match arguments {
        [tested, class, ..] => match test_of(declarations.names, class) {
            None => unchanged(store, alloc, env),
            Some(test) => {
                let local = local_named(declarations.names, tested);
                narrow_local(store, alloc, declarations.parents, test, local, env)
            }
        },
        _ => unchanged(store, alloc, env),
    }
}

/// Returns the environments where an expression is `None` and where it is not, both `env` if it is not the name of a
/// local.
fn narrow_none<S: TypeStore>(
    store: &mut S,
    alloc: Global,
    declarations: &Declarations<'_, S::Ty>,
    tested: &Expr,
    env: Env<S::Ty>,
) -> Result<BothWays<S::Ty>, OutOfMemory>
    requires env { HasEach (S.has store.old) env }
    requires well_formed { IsWellFormedEnv declarations.now.parents.now (env_of S.tree env) }
    ensures value { IfOk result
        (λ n. GivesBoth S.has S.tree store.new n (λ holds. narrow_local declarations.now.parents.now holds for_none
        (local_named (meanings declarations.now.names.now) (expr_of tested.now)) (env_of S.tree env))) }
    ensures kept { KeepsTypes S.has store.old store.new }
{
    let local = local_named(declarations.names, tested);
    narrow_local(store, alloc, declarations.parents, Test::None, local, env)
}

/// Returns the environments where a condition other than `not`, `and` and `or` is true and where it is false. It tests
/// at most one local, against `None` or by `isinstance`.
///
/// Typing specification, "Type narrowing"; own rules of the profile.
pub fn narrow_simple<S: TypeStore>(
    store: &mut S,
    alloc: Global,
    declarations: &Declarations<'_, S::Ty>,
    condition: &Expr,
    env: Env<S::Ty>,
) -> Result<BothWays<S::Ty>, OutOfMemory>
    requires simple { IsSimple (expr_of condition.now) }
    requires env { HasEach (S.has store.old) env }
    requires env_well_formed { IsWellFormedEnv declarations.now.parents.now (env_of S.tree env) }
    ensures value { IfOk result
        (λ n. GivesBoth S.has S.tree store.new n
        (λ holds. narrow_with S.tree declarations.now holds (expr_of condition.now) (env_of S.tree env))) }
    ensures kept { KeepsTypes S.has store.old store.new }
{
    match condition {
        Expr::IsNone(_, e) => narrow_none(store, alloc, declarations, e, env),
        Expr::IsNotNone(_, e) => {
            let is_none = narrow_none(store, alloc, declarations, e, env)?;
            Ok(is_none.swapped())
        }
        Expr::Call {
            callee,
            arguments,
            keywords: by_name,
            ..
        } => {
            let is_test = is_instance_test(callee, arguments, by_name);
            narrow_instance(store, alloc, declarations, is_test, arguments, env)
        }
        _ => unchanged(store, alloc, env),
    }
}

/// Returns the environments where a condition is true and where it is false, by its tests of locals against `None` and
/// by `isinstance`, and by `not`, `and` and `or`.
fn narrow<S: TypeStore>(
    store: &mut S,
    alloc: Global,
    declarations: &Declarations<'_, S::Ty>,
    condition: &Expr,
    env: Env<S::Ty>,
) -> Result<BothWays<S::Ty>, OutOfMemory>
    requires declared { HasEach (S.has store.old) declarations.now.declared.now }
    requires env { HasEach (S.has store.old) env }
    requires declared_well_formed { AreWellFormed declarations.now.parents.now
        (declared_of S.tree declarations.now.declared.now) }
    requires env_well_formed { IsWellFormedEnv declarations.now.parents.now (env_of S.tree env) }
    ensures value { IfOk result
        (λ n. GivesWellFormed S.has S.tree declarations.now.parents.now store.new n
        (λ holds. narrow_with S.tree declarations.now holds (expr_of condition.now) (env_of S.tree env))) }
    ensures kept { KeepsTypes S.has store.old store.new }
{
    declarations.parents.ordered();
    match condition {
        Expr::Not(_, e) => {
            let holds = narrow(store, alloc, declarations, e, env)?;
            Ok(holds.swapped())
        }
        Expr::And { left, right, .. } => {
            let connective = Connective::And;
            let junction = Junction {
                connective,
                left,
                right,
            };
            let first = narrow(store, alloc, declarations, left, env)?;
            let second = narrow(store, alloc, declarations, right, first.where_true)?;
            let short_circuit_env = first.where_false;
            let ways = narrow_junction(
                store,
                alloc,
                declarations,
                &junction,
                short_circuit_env,
                second,
            )?;
            Ok(ways)
        }
        Expr::Or { left, right, .. } => {
            let connective = Connective::Or;
            let junction = Junction {
                connective,
                left,
                right,
            };
            let first = narrow(store, alloc, declarations, left, env)?;
            let second = narrow(store, alloc, declarations, right, first.where_false)?;
            let short_circuit_env = first.where_true;
            let ways = narrow_junction(
                store,
                alloc,
                declarations,
                &junction,
                short_circuit_env,
                second,
            )?;
            Ok(ways)
        }
        _ => {
            let ways = narrow_simple(store, alloc, declarations, condition, env)?;
            Ok(ways)
        }
    }
}

/// Returns the environment where a condition is true; for tests, since the typing narrows as it types a condition.
/// Typing specification, "Type narrowing"; own rules of the profile.
pub fn narrow_true<S: TypeStore>(
    store: &mut S,
    alloc: Global,
    declarations: &Declarations<'_, S::Ty>,
    condition: &Expr,
    env: Env<S::Ty>,
) -> Result<Env<S::Ty>, OutOfMemory>
    requires declared { HasEach (S.has store.old) declarations.now.declared.now }
    requires env { HasEach (S.has store.old) env }
    requires declared_well_formed { AreWellFormed declarations.now.parents.now
        (declared_of S.tree declarations.now.declared.now) }
    requires env_well_formed { IsWellFormedEnv declarations.now.parents.now (env_of S.tree env) }
    ensures value { IfOk result (λ e. GivesEnv S.has S.tree store.new e
        (narrow_with S.tree declarations.now true (expr_of condition.now) (env_of S.tree env))) }
    ensures kept { KeepsTypes S.has store.old store.new }
{
    let ways = narrow(store, alloc, declarations, condition, env)?;
    Ok(ways.where_true)
}

/// Returns the environment where a condition is false; for tests, as `narrow_true` is. Typing specification, "Type
/// narrowing"; own rules of the profile.
pub fn narrow_false<S: TypeStore>(
    store: &mut S,
    alloc: Global,
    declarations: &Declarations<'_, S::Ty>,
    condition: &Expr,
    env: Env<S::Ty>,
) -> Result<Env<S::Ty>, OutOfMemory>
    requires declared { HasEach (S.has store.old) declarations.now.declared.now }
    requires env { HasEach (S.has store.old) env }
    requires declared_well_formed { AreWellFormed declarations.now.parents.now
        (declared_of S.tree declarations.now.declared.now) }
    requires env_well_formed { IsWellFormedEnv declarations.now.parents.now (env_of S.tree env) }
    ensures value { IfOk result (λ e. GivesEnv S.has S.tree store.new e
        (narrow_with S.tree declarations.now false (expr_of condition.now) (env_of S.tree env))) }
    ensures kept { KeepsTypes S.has store.old store.new }
{
    let ways = narrow(store, alloc, declarations, condition, env)?;
    Ok(ways.where_false)
}
