//! Expressions and conditions in a walk over statements.

#![tactic(auto, using(pc_walk::proofs::Walks::goes_further))]

ghost use Rattle.std.specs.Prelude.{IfOk, OnOk, None, true, false};
ghost use Rattle.std.specs.Option.{option_map};
ghost use Rattle.pc_tree.specs.Tree.{expr_of};
ghost use Rattle.pc_flow.specs.Stored.{env_of};
ghost use Rattle.pc_rules.specs.Computed.Standing.{label_in, finds_in};
ghost use Rattle.pc_module_rules.specs.Computed.Statements.{narrowed_at};
ghost use Rattle.pc_walk.specs.Walks.{IsValidIn, HoldsWant, IsLabel, IsEnv, WalkKept, Found, standing_in};
ghost use Rattle.pc_walk.specs.Walks.{body_context_in};

use pc_expr::check_expr;
use pc_flow::{BothWays, Env};
use pc_rules::{ExprContext, Label, TypingState};
use pc_source::OutOfMemory;
use pc_tree::Expr;
use pc_types::TypeStore;
use pc_walk::Walk;

/// Types an expression in the body of a function, with `want` as its expected type. Appends its findings and returns
/// its label.
pub fn type_in<S: TypeStore>(
    walk: &mut Walk<'_, S>,
    env: &Env<S::Ty>,
    want: &Option<S::Ty>,
    e: &Expr,
) -> Result<Label<S::Ty>, OutOfMemory>
    requires stands { IsValidIn S.TypeStore walk.old env.now }
    requires want { HoldsWant S.TypeStore walk.old want.now }
    ensures labelled { IfOk result
        (λ l. IsLabel S.TypeStore walk.new l
        (label_in (standing_in S.TypeStore walk.old env.now) (option_map S.tree want.now) (expr_of e.now))) }
    ensures finds { OnOk result (Found S.TypeStore walk.old env.now walk.new
        (λ f k. finds_in k (option_map S.tree want.now) (expr_of e.now))) }
    ensures goes_on { WalkKept S.TypeStore walk.old walk.new }
{
    let context = ExprContext {
        globals: walk.context.globals,
        in_body: true,
        names: walk.context.names,
        declared: walk.declared,
    };
    let mut state = TypingState {
        store: walk.store,
        alloc: walk.alloc,
        found: walk.found,
    };
    let label = check_expr(&mut state, &context, env, want, e)?;
    Ok(label)
}

/// Types a condition of an `if`, `elif`, `while` or `assert`. Appends its findings and returns the environments where
/// it is true and where it is false.
///
/// Typing specification, "Type narrowing"; own rule of the profile.
pub fn type_condition<S: TypeStore>(
    walk: &mut Walk<'_, S>,
    env: &Env<S::Ty>,
    condition: &Expr,
) -> Result<BothWays<S::Ty>, OutOfMemory>
    requires { IsValidIn S.TypeStore walk.old env.now }
    ensures where_true { IfOk result (λ n. IsEnv S.TypeStore walk.new n.where_true
        (narrowed_at (body_context_in S.TypeStore walk.old) (env_of S.tree walk.old.declared.now) true
        (expr_of condition.now) (env_of S.tree env.now))) }
    ensures where_false { IfOk result (λ n. IsEnv S.TypeStore walk.new n.where_false
        (narrowed_at (body_context_in S.TypeStore walk.old) (env_of S.tree walk.old.declared.now) false
        (expr_of condition.now) (env_of S.tree env.now))) }
    ensures finds { OnOk result (Found S.TypeStore walk.old env.now walk.new
        (λ f k. finds_in k None (expr_of condition.now))) }
    ensures goes_on { WalkKept S.TypeStore walk.old walk.new }
{
    let context = ExprContext {
        globals: walk.context.globals,
        in_body: true,
        names: walk.context.names,
        declared: walk.declared,
    };
    let mut state = TypingState {
        store: walk.store,
        alloc: walk.alloc,
        found: walk.found,
    };
    let typed = pc_expr::type_condition(&mut state, &context, env, condition)?;
    Ok(typed.ways)
}
