//! The statements `return` and `assert`.

#![tactic(auto, using(pc_walk::proofs::Walks::goes_further))]

ghost use Rattle.std.specs.Prelude.{◌++◌, IfOk, true, false, None, OnOk};
ghost use Rattle.pc_tree.specs.Tree.{expr_of, option_expr_of};
ghost use Rattle.pc_flow.specs.Stored.{env_of};
ghost use Rattle.pc_rules.specs.Computed.Standing.{finds_in, narrowed_standing};
ghost use Rattle.pc_module_rules.specs.Computed.Statements.{narrowed_at, return_finds, option_finds};
ghost use Rattle.pc_walk.specs.Walks.{IsValidIn, IsEnv, WalkKept, Found, body_context_in};

use crate::typing::{type_condition, type_in};
use pc_flow::{BothWays, Env};
use pc_rules::Label;
use pc_source::{OutOfMemory, Place};
use pc_tree::Expr;
use pc_types::TypeStore;
use pc_walk::{Walk, find_flow_in};

/// Appends the findings of a `return`: in its value, and of the flow into the return type. Without a value, `None`
/// flows. Language Reference 7.6 "The return statement".
pub fn find_return<S: TypeStore>(
    walk: &mut Walk<'_, S>,
    env: &Env<S::Ty>,
    first: Place,
    value: &Option<Box<Expr>>,
) -> Result<(), OutOfMemory>
    requires { IsValidIn S.TypeStore walk.old env.now }
    ensures finds { OnOk result (Found S.TypeStore walk.old env.now walk.new
        (λ f k. return_finds f k first (option_expr_of value.now))) }
    ensures goes_on { WalkKept S.TypeStore walk.old walk.new }
{
    let returned = walk.context.returned;
    match value {
        None => {
            let none = walk.store.none(walk.alloc)?;
            let label = Label {
                ty: none,
                codes: Vec::new(walk.alloc),
            };
            find_flow_in(walk, first, &label, returned)?;
            Ok(())
        }
        Some(e) => {
            let want = Some(walk.store.copy(walk.alloc, returned)?);
            let label = type_in(walk, env, &want, e)?;
            find_flow_in(walk, e.place(), &label, returned)?;
            Ok(())
        }
    }
}

/// Appends the findings of an expression, if there is one.
fn find_option<S: TypeStore>(
    walk: &mut Walk<'_, S>,
    env: &Env<S::Ty>,
    e: &Option<Box<Expr>>,
) -> Result<(), OutOfMemory>
    requires { IsValidIn S.TypeStore walk.old env.now }
    ensures finds { OnOk result (Found S.TypeStore walk.old env.now walk.new
        (λ f k. option_finds f k None (option_expr_of e.now))) }
    ensures goes_on { WalkKept S.TypeStore walk.old walk.new }
{
    match e {
        None => Ok(()),
        Some(e) => {
            type_in(walk, env, &None, e)?;
            Ok(())
        }
    }
}

/// Appends the findings of an `assert`: in its condition, and in its message, which is checked where the condition is
/// false. Returns the environment where the condition is true. Language Reference 7.3 "The assert statement".
pub fn check_assert<S: TypeStore>(
    walk: &mut Walk<'_, S>,
    env: Env<S::Ty>,
    condition: &Expr,
    message: &Option<Box<Expr>>,
) -> Result<Env<S::Ty>, OutOfMemory>
    requires { IsValidIn S.TypeStore walk.old env }
    ensures behind { IfOk result (λ e. IsEnv S.TypeStore walk.new e
        (narrowed_at (body_context_in S.TypeStore walk.old) (env_of S.tree walk.old.declared.now) true
        (expr_of condition.now) (env_of S.tree env))) }
    ensures finds { OnOk result (Found S.TypeStore walk.old env walk.new
        (λ f k. finds_in k None (expr_of condition.now)
        ++ option_finds f (narrowed_standing k false (expr_of condition.now)) None (option_expr_of message.now))) }
    ensures goes_on { WalkKept S.TypeStore walk.old walk.new }
{
    let BothWays {
        where_true,
        where_false,
    } = type_condition(walk, &env, condition)?;
    find_option(walk, &where_false, message)?;
    Ok(where_true)
}
