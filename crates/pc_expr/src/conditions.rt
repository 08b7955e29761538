//! The labels of conditions, and the environments where they are true and where they are false.
//!
//! Each part of a chain of `and` and `or` is narrowed once, in the walk that labels it.
#![tactic(auto, using(pc_rules::proofs::Kept::stands_further, pc_rules::proofs::TypingStates::goes_further))]

ghost use Rattle.std.specs.Prelude.{◌≡◌, ◌++◌, IfOk, OnOk, None, length};
ghost use Rattle.pc_tree.specs.Tree.{expr_of};
ghost use Rattle.pc_types.specs.Store.{KeepsTypes};
ghost use Rattle.pc_flow.specs.Agreement.{AgreeBelow};
ghost use Rattle.pc_flow.specs.Environment.{join_env, join_or_object};
ghost use Rattle.pc_flow.specs.Naming.{meanings};
ghost use Rattle.pc_flow.specs.Narrowing.{IsSimple, tested_locals};
ghost use Rattle.pc_flow.specs.Stored.{env_of, declared_of, HasEach, GivesEnv};
ghost use Rattle.pc_flow.specs.Ways.{way_on, way_out};
ghost use Rattle.pc_flow.specs.WellFormed.{IsWellFormedEnv};
ghost use Rattle.pc_rules.specs.Computed.TypingStates.{AddsNotes, StateKept, IsLabel, HoldsAll};
ghost use Rattle.pc_rules.specs.Operations.{clean};
ghost use Rattle.pc_rules.specs.Computed.Standing.{HasGivenAll, standing_of, label_in, finds_in};
ghost use Rattle.pc_rules.specs.Computed.ModuleParents.{class_parents};
ghost use Rattle.pc_expr.specs.Ways.{GivesWays};

use crate::typing::check_expr;
use pc_flow::{
    BothWays, Connective, Declarations, Env, Junction, copy_env, narrow_junction, narrow_simple,
};
use pc_operations::{bool_label, junction_label};
use pc_rules::{ExprContext, Label, TypingState, note_label};
use pc_source::OutOfMemory;
use pc_tree::Expr;
use pc_types::TypeStore;
use std::alloc::Global;

/// The label of a condition, and the environments where it is true and where it is false.
#[derive(Drop)]
pub struct Condition<Ty: Drop> {
    pub label: Label<Ty>,
    pub ways: BothWays<Ty>,
}

/// Returns the environment where the first part of a junction decides it: where that part is false for `and`, true for
/// `or`.
fn short_circuit_of<Ty: Drop>(connective: &Connective, first: BothWays<Ty>) -> Env<Ty>
    ensures { result ≡ way_out connective.now first }
{
    match connective {
        Connective::And => first.where_false,
        Connective::Or => first.where_true,
    }
}

/// Combines the two parts of a junction: returns its label, and the environments where it is true and where it is
/// false. The second part is typed where the first does not decide. Language Reference 6.11 "Boolean operations".
fn junction_condition<S: TypeStore>(
    state: &mut TypingState<'_, S>,
    context: &ExprContext<'_, S::Ty>,
    junction: &Junction,
    first: Condition<S::Ty>,
    second: Condition<S::Ty>,
) -> Result<Condition<S::Ty>, OutOfMemory>
    requires declared { HasEach (S.has state.old.store.now) context.now.declared.now }
    requires first { S.has state.old.store.now first.label.ty }
    requires second { S.has state.old.store.now second.label.ty }
    requires short_circuit_env { HasEach (S.has state.old.store.now) (way_out junction.now.connective first.ways) }
    requires late { HasEach (S.has state.old.store.now) (way_out junction.now.connective second.ways) }
    requires well_formed { IsWellFormedEnv (class_parents context.now.globals.now)
        (env_of S.tree (way_out junction.now.connective first.ways)) }
    requires agree { AgreeBelow (length context.now.declared.now)
        (tested_locals (meanings context.now.names.now) (expr_of junction.now.left.now)
        ++ tested_locals (meanings context.now.names.now) (expr_of junction.now.right.now))
        (env_of S.tree (way_out junction.now.connective first.ways))
        (env_of S.tree (way_out junction.now.connective second.ways)) }
    ensures labelled { IfOk result
        (λ n. IsLabel S.TypeStore state.new n.label
        (clean (join_or_object (class_parents context.now.globals.now) (S.tree first.label.ty)
        (S.tree second.label.ty)))) }
    ensures asked { IfOk result
        (λ n. way_on junction.now.connective n.ways ≡ way_on junction.now.connective second.ways) }
    ensures met { IfOk result
        (λ n. GivesEnv S.has S.tree state.new.store.now (way_out junction.now.connective n.ways)
        (join_env (class_parents context.now.globals.now) (declared_of S.tree context.now.declared.now)
        (env_of S.tree (way_out junction.now.connective first.ways))
        (env_of S.tree (way_out junction.now.connective second.ways)))) }
    ensures found { state.new.found.now ≡ state.old.found.now }
    ensures goes_on { StateKept S.TypeStore state.old state.new }
{
    let parents = context.globals.outline.parents;
    let label = junction_label(
        state.store,
        state.alloc,
        parents,
        &first.label.ty,
        &second.label.ty,
    )?;
    let declarations = Declarations {
        parents,
        declared: context.declared,
        names: context.names,
    };
    let short_circuit_env = short_circuit_of(&junction.connective, first.ways);
    let ways = narrow_junction(
        state.store,
        state.alloc,
        &declarations,
        junction,
        short_circuit_env,
        second.ways,
    )?;
    Ok(Condition { label, ways })
}

/// Returns the environments where a condition other than `not`, `and` and `or` is true and where it is false.
fn simple_ways<S: TypeStore>(
    store: &mut S,
    alloc: Global,
    context: &ExprContext<'_, S::Ty>,
    env: &Env<S::Ty>,
    e: &Expr,
) -> Result<BothWays<S::Ty>, OutOfMemory>
    requires given { HasGivenAll (S.has store.old) S.tree context.now env.now }
    requires simple { IsSimple (expr_of e.now) }
    ensures ways { IfOk result
        (λ n. GivesWays S.has S.tree store.new context.now (standing_of S.tree context.now env.now) n
        (expr_of e.now)) }
    ensures kept { KeepsTypes S.has store.old store.new }
{
    let parents = context.globals.outline.parents;
    parents.ordered();
    let copy = copy_env(store, alloc, env)?;
    let declarations = Declarations {
        parents,
        declared: context.declared,
        names: context.names,
    };
    let ways = narrow_simple(store, alloc, &declarations, e, copy)?;
    Ok(ways)
}

/// Types a condition, without an expected type. Appends its findings; returns its label and the environments where it
/// is true and where it is false. Typing specification, "Type narrowing".
#[cycle(typing)]
pub fn type_condition<S: TypeStore>(
    state: &mut TypingState<'_, S>,
    context: &ExprContext<'_, S::Ty>,
    env: &Env<S::Ty>,
    e: &Expr,
) -> Result<Condition<S::Ty>, OutOfMemory>
    requires { HoldsAll S.TypeStore state.old context.now env.now }
    ensures labelled { IfOk result
        (λ n. IsLabel S.TypeStore state.new n.label
        (label_in (standing_of S.tree context.now env.now) None (expr_of e.now))) }
    ensures ways { IfOk result
        (λ n. GivesWays S.has S.tree state.new.store.now context.now (standing_of S.tree context.now env.now) n.ways
        (expr_of e.now)) }
    ensures found { OnOk result (AddsNotes state.old state.new
        (finds_in (standing_of S.tree context.now env.now) None (expr_of e.now))) }
    ensures goes_on { StateKept S.TypeStore state.old state.new }
{
    context.globals.outline.parents.ordered();
    match e {
        Expr::Not(_, operand) => {
            let condition = type_condition(state, context, env, operand)?;
            let label = bool_label(state.store, state.alloc)?;
            note_label(
                state.store,
                state.alloc,
                context.globals.keeps,
                true,
                e.place(),
                &label,
                state.found,
            )?;
            let ways = condition.ways.swapped();
            Ok(Condition { label, ways })
        }
        Expr::And { left, right, .. } => {
            let junction = Junction {
                connective: Connective::And,
                left,
                right,
            };
            let first = type_condition(state, context, env, left)?;
            let second = type_condition(state, context, &first.ways.where_true, right)?;
            let whole = junction_condition(state, context, &junction, first, second)?;
            note_label(
                state.store,
                state.alloc,
                context.globals.keeps,
                true,
                e.place(),
                &whole.label,
                state.found,
            )?;
            Ok(whole)
        }
        Expr::Or { left, right, .. } => {
            let junction = Junction {
                connective: Connective::Or,
                left,
                right,
            };
            let first = type_condition(state, context, env, left)?;
            let second = type_condition(state, context, &first.ways.where_false, right)?;
            let whole = junction_condition(state, context, &junction, first, second)?;
            note_label(
                state.store,
                state.alloc,
                context.globals.keeps,
                true,
                e.place(),
                &whole.label,
                state.found,
            )?;
            Ok(whole)
        }
        _ => {
            let label = check_expr(state, context, env, &None, e)?;
            let ways = simple_ways(state.store, state.alloc, context, env, e)?;
            Ok(Condition { label, ways })
        }
    }
}
