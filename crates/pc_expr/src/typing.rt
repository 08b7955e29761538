//! The labels of expressions, and the findings in them.
#![tactic(auto, using(pc_rules::proofs::Kept::stands_further, pc_rules::proofs::TypingStates::goes_further))]

ghost use Rattle.std.specs.Prelude.{◌++◌, IfOk, OnOk, None, map, All, Option};
ghost use Rattle.std.specs.Option.{option_map};
ghost use Rattle.pc_tree.specs.Tree.{expr_of};
ghost use Rattle.pc_tree.specs.Depth.{place_of};
ghost use Rattle.pc_types.specs.Tree.{Tree};
ghost use Rattle.pc_rules.specs.Computed.Expressions.{flows_of};
ghost use Rattle.pc_rules.specs.Computed.Findings.{flows_at};
ghost use Rattle.pc_rules.specs.Computed.Standing.{standing_of, label_in, finds_in, parts_find};
ghost use Rattle.pc_expr.specs.Internal.Forms.{IsUnary, IsBinary, IsConnective};
ghost use Rattle.pc_rules.specs.Computed.TypingStates.{AddsNotes, StateKept, HoldsIfAny, IsLabel, HoldsAll};
ghost use Rattle.pc_rules.specs.Computed.ModuleParents.{class_parents};

use crate::calls::type_call;
use crate::conditions::type_condition;
use crate::displays::type_display;
use pc_calls::Seat;
use pc_flow::Env;
use pc_operations::{
    attribute_label, binary_label, bool_label, int_label, junction_label, negative_label,
    none_label, str_label, type_comparison, type_index,
};
use pc_rules::{ExprContext, Label, TypingState, find_flows, name_label, note_label};
use pc_source::OutOfMemory;
use pc_tree::Expr;
use pc_types::TypeStore;

/// Types an expression, with `want` as its expected type. Appends the findings in its parts, then its own, and returns
/// its label. Language Reference 6 "Expressions"; own rules of the profile.
#[cycle(typing)]
pub fn check_expr<S: TypeStore>(
    state: &mut TypingState<'_, S>,
    context: &ExprContext<'_, S::Ty>,
    env: &Env<S::Ty>,
    want: &Option<S::Ty>,
    e: &Expr,
) -> Result<Label<S::Ty>, OutOfMemory>
    requires given { HoldsAll S.TypeStore state.old context.now env.now }
    requires want { HoldsIfAny S.TypeStore state.old want.now }
    ensures labelled { IfOk result
        (λ l. IsLabel S.TypeStore state.new l
        (label_in (standing_of S.tree context.now env.now) (option_map S.tree want.now) (expr_of e.now))) }
    ensures found { OnOk result (AddsNotes state.old state.new
        (finds_in (standing_of S.tree context.now env.now) (option_map S.tree want.now) (expr_of e.now))) }
    ensures goes_on { StateKept S.TypeStore state.old state.new }
{
    let label = type_expr(state, context, env, want, e)?;
    note_label(
        state.store,
        state.alloc,
        context.globals.keeps,
        true,
        e.place(),
        &label,
        state.found,
    )?;
    Ok(label)
}

/// Types an expression in its seat. Appends its findings and those of its flows into the seat's types, and returns its
/// label.
#[cycle(typing)]
pub(crate) fn type_seated<S: TypeStore>(
    state: &mut TypingState<'_, S>,
    context: &ExprContext<'_, S::Ty>,
    env: &Env<S::Ty>,
    seat: &Seat<S::Ty>,
    e: &Expr,
) -> Result<Label<S::Ty>, OutOfMemory>
    requires given { HoldsAll S.TypeStore state.old context.now env.now }
    requires want { HoldsIfAny S.TypeStore state.old seat.now.want }
    requires into { All (S.has state.old.store.now) seat.now.into.items }
    ensures labelled { IfOk result
        (λ l. IsLabel S.TypeStore state.new l
        (label_in (standing_of S.tree context.now env.now) (option_map S.tree seat.now.want)
        (expr_of e.now))) }
    ensures found { OnOk result (AddsNotes state.old state.new
        (finds_in (standing_of S.tree context.now env.now) (option_map S.tree seat.now.want) (expr_of e.now)
        ++ flows_at (place_of (expr_of e.now))
        (flows_of (class_parents context.now.globals.now) (label_in (standing_of S.tree context.now env.now)
        (option_map S.tree seat.now.want) (expr_of e.now)) (map S.tree seat.now.into.items)))) }
    ensures goes_on { StateKept S.TypeStore state.old state.new }
{
    let label = check_expr(state, context, env, &seat.want, e)?;
    find_flows(
        state,
        context.globals.outline.parents,
        e.place(),
        &label,
        &seat.into,
    )?;
    Ok(label)
}

/// Types an expression, with `want` as its expected type. Appends only the findings in its parts, not its own, and
/// returns its label.
#[cycle(typing)]
pub(crate) fn type_expr<S: TypeStore>(
    state: &mut TypingState<'_, S>,
    context: &ExprContext<'_, S::Ty>,
    env: &Env<S::Ty>,
    want: &Option<S::Ty>,
    e: &Expr,
) -> Result<Label<S::Ty>, OutOfMemory>
    requires given { HoldsAll S.TypeStore state.old context.now env.now }
    requires want { HoldsIfAny S.TypeStore state.old want.now }
    ensures labelled { IfOk result
        (λ l. IsLabel S.TypeStore state.new l
        (label_in (standing_of S.tree context.now env.now) (option_map S.tree want.now) (expr_of e.now))) }
    ensures found { OnOk result (AddsNotes state.old state.new
        (parts_find (standing_of S.tree context.now env.now) (option_map S.tree want.now) (expr_of e.now))) }
    ensures goes_on { StateKept S.TypeStore state.old state.new }
{
    match e {
        Expr::Name(name) => name_label(state.store, state.alloc, context, env, name),
        Expr::Int(_, _) => int_label(state.store, state.alloc),
        Expr::Str(_, _) => str_label(state.store, state.alloc),
        Expr::True(_) => bool_label(state.store, state.alloc),
        Expr::False(_) => bool_label(state.store, state.alloc),
        Expr::NoneValue(_) => none_label(state.store, state.alloc),
        Expr::Tuple(_, _) | Expr::List(_, _) | Expr::Dict(_, _) => {
            type_display(state, context, env, want, e)
        }
        Expr::Negative(_, _)
        | Expr::Not(_, _)
        | Expr::IsNone(_, _)
        | Expr::IsNotNone(_, _)
        | Expr::Attribute { .. } => type_unary(state, context, env, e),
        Expr::Binary { .. } | Expr::Compare { .. } | Expr::Index { .. } => {
            type_binary(state, context, env, e)
        }
        Expr::And { .. } | Expr::Or { .. } => { type_connective(state, context, env, e) }
        Expr::Call { .. } => type_call(state, context, env, e),
    }
}

/// Types an operation on one operand. Appends the findings in the operand and returns the label of the operation.
#[cycle(typing)]
fn type_unary<S: TypeStore>(
    state: &mut TypingState<'_, S>,
    context: &ExprContext<'_, S::Ty>,
    env: &Env<S::Ty>,
    e: &Expr,
) -> Result<Label<S::Ty>, OutOfMemory>
    requires given { HoldsAll S.TypeStore state.old context.now env.now }
    requires form { IsUnary e.now }
    ensures labelled { (expected : Option Tree) → IfOk result
        (λ l. IsLabel S.TypeStore state.new l
        (label_in (standing_of S.tree context.now env.now) expected (expr_of e.now))) }
    ensures found { (expected : Option Tree) → OnOk result (AddsNotes state.old state.new
        (parts_find (standing_of S.tree context.now env.now) expected (expr_of e.now))) }
    ensures goes_on { StateKept S.TypeStore state.old state.new }
{
    match e {
        Expr::Negative(_, operand) => {
            let operand = check_expr(state, context, env, &None, operand)?;
            negative_label(state.store, state.alloc, context, &operand.ty)
        }
        Expr::Not(_, operand) => {
            check_expr(state, context, env, &None, operand)?;
            bool_label(state.store, state.alloc)
        }
        Expr::IsNone(_, operand) => {
            check_expr(state, context, env, &None, operand)?;
            bool_label(state.store, state.alloc)
        }
        Expr::IsNotNone(_, operand) => {
            check_expr(state, context, env, &None, operand)?;
            bool_label(state.store, state.alloc)
        }
        Expr::Attribute {
            object,
            name: field,
            ..
        } => {
            let object = check_expr(state, context, env, &None, object)?;
            attribute_label(state.store, state.alloc, context, field, &object.ty)
        }
        // `form` leaves no other form; the recursion ends by the size of the whole expression.
        _ => unreachable!(),
    }
}

/// Types an expression with two operands that are both evaluated: a binary operation, a comparison or an index
/// expression. Appends the findings in the operands and of their flows, and returns the label of the whole.
#[cycle(typing)]
fn type_binary<S: TypeStore>(
    state: &mut TypingState<'_, S>,
    context: &ExprContext<'_, S::Ty>,
    env: &Env<S::Ty>,
    e: &Expr,
) -> Result<Label<S::Ty>, OutOfMemory>
    requires given { HoldsAll S.TypeStore state.old context.now env.now }
    requires form { IsBinary e.now }
    ensures labelled { (expected : Option Tree) → IfOk result
        (λ l. IsLabel S.TypeStore state.new l
        (label_in (standing_of S.tree context.now env.now) expected (expr_of e.now))) }
    ensures found { (expected : Option Tree) → OnOk result (AddsNotes state.old state.new
        (parts_find (standing_of S.tree context.now env.now) expected (expr_of e.now))) }
    ensures goes_on { StateKept S.TypeStore state.old state.new }
{
    match e {
        Expr::Binary {
            operator,
            left,
            right,
            ..
        } => {
            let first = check_expr(state, context, env, &None, left)?;
            let second = check_expr(state, context, env, &None, right)?;
            binary_label(
                state.store,
                state.alloc,
                context.globals.outline.parents,
                *operator,
                &first.ty,
                &second.ty,
            )
        }
        Expr::Compare {
            operator,
            left,
            right,
            ..
        } => {
            let first = check_expr(state, context, env, &None, left)?;
            let second = check_expr(state, context, env, &None, right)?;
            type_comparison(
                state,
                context.globals.outline.parents,
                *operator,
                left,
                &first,
                &second.ty,
            )
        }
        Expr::Index { object, key, .. } => {
            let object = check_expr(state, context, env, &None, object)?;
            let index = check_expr(state, context, env, &None, key)?;
            type_index(state, context, &object.ty, key, &index)
        }
        // `form` leaves no other form; the recursion ends by the size of the whole expression.
        _ => unreachable!(),
    }
}

/// Types an `and` or `or`. Appends the findings in its operands and returns its label. Language Reference 6.11 "Boolean
/// operations".
#[cycle(typing)]
fn type_connective<S: TypeStore>(
    state: &mut TypingState<'_, S>,
    context: &ExprContext<'_, S::Ty>,
    env: &Env<S::Ty>,
    e: &Expr,
) -> Result<Label<S::Ty>, OutOfMemory>
    requires given { HoldsAll S.TypeStore state.old context.now env.now }
    requires form { IsConnective e.now }
    ensures labelled { (expected : Option Tree) → IfOk result
        (λ l. IsLabel S.TypeStore state.new l
        (label_in (standing_of S.tree context.now env.now) expected (expr_of e.now))) }
    ensures found { (expected : Option Tree) → OnOk result (AddsNotes state.old state.new
        (parts_find (standing_of S.tree context.now env.now) expected (expr_of e.now))) }
    ensures goes_on { StateKept S.TypeStore state.old state.new }
{
    match e {
        Expr::And { left, right, .. } => {
            let first = type_condition(state, context, env, left)?;
            let after = &first.ways.where_true;
            let second = check_expr(state, context, after, &None, right)?;
            junction_label(
                state.store,
                state.alloc,
                context.globals.outline.parents,
                &first.label.ty,
                &second.ty,
            )
        }
        Expr::Or { left, right, .. } => {
            let first = type_condition(state, context, env, left)?;
            let after = &first.ways.where_false;
            let second = check_expr(state, context, after, &None, right)?;
            junction_label(
                state.store,
                state.alloc,
                context.globals.outline.parents,
                &first.label.ty,
                &second.ty,
            )
        }
        // `form` leaves no other form; the recursion ends by the size of the whole expression.
        _ => unreachable!(),
    }
}
