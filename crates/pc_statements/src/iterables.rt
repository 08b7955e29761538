//! The iterable of a `for`.

#![tactic(auto, using(pc_walk::proofs::Walks::goes_further))]

ghost use Rattle.std.specs.Prelude.{◌≡◌, ◌++◌, IfOk, MatchOption, None, true, false, OnOk};
ghost use Rattle.pc_source.specs.declared.place.Place.{Place as PlaceOf};
ghost use Rattle.pc_tree.specs.Tree.{Expr as ExprOf, Exprs, Keywords, expr_of, call};
ghost use Rattle.pc_tree.specs.Lists.{exprs_of_list, keywords_of_list};
ghost use Rattle.pc_tree.specs.Depth.{place_of};
ghost use Rattle.pc_rules.specs.Computed.Findings.{codes_at};
ghost use Rattle.pc_rules.specs.Computed.Standing.{finds_in};
ghost use Rattle.pc_module_rules.specs.Computed.Statements.{item_label_of, values_item, iterable_finds};
ghost use Rattle.pc_statements.specs.Internal.Ranges.{over_range};
ghost use Rattle.pc_walk.specs.Walks.{IsValidIn, IsLabel, IsType, WalkKept, Found, body_context_in, standing_in};
ghost use Rattle.pc_flow.specs.Naming.{meanings};

use crate::typing::type_in;
use pc_calls::is_range;
use pc_expr::{RangeCall, type_range};
use pc_flow::{Env, OwnerNames};
use pc_operations::item_label;
use pc_rules::{ExprContext, Label, TypingState, find_codes};
use pc_source::OutOfMemory;
use pc_tree::Expr;
use pc_types::TypeStore;
use pc_walk::Walk;

/// Returns whether an expression is a name that means `range`.
fn means_range(names: &OwnerNames, e: &Expr) -> bool
    ensures { (p : PlaceOf) (arguments : Exprs) (keywords : Keywords)
        → result ≡ over_range (meanings names.now) (call p (expr_of e.now) arguments keywords) }
{
    let Expr::Name(name) = e else {
        return false;
    };
    is_range(names.resolve(name.text.as_str()))
}

/// Returns the parts of an expression that is a call of `range`, `None` for any other. Library reference, "Built-in
/// Functions".
fn range_call<'e>(names: &OwnerNames, e: &'e Expr) -> Option<RangeCall<'e>>
    ensures { MatchOption result (over_range (meanings names.now) (expr_of e.now) ≡ false)
        (λ c. (over_range (meanings names.now) (expr_of e.now) ≡ true)
        × (expr_of e.now ≡ call c.place (expr_of c.callee.now) (exprs_of_list c.arguments.now)
        (keywords_of_list c.by_name.now))) }
{
    let Expr::Call {
        place,
        callee,
        arguments,
        keywords: by_name,
    } = e
    else {
        return None;
    };
    if !means_range(names, callee) {
        return None;
    }
    Some(RangeCall {
        place: *place,
        callee,
        arguments,
        by_name,
    })
}

/// Types an iterable other than a call of `range`. Appends the findings in it and returns the label of its items.
fn type_values<S: TypeStore>(
    walk: &mut Walk<'_, S>,
    env: &Env<S::Ty>,
    iterable: &Expr,
) -> Result<Label<S::Ty>, OutOfMemory>
    requires { IsValidIn S.TypeStore walk.old env.now }
    ensures labelled { IfOk result
        (λ l. IsLabel S.TypeStore walk.new l (values_item (body_context_in S.TypeStore walk.old)
        (standing_in S.TypeStore walk.old env.now) (expr_of iterable.now))) }
    ensures finds { OnOk result (Found S.TypeStore walk.old env.now walk.new
        (λ f k. finds_in k None (expr_of iterable.now))) }
    ensures goes_on { WalkKept S.TypeStore walk.old walk.new }
{
    let label = type_in(walk, env, &None, iterable)?;
    let parents = walk.context.globals.outline.parents;
    let item = item_label(
        walk.store,
        walk.alloc,
        parents,
        walk.context.globals.classes,
        &label.ty,
    )?;
    Ok(item)
}

/// Types a call of `range` as an iterable. Appends the findings in it and returns the label of its items.
fn type_range_call<S: TypeStore>(
    walk: &mut Walk<'_, S>,
    env: &Env<S::Ty>,
    iterable: &RangeCall<'_>,
) -> Result<Label<S::Ty>, OutOfMemory>
    requires stands { IsValidIn S.TypeStore walk.old env.now }
    requires range { over_range (meanings walk.old.context.names.now)
        (call iterable.now.place (expr_of iterable.now.callee.now) (exprs_of_list iterable.now.arguments.now)
        (keywords_of_list iterable.now.by_name.now)) ≡ true }
    ensures labelled { IfOk result
        (λ l. IsLabel S.TypeStore walk.new l (item_label_of (body_context_in S.TypeStore walk.old)
        (standing_in S.TypeStore walk.old env.now)
        (call iterable.now.place (expr_of iterable.now.callee.now) (exprs_of_list iterable.now.arguments.now)
        (keywords_of_list iterable.now.by_name.now)))) }
    ensures finds { OnOk result (Found S.TypeStore walk.old env.now walk.new
        (λ f k. iterable_finds f k
        (call iterable.now.place (expr_of iterable.now.callee.now) (exprs_of_list iterable.now.arguments.now)
        (keywords_of_list iterable.now.by_name.now)))) }
    ensures goes_on { WalkKept S.TypeStore walk.old walk.new }
{
    let context = ExprContext {
        globals: walk.context.globals,
        in_body: true,
        names: walk.context.names,
        declared: walk.declared,
    };
    let mut state = TypingState {
        store: walk.store,
        alloc: walk.alloc,
        found: walk.found,
    };
    let item = type_range(&mut state, &context, env, iterable)?;
    Ok(item)
}

/// Types the iterable of a `for`, which may be a call of `range`. Appends the findings in it and returns the label of
/// its items, whose codes are not appended yet.
fn type_item<S: TypeStore>(
    walk: &mut Walk<'_, S>,
    env: &Env<S::Ty>,
    iterable: &Expr,
) -> Result<Label<S::Ty>, OutOfMemory>
    requires { IsValidIn S.TypeStore walk.old env.now }
    ensures labelled { IfOk result
        (λ l. IsLabel S.TypeStore walk.new l (item_label_of (body_context_in S.TypeStore walk.old)
        (standing_in S.TypeStore walk.old env.now) (expr_of iterable.now))) }
    ensures finds { OnOk result (Found S.TypeStore walk.old env.now walk.new
        (λ f k. iterable_finds f k (expr_of iterable.now))) }
    ensures goes_on { WalkKept S.TypeStore walk.old walk.new }
{
    match range_call(walk.context.names, iterable) {
        Some(range) => type_range_call(walk, env, &range),
        None => type_values(walk, env, iterable),
    }
}

/// Types the iterable of a `for`. Appends the findings in it and of iterating over it, and returns the type of its
/// items. Language Reference 8.3 "The for statement".
pub fn item_type<S: TypeStore>(
    walk: &mut Walk<'_, S>,
    env: &Env<S::Ty>,
    iterable: &Expr,
) -> Result<S::Ty, OutOfMemory>
    requires { IsValidIn S.TypeStore walk.old env.now }
    ensures typed { IfOk result
        (λ t. IsType S.TypeStore walk.new t (item_label_of (body_context_in S.TypeStore walk.old)
        (standing_in S.TypeStore walk.old env.now) (expr_of iterable.now)).type) }
    ensures finds { OnOk result (Found S.TypeStore walk.old env.now walk.new
        (λ f k. iterable_finds f k (expr_of iterable.now)
        ++ codes_at (place_of (expr_of iterable.now)) (item_label_of f k (expr_of iterable.now)).codes)) }
    ensures goes_on { WalkKept S.TypeStore walk.old walk.new }
{
    let label = type_item(walk, env, iterable)?;
    find_codes(iterable.place(), &label.codes, walk.found)?;
    Ok(label.ty)
}
