//! A call of `range` as the iterable of a `for`.
#![tactic(auto, using(pc_rules::proofs::TypingStates::goes_further))]

ghost use Rattle.std.specs.Prelude.{IfOk, OnOk};
ghost use Rattle.pc_tree.specs.Tree.{expr_of};
ghost use Rattle.pc_tree.specs.Lists.{exprs_of_list, keywords_of_list};
ghost use Rattle.pc_rules.specs.Calls.{arguments_given, range_item};
ghost use Rattle.pc_rules.specs.Computed.Standing.{standing_of};
ghost use Rattle.pc_rules.specs.Computed.Ranges.{range_finds};
ghost use Rattle.pc_rules.specs.Computed.TypingStates.{AddsNotes, StateKept, IsLabel, HoldsAll};

use crate::calls::{type_arguments, type_keywords};
use pc_calls::given::given;
use pc_calls::{call_codes, range_item, range_offers};
use pc_flow::Env;
use pc_rules::{ExprContext, Label, TypingState, find_codes};
use pc_scope::is_instance_test;
use pc_source::{OutOfMemory, Place};
use pc_tree::{Expr, KeywordArgument};
use pc_types::TypeStore;

/// A call of `range`: its place and its parts.
#[derive(Drop)]
pub struct RangeCall<'e> {
    pub place: Place,
    pub callee: &'e Expr,
    pub arguments: &'e [Expr],
    pub by_name: &'e [KeywordArgument],
}

/// Appends the findings of a call of `range` as the iterable of a `for`: in its arguments, of their flows into `int`,
/// and at the call.
fn find_range<S: TypeStore>(
    state: &mut TypingState<'_, S>,
    context: &ExprContext<'_, S::Ty>,
    env: &Env<S::Ty>,
    range: &RangeCall<'_>,
) -> Result<(), OutOfMemory>
    requires { HoldsAll S.TypeStore state.old context.now env.now }
    ensures found { OnOk result (AddsNotes state.old state.new
        (range_finds (standing_of S.tree context.now env.now) range.now.place
        (expr_of range.now.callee.now) (exprs_of_list range.now.arguments.now)
        (keywords_of_list range.now.by_name.now))) }
    ensures goes_on { StateKept S.TypeStore state.old state.new }
{
    let keys = context.globals.outline.tree.keys;
    let given = given(state.alloc, keys, range.arguments, range.by_name)?;
    let offers = range_offers(state.store, state.alloc, &given)?;
    let is_test = is_instance_test(range.callee, range.arguments, range.by_name);
    type_arguments(state, context, env, is_test, &offers, range.arguments)?;
    type_keywords(state, context, env, &offers, range.by_name)?;
    let codes = call_codes(state.alloc, &offers)?;
    find_codes(range.place, &codes, state.found)
}

/// Types a call of `range` as the iterable of a `for`. Appends the findings in its arguments, of their flows into
/// `int`, and at the call; returns the label of its items. Library reference, "Built-in Functions"; own rule of the
/// profile.
pub fn type_range<S: TypeStore>(
    state: &mut TypingState<'_, S>,
    context: &ExprContext<'_, S::Ty>,
    env: &Env<S::Ty>,
    range: &RangeCall<'_>,
) -> Result<Label<S::Ty>, OutOfMemory>
    requires { HoldsAll S.TypeStore state.old context.now env.now }
    ensures label { IfOk result
        (λ l. IsLabel S.TypeStore state.new l
        (range_item (arguments_given (exprs_of_list range.now.arguments.now) (keywords_of_list range.now.by_name.now)))) }
    ensures found { OnOk result (AddsNotes state.old state.new
        (range_finds (standing_of S.tree context.now env.now) range.now.place
        (expr_of range.now.callee.now) (exprs_of_list range.now.arguments.now)
        (keywords_of_list range.now.by_name.now))) }
    ensures goes_on { StateKept S.TypeStore state.old state.new }
{
    find_range(state, context, env, range)?;
    let keys = context.globals.outline.tree.keys;
    range_item(
        state.store,
        state.alloc,
        keys,
        range.arguments,
        range.by_name,
    )
}
