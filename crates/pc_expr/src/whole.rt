//! The label of a call, by the rule of its callee.

ghost use Rattle.std.specs.Prelude.{◌≡◌, map, All, IfOk};
ghost use Rattle.pc_tree.specs.Lists.{exprs_of_list};
ghost use Rattle.pc_types.specs.Store.{KeepsTypes, Means};
ghost use Rattle.pc_class.specs.Tables.{HasEntries};
ghost use Rattle.pc_flow.specs.Stored.{HasEach, env_of};
ghost use Rattle.pc_rules.specs.Calls.{first_type, length_label};
ghost use Rattle.pc_rules.specs.Computed.TypingStates.{StateKept, IsLabel};
ghost use Rattle.pc_rules.specs.Lawful.{whole_call_label};
ghost use Rattle.pc_rules.specs.Computed.Standing.{context_with, MeansLabel};
ghost use Rattle.pc_rules.specs.Computed.ModuleParents.{class_parents};
ghost use Rattle.pc_calls.specs.JudgedCalls.{offer_called, rule_of, HasCallOffer};

use pc_calls::{CallRule, TypedCallee, members_label, test_label};
use pc_flow::Env;
use pc_operations::{Operation, member_offers, offers_label};
use pc_rules::{ExprContext, Label, TypingState};
use pc_source::OutOfMemory;
use pc_tree::Expr;
use pc_types::TypeStore;
use std::alloc::Global;

/// Returns the type of the first argument, `Never` if there is none.
fn first_type<S: TypeStore>(
    store: &mut S,
    alloc: Global,
    types: &[S::Ty],
) -> Result<S::Ty, OutOfMemory>
    requires { All (S.has store.old) types.now }
    ensures value { IfOk result (λ t. Means S.has S.tree store.new t (first_type (map S.tree types.now))) }
    ensures kept { KeepsTypes S.has store.old store.new }
{
    if types.len() == 0 {
        return store.never(alloc);
    }
    store.copy(alloc, &types[0])
}

/// Returns the label of a call of `len`, given the types of its arguments. Library reference, "Built-in Functions".
fn length_label<S: TypeStore>(
    store: &mut S,
    alloc: Global,
    context: &ExprContext<'_, S::Ty>,
    types: &[S::Ty],
) -> Result<Label<S::Ty>, OutOfMemory>
    requires classes { HasEntries (S.has store.old) context.now.globals.now.classes.now }
    requires types { All (S.has store.old) types.now }
    ensures label { IfOk result
        (λ l. MeansLabel S.has S.tree store.new l (length_label (class_parents context.now.globals.now)
        (map S.tree types.now))) }
    ensures kept { KeepsTypes S.has store.old store.new }
{
    let ty = first_type(store, alloc, types)?;
    let offers = member_offers(
        store,
        alloc,
        context.globals.outline.parents,
        context.globals.classes,
        Operation::Length,
        &ty,
    )?;
    offers_label(store, alloc, context.globals.outline.parents, &offers)
}

/// Returns the label of a whole call, given its callee, its arguments and their types: for `len` and an instance test
/// the label of that operation, for any other callee the label of its offers. Appends nothing. Language Reference 6.3.4
/// "Calls".
pub(crate) fn whole_call_label<S: TypeStore>(
    state: &mut TypingState<'_, S>,
    context: &ExprContext<'_, S::Ty>,
    env: &Env<S::Ty>,
    callee: &TypedCallee<'_, S::Ty>,
    arguments: &[Expr],
    types: &[S::Ty],
) -> Result<Label<S::Ty>, OutOfMemory>
    requires classes { HasEntries (S.has state.old.store.now) context.now.globals.now.classes.now }
    requires env { HasEach (S.has state.old.store.now) env.now }
    requires offers { All (HasCallOffer (S.has state.old.store.now)) callee.now.offers.items }
    requires types { All (S.has state.old.store.now) types.now }
    ensures label { IfOk result
        (λ l. IsLabel S.TypeStore state.new l
        (whole_call_label (context_with S.tree context.now) (env_of S.tree env.now) (rule_of callee.now.rule)
        (map (offer_called S.tree) callee.now.offers.items) (exprs_of_list arguments.now) (map S.tree types.now))) }
    ensures found { state.new.found.now ≡ state.old.found.now }
    ensures goes_on { StateKept S.TypeStore state.old state.new }
{
    match callee.rule {
        CallRule::Member => {
            members_label(
                state.store,
                state.alloc,
                context.globals.outline.parents,
                &callee.offers,
            )
        }
        CallRule::Length => length_label(state.store, state.alloc, context, types),
        CallRule::Test => { test_label(state.store, state.alloc, context, env, arguments) }
    }
}
