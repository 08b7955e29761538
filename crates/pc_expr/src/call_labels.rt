//! The label of a call, and callees that are no function, class or method.
#![tactic(auto, using(pc_rules::proofs::TypingStates::goes_further))]

ghost use Rattle.std.specs.Prelude.{◌≡◌, ◌++◌, true, length, map, All, IfOk, OnOk};
ghost use Rattle.pc_source.specs.declared.place.Place.{Place};
ghost use Rattle.pc_tree.specs.Tree.{expr_of};
ghost use Rattle.pc_tree.specs.Lists.{exprs_of_list, keywords_of_list};
ghost use Rattle.pc_scope.specs.Expressions.{is_instance_test};
ghost use Rattle.pc_types.specs.Store.{KeepsTypes};
ghost use Rattle.pc_class.specs.Tables.{HasEntries};
ghost use Rattle.pc_flow.specs.Stored.{env_of, HasEach};
ghost use Rattle.pc_notes.specs.Notes.{notes_of};
ghost use Rattle.pc_rules.specs.Operations.{Label as LabelOf};
ghost use Rattle.pc_rules.specs.Labels.{second_place};
ghost use Rattle.pc_rules.specs.Lawful.{whole_call_label};
ghost use Rattle.pc_rules.specs.Computed.Findings.{brief, notes_of_code, shows};
ghost use Rattle.pc_rules.specs.Computed.Standing.{label_with, context_with};
ghost use Rattle.pc_calls.specs.JudgedCalls.{offer_called, rule_of, second_code_of, HasCallOffer, IsCallee};
ghost use Rattle.pc_expr.specs.Typing.{unnamed_callee};
ghost use Rattle.pc_rules.specs.Computed.TypingStates.{AddsNotes, StateKept, IsLabel};
ghost use Rattle.pc_flow.specs.Naming.{meanings};

use crate::items::Typed;
use crate::whole::whole_call_label;
use pc_calls::{TypedCallee, callee_in_error, callee_of_value, second_code};
use pc_flow::Env;
use pc_notes::Notes;
use pc_rules::{ExprContext, Label, TypingState, find_codes};
use pc_scope::is_instance_test;
use pc_source::{OutOfMemory, Place};
use pc_tree::{Code, Expr, KeywordArgument};
use pc_types::TypeStore;
use std::alloc::Global;

/// Returns the callee made of a value with this label, for a callee that is neither a name nor, in a body, an
/// attribute. In an initializer it is E03.
pub(crate) fn callee_of_other<'t, S: TypeStore>(
    store: &mut S,
    alloc: Global,
    context: &ExprContext<'t, S::Ty>,
    label: Label<S::Ty>,
) -> Result<TypedCallee<'t, S::Ty>, OutOfMemory>
    requires { S.has store.old label.ty }
    ensures callee { (m : LabelOf) → label_with S.tree label ≡ brief m
        → IfOk result (λ c. IsCallee S.has S.tree store.new c (unnamed_callee context.now.in_body m)) }
    ensures kept { KeepsTypes S.has store.old store.new }
{
    if context.in_body {
        return callee_of_value(store, alloc, label);
    }
    callee_in_error(store, alloc, Code::E03)
}

/// Returns the place of the second argument of a call, or that of the call if there is none.
fn second_place(arguments: &[Expr], place: Place) -> Place
    ensures { result ≡ second_place (exprs_of_list arguments.now) place }
{
    match arguments {
        [_, second, ..] => second.place(),
        _ => place,
    }
}

/// Appends the finding of a code, if there is one.
fn find_code(place: Place, code: Option<Code>, found: &mut Notes) -> Result<(), OutOfMemory>
    ensures { OnOk result (notes_of found.new ≡ notes_of found.old ++ notes_of_code place code) }
{
    match code {
        None => Ok(()),
        Some(code) => find_codes(place, &[code], found),
    }
}

/// Returns the label of a call, given the types of its arguments. Appends the finding at its second argument, if there
/// is one. Language Reference 6.3.4 "Calls".
pub(crate) fn type_whole_call<S: TypeStore>(
    state: &mut TypingState<'_, S>,
    context: &ExprContext<'_, S::Ty>,
    env: &Env<S::Ty>,
    place: Place,
    callee: &TypedCallee<'_, S::Ty>,
    arguments: &[Expr],
    typed: &Typed<S::Ty>,
) -> Result<Label<S::Ty>, OutOfMemory>
    requires classes { HasEntries (S.has state.old.store.now) context.now.globals.now.classes.now }
    requires env { HasEach (S.has state.old.store.now) env.now }
    requires offers { All (HasCallOffer (S.has state.old.store.now)) callee.now.offers.items }
    requires types { All (S.has state.old.store.now) typed.now.types.items }
    ensures value { IfOk result
        (λ l. IsLabel S.TypeStore state.new l
        (whole_call_label (context_with S.tree context.now) (env_of S.tree env.now) (rule_of callee.now.rule)
        (map (offer_called S.tree) callee.now.offers.items) (exprs_of_list arguments.now)
        (map S.tree typed.now.types.items))) }
    ensures found { OnOk result (AddsNotes state.old state.new
        (notes_of_code (second_place (exprs_of_list arguments.now) place)
        (second_code_of (meanings context.now.names.now) (rule_of callee.now.rule)
        (exprs_of_list arguments.now) typed.now.early))) }
    ensures goes_on { StateKept S.TypeStore state.old state.new }
{
    let code = second_code(context.names, callee.rule, arguments, typed.early);
    find_code(second_place(arguments, place), code, state.found)?;
    whole_call_label(state, context, env, callee, arguments, &typed.types)
}

/// Returns whether a call is an instance test: `isinstance` with two positional arguments and no other.
pub(crate) fn is_test(callee: &Expr, arguments: &[Expr], by_name: &[KeywordArgument]) -> bool
    ensures value { result ≡ is_instance_test (expr_of callee.now) (exprs_of_list arguments.now)
        (keywords_of_list by_name.now) }
    ensures two { result ≡ true → length arguments.now ≡ 2 }
{
    is_instance_test(callee, arguments, by_name)
}

/// Returns whether the type of a callee is shown: not for a name or an attribute.
pub(crate) fn shows(callee: &Expr) -> bool
    ensures { result ≡ shows (expr_of callee.now) }
{
    match callee {
        Expr::Name(_) | Expr::Attribute { .. } => false,
        Expr::Int(_, _)
        | Expr::Str(_, _)
        | Expr::True(_)
        | Expr::False(_)
        | Expr::NoneValue(_)
        | Expr::Tuple(_, _)
        | Expr::List(_, _)
        | Expr::Dict(_, _)
        | Expr::Negative(_, _)
        | Expr::Not(_, _)
        | Expr::Binary { .. }
        | Expr::Compare { .. }
        | Expr::IsNone(_, _)
        | Expr::IsNotNone(_, _)
        | Expr::And { .. }
        | Expr::Or { .. }
        | Expr::Index { .. }
        | Expr::Call { .. } => true,
    }
}
