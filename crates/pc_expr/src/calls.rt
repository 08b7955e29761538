//! The labels of calls, and the findings in their callees and arguments.
#![tactic(auto, using(pc_rules::proofs::Kept::stands_further, pc_rules::proofs::TypingStates::goes_further))]

ghost use Rattle.std.specs.Prelude.{◌≡◌, IfOk, OnOk, None, [], true, map, length, All, Option};
ghost use Rattle.pc_tree.specs.Tree.{expr_of};
ghost use Rattle.pc_tree.specs.Lists.{exprs_of_list, keywords_of_list};
ghost use Rattle.pc_types.specs.Tree.{Tree};
ghost use Rattle.pc_rules.specs.Calls.{positional_seat, named_seat};
ghost use Rattle.pc_rules.specs.Computed.Standing.{standing_of, label_in, parts_find, arguments_find, keywords_find};
ghost use Rattle.pc_calls.specs.JudgedCalls.{given_with, offer_called, HasCallOffer, IsCallee};
ghost use Rattle.pc_expr.specs.Typing.{callee_in};
ghost use Rattle.pc_expr.specs.Internal.Seats.{AreTyped};
ghost use Rattle.pc_expr.specs.Internal.Forms.{IsCall};
ghost use Rattle.pc_rules.specs.Computed.TypingStates.{AddsNotes, StateKept, IsLabel, HoldsAll};

use crate::call_labels::{callee_of_other, is_test, shows, type_whole_call};
use crate::items::{Typed, is_second_early};
use crate::typing::{check_expr, type_expr, type_seated};
use indexmap::IndexSet;
use pc_calls::given::given;
use pc_calls::{
    CallOffer, Given, TypedCallee, callee_of_method, callee_of_name, keyword_seat, positional_seat,
};
use pc_flow::Env;
use pc_notes::Notes;
use pc_rules::{ExprContext, Label, TypingState, is_early, note_label};
use pc_source::OutOfMemory;
use pc_tree::{Expr, KeywordArgument};
use pc_types::TypeStore;

/// Types a call. Appends the findings of its callee and its arguments, and returns its label. Language Reference 6.3.4
/// "Calls".
#[cycle(typing)]
pub(crate) fn type_call<S: TypeStore>(
    state: &mut TypingState<'_, S>,
    context: &ExprContext<'_, S::Ty>,
    env: &Env<S::Ty>,
    e: &Expr,
) -> Result<Label<S::Ty>, OutOfMemory>
    requires given { HoldsAll S.TypeStore state.old context.now env.now }
    requires form { IsCall e.now }
    ensures labelled { (expected : Option Tree) → IfOk result
        (λ l. IsLabel S.TypeStore state.new l
        (label_in (standing_of S.tree context.now env.now) expected (expr_of e.now))) }
    ensures found { (expected : Option Tree) → OnOk result (AddsNotes state.old state.new
        (parts_find (standing_of S.tree context.now env.now) expected (expr_of e.now))) }
    ensures goes_on { StateKept S.TypeStore state.old state.new }
{
    match e {
        Expr::Call {
            place,
            callee,
            arguments,
            keywords: by_name,
        } => {
            let keys = context.globals.outline.tree.keys;
            let given = given(state.alloc, keys, arguments, by_name)?;
            let called = type_callee(state, context, env, &given, callee)?;
            note_label(
                state.store,
                state.alloc,
                context.globals.keeps,
                shows(callee),
                callee.place(),
                &called.label,
                state.found,
            )?;
            let is_test = is_test(callee, arguments, by_name);
            let typed = type_arguments(state, context, env, is_test, &called.offers, arguments)?;
            type_keywords(state, context, env, &called.offers, by_name)?;
            type_whole_call(state, context, env, *place, &called, arguments, &typed)
        }
        // `form` leaves no other form; the recursion ends by the size of the whole expression.
        _ => unreachable!(),
    }
}

/// Types the callee of a call. Appends the findings in its parts and returns it: a name, a method, or a value. In an
/// initializer a callee other than a name is in error.
#[cycle(typing)]
fn type_callee<'t, S: TypeStore>(
    state: &mut TypingState<'_, S>,
    context: &ExprContext<'t, S::Ty>,
    env: &Env<S::Ty>,
    given: &Given,
    callee: &Expr,
) -> Result<TypedCallee<'t, S::Ty>, OutOfMemory>
    requires given { HoldsAll S.TypeStore state.old context.now env.now }
    ensures called { IfOk result
        (λ c. IsCallee S.has S.tree state.new.store.now c
        (callee_in (standing_of S.tree context.now env.now) (given_with given.now) (expr_of callee.now))) }
    ensures found { OnOk result (AddsNotes state.old state.new
        (parts_find (standing_of S.tree context.now env.now) None (expr_of callee.now))) }
    ensures goes_on { StateKept S.TypeStore state.old state.new }
{
    match callee {
        Expr::Name(name) => callee_of_name(state.store, state.alloc, context, env, given, name),
        Expr::Attribute {
            object,
            name: field,
            ..
        } => {
            if context.in_body {
                let label = check_expr(state, context, env, &None, object)?;
                return callee_of_method(state.store, state.alloc, context, given, field, &label.ty);
            }
            let label = type_expr(state, context, env, &None, callee)?;
            callee_of_other(state.store, state.alloc, context, label)
        }
        Expr::Int(_, _)
        | Expr::Str(_, _)
        | Expr::True(_)
        | Expr::False(_)
        | Expr::NoneValue(_)
        | Expr::Tuple(_, _)
        | Expr::List(_, _)
        | Expr::Dict(_, _)
        | Expr::Negative(_, _)
        | Expr::Not(_, _)
        | Expr::Binary { .. }
        | Expr::Compare { .. }
        | Expr::IsNone(_, _)
        | Expr::IsNotNone(_, _)
        | Expr::And { .. }
        | Expr::Or { .. }
        | Expr::Index { .. }
        | Expr::Call { .. } => {
            let label = type_expr(state, context, env, &None, callee)?;
            callee_of_other(state.store, state.alloc, context, label)
        }
    }
}

/// Types the two arguments of an instance test. Appends the findings in the first only. Returns their types, and
/// whether the second is E03.
#[cycle(typing)]
fn type_tested<S: TypeStore>(
    state: &mut TypingState<'_, S>,
    context: &ExprContext<'_, S::Ty>,
    env: &Env<S::Ty>,
    offers: &[CallOffer<'_, S::Ty>],
    arguments: &[Expr],
) -> Result<Typed<S::Ty>, OutOfMemory>
    requires given { HoldsAll S.TypeStore state.old context.now env.now }
    requires offers { All (HasCallOffer (S.has state.old.store.now)) offers.now }
    requires two { length arguments.now ≡ 2 }
    ensures typed { IfOk result
        (λ t. AreTyped S.has S.tree state.new.store.now (standing_of S.tree context.now env.now) t
        (positional_seat (map (offer_called S.tree) offers.now)) (exprs_of_list arguments.now)) }
    ensures found { OnOk result (AddsNotes state.old state.new
        (arguments_find (standing_of S.tree context.now env.now) true
        (positional_seat (map (offer_called S.tree) offers.now)) (exprs_of_list arguments.now))) }
    ensures goes_on { StateKept S.TypeStore state.old state.new }
{
    let seat = positional_seat(state.store, state.alloc, offers, 0)?;
    let tested = check_expr(state, context, env, &seat.want, &arguments[0])?;
    let seat = positional_seat(state.store, state.alloc, offers, 1)?;
    let mut unseen = Notes::new(state.alloc);
    let mut apart = TypingState {
        store: state.store,
        alloc: state.alloc,
        found: &mut unseen,
    };
    let kind = check_expr(&mut apart, context, env, &seat.want, &arguments[1])?;
    let early = is_early(&kind.codes);
    let mut types = Vec::new(state.alloc);
    types.push(tested.ty)?;
    types.push(kind.ty)?;
    Ok(Typed { types, early })
}

/// Types the arguments by position of a call with these offers. Appends the findings in them and of their flows; of an
/// instance test those in the first only. Returns their types, and whether the second is E03.
#[cycle(typing)]
pub(crate) fn type_arguments<S: TypeStore>(
    state: &mut TypingState<'_, S>,
    context: &ExprContext<'_, S::Ty>,
    env: &Env<S::Ty>,
    is_test: bool,
    offers: &[CallOffer<'_, S::Ty>],
    arguments: &[Expr],
) -> Result<Typed<S::Ty>, OutOfMemory>
    requires given { HoldsAll S.TypeStore state.old context.now env.now }
    requires offers { All (HasCallOffer (S.has state.old.store.now)) offers.now }
    requires two { is_test ≡ true → length arguments.now ≡ 2 }
    ensures typed { IfOk result
        (λ t. AreTyped S.has S.tree state.new.store.now (standing_of S.tree context.now env.now) t
        (positional_seat (map (offer_called S.tree) offers.now)) (exprs_of_list arguments.now)) }
    ensures found { OnOk result (AddsNotes state.old state.new
        (arguments_find (standing_of S.tree context.now env.now) is_test
        (positional_seat (map (offer_called S.tree) offers.now)) (exprs_of_list arguments.now))) }
    ensures goes_on { StateKept S.TypeStore state.old state.new }
{
    if is_test {
        return type_tested(state, context, env, offers, arguments);
    }
    let mut types = Vec::new(state.alloc);
    let mut early = false;
    for argument in arguments {
        let seat = positional_seat(state.store, state.alloc, offers, types.len())?;
        let label = type_seated(state, context, env, &seat, argument)?;
        early = is_second_early(types.len(), &label.codes, early);
        types.push(label.ty)?;
    }
    Ok(Typed { types, early })
}

/// Types the arguments by name of a call with these offers. Appends the findings in them and of their flows.
#[cycle(typing)]
pub(crate) fn type_keywords<S: TypeStore>(
    state: &mut TypingState<'_, S>,
    context: &ExprContext<'_, S::Ty>,
    env: &Env<S::Ty>,
    offers: &[CallOffer<'_, S::Ty>],
    by_name: &[KeywordArgument],
) -> Result<(), OutOfMemory>
    requires given { HoldsAll S.TypeStore state.old context.now env.now }
    requires offers { All (HasCallOffer (S.has state.old.store.now)) offers.now }
    ensures found { OnOk result (AddsNotes state.old state.new
        (keywords_find (standing_of S.tree context.now env.now)
        (named_seat (map (offer_called S.tree) offers.now)) [] (keywords_of_list by_name.now))) }
    ensures goes_on { StateKept S.TypeStore state.old state.new }
{
    let mut before = IndexSet::with_hasher(state.alloc, context.globals.outline.tree.keys);
    for argument in by_name {
        let seat = keyword_seat(state.store, state.alloc, offers, &before, &argument.name)?;
        type_seated(state, context, env, &seat, &argument.value)?;
        before.insert(argument.name.text.as_str())?;
    }
    Ok(())
}
