//! Flows of a labelled expression into types.
#![tactic(auto, using(crate::proofs::TypingStates::goes_further))]

ghost use Rattle.std.specs.Prelude.{◌≡◌, All, IfOk, OnOk, map};
ghost use Rattle.pc_types.specs.Computed.{static_test, assignable_test};
ghost use Rattle.pc_types.specs.Store.{KeepsTypes};
ghost use Rattle.pc_rules.specs.Computed.TypingStates.{AddsNotes, StateKept};
ghost use Rattle.pc_rules.specs.Operations.{Label as LabelOf};
ghost use Rattle.pc_rules.specs.Context.{is_early};
ghost use Rattle.pc_rules.specs.Computed.Expressions.{code_unless, flows_of};
ghost use Rattle.pc_rules.specs.Computed.Findings.{own_flow, flow_at, flows_at, brief};
ghost use Rattle.pc_rules.specs.Computed.Standing.{label_with};

use crate::label::{Label, has_code, is_early, is_of_scopes};
use crate::typing_state::TypingState;
use pc_source::{OutOfMemory, Place};
use pc_tree::{Code, Finding};
use pc_types::{Parents, TypeStore};

/// Returns the code of a flow of a labelled expression into a type: none if its type is a static subtype or the label
/// is E03, A1 if it is assignable but no static subtype, else E12.
fn flow_code<S: TypeStore>(
    store: &mut S,
    parents: &Parents,
    label: &Label<S::Ty>,
    into: &S::Ty,
) -> Option<Code>
    requires label { S.has store.old label.now.ty }
    requires into { S.has store.old into.now }
    ensures value { result ≡ code_unless (static_test parents.now) (assignable_test parents.now)
        (is_early label.now.codes.items) (S.tree label.now.ty) (S.tree into.now) }
    ensures kept { KeepsTypes S.has store.old store.new }
{
    if is_early(&label.codes) || store.is_static(parents, &label.ty, into) {
        return None;
    }
    if store.is_assignable(parents, &label.ty, into) {
        return Some(Code::A1);
    }
    Some(Code::E12)
}

/// Appends the finding of a flow with this code, with its two types. E02 and E03 are left to scope analysis.
fn note_flow<S: TypeStore>(
    state: &mut TypingState<'_, S>,
    place: Place,
    code: Code,
    from: &S::Ty,
    into: &S::Ty,
) -> Result<(), OutOfMemory>
    requires from { S.has state.old.store.now from.now }
    requires into { S.has state.old.store.now into.now }
    ensures found { OnOk result
        (AddsNotes state.old state.new (own_flow place (S.tree from.now) (S.tree into.now) code)) }
    ensures goes_on { StateKept S.TypeStore state.old state.new }
{
    if is_of_scopes(code) {
        return Ok(());
    }
    let finding = Finding { place, code };
    state
        .found
        .put_flow(state.store, state.alloc, finding, from, into)
}

/// Checks the flow of a labelled expression at `place` into the type `into`. If the flow is not static, appends its
/// code with both types and returns it: A1 if the expression's type is assignable, else E12. Returns `None` if the flow
/// is static, or if the expression is E03. Typing specification, "Type system concepts", assignability; own rule of the
/// profile.
pub fn find_flow<S: TypeStore>(
    state: &mut TypingState<'_, S>,
    parents: &Parents,
    place: Place,
    label: &Label<S::Ty>,
    into: &S::Ty,
) -> Result<Option<Code>, OutOfMemory>
    requires label { S.has state.old.store.now label.now.ty }
    requires into { S.has state.old.store.now into.now }
    ensures value { IfOk result
        (λ c. c ≡ code_unless (static_test parents.now) (assignable_test parents.now) (is_early label.now.codes.items)
        (S.tree label.now.ty) (S.tree into.now)) }
    ensures found { IfOk result
        (λ c. AddsNotes state.old state.new (flow_at place (S.tree label.now.ty) (S.tree into.now) c)) }
    ensures goes_on { StateKept S.TypeStore state.old state.new }
{
    let code = flow_code(state.store, parents, label, into);
    if let Some(code) = code {
        note_flow(state, place, code, &label.ty, into)?;
    }
    Ok(code)
}

/// Checks the flows of a labelled expression at this place into several types. Appends each code once, for the first
/// flow that has it.
pub fn find_flows<S: TypeStore>(
    state: &mut TypingState<'_, S>,
    parents: &Parents,
    place: Place,
    label: &Label<S::Ty>,
    into: &[S::Ty],
) -> Result<(), OutOfMemory>
    requires label { S.has state.old.store.now label.now.ty }
    requires into { All (S.has state.old.store.now) into.now }
    ensures found { (m : LabelOf) → label_with S.tree label.now ≡ brief m
        → OnOk result (AddsNotes state.old state.new (flows_at place (flows_of parents.now m (map S.tree into.now)))) }
    ensures goes_on { StateKept S.TypeStore state.old state.new }
{
    let mut codes = Vec::new(state.alloc);
    for ty in into {
        if let Some(code) = flow_code(state.store, parents, label, ty) {
            if !has_code(&codes, code) {
                codes.push(code)?;
                note_flow(state, place, code, &label.ty, ty)?;
            }
        }
    }
    Ok(())
}
