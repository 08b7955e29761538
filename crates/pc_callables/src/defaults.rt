//! Defaults of parameters and fields.
#![tactic(auto, using(pc_rules::proofs::TypingStates::goes_further))]

ghost use Rattle.std.specs.Prelude.{◌≡◌, ◌∷◌, [], map, All, IfOk, OnOk};
ghost use Rattle.pc_tree.specs.Tree.{literal_of, option_literal_of, param_of};
ghost use Rattle.pc_types.specs.Store.{Means, KeepsTypes};
ghost use Rattle.pc_annotations.specs.ModuleOutlines.{module_in, IsModuleOutline};
ghost use Rattle.pc_class.specs.Facts.{parameters_of};
ghost use Rattle.pc_class.specs.Tables.{HasParameter, parameters_with};
ghost use Rattle.pc_rules.specs.Operations.{Label as LabelOf, clean};
ghost use Rattle.pc_rules.specs.Computed.Expressions.{flows_of};
ghost use Rattle.pc_rules.specs.Computed.Findings.{brief, flows_at};
ghost use Rattle.pc_rules.specs.Signatures.{literal_type};
ghost use Rattle.pc_rules.specs.Computed.Signatures.{is_in_names, binds_text, literal_findings, default_findings};
ghost use Rattle.pc_rules.specs.Computed.Signatures.{params_defaults};
ghost use Rattle.pc_rules.specs.Computed.Standing.{MeansLabel, label_with};
ghost use Rattle.pc_rules.specs.Computed.TypingStates.{AddsNotes, StateKept};

use crate::bound::{BoundNames, bind, is_bound};
use pc_annotations::ModuleOutline;
use pc_class::Parameter;
use pc_rules::{Label, TypingState, find_flow};
use pc_source::{OutOfMemory, Place, is_reserved};
use pc_tree::{Literal, LiteralKind, Param};
use pc_types::{Parents, TypeStore};
use std::alloc::Global;

/// Returns whether a text is bound as a name here: it is not reserved, and not already bound.
#[tactic(auto, using(pc_class::proofs::ReservedNames::reserved_same))]
pub fn binds(bound: &BoundNames, name: &str) -> bool
    ensures { result ≡ binds_text (is_in_names bound.now) name.now }
{
    !(is_reserved(name) || is_bound(bound, name))
}

/// Returns the type of a default's literal.
fn literal_type<S: TypeStore>(
    store: &mut S,
    alloc: Global,
    literal: &Literal,
) -> Result<S::Ty, OutOfMemory>
    ensures typed { IfOk result (λ t. Means S.has S.tree store.new t (literal_type (literal_of literal.now))) }
    ensures kept { KeepsTypes S.has store.old store.new }
{
    match &literal.kind {
        LiteralKind::Int(_) => store.int(alloc),
        LiteralKind::NegativeInt(_) => store.int(alloc),
        LiteralKind::Str(_) => store.str(alloc),
        LiteralKind::True => store.bool(alloc),
        LiteralKind::False => store.bool(alloc),
        LiteralKind::NoneValue => store.none(alloc),
    }
}

/// Returns the label of a default's literal: its type, without codes.
fn literal_label<S: TypeStore>(
    store: &mut S,
    alloc: Global,
    literal: &Literal,
) -> Result<Label<S::Ty>, OutOfMemory>
    ensures labelled { IfOk result
        (λ l. MeansLabel S.has S.tree store.new l (clean (literal_type (literal_of literal.now)))) }
    ensures kept { KeepsTypes S.has store.old store.new }
{
    let ty = literal_type(store, alloc, literal)?;
    Ok(Label {
        ty,
        codes: Vec::new(alloc),
    })
}

/// Checks the flow of a labelled expression at this place into one type, and appends the finding, if there is one.
pub fn find_into<S: TypeStore>(
    state: &mut TypingState<'_, S>,
    parents: &Parents,
    place: Place,
    label: &Label<S::Ty>,
    into: &S::Ty,
) -> Result<(), OutOfMemory>
    requires label { S.has state.old.store.now label.now.ty }
    requires into { S.has state.old.store.now into.now }
    ensures found { (m : LabelOf) → label_with S.tree label.now ≡ brief m
        → OnOk result (AddsNotes state.old state.new
        (flows_at place (flows_of parents.now m (S.tree into.now ∷ [])))) }
    ensures goes_on { StateKept S.TypeStore state.old state.new }
{
    find_flow(state, parents, place, label, into)?;
    Ok(())
}

/// Checks the flow of a default's literal into its type, and appends the finding, if there is one.
fn find_literal<S: TypeStore>(
    state: &mut TypingState<'_, S>,
    parents: &Parents,
    literal: &Literal,
    into: &S::Ty,
) -> Result<(), OutOfMemory>
    requires { S.has state.old.store.now into.now }
    ensures found { OnOk result (AddsNotes state.old state.new
        (literal_findings parents.now (literal_of literal.now) (S.tree into.now))) }
    ensures goes_on { StateKept S.TypeStore state.old state.new }
{
    let label = literal_label(state.store, state.alloc, literal)?;
    find_into(state, parents, literal.place, &label, into)
}

/// Checks the flow of a default into its type, and appends the finding at the literal, if there is one. Nothing flows
/// if there is no default or its name is not bound. Language Reference 3.12, 8.7 "Function definitions"; library
/// reference, `dataclasses`.
pub(crate) fn find_default<S: TypeStore>(
    state: &mut TypingState<'_, S>,
    parents: &Parents,
    binds: bool,
    default: &Option<Literal>,
    into: &S::Ty,
) -> Result<(), OutOfMemory>
    requires { S.has state.old.store.now into.now }
    ensures found { OnOk result (AddsNotes state.old state.new
        (default_findings parents.now binds (option_literal_of default.now) (S.tree into.now))) }
    ensures goes_on { StateKept S.TypeStore state.old state.new }
{
    match default {
        None => Ok(()),
        Some(literal) => {
            if binds {
                find_literal(state, parents, literal, into)
            } else {
                Ok(())
            }
        }
    }
}

/// Checks the defaults of parameters of these types, after names that are already bound. Appends the findings, and adds
/// the names of the parameters to the bound ones.
pub(crate) fn find_defaults<S: TypeStore>(
    state: &mut TypingState<'_, S>,
    outline: &ModuleOutline,
    bound: &mut BoundNames,
    params: &[Param],
    typed: &[Parameter<S::Ty>],
) -> Result<(), OutOfMemory>
    requires outline { IsModuleOutline outline.now }
    requires given { All (HasParameter (S.has state.old.store.now)) typed.now }
    requires same { parameters_with S.tree typed.now ≡ parameters_of (module_in outline.now) (map param_of params.now) }
    ensures found { OnOk result (AddsNotes state.old state.new
        (params_defaults (module_in outline.now) (is_in_names bound.old) (map param_of params.now))) }
    ensures goes_on { StateKept S.TypeStore state.old state.new }
{
    for number in 0..params.len() {
        let param = &params[number];
        let binds = binds(bound, param.name.text.as_str());
        let ty = &typed[number].ty;
        find_default(state, outline.parents, binds, &param.default, ty)?;
        bind(bound, state.alloc, param.name.text.as_str())?;
    }
    Ok(())
}
