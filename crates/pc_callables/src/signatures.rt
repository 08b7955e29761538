//! The signatures of functions.
#![tactic(auto, using(pc_rules::proofs::TypingStates::goes_further))]

ghost use Rattle.std.specs.Prelude.{◌≡◌, ◌++◌, ◌∷◌, [], map, IfOk, OnOk};
ghost use Rattle.pc_tree.specs.Tree.{ann_of, option_ann_of, param_of, func_of, item_of};
ghost use Rattle.pc_scope.specs.Bindings.{functions_in};
ghost use Rattle.pc_types.specs.Store.{Means};
ghost use Rattle.pc_annotations.specs.Annotations.{read_ann, read_option};
ghost use Rattle.pc_annotations.specs.ModuleOutlines.{module_in, IsModuleOutline};
ghost use Rattle.pc_annotations.specs.Listed.{ann_findings, option_findings};
ghost use Rattle.pc_class.specs.Bases.{bases_of};
ghost use Rattle.pc_class.specs.Facts.{typed_parameter, parameters_of};
ghost use Rattle.pc_notes.specs.Notes.{plain_note};
ghost use Rattle.pc_rules.specs.Signatures.{signature_of, signatures_of};
ghost use Rattle.pc_rules.specs.Computed.Signatures.{is_in_names, param_findings, params_findings, def_findings};
ghost use Rattle.pc_rules.specs.Computed.Signatures.{function_findings, functions_findings};
ghost use Rattle.pc_callables.specs.SignaturesRead.{IsParameter, AreParameters};
ghost use Rattle.pc_callables.specs.SignaturesRead.{IsSignature};
ghost use Rattle.pc_callables.specs.SignaturesRead.{AreSignatures, HasSignatures, signatures_with};
ghost use Rattle.pc_rules.specs.Computed.TypingStates.{AddsNotes, StateKept};

use crate::bound::{BoundNames, bind};
use crate::defaults::{binds, find_default};
use indexmap::IndexSet;
use pc_annotations::ModuleOutline;
use pc_class::{Parameter, ParameterList, read_param};
use pc_rules::{Signature, TypingState};
use pc_source::OutOfMemory;
use pc_tree::{Ann, FuncDef, Item, ItemKind, Param};
use pc_types::TypeStore;

/// Reads an annotation. Appends the findings in it and returns its type.
pub fn read_annotation<S: TypeStore>(
    state: &mut TypingState<'_, S>,
    outline: &ModuleOutline,
    ann: &Ann,
) -> Result<S::Ty, OutOfMemory>
    requires { IsModuleOutline outline.now }
    ensures typed { IfOk result
        (λ t. Means S.has S.tree state.new.store.now t
        (read_ann (module_in outline.now) (bases_of (module_in outline.now)) (ann_of ann.now))) }
    ensures found { OnOk result (AddsNotes state.old state.new
        (map plain_note (ann_findings (module_in outline.now) (bases_of (module_in outline.now)) (ann_of ann.now)))) }
    ensures goes_on { StateKept S.TypeStore state.old state.new }
{
    let mut in_it = Vec::new(state.alloc);
    let ty = pc_annotations::read_ann(state.store, state.alloc, outline, &mut in_it, ann)?;
    state.found.put_all(&in_it)?;
    Ok(ty)
}

/// Reads an annotation that may be missing. Appends the findings in it and returns its type, `Any` if it is missing.
pub(crate) fn read_optional<S: TypeStore>(
    state: &mut TypingState<'_, S>,
    outline: &ModuleOutline,
    ann: &Option<Ann>,
) -> Result<S::Ty, OutOfMemory>
    requires { IsModuleOutline outline.now }
    ensures typed { IfOk result
        (λ t. Means S.has S.tree state.new.store.now t
        (read_option (module_in outline.now) (bases_of (module_in outline.now)) (option_ann_of ann.now))) }
    ensures found { OnOk result (AddsNotes state.old state.new
        (map plain_note (option_findings (module_in outline.now) (bases_of (module_in outline.now))
        (option_ann_of ann.now)))) }
    ensures goes_on { StateKept S.TypeStore state.old state.new }
{
    let mut in_it = Vec::new(state.alloc);
    let ty = pc_annotations::read_option(state.store, state.alloc, outline, &mut in_it, ann)?;
    state.found.put_all(&in_it)?;
    Ok(ty)
}

/// Reads a parameter, after names that are already bound. Appends the findings in its annotation and at its default,
/// and returns it with its type.
fn check_param<S: TypeStore>(
    state: &mut TypingState<'_, S>,
    outline: &ModuleOutline,
    bound: &BoundNames,
    param: &Param,
) -> Result<Parameter<S::Ty>, OutOfMemory>
    requires { IsModuleOutline outline.now }
    ensures typed { IfOk result
        (λ p. IsParameter S.has S.tree state.new.store.now p (typed_parameter (module_in outline.now)
        (param_of param.now))) }
    ensures found { OnOk result (AddsNotes state.old state.new
        (param_findings (module_in outline.now) (is_in_names bound.now) (param_of param.now))) }
    ensures goes_on { StateKept S.TypeStore state.old state.new }
{
    let mut in_it = Vec::new(state.alloc);
    let parameter = read_param(state.store, state.alloc, outline, &mut in_it, param)?;
    state.found.put_all(&in_it)?;
    let binds = binds(bound, param.name.text.as_str());
    find_default(state, outline.parents, binds, &param.default, &parameter.ty)?;
    Ok(parameter)
}

/// Reads parameters, after names that are already bound. Appends the findings in their annotations and at their
/// defaults, and returns them with their types. Their names are added to the bound ones.
fn read_params<S: TypeStore>(
    state: &mut TypingState<'_, S>,
    outline: &ModuleOutline,
    bound: &mut BoundNames,
    params: &[Param],
) -> Result<Vec<Parameter<S::Ty>>, OutOfMemory>
    requires { IsModuleOutline outline.now }
    ensures typed { IfOk result
        (λ ps. AreParameters S.has S.tree state.new.store.now ps.items
        (parameters_of (module_in outline.now) (map param_of params.now))) }
    ensures found { OnOk result (AddsNotes state.old state.new
        (params_findings (module_in outline.now) (is_in_names bound.old) (map param_of params.now))) }
    ensures goes_on { StateKept S.TypeStore state.old state.new }
{
    let mut all = Vec::new(state.alloc);
    for param in params {
        let one = check_param(state, outline, bound, param)?;
        all.push(one)?;
        bind(bound, state.alloc, param.name.text.as_str())?;
    }
    Ok(all)
}

/// Reads the signature of a function, after names that are already bound. Appends the findings in its annotations and
/// at its defaults, and returns it. Language Reference 3.12, 8.7 "Function definitions".
pub(crate) fn read_signature<S: TypeStore>(
    state: &mut TypingState<'_, S>,
    outline: &ModuleOutline,
    bound: &mut BoundNames,
    def: &FuncDef,
) -> Result<Signature<S::Ty>, OutOfMemory>
    requires { IsModuleOutline outline.now }
    ensures typed { IfOk result
        (λ s. IsSignature S.has S.tree state.new.store.now s (signature_of (module_in outline.now) (func_of def.now))) }
    ensures found { OnOk result (AddsNotes state.old state.new
        (def_findings (module_in outline.now) (is_in_names bound.old) (func_of def.now))) }
    ensures goes_on { StateKept S.TypeStore state.old state.new }
{
    let params = read_params(state, outline, bound, &def.params)?;
    let params = ParameterList::new(state.alloc, outline.tree.keys, params)?;
    let ret = read_optional(state, outline, &def.returns)?;
    Ok(Signature { params, ret })
}

/// Reads the signature of an item that is a function and appends it to `functions`, and its findings to the state;
/// does nothing for any other item.
fn add_function<S: TypeStore>(
    state: &mut TypingState<'_, S>,
    outline: &ModuleOutline,
    item: &Item,
    functions: &mut Vec<Signature<S::Ty>>,
) -> Result<(), OutOfMemory>
    requires outline { IsModuleOutline outline.now }
    requires held { HasSignatures (S.has state.old.store.now) functions.old.items }
    ensures held { OnOk result (HasSignatures (S.has state.new.store.now) functions.new.items) }
    ensures typed { OnOk result
        (signatures_with S.tree functions.new.items
        ≡ signatures_with S.tree functions.old.items
        ++ map (signature_of (module_in outline.now)) (functions_in (item_of item.now ∷ []))) }
    ensures found { OnOk result (AddsNotes state.old state.new
        (function_findings (module_in outline.now) (item_of item.now))) }
    ensures goes_on { StateKept S.TypeStore state.old state.new }
{
    match &item.kind {
        ItemKind::Constant(_) => Ok(()),
        ItemKind::Class(_) => Ok(()),
        ItemKind::Def(def) => {
            let mut bound = IndexSet::with_hasher(state.alloc, outline.tree.keys);
            let signature = read_signature(state, outline, &mut bound, def)?;
            functions.push(signature)?;
            Ok(())
        }
    }
}

/// Reads the functions of a module. Appends the findings in their annotations and at their defaults, and returns their
/// signatures in text order.
#[tactic(auto, using(pc_rules::proofs::TypingStates::goes_further), unfolding(pc_rules::specs::Signatures::signatures_of))]
pub fn read_functions<S: TypeStore>(
    state: &mut TypingState<'_, S>,
    outline: &ModuleOutline,
) -> Result<Vec<Signature<S::Ty>>, OutOfMemory>
    requires { IsModuleOutline outline.now }
    ensures typed { IfOk result
        (λ fs. AreSignatures S.has S.tree state.new.store.now fs.items (signatures_of (module_in outline.now))) }
    ensures found { OnOk result (AddsNotes state.old state.new
        (functions_findings (module_in outline.now) (module_in outline.now).items)) }
    ensures goes_on { StateKept S.TypeStore state.old state.new }
{
    let items = outline.tree.items.as_slice();
    let mut functions = Vec::new(state.alloc);
    for item in items {
        add_function(state, outline, item, &mut functions)?;
    }
    Ok(functions)
}
