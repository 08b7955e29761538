//! Bound names: their declared types, their annotations, and the binding of a local to a labelled value.

#![tactic(auto, using(crate::proofs::Walks::goes_further))]

ghost use Rattle.std.specs.Prelude.{◌≡◌, ◌++◌, IfOk, OnOk, None, slice_index_or, unwrap_or};
ghost use Rattle.std.specs.Prelude.{if◌then◌else◌, is_some};
ghost use Rattle.std.specs.Option.{option_copied, option_map};
ghost use Rattle.pc_tree.specs.Tree.{ann_of, name_of, module_of};
ghost use Rattle.pc_types.specs.Tree.{Tree};
ghost use Rattle.pc_types.specs.Store.{Means};
ghost use Rattle.pc_annotations.specs.Annotations.{read_ann};
ghost use Rattle.pc_flow.specs.Stored.{env_of, HasOne, HasEach, GivesOne};
ghost use Rattle.pc_notes.specs.Notes.{notes_of};
ghost use Rattle.pc_rules.specs.Operations.{Label as LabelOf};
ghost use Rattle.pc_rules.specs.Computed.Findings.{brief};
ghost use Rattle.pc_rules.specs.Computed.Standing.{label_with};
ghost use Rattle.pc_module_rules.specs.Computed.Statements.{BodyContext as BodyContextOf, with_declared};
ghost use Rattle.pc_module_rules.specs.Computed.Statements.{known_declared, bound_type};
ghost use Rattle.pc_module_rules.specs.Computed.Statements.{bound_name, bind_label, annotation_finds, notes_after};
ghost use Rattle.pc_module_rules.specs.Computed.Statements.{local_note};
ghost use Rattle.pc_flow.specs.Environment.{current};
ghost use Rattle.pc_rules.specs.Computed.ModuleParents.{class_parents};
ghost use Rattle.pc_walk.specs.AnnotatedNames.{annotation_unless, declared_by};
ghost use Rattle.pc_walk.specs.StatementsHeld.{HoldsContext};
ghost use Rattle.pc_walk.specs.Walks.{IsValidIn, HoldsOne, HoldsWant, WalkKept, BindsName, body_context_in};

use crate::flows::find_flow_in;
use crate::walk::Walk;
use pc_annotations::read_ann;
use pc_flow::{DeclaredTypes, Env, assigned_type};
use pc_rules::Label;
use pc_scope::NameMeaning;
use pc_source::{OutOfMemory, Place};
use pc_tree::{Ann, Code, Name};
use pc_types::TypeStore;
use std::alloc::Global;

/// Declares a local with this type, unless it already has a declared type.
pub(crate) fn declare<Ty: Drop>(declared: &mut DeclaredTypes<Ty>, local: usize, ty: Ty)
    ensures { declared.new ≡ with_declared (slice_index_or declared.old local None) declared.old local ty }
{
    match declared.declared(local) {
        Some(_) => {}
        None => declared.declare(local, ty),
    }
}

/// Returns the declared type of a local as known before a value is bound to it: the one that it already has, else its
/// annotation, if there is one.
pub fn known_type<S: TypeStore>(
    store: &S,
    alloc: Global,
    declared: &DeclaredTypes<S::Ty>,
    local: usize,
    annotation: Option<S::Ty>,
) -> Result<Option<S::Ty>, OutOfMemory>
    requires declared { HasEach (S.has store.now) declared.now }
    requires annotation { HasOne (S.has store.now) annotation }
    ensures { IfOk result (λ o.
        GivesOne S.has S.tree store.now o
        (known_declared (bound_type (env_of S.tree declared.now) local) (option_map S.tree annotation))) }
{
    match declared.declared(local) {
        Some(ty) => Ok(Some(store.copy(alloc, ty)?)),
        None => Ok(annotation),
    }
}

/// Returns `ty`, or a copy of `other` if there is none.
fn type_or<S: TypeStore>(
    store: &S,
    alloc: Global,
    ty: Option<S::Ty>,
    other: &S::Ty,
) -> Result<S::Ty, OutOfMemory>
    requires ty { HasOne (S.has store.now) ty }
    requires other { S.has store.now other.now }
    ensures { IfOk result (λ t. Means S.has S.tree store.now t (unwrap_or (option_map S.tree ty) (S.tree other.now))) }
{
    match ty {
        Some(ty) => Ok(ty),
        None => store.copy(alloc, other),
    }
}

/// Binds a local to a value with this label, at this place, and returns the environment with the local's new current
/// type. A local without a declared type gets `want`, or the label's type if there is none. Appends the finding of the
/// flow into the declared type, if there is one.
pub fn bind_label<S: TypeStore>(
    walk: &mut Walk<'_, S>,
    env: Env<S::Ty>,
    local: usize,
    want: Option<S::Ty>,
    place: Place,
    label: &Label<S::Ty>,
) -> Result<Env<S::Ty>, OutOfMemory>
    requires stands { IsValidIn S.TypeStore walk.old env }
    requires want { HoldsWant S.TypeStore walk.old want }
    requires label { HoldsOne S.TypeStore walk.old label.now.ty }
    ensures bound { (m : LabelOf) → label_with S.tree label.now ≡ brief m
        → IfOk result (λ b. BindsName S.TypeStore walk.old env walk.new b
        (λ f t k. bind_label f t k local (option_map S.tree want) place m)) }
    ensures goes_on { WalkKept S.TypeStore walk.old walk.new }
{
    let ty = type_or(walk.store, walk.alloc, want, &label.ty)?;
    let code = find_flow_in(walk, place, label, &ty)?;
    let current = assigned_type(walk.store, walk.alloc, &ty, &label.ty, code)?;
    declare(walk.declared, local, ty);
    let mut behind = env;
    behind.assign(walk.alloc, local, current)?;
    Ok(behind)
}

/// Returns the current type of a local in an environment, if it is asked for.
fn current_if<Ty: Drop>(env: &Env<Ty>, local: usize, asked: bool) -> Option<&Ty>
    ensures { option_copied result ≡ (if asked then slice_index_or env.now local None else None) }
{
    if asked { env.current(local) } else { None }
}

/// Appends the note of a bound local at its name's place: its declared type, and if it has a value then, its current
/// type in this environment.
fn note_local<S: TypeStore>(
    walk: &mut Walk<'_, S>,
    env: &Env<S::Ty>,
    local: usize,
    place: Place,
    valued: bool,
) -> Result<(), OutOfMemory>
    requires { IsValidIn S.TypeStore walk.old env.now }
    ensures noted { OnOk result (notes_of walk.new.found.now ≡ notes_of walk.old.found.now
        ++ local_note (bound_type (env_of S.tree walk.old.declared.now) local)
        (if valued then current (env_of S.tree env.now) local else None) place) }
    ensures declared { OnOk result (walk.new.declared.now ≡ walk.old.declared.now) }
    ensures goes_on { WalkKept S.TypeStore walk.old walk.new }
{
    match walk.declared.declared(local) {
        None => Ok(()),
        Some(ty) => {
            let now = current_if(env, local, valued);
            walk.found.put_name(walk.store, walk.alloc, place, ty, now)
        }
    }
}

/// Appends the note of a bound name at its place, if types are kept and it means a local: its declared type, and if it
/// has a value then, its current type in this environment.
pub fn note_binding<S: TypeStore>(
    walk: &mut Walk<'_, S>,
    env: &Env<S::Ty>,
    meaning: NameMeaning,
    place: Place,
    valued: bool,
) -> Result<(), OutOfMemory>
    requires { IsValidIn S.TypeStore walk.old env.now }
    ensures noted { OnOk result (notes_of walk.new.found.now
        ≡ notes_after walk.old.context.globals.now.keeps valued (env_of S.tree walk.old.declared.now)
        (env_of S.tree env.now) meaning place (notes_of walk.old.found.now)) }
    ensures declared { OnOk result (walk.new.declared.now ≡ walk.old.declared.now) }
    ensures goes_on { WalkKept S.TypeStore walk.old walk.new }
{
    if !walk.context.globals.keeps {
        return Ok(());
    }
    match meaning {
        NameMeaning::Local(local) => note_local(walk, env, local, place, valued),
        _ => Ok(()),
    }
}

/// Returns whether a name means a local that already has a declared type.
fn is_bound<Ty: Drop>(declared: &DeclaredTypes<Ty>, meaning: NameMeaning) -> bool
    ensures { (f : BodyContextOf) (tree : Ty → Tree) → result ≡ is_some
        (bound_name f (env_of tree declared.now) meaning) }
{
    match meaning {
        NameMeaning::Local(local) => declared.declared(local).is_some(),
        _ => false,
    }
}

/// Reads the annotation of a name. Appends the findings in it and returns its type. If the name means a local that is
/// already bound, appends E24 instead and returns `None`.
pub fn annotated_type<S: TypeStore>(
    walk: &mut Walk<'_, S>,
    meaning: NameMeaning,
    name: &Name,
    annotation: &Ann,
) -> Result<Option<S::Ty>, OutOfMemory>
    requires { HoldsContext (S.has walk.old.store.now) S.tree walk.old.context }
    ensures typed { IfOk result (λ t. HoldsWant S.TypeStore walk.new t × (option_map S.tree t ≡ annotation_unless
        (bound_name (body_context_in S.TypeStore walk.old) (env_of S.tree walk.old.declared.now) meaning)
        (read_ann (module_of walk.old.context.globals.now.outline.now.tree.now)
        (class_parents walk.old.context.globals.now) (ann_of annotation.now)))) }
    ensures pushed { OnOk result (notes_of walk.new.found.now ≡ notes_of walk.old.found.now
        ++ annotation_finds (body_context_in S.TypeStore walk.old)
        (bound_name (body_context_in S.TypeStore walk.old) (env_of S.tree walk.old.declared.now) meaning)
        (name_of name.now) (ann_of annotation.now)) }
    ensures goes_on { WalkKept S.TypeStore walk.old walk.new }
    ensures declared { OnOk result (walk.new.declared.now ≡ walk.old.declared.now) }
{
    if is_bound(walk.declared, meaning) {
        walk.found.put(name.place, Code::E24)?;
        return Ok(None);
    }
    let mut in_it = Vec::new(walk.alloc);
    let ty = read_ann(
        walk.store,
        walk.alloc,
        walk.context.globals.outline,
        &mut in_it,
        annotation,
    )?;
    walk.found.put_all(&in_it)?;
    Ok(Some(ty))
}

/// Declares the local of a name annotated without a value, unless it already has a declared type. Does nothing if the
/// annotation is ignored (`None`) or the name means no local.
pub fn declare_alone<Ty: Drop>(
    declared: &mut DeclaredTypes<Ty>,
    meaning: NameMeaning,
    annotation: Option<Ty>,
)
    ensures { declared.new ≡ declared_by declared.old meaning annotation }
{
    match annotation {
        None => {}
        Some(ty) => match meaning {
            NameMeaning::Local(local) => declare(declared, local, ty),
            _ => {}
        },
    }
}
