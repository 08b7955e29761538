//! The members of classes, in text order. The class table has the types of those that bind their names.
#![tactic(auto, using(pc_rules::proofs::TypingStates::goes_further))]

ghost use Rattle.std.specs.Prelude.{◌≡◌, ◌++◌, ◌∷◌, [], if◌then◌else◌, map, None, is_some, IfOk, OnOk};
ghost use Rattle.std.specs.Option.{option_map};
ghost use Rattle.pc_tree.specs.Tree.{func_of, field_of, member_of};
ghost use Rattle.pc_tree.specs.Tree.{field_member, method_member};
ghost use Rattle.pc_scope.specs.Bindings.{methods_in};
ghost use Rattle.pc_types.specs.Tree.{Tree as TypeTree};
ghost use Rattle.pc_annotations.specs.ModuleOutlines.{module_in};
ghost use Rattle.pc_class.specs.Facts.{base_facts, class_facts_at, classes_of, field_by_name, method_by_name};
ghost use Rattle.pc_class.specs.Tables.{classes_with, parameter_lent, method_lent, IsFieldIfAny, IsMethodIfAny};
ghost use Rattle.pc_rules.specs.Signatures.{signature_of};
ghost use Rattle.pc_rules.specs.Computed.Signatures.{is_in_names, base_has_member, binds_as_field, binds_as_method};
ghost use Rattle.pc_rules.specs.Computed.Signatures.{field_default, method_findings, member_findings, members_findings};
ghost use Rattle.pc_rules.specs.Computed.Signatures.{no_name};
ghost use Rattle.pc_rules.specs.Computed.TypingStates.{AddsNotes, StateKept};
ghost use Rattle.pc_callables.specs.MembersHeld.{IsHeld, AreHeld};
ghost use Rattle.pc_callables.specs.SignaturesRead.{AreGlobals, AreSignatures, HasSignatures};
ghost use Rattle.pc_callables.specs.SignaturesRead.{IsSignature, signatures_with};

use crate::bound::{BoundNames, bind, is_bound};
use crate::copies::copy_signature;
use crate::defaults::{find_default, find_defaults};
use crate::signatures::read_signature;
use indexmap::IndexSet;
use pc_class::{ClassTable, Method, Parameter};
use pc_rules::{ModuleContext, Signature, TypingState};
use pc_source::{OutOfMemory, is_reserved};
use pc_tree::{Field, FuncDef, Member};
use pc_types::TypeStore;

/// The number of a class of the module, and that of its base.
#[derive(Clone, Copy)]
pub struct ClassNumbers {
    pub number: usize,
    pub base: Option<usize>,
}

/// Returns whether a base, if there is one, has a field or a method of this name.
fn has_member<Ty: Drop>(classes: &ClassTable<Ty>, base: Option<usize>, name: &str) -> bool
    ensures { (tree : Ty → TypeTree)
        → result ≡ base_has_member (base_facts (classes_with tree classes.now) base) name.now }
{
    match base {
        None => false,
        Some(base) => classes.field(base, name).is_some() || classes.method(base, name).is_some(),
    }
}

/// Returns whether a base, if there is one, has a field of this name.
fn has_field<Ty: Drop>(classes: &ClassTable<Ty>, base: Option<usize>, name: &str) -> bool
    ensures { (tree : Ty → TypeTree)
        → result ≡ is_some (field_by_name (base_facts (classes_with tree classes.now) base).fields name.now) }
{
    match base {
        None => false,
        Some(base) => classes.field(base, name).is_some(),
    }
}

/// Returns whether a field binds its name: it is not reserved, not `mro`, not already bound, and no field or method of
/// an ancestor. Own rule of the profile.
#[tactic(auto, using(pc_class::proofs::ReservedNames::reserved_same))]
fn binds_as_field<Ty: Drop>(
    classes: &ClassTable<Ty>,
    base: Option<usize>,
    bound: &BoundNames,
    name: &str,
) -> bool
    ensures { (tree : Ty → TypeTree)
        → result ≡ binds_as_field (base_facts (classes_with tree classes.now) base) (is_in_names bound.now) name.now }
{
    !(is_reserved(name) || name == "mro")
        && (!is_bound(bound, name) && !has_member(classes, base, name))
}

/// Returns whether a method binds its name: it is not reserved, not already bound, and no field of an ancestor. Own
/// rule of the profile.
#[tactic(auto, using(pc_class::proofs::ReservedNames::reserved_same))]
fn binds_as_method<Ty: Drop>(
    classes: &ClassTable<Ty>,
    base: Option<usize>,
    bound: &BoundNames,
    name: &str,
) -> bool
    ensures { (tree : Ty → TypeTree)
        → result ≡ binds_as_method (base_facts (classes_with tree classes.now) base) (is_in_names bound.now) name.now }
{
    !is_reserved(name) && (!is_bound(bound, name) && !has_field(classes, base, name))
}

/// Returns the field of this name from the class table, `None` if the field does not bind its name.
fn held_field<'t, Ty: Drop>(
    classes: &'t ClassTable<Ty>,
    class: ClassNumbers,
    bound: &BoundNames,
    name: &str,
) -> Option<&'t Parameter<Ty>>
    ensures value { (tree : Ty → TypeTree)
        → option_map (parameter_lent tree) result
        ≡ (if binds_as_field (base_facts (classes_with tree classes.now) class.base) (is_in_names bound.now) name.now
        then field_by_name (class_facts_at (classes_with tree classes.now) class.number).fields name.now else None) }
    ensures listed { IsFieldIfAny classes.now result }
{
    if binds_as_field(classes, class.base, bound, name) {
        classes.field(class.number, name)
    } else {
        None
    }
}

/// Returns the method of this name from the class table, `None` if the method does not bind its name.
fn held_method<'t, Ty: Drop>(
    classes: &'t ClassTable<Ty>,
    class: ClassNumbers,
    bound: &BoundNames,
    name: &str,
) -> Option<&'t Method<Ty>>
    ensures value { (tree : Ty → TypeTree)
        → option_map (method_lent tree) result
        ≡ (if binds_as_method (base_facts (classes_with tree classes.now) class.base) (is_in_names bound.now) name.now
        then method_by_name (class_facts_at (classes_with tree classes.now) class.number).methods name.now else None) }
    ensures listed { IsMethodIfAny classes.now result }
{
    if binds_as_method(classes, class.base, bound, name) {
        classes.method(class.number, name)
    } else {
        None
    }
}

/// Checks the default of a field of a class: its flow into the type that the class table has. Appends the finding, if
/// there is one; those in the annotation come with the class table.
fn check_field<S: TypeStore>(
    state: &mut TypingState<'_, S>,
    globals: &ModuleContext<'_, S::Ty>,
    class: ClassNumbers,
    bound: &BoundNames,
    field: &Field,
) -> Result<(), OutOfMemory>
    requires globals { AreGlobals S.has S.tree state.old.store.now globals.now }
    requires held { IsHeld (module_in globals.now.outline.now) class.number
        (base_facts (classes_of (module_in globals.now.outline.now)) class.base) (is_in_names bound.now)
        (field_member (field_of field.now)) }
    ensures found { OnOk result (AddsNotes state.old state.new
        (field_default (module_in globals.now.outline.now)
        (base_facts (classes_of (module_in globals.now.outline.now)) class.base) (is_in_names bound.now)
        (field_of field.now))) }
    ensures goes_on { StateKept S.TypeStore state.old state.new }
{
    match held_field(globals.classes, class, bound, field.name.text.as_str()) {
        // Nothing flows into a field that binds no name.
        None => Ok(()),
        Some(held) => {
            let parents = globals.outline.parents;
            find_default(state, parents, true, &field.default, &held.ty)
        }
    }
}

/// Returns the signature of a method of a class and appends the findings at its defaults. If the method binds its name,
/// the class table has its types and the findings in its annotations; else its annotations are read here and their
/// findings appended too.
fn read_method<S: TypeStore>(
    state: &mut TypingState<'_, S>,
    globals: &ModuleContext<'_, S::Ty>,
    class: ClassNumbers,
    bound: &BoundNames,
    def: &FuncDef,
) -> Result<Signature<S::Ty>, OutOfMemory>
    requires globals { AreGlobals S.has S.tree state.old.store.now globals.now }
    requires held { IsHeld (module_in globals.now.outline.now) class.number
        (base_facts (classes_of (module_in globals.now.outline.now)) class.base) (is_in_names bound.now)
        (method_member (func_of def.now)) }
    ensures typed { IfOk result
        (λ s. IsSignature S.has S.tree state.new.store.now s
        (signature_of (module_in globals.now.outline.now) (func_of def.now))) }
    ensures found { OnOk result (AddsNotes state.old state.new
        (method_findings (module_in globals.now.outline.now)
        (binds_as_method (base_facts (classes_of (module_in globals.now.outline.now)) class.base) (is_in_names bound.now)
        (func_of def.now).name.text) (func_of def.now))) }
    ensures goes_on { StateKept S.TypeStore state.old state.new }
{
    let outline = globals.outline;
    let mut names = IndexSet::with_hasher(state.alloc, outline.tree.keys);
    bind(&mut names, state.alloc, "self")?;
    match held_method(globals.classes, class, bound, def.name.text.as_str()) {
        None => read_signature(state, outline, &mut names, def),
        Some(held) => {
            let signature = copy_signature(state.store, state.alloc, outline.tree.keys, held)?;
            let typed = signature.params.as_slice();
            find_defaults(state, outline, &mut names, &def.params, typed)?;
            Ok(signature)
        }
    }
}

/// Checks a member of a class and appends its findings. The signature of a method is appended to `methods`.
fn add_member<S: TypeStore>(
    state: &mut TypingState<'_, S>,
    globals: &ModuleContext<'_, S::Ty>,
    class: ClassNumbers,
    bound: &BoundNames,
    member: &Member,
    methods: &mut Vec<Signature<S::Ty>>,
) -> Result<(), OutOfMemory>
    requires globals { AreGlobals S.has S.tree state.old.store.now globals.now }
    requires table { IsHeld (module_in globals.now.outline.now) class.number
        (base_facts (classes_of (module_in globals.now.outline.now)) class.base) (is_in_names bound.now)
        (member_of member.now) }
    requires held { HasSignatures (S.has state.old.store.now) methods.old.items }
    ensures held { OnOk result (HasSignatures (S.has state.new.store.now) methods.new.items) }
    ensures typed { OnOk result
        (signatures_with S.tree methods.new.items
        ≡ signatures_with S.tree methods.old.items
        ++ map (signature_of (module_in globals.now.outline.now)) (methods_in (member_of member.now ∷ []))) }
    ensures found { OnOk result (AddsNotes state.old state.new
        (member_findings (module_in globals.now.outline.now)
        (base_facts (classes_of (module_in globals.now.outline.now)) class.base) (is_in_names bound.now)
        (member_of member.now))) }
    ensures goes_on { StateKept S.TypeStore state.old state.new }
{
    match member {
        Member::Field(field) => check_field(state, globals, class, bound, field),
        Member::Method(def) => {
            let signature = read_method(state, globals, class, bound, def)?;
            methods.push(signature)?;
            Ok(())
        }
    }
}

/// Checks the members of a class. Returns the signatures of its methods and appends the findings of its members, apart
/// from those that come with the class table. Language Reference 3.12, 8.8 "Class definitions"; library reference,
/// `dataclasses`.
pub fn read_members<S: TypeStore>(
    state: &mut TypingState<'_, S>,
    globals: &ModuleContext<'_, S::Ty>,
    class: ClassNumbers,
    members: &[Member],
) -> Result<Vec<Signature<S::Ty>>, OutOfMemory>
    requires globals { AreGlobals S.has S.tree state.old.store.now globals.now }
    requires table { AreHeld (module_in globals.now.outline.now) class.number
        (base_facts (classes_of (module_in globals.now.outline.now)) class.base) no_name (map member_of members.now) }
    ensures typed { IfOk result
        (λ ss. AreSignatures S.has S.tree state.new.store.now ss.items
        (map (signature_of (module_in globals.now.outline.now)) (methods_in (map member_of members.now)))) }
    ensures found { OnOk result (AddsNotes state.old state.new
        (members_findings (module_in globals.now.outline.now)
        (base_facts (classes_of (module_in globals.now.outline.now)) class.base) no_name (map member_of members.now))) }
    ensures goes_on { StateKept S.TypeStore state.old state.new }
{
    let mut methods = Vec::new(state.alloc);
    let mut bound = IndexSet::with_hasher(state.alloc, globals.outline.tree.keys);
    for member in members {
        add_member(state, globals, class, &bound, member, &mut methods)?;
        bind(&mut bound, state.alloc, member.name().text.as_str())?;
    }
    Ok(methods)
}
