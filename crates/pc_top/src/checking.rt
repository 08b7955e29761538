//! The findings of a module.

ghost use Rattle.std.specs.Prelude.{◌≡◌, ◌↔◌, ◌++◌, [], map, Contains, IfOk, OnOk};
ghost use Rattle.pc_tree.specs.declared.code.Code.TheVariants.{A1};
ghost use Rattle.pc_tree.specs.declared.code.Finding.{Finding as FindingOf};
ghost use Rattle.pc_tree.specs.Tree.{module_of};
ghost use Rattle.pc_scope.specs.ModuleScopes.{AreScopes};
ghost use Rattle.pc_types.specs.Store.{KeepsTypes};
ghost use Rattle.pc_class.specs.Annotated.{member_annotations};
ghost use Rattle.pc_class.specs.Built.{class_findings};
ghost use Rattle.pc_class.specs.Facts.{classes_of};
ghost use Rattle.pc_class.specs.Tables.{HasEntries, classes_with};
ghost use Rattle.pc_notes.specs.Notes.{findings_of, notes_of, plain_note};
ghost use Rattle.pc_notes.specs.Texts.{AreFlowTexts};
ghost use Rattle.pc_module_rules.specs.Modules.{IsFinding};
ghost use Rattle.pc_module_rules.specs.Laws.Flows.{TellsFlows};
ghost use Rattle.pc_top.specs.BesideErrors.{AreSoundBesideErrors};

use pc_annotations::parents_of;
use pc_check::check_module;
use pc_class::{ClassTable, class_table};
use pc_intern::InternStore;
use pc_notes::Notes;
use pc_overrides::override_findings;
use pc_scope::{Scopes, scopes};
use pc_scope_findings::scope_findings;
use pc_source::{OutOfMemory, Place};
use pc_tree::{Code, Finding, Module};
use pc_types::TypeStore;
use std::alloc::Global;
use std::rc::RcStr;

/// Adds the findings of the names and of the classes of a module, none of which is a flow.
fn note_others(
    found: &mut Notes,
    of_scopes: &[Finding],
    of_classes: &[Finding],
) -> Result<(), OutOfMemory>
    ensures { OnOk result (notes_of found.new ≡ (notes_of found.old ++ map plain_note of_scopes.now)
        ++ map plain_note of_classes.now) }
{
    found.put_all(of_scopes)?;
    found.put_all(of_classes)
}

/// Returns the findings of a module, given its class table and the findings made while building it. The table is
/// borrowed, since proofs take long for a function that may return early and owns one.
fn findings_with<S: TypeStore>(
    store: &mut S,
    alloc: Global,
    module: &Module,
    scopes: &Scopes,
    classes: &ClassTable<S::Ty>,
    of_classes: &mut Vec<Finding>,
) -> Result<Notes, OutOfMemory>
    requires scopes { AreScopes (module_of «module».now) scopes.now }
    requires classes { classes_with S.tree classes.now ≡ classes_of (module_of «module».now) }
    requires entries { HasEntries (S.has store.old) classes.now }
    requires of_classes { of_classes.old.items ≡ class_findings (module_of «module».now)
        ++ member_annotations (module_of «module».now) }
    ensures found { IfOk result
        (λ v. (f : FindingOf) → Contains (findings_of (notes_of v)) f ↔ IsFinding (module_of «module».now) f) }
    ensures flows { IfOk result (λ v. TellsFlows (module_of «module».now) (notes_of v)) }
    ensures sound_beside_errors { IfOk result
        (λ v. AreSoundBesideErrors (module_of «module».now) (findings_of (notes_of v))) }
    ensures kept { KeepsTypes S.has store.old store.new }
{
    override_findings(store, module, classes, of_classes)?;
    let of_scopes = scope_findings(alloc, module, scopes)?;
    let mut found = Notes::new(alloc);
    check_module(store, alloc, module, scopes, classes, false, &mut found)?;
    note_others(&mut found, &of_scopes, of_classes)?;
    Ok(found)
}

/// Returns the findings of a module, over any store of types: in its signatures, constants and bodies, each dynamic
/// flow with its types under the module's lawful labelling; of its names; of its classes. The result does not depend on
/// the store, since the contract names none. If none of these findings is silent, each run of the module that ends in a
/// fault has evaluated the place of one of them by then. Own rule of the profile.
///
/// # Errors
///
/// `OutOfMemory` only when an allocation failed.
pub fn findings_by<S: TypeStore>(
    store: &mut S,
    alloc: Global,
    module: &Module,
    scopes: &Scopes,
) -> Result<Notes, OutOfMemory>
    requires { AreScopes (module_of «module».now) scopes.now }
    ensures found { IfOk result
        (λ v. (f : FindingOf) → Contains (findings_of (notes_of v)) f ↔ IsFinding (module_of «module».now) f) }
    ensures flows { IfOk result (λ v. TellsFlows (module_of «module».now) (notes_of v)) }
    ensures sound_beside_errors { IfOk result
        (λ v. AreSoundBesideErrors (module_of «module».now) (findings_of (notes_of v))) }
    ensures kept { KeepsTypes S.has store.old store.new }
{
    let mut of_classes = Vec::new(alloc);
    let classes = class_table(store, alloc, module, scopes, &mut of_classes)?;
    let found = findings_with(store, alloc, module, scopes, &classes, &mut of_classes);
    // Proofs take long where a table goes out of scope.
    drop(classes);
    found
}

/// Returns a store without types, for the types of a module.
pub(crate) fn store_of(
    alloc: Global,
    module: &Module,
    scopes: &Scopes,
) -> Result<InternStore, OutOfMemory>
    requires { AreScopes (module_of «module».now) scopes.now }
    ensures { IfOk result (λ s. s ≡ []) }
{
    // The class table makes its own: lending them to both would cost each function of the typing a lifetime.
    let parents = parents_of(alloc, module, scopes)?;
    InternStore::new(alloc, module.keys, parents)
}

/// The findings of a module, and the texts of its dynamic flows.
#[derive(Drop)]
pub(crate) struct ModuleFindings {
    pub(crate) findings: Vec<Finding>,
    pub(crate) flows: Vec<(Place, RcStr, RcStr)>,
}

/// The findings of a module, with the scopes and the types that they refer to.
#[derive(Drop)]
pub(crate) struct CheckedModule {
    notes: Notes,
    scopes: Scopes,
    store: InternStore,
}

impl CheckedModule {
    /// Returns the findings, and the texts of the dynamic flows.
    pub(crate) fn found(
        &self,
        alloc: Global,
        module: &Module,
    ) -> Result<ModuleFindings, OutOfMemory>
        ensures findings { IfOk result (λ v. v.findings.items ≡ findings_of (notes_of self.now.notes)) }
        ensures flows { IfOk result
            (λ v. AreFlowTexts (module_of «module».now) A1 (notes_of self.now.notes) v.flows.items) }
    {
        let flows = self.notes.texts(alloc, module, Code::A1)?;
        let findings = self.notes.findings(alloc)?;
        Ok(ModuleFindings { findings, flows })
    }
}

/// Returns the findings of a module, over a store that keeps each type once.
pub(crate) fn findings(alloc: Global, module: &Module) -> Result<CheckedModule, OutOfMemory>
    ensures found { IfOk result
        (λ v. (f : FindingOf) → Contains (findings_of (notes_of v.notes)) f ↔ IsFinding (module_of «module».now) f) }
    ensures flows { IfOk result (λ v. TellsFlows (module_of «module».now) (notes_of v.notes)) }
{
    let scopes = scopes(alloc, module)?;
    let mut store = store_of(alloc, module, &scopes)?;
    let notes = findings_by(&mut store, alloc, module, &scopes)?;
    Ok(CheckedModule {
        notes,
        scopes,
        store,
    })
}
