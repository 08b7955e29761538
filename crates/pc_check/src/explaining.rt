//! The types of dynamic flows, and their texts.

ghost use Rattle.std.specs.Prelude.{◌≡◌, IfOk};
ghost use Rattle.pc_tree.specs.Tree.{module_of};
ghost use Rattle.pc_scope.specs.ModuleScopes.{AreScopes};
ghost use Rattle.pc_types.specs.Store.{KeepsTypes};
ghost use Rattle.pc_class.specs.Facts.{classes_of};
ghost use Rattle.pc_class.specs.Tables.{HasEntries, classes_with};
ghost use Rattle.pc_module_rules.specs.Laws.Flows.{ExplainsPlace};
ghost use Rattle.pc_check.specs.FlowTexts.{AreDynamicFlowTexts};

use crate::modules::check_module;
use pc_class::ClassTable;
use pc_notes::Notes;
use pc_scope::Scopes;
use pc_source::{OutOfMemory, Place};
use pc_tree::{Code, Module};
use pc_types::TypeStore;
use std::alloc::Global;
use std::rc::RcStr;

/// Returns the two types of the dynamic flow at a place of a module; for tests, since `check_module` notes them as it
/// types the module. They are the type that flows, and the type that it flows into, under the lawful labelling of the
/// module. Of several dynamic flows at the place, the first counts. `None` exactly if A1 is not found there. Types the
/// whole module anew.
///
/// Typing specification, "Type system concepts", on gradual types; own rule of the profile.
///
/// # Errors
///
/// `OutOfMemory` only if an allocation failed.
#[tactic(auto, using(pc_module_rules::proofs::StandingFlows::explains))]
pub fn explain_flow<S: TypeStore>(
    store: &mut S,
    alloc: Global,
    tree: &Module,
    scopes: &Scopes,
    classes: &ClassTable<S::Ty>,
    place: Place,
) -> Result<Option<(S::Ty, S::Ty)>, OutOfMemory>
    requires scopes { AreScopes (module_of tree.now) scopes.now }
    requires classes { classes_with S.tree classes.now ≡ classes_of (module_of tree.now) }
    requires entries { HasEntries (S.has store.old) classes.now }
    ensures explained { IfOk result (ExplainsPlace S.has S.tree (module_of tree.now) place store.new) }
    ensures kept { KeepsTypes S.has store.old store.new }
{
    let mut found = Notes::new(alloc);
    check_module(store, alloc, tree, scopes, classes, false, &mut found)?;
    Ok(found.explain(store, alloc, Code::A1, place)?)
}

/// Returns the texts of the dynamic flows of a module: each place where A1 is found, once and in ascending order, with
/// the text of the type that flows there and that of the type that it flows into, under the lawful labelling of the
/// module. Of several dynamic flows at a place, the first counts. Types the whole module; a caller with the notes of
/// `check_module` has the same texts from `Notes::texts`.
///
/// Typing specification, "Type system concepts", on gradual types; own rule of the profile.
///
/// # Errors
///
/// `OutOfMemory` only if an allocation failed.
#[tactic(auto, using(crate::proofs::FlowTexts::texts_told))]
pub fn flow_texts<S: TypeStore>(
    store: &mut S,
    alloc: Global,
    tree: &Module,
    scopes: &Scopes,
    classes: &ClassTable<S::Ty>,
) -> Result<Vec<(Place, RcStr, RcStr)>, OutOfMemory>
    requires scopes { AreScopes (module_of tree.now) scopes.now }
    requires classes { classes_with S.tree classes.now ≡ classes_of (module_of tree.now) }
    requires entries { HasEntries (S.has store.old) classes.now }
    ensures texts { IfOk result (λ v. AreDynamicFlowTexts (module_of tree.now) v.items) }
    ensures kept { KeepsTypes S.has store.old store.new }
{
    let mut found = Notes::new(alloc);
    check_module(store, alloc, tree, scopes, classes, false, &mut found)?;
    found.texts(alloc, tree, Code::A1)
}
