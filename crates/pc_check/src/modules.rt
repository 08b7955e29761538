//! The check of a module.
#![tactic(auto, using(pc_rules::proofs::TypingStates::goes_further))]

ghost use Rattle.std.specs.Prelude.{◌≡◌, length, map, slice_get, OnOk, Some};
ghost use Rattle.pc_tree.specs.Tree.{class_of, item_of, module_of};
ghost use Rattle.pc_scope.specs.Bindings.{classes_in};
ghost use Rattle.pc_scope.specs.ModuleScopes.{AreScopes};
ghost use Rattle.pc_types.specs.Store.{KeepsTypes};
ghost use Rattle.pc_class.specs.Facts.{classes_of};
ghost use Rattle.pc_class.specs.Tables.{HasEntries, classes_with};
ghost use Rattle.pc_notes.specs.Notes.{notes_of};
ghost use Rattle.pc_rules.specs.Computed.TypingStates.{StateKept};
ghost use Rattle.pc_rules.specs.Computed.Signatures.{constants_of};
ghost use Rattle.pc_module_rules.specs.Computed.Modules.{methods_find, bodies_find, module_notes};
ghost use Rattle.pc_check.specs.Internal.ModuleWalk.{module_in, IsModuleBodies};

use crate::bodies::{ModuleBodies, check_owned};
use pc_annotations::ModuleOutline;
use pc_class::ClassTable;
use pc_notes::Notes;
use pc_rules::{ModuleContext, TypingState};
use pc_scope::{Owner, Scopes};
use pc_signatures::read_signatures;
use pc_source::OutOfMemory;
use pc_tree::{ClassDef, Item, ItemKind, Member, Module};
use pc_types::TypeStore;
use std::alloc::Global;

/// Returns the number of classes among items.
fn count_classes(items: &[Item]) -> usize
    ensures { result ≡ length (classes_in (map item_of items.now)) }
{
    let mut classes = 0;
    for item in items {
        match &item.kind {
            ItemKind::Constant(_) => {}
            ItemKind::Class(_) => classes += 1,
            ItemKind::Def(_) => {}
        }
    }
    classes
}

/// Checks the bodies of the methods of `def`, which is the class with this number, in text order, and appends their
/// findings. Language Reference 3.12, 8.8 "Class definitions".
fn check_methods<S: TypeStore>(
    state: &mut TypingState<'_, S>,
    bodies: &ModuleBodies<'_, S::Ty>,
    class: usize,
    def: &ClassDef,
) -> Result<(), OutOfMemory>
    requires bodies { IsModuleBodies (S.has state.old.store.now) S.tree bodies.now }
    requires class { slice_get (classes_in (module_in bodies.now).items) class ≡ Some (class_of def.now) }
    ensures found { OnOk result
        (notes_of state.new.found.now ≡ methods_find bodies.now.globals.now.keeps (module_in bodies.now)
        (constants_of (module_in bodies.now)) class 0 (class_of def.now).members (notes_of state.old.found.now)) }
    ensures goes_on { StateKept S.TypeStore state.old state.new }
{
    let mut methods = 0;
    let members = def.members.as_slice();
    for member in members {
        match member {
            Member::Field(_) => {}
            Member::Method(method) => {
                let owner = Owner::Method(class, methods);
                check_owned(state, bodies, owner, method)?;
                methods += 1;
            }
        }
    }
    Ok(())
}

/// Checks the bodies of the functions and methods of a module, in text order, and appends their findings.
fn check_bodies<S: TypeStore>(
    state: &mut TypingState<'_, S>,
    bodies: &ModuleBodies<'_, S::Ty>,
) -> Result<(), OutOfMemory>
    requires { IsModuleBodies (S.has state.old.store.now) S.tree bodies.now }
    ensures found { OnOk result
        (notes_of state.new.found.now ≡ bodies_find bodies.now.globals.now.keeps (module_in bodies.now)
        (constants_of (module_in bodies.now)) 0 0 (module_in bodies.now).items (notes_of state.old.found.now)) }
    ensures goes_on { StateKept S.TypeStore state.old state.new }
{
    let mut classes = 0;
    let mut functions = 0;
    let items = bodies.globals.outline.tree.items.as_slice();
    for item in items {
        match &item.kind {
            ItemKind::Constant(_) => {}
            ItemKind::Class(class) => {
                check_methods(state, bodies, classes, class)?;
                classes += 1;
            }
            ItemKind::Def(def) => {
                check_owned(state, bodies, Owner::Func(functions), def)?;
                functions += 1;
            }
        }
    }
    Ok(())
}

/// Checks a module, given its scopes and its class table, and appends its findings to `found`: first those of its
/// signatures and constants, then those in the bodies of its functions and methods, in text order. Two kinds are not
/// among them: E02 and E03, which scope analysis reports, and those in the annotations of fields and of methods that
/// bind their names, which come with the class table. If `keeps`, the type of each label is noted too, before the
/// label's codes.
///
/// Language Reference 3.12, 7 "Simple statements" and 8 "Compound statements"; the codes are own rules of the profile.
#[tactic(auto, unfolding(pc_module_rules::specs::Computed::Modules::module_notes))]
pub fn check_module<S: TypeStore>(
    store: &mut S,
    alloc: Global,
    tree: &Module,
    scopes: &Scopes,
    classes: &ClassTable<S::Ty>,
    keeps: bool,
    found: &mut Notes,
) -> Result<(), OutOfMemory>
    requires scopes { AreScopes (module_of tree.now) scopes.now }
    requires classes { classes_with S.tree classes.now ≡ classes_of (module_of tree.now) }
    requires entries { HasEntries (S.has store.old) classes.now }
    ensures found { OnOk result (notes_of found.new ≡ module_notes keeps (module_of tree.now) (notes_of found.old)) }
    ensures kept { KeepsTypes S.has store.old store.new }
{
    let mut state = TypingState {
        store,
        alloc,
        found,
    };
    let parents = classes.parents();
    let outline = ModuleOutline {
        tree,
        scopes,
        parents,
    };
    let signatures = read_signatures(&mut state, &outline, classes, keeps)?;
    let known = count_classes(tree.items.as_slice());
    let globals = ModuleContext {
        outline: &outline,
        classes,
        functions: signatures.functions(),
        constants: signatures.constants(),
        known,
        keeps,
    };
    let bodies = ModuleBodies {
        globals: &globals,
        signatures: &signatures,
    };
    check_bodies(&mut state, &bodies)
}
