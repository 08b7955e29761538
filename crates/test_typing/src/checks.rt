//! The flows, findings and types of a module's check, by `pc_check`, over any store of types.
ghost use Rattle.std.specs.Prelude.{◌≡◌};
ghost use Rattle.pc_tree.specs.Tree.{module_of};
ghost use Rattle.pc_scope.specs.ModuleScopes.{AreScopes};
ghost use Rattle.pc_class.specs.Facts.{classes_of};
ghost use Rattle.pc_class.specs.Tables.{HasEntries, classes_with};

use crate::notes::listed;
use crate::signatures::signed_text;
use pc_annotations::{ClassNames, parents_of, type_text};
use pc_check::{check_module, explain_flow, flow_texts};
use pc_class::{ClassTable, class_table};
use pc_front::read_module;
use pc_intern::InternStore;
use pc_notes::Notes;
use pc_scope::{Scopes, scopes};
use pc_source::{OutOfMemory, Place};
use pc_tree::Module;
use pc_types::{BoxStore, TypeStore};
use std::alloc::{AllocError, Global};

/// Returns a flow as a table writes it: `list[int] -> list[Any]`.
fn flow(alloc: Global, from: &str, into: &str) -> Result<String, OutOfMemory> {
    Ok(format!(in alloc; "{from} -> {into}")?)
}

/// Returns the text of a flow from one type into another.
fn flow_between<S: TypeStore>(
    store: &S,
    alloc: Global,
    tree: &Module,
    from: &S::Ty,
    into: &S::Ty,
) -> Result<String, OutOfMemory>
    requires from { S.has store.now from.now }
    requires into { S.has store.now into.now }
{
    let from = type_text(store, alloc, tree, from)?;
    let into = type_text(store, alloc, tree, into)?;
    flow(alloc, from.as_str(), into.as_str())
}

/// Returns the two types of the dynamic flow at a place of a module, or `none`.
fn flow_text<S: TypeStore>(
    store: &mut S,
    alloc: Global,
    tree: &Module,
    scopes: &Scopes,
    classes: &ClassTable<S::Ty>,
    place: Place,
) -> Result<String, OutOfMemory>
    requires scopes { AreScopes (module_of tree.now) scopes.now }
    requires classes { classes_with S.tree classes.now ≡ classes_of (module_of tree.now) }
    requires entries { HasEntries (S.has store.old) classes.now }
{
    match explain_flow(store, alloc, tree, scopes, classes, place)? {
        None => Ok(String::from_str(alloc, "none")?),
        Some((from, into)) => flow_between(store, alloc, tree, &from, &into),
    }
}

/// Returns the texts of the dynamic flows of a module: the bytes of each place, and the flow there.
fn flows_text<S: TypeStore>(
    store: &mut S,
    alloc: Global,
    tree: &Module,
    scopes: &Scopes,
    classes: &ClassTable<S::Ty>,
) -> Result<String, OutOfMemory>
    requires scopes { AreScopes (module_of tree.now) scopes.now }
    requires classes { classes_with S.tree classes.now ≡ classes_of (module_of tree.now) }
    requires entries { HasEntries (S.has store.old) classes.now }
{
    let mut text = String::new(alloc);
    for (place, from, into) in &flow_texts(store, alloc, tree, scopes, classes)? {
        write!(text, "{} {} {from} -> {into}; ", place.start, place.end)?;
    }
    Ok(text)
}

/// Returns the findings of the check of a module, other than those of its names and of its classes.
fn checked_text<S: TypeStore>(
    store: &mut S,
    alloc: Global,
    tree: &Module,
    scopes: &Scopes,
    classes: &ClassTable<S::Ty>,
) -> Result<String, OutOfMemory>
    requires scopes { AreScopes (module_of tree.now) scopes.now }
    requires classes { classes_with S.tree classes.now ≡ classes_of (module_of tree.now) }
    requires entries { HasEntries (S.has store.old) classes.now }
{
    let mut notes = Notes::new(alloc);
    check_module(store, alloc, tree, scopes, classes, false, &mut notes)?;
    listed(alloc, &notes)
}

/// Returns the types that the check of a module keeps to show, in the order of noting: the bytes of each place, and its
/// type.
fn types_text<S: TypeStore>(
    store: &mut S,
    alloc: Global,
    tree: &Module,
    scopes: &Scopes,
    classes: &ClassTable<S::Ty>,
) -> Result<String, OutOfMemory>
    requires scopes { AreScopes (module_of tree.now) scopes.now }
    requires classes { classes_with S.tree classes.now ≡ classes_of (module_of tree.now) }
    requires entries { HasEntries (S.has store.old) classes.now }
{
    let mut notes = Notes::new(alloc);
    check_module(store, alloc, tree, scopes, classes, true, &mut notes)?;
    let names = ClassNames::of(alloc, tree)?;
    let mut text = String::new(alloc);
    for (place, ty) in &notes.type_texts(alloc, &names)? {
        write!(text, "{} {} {ty}; ", place.start, place.end)?;
    }
    Ok(text)
}

/// Returns the answer of a store in a part of this name, for a module with its scopes and its class table: the flow at
/// a place, the texts of all flows, the findings, the types, the type of its last initializer (as in a body, as in a
/// body with its type expected, or as an initializer), or its signatures.
fn answer_with<S: TypeStore>(
    store: &mut S,
    alloc: Global,
    tree: &Module,
    scopes: &Scopes,
    classes: &ClassTable<S::Ty>,
    part: &str,
    place: Place,
) -> Result<String, OutOfMemory>
    requires scopes { AreScopes (module_of tree.now) scopes.now }
    requires classes { classes_with S.tree classes.now ≡ classes_of (module_of tree.now) }
    requires entries { HasEntries (S.has store.old) classes.now }
{
    match part {
        "FLOWS" => flow_text(store, alloc, tree, scopes, classes, place),
        "TEXTS" => flows_text(store, alloc, tree, scopes, classes),
        "FOUND" => checked_text(store, alloc, tree, scopes, classes),
        "TYPES" => types_text(store, alloc, tree, scopes, classes),
        _ => signed_text(store, alloc, tree, scopes, classes, part),
    }
}

/// Returns the answer of a store to a module in a part of this name.
fn answer<S: TypeStore>(
    store: &mut S,
    alloc: Global,
    tree: &Module,
    part: &str,
    place: Place,
) -> Result<String, OutOfMemory> {
    let scopes = scopes(alloc, tree)?;
    let mut aside = Vec::new(alloc);
    let classes = class_table(store, alloc, tree, &scopes, &mut aside)?;
    answer_with(store, alloc, tree, &scopes, &classes, part, place)
}

/// Returns the answer of a store of types as numbers.
fn answer_by_numbers(
    alloc: Global,
    tree: &Module,
    part: &str,
    place: Place,
) -> Result<String, OutOfMemory> {
    let parents = parents_of(alloc, tree, &scopes(alloc, tree)?)?;
    let mut store = InternStore::new(alloc, tree.keys, parents)?;
    answer(&mut store, alloc, tree, part, place)
}

/// Returns the answer of both stores to a module, or both answers if they differ.
fn answers(alloc: Global, tree: &Module, part: &str, place: Place) -> Result<String, OutOfMemory> {
    let by_numbers = answer_by_numbers(alloc, tree, part, place)?;
    let by_boxes = answer(&mut BoxStore::new(), alloc, tree, part, place)?;
    if by_numbers.as_str() == by_boxes.as_str() {
        return Ok(by_numbers);
    }
    Ok(format!(in alloc; "{by_numbers} by numbers, {by_boxes} by boxes")?)
}

/// Returns the place that the first line of a row names, `187 188`.
fn place_of(line: &str) -> Option<Place> {
    let (start, end) = line.split_once(' ')?;
    Some(Place {
        start: start.parse().ok()?,
        end: end.parse().ok()?,
    })
}

/// Returns the answer of both stores to the module of a row in a part of this name, or the fault. The first line of the
/// row is a place.
pub fn checked(alloc: Global, part: &str, row: &str) -> Result<String, AllocError> {
    let (line, text) = row.split_once('\n').unwrap_or(("", ""));
    let Some(place) = place_of(line) else {
        return String::from_str(alloc, "no place");
    };
    match read_module(alloc, text.as_bytes()) {
        Ok(module) => answers(alloc, &module, part, place).map_err(|_| AllocError),
        Err(fault) => format!(in alloc; "{fault}"),
    }
}
