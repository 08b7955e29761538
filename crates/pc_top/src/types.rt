//! The types of the module that bytes spell.

ghost use Rattle.std.specs.Prelude.{◌≡◌, ◌↔◌, ◌++◌, [], flat_map, length, map, true, Contains, IfOk, IfErr, OnOk};
ghost use Rattle.pc_source.specs.Answers.{OnRefusal};
ghost use Rattle.pc_source.specs.Within.{IsWithin};
ghost use Rattle.pc_tree.specs.Tree.{module_of};
ghost use Rattle.pc_scope.specs.ModuleScopes.{AreScopes};
ghost use Rattle.pc_annotations.specs.Named.{named_module};
ghost use Rattle.pc_class.specs.Facts.{classes_of};
ghost use Rattle.pc_class.specs.Tables.{HasEntries, classes_with};
ghost use Rattle.pc_notes.specs.Notes.{notes_of, types_of};
ghost use Rattle.pc_notes.specs.Texts.{text_shown};
ghost use Rattle.pc_module_rules.specs.Computed.Modules.{module_notes};
ghost use Rattle.pc_module_rules.specs.NamesOfModules.{names_declared};
ghost use Rattle.pc_front.specs.Bytes.{IsRefusalOf};
ghost use Rattle.pc_report.specs.TypeListing.{TypeFact, fact_of};
ghost use Rattle.pc_top.specs.FactsOfTexts.{type_text_fact};
ghost use Rattle.pc_top.specs.TypesOfBytes.{IsTypeAt, IsTypeFact, ListsTypesOf, expression_fact, name_fact};

use crate::checking::store_of;
use crate::names::{NameReading, add_noted};
use pc_annotations::{ClassNames, ModuleOutline, parents_of};
use pc_check::check_module;
use pc_class::{ClassTable, class_table};
use pc_front::parse_source;
use pc_notes::Notes;
use pc_report::{TypeEntry, TypeKind, TypeListing, TypeRow};
use pc_scope::{Scopes, scopes};
use pc_source::{Fault, OutOfMemory, Place, read_source};
use pc_tree::Module;
use pc_types::TypeStore;
use std::alloc::Global;
use std::rc::RcStr;

/// Returns what a walk over a module notes that keeps types, given its class table. The table is borrowed, since proofs
/// take long for a function that may return early and owns one.
fn noted_with<S: TypeStore>(
    store: &mut S,
    alloc: Global,
    module: &Module,
    scopes: &Scopes,
    classes: &ClassTable<S::Ty>,
) -> Result<Notes, OutOfMemory>
    requires scopes { AreScopes (module_of «module».now) scopes.now }
    requires classes { classes_with S.tree classes.now ≡ classes_of (module_of «module».now) }
    requires entries { HasEntries (S.has store.old) classes.now }
    ensures { IfOk result (λ v. notes_of v ≡ module_notes true (module_of «module».now) []) }
{
    let mut noted = Notes::new(alloc);
    check_module(store, alloc, module, scopes, classes, true, &mut noted)?;
    Ok(noted)
}

/// Returns the class table of a module, without the findings made while building it.
pub(crate) fn classes_alone<S: TypeStore>(
    store: &mut S,
    alloc: Global,
    module: &Module,
    scopes: &Scopes,
) -> Result<ClassTable<S::Ty>, OutOfMemory>
    requires { AreScopes (module_of «module».now) scopes.now }
    ensures classes { IfOk result (λ t. classes_with S.tree t ≡ classes_of (module_of «module».now)) }
    ensures given { IfOk result (HasEntries (S.has store.new)) }
{
    let mut found = Vec::new(alloc);
    class_table(store, alloc, module, scopes, &mut found)
}

/// Returns what a walk over a module notes that keeps types.
fn noted<S: TypeStore>(
    store: &mut S,
    alloc: Global,
    module: &Module,
    scopes: &Scopes,
) -> Result<Notes, OutOfMemory>
    requires { AreScopes (module_of «module».now) scopes.now }
    ensures { IfOk result (λ v. notes_of v ≡ module_notes true (module_of «module».now) []) }
{
    let classes = classes_alone(store, alloc, module, scopes)?;
    let noted = noted_with(store, alloc, module, scopes, &classes);
    // Proofs take long where a table goes out of scope.
    drop(classes);
    noted
}

/// Returns what a walk over a module notes that keeps types, over a store of its own.
pub(crate) fn notes_with_types(
    alloc: Global,
    module: &Module,
    scopes: &Scopes,
) -> Result<Notes, OutOfMemory>
    requires { AreScopes (module_of «module».now) scopes.now }
    ensures { IfOk result (λ v. notes_of v ≡ module_notes true (module_of «module».now) []) }
{
    let mut store = store_of(alloc, module, scopes)?;
    noted(&mut store, alloc, module, scopes)
}

/// Returns the text of a shown type as an entry of a listing.
fn entry_of(shown: &(Place, RcStr)) -> Result<TypeEntry, OutOfMemory>
    ensures { IfOk result (λ e. fact_of e ≡ type_text_fact (text_shown shown.now)) }
{
    Ok(TypeEntry {
        place: shown.0,
        kind: TypeKind::Expression,
        text: shown.1.clone()?,
        current: None,
    })
}

/// Returns the types that notes show, as entries of a listing.
fn entries_of(
    alloc: Global,
    names: &ClassNames<'_>,
    notes: &Notes,
) -> Result<Vec<TypeEntry>, OutOfMemory>
    ensures { IfOk result (λ v. map fact_of v.items
        ≡ map (expression_fact (named_module names.now)) (types_of (notes_of notes.now))) }
{
    let types = notes.type_texts(alloc, names)?;
    let mut entries = Vec::with_capacity(alloc, types.len())?;
    for shown in &types {
        entries.push(entry_of(shown)?)?;
    }
    Ok(entries)
}

/// Appends the names of a module whose types are by annotations alone, with the types that are read in a store.
fn add_declared<S: TypeStore>(
    store: &mut S,
    alloc: Global,
    module: &Module,
    scopes: &Scopes,
    names: &ClassNames<'_>,
    entries: &mut Vec<TypeEntry>,
) -> Result<(), OutOfMemory>
    requires scopes { AreScopes (module_of «module».now) scopes.now }
    requires names { named_module names.now ≡ module_of «module».now }
    ensures { OnOk result (map fact_of entries.new.items ≡ map fact_of entries.old.items
        ++ map (name_fact (module_of «module».now)) (flat_map (names_declared (module_of «module».now))
        (module_of «module».now).items)) }
{
    let parents = parents_of(alloc, module, scopes)?;
    let outline = ModuleOutline {
        tree: module,
        scopes,
        parents: &parents,
    };
    let reading = NameReading {
        alloc,
        outline: &outline,
        names,
    };
    reading.add_declared(store, entries)
}

/// Returns the entries of the listing of a module's types, in any order, given the notes of a walk that keeps types and
/// the names of the classes.
fn entries_named<S: TypeStore>(
    store: &mut S,
    alloc: Global,
    module: &Module,
    scopes: &Scopes,
    notes: &Notes,
    names: &ClassNames<'_>,
) -> Result<Vec<TypeEntry>, OutOfMemory>
    requires scopes { AreScopes (module_of «module».now) scopes.now }
    requires notes { notes_of notes.now ≡ module_notes true (module_of «module».now) [] }
    requires names { named_module names.now ≡ module_of «module».now }
    ensures { IfOk result (λ v. (f : TypeFact) → Contains (map fact_of v.items) f
        ↔ IsTypeFact (module_of «module».now) f) }
{
    let mut entries = entries_of(alloc, names, notes)?;
    add_declared(store, alloc, module, scopes, names, &mut entries)?;
    add_noted(alloc, names, notes, &mut entries)?;
    Ok(entries)
}

/// Returns the entries of the listing of a module's types, in any order, given the notes of a walk that keeps types.
fn entries_noted<S: TypeStore>(
    store: &mut S,
    alloc: Global,
    module: &Module,
    scopes: &Scopes,
    notes: &Notes,
) -> Result<Vec<TypeEntry>, OutOfMemory>
    requires scopes { AreScopes (module_of «module».now) scopes.now }
    requires notes { notes_of notes.now ≡ module_notes true (module_of «module».now) [] }
    ensures { IfOk result (λ v. (f : TypeFact) → Contains (map fact_of v.items) f
        ↔ IsTypeFact (module_of «module».now) f) }
{
    let names = ClassNames::of(alloc, module)?;
    entries_named(store, alloc, module, scopes, notes, &names)
}

/// Returns the entries of the listing of a module's types, in any order, with types of a store.
fn entries_with<S: TypeStore>(
    store: &mut S,
    alloc: Global,
    module: &Module,
    scopes: &Scopes,
) -> Result<Vec<TypeEntry>, OutOfMemory>
    requires { AreScopes (module_of «module».now) scopes.now }
    ensures { IfOk result (λ v. (f : TypeFact) → Contains (map fact_of v.items) f
        ↔ IsTypeFact (module_of «module».now) f) }
{
    let notes = noted(store, alloc, module, scopes)?;
    entries_noted(store, alloc, module, scopes, &notes)
}

/// Returns the entries of the listing of a module's types, in any order.
fn entries(alloc: Global, module: &Module) -> Result<Vec<TypeEntry>, OutOfMemory>
    ensures { IfOk result (λ v. (f : TypeFact) → Contains (map fact_of v.items) f
        ↔ IsTypeFact (module_of «module».now) f) }
{
    let scopes = scopes(alloc, module)?;
    let mut store = store_of(alloc, module, &scopes)?;
    entries_with(&mut store, alloc, module, &scopes)
}

/// Returns the types of the module that the bytes spell.
///
/// If there is a listing, the bytes spell exactly one module, and the listing has exactly the types under the module's
/// one lawful labelling: of each labelled expression its place and the text of its type, and of each bound name its
/// place, the text of its declared type, and that of its current type if it is another; sorted, none twice. A callee
/// that is a name or an attribute, the expressions in annotations, the literals of defaults, and statements that no run
/// reaches after one that cannot complete have no row. Own rule of the profile.
///
/// # Errors
///
/// As for `check`: `Refused` exactly if the bytes spell no module, with their refusal; `OutOfMemory` only if an
/// allocation failed.
pub fn types_of(alloc: Global, bytes: &[u8]) -> Result<TypeListing, Fault>
    ensures lists { IfOk result (ListsTypesOf bytes.now) }
    ensures refused { IfErr result (OnRefusal (IsRefusalOf bytes.now)) }
    ensures within { IfErr result (IsWithin (length bytes.now)) }
{
    let source = read_source(alloc, bytes)?;
    let module = parse_source(alloc, &source)?;
    let entries = entries(alloc, &module)?;
    let listing = TypeListing::of(alloc, &source, entries)?;
    Ok(listing)
}

/// Returns the type of the smallest expression or bound name around a byte of the module that the bytes spell: the row
/// of the listing of its types with the smallest place around the byte, or `None` if no row is around it. A place is
/// around its own bytes, and around the byte after it. Own rule of the profile.
///
/// # Errors
///
/// As for `types_of`.
pub fn type_at(alloc: Global, bytes: &[u8], byte: usize) -> Result<Option<TypeRow>, Fault>
    ensures found { IfOk result (IsTypeAt bytes.now byte) }
    ensures refused { IfErr result (OnRefusal (IsRefusalOf bytes.now)) }
    ensures within { IfErr result (IsWithin (length bytes.now)) }
{
    let listing = types_of(alloc, bytes)?;
    match listing.smallest_at(byte) {
        None => Ok(None),
        Some(row) => Ok(Some(row.share()?)),
    }
}
