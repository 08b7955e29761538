//! Builds the class table of a module, item by item.

ghost use Rattle.std.specs.Prelude.{◌≡◌, ◌++◌, ◌∷◌, ◌+◌, [], length, OnOk, IfOk};
ghost use Rattle.pc_tree.specs.Tree.{item_of, module_of};
ghost use Rattle.pc_scope.specs.Bindings.{classes_in};
ghost use Rattle.pc_scope.specs.ModuleScopes.{AreScopes};
ghost use Rattle.pc_types.specs.Store.{KeepsTypes};
ghost use Rattle.pc_class.specs.Annotated.{member_annotations};
ghost use Rattle.pc_class.specs.Facts.{classes_behind, classes_of};
ghost use Rattle.pc_class.specs.Outlines.{IsClassNumbered};
ghost use Rattle.pc_class.specs.Tables.{classes_with, HasEntries};
ghost use Rattle.pc_class.specs.Parts.{classes_of_table, IsClassTable, HasParts};
ghost use Rattle.pc_annotations.specs.ModuleOutlines.{IsModuleOutline, module_in};
ghost use Rattle.pc_class.specs.Built.{found_behind, annotated_behind, class_findings};
ghost use Rattle.pc_class.specs.Internal.Readers.{IsLentSame};

use crate::adding::add_class;
use crate::bases::find_missing_bases;
use crate::field_lists::ClassLists;
use crate::parts::ClassArena;
use crate::reading::TypeReader;
use crate::table::ClassTable;
use pc_annotations::{ModuleOutline, parents_of};
use pc_scope::Scopes;
use pc_shared_maps::NamedMaps;
use pc_source::OutOfMemory;
use pc_tree::{Findings, Item, ItemKind, Keys, Module};
use pc_types::TypeStore;
use std::alloc::Global;

/// Returns the contents of a table without classes.
fn no_classes<Ty: Drop>(alloc: Global, keys: Keys) -> Result<ClassArena<Ty>, OutOfMemory>
    ensures table { IfOk result IsClassTable }
    ensures classes { IfOk result (λ p. p.classes.items ≡ []) }
    ensures fields { IfOk result (λ p. p.fields.items ≡ []) }
    ensures methods { IfOk result (λ p. p.methods.items ≡ []) }
{
    let named = NamedMaps::new(alloc, keys)?;
    Ok(ClassArena {
        named,
        classes: Vec::new(alloc),
        fields: Vec::new(alloc),
        methods: Vec::new(alloc),
    })
}

/// Adds an item of the module to the classes if it is one. Appends the findings in the annotations of its members to
/// those of `reader`, all others to `found`.
fn add_item<S: TypeStore>(
    reader: &mut TypeReader<'_, S>,
    outline: &ModuleOutline,
    parts: &mut ClassArena<S::Ty>,
    found: &mut Findings,
    item: &Item,
) -> Result<(), OutOfMemory>
    requires outline { IsModuleOutline outline.now }
    requires table { IsClassTable parts.old }
    requires given { HasParts (S.has reader.old.store.now) parts.old }
    requires class { IsClassNumbered (module_in outline.now) (length parts.old.classes.items) (item_of item.now) }
    ensures store { KeepsTypes S.has reader.old.store.now reader.new.store.now }
    ensures same { IsLentSame reader.old reader.new }
    ensures table { OnOk result (IsClassTable parts.new) }
    ensures given { OnOk result (HasParts (S.has reader.new.store.now) parts.new) }
    ensures more { OnOk result
        (length parts.new.classes.items
        ≡ length parts.old.classes.items + length (classes_in (item_of item.now ∷ []))) }
    ensures classes { OnOk result
        (classes_with S.tree (classes_of_table parts.new)
        ≡ classes_behind (module_in outline.now) (classes_with S.tree (classes_of_table parts.old))
        (length parts.old.classes.items) (classes_in (item_of item.now ∷ []))) }
    ensures found { OnOk result
        (found.new.items ≡ found.old.items
        ++ found_behind (module_in outline.now) (classes_with S.tree (classes_of_table parts.old))
        (length parts.old.classes.items) (classes_in (item_of item.now ∷ []))) }
    ensures annotated { OnOk result (reader.new.found.now.items ≡ reader.old.found.now.items
        ++ annotated_behind (module_in outline.now) (classes_with S.tree (classes_of_table parts.old))
        (length parts.old.classes.items) (classes_in (item_of item.now ∷ []))) }
{
    match &item.kind {
        ItemKind::Constant(_) => Ok(()),
        ItemKind::Class(definition) => {
            add_class(reader, outline, parts, found, definition)?;
            Ok(())
        }
        ItemKind::Def(_) => Ok(()),
    }
}

/// Returns the contents of the table of all classes of the module. Appends the findings in the annotations of their
/// members to those of `reader`, all others to `found`.
fn all_classes<S: TypeStore>(
    reader: &mut TypeReader<'_, S>,
    outline: &ModuleOutline,
    found: &mut Findings,
) -> Result<ClassArena<S::Ty>, OutOfMemory>
    requires { IsModuleOutline outline.now }
    ensures store { KeepsTypes S.has reader.old.store.now reader.new.store.now }
    ensures same { IsLentSame reader.old reader.new }
    ensures table { IfOk result IsClassTable }
    ensures given { IfOk result (HasParts (S.has reader.new.store.now)) }
    ensures classes { IfOk result (λ p. classes_with S.tree (classes_of_table p) ≡ classes_of (module_in outline.now)) }
    ensures found { OnOk result
        (found.new.items ≡ found.old.items
        ++ found_behind (module_in outline.now) [] 0 (classes_in (module_in outline.now).items)) }
    ensures annotated { OnOk result (reader.new.found.now.items ≡ reader.old.found.now.items
        ++ annotated_behind (module_in outline.now) [] 0 (classes_in (module_in outline.now).items)) }
{
    let items = outline.tree.items.as_slice();
    let mut parts = no_classes(reader.alloc, outline.tree.keys)?;
    for item in items {
        add_item(reader, outline, &mut parts, found, item)?;
    }
    Ok(parts)
}

/// Returns the contents of the table of all classes of the module. Appends the findings in the annotations of their
/// members to `in_annotations`, all others to `found`.
fn read_classes<S: TypeStore>(
    store: &mut S,
    alloc: Global,
    outline: &ModuleOutline,
    found: &mut Findings,
    in_annotations: &mut Findings,
) -> Result<ClassArena<S::Ty>, OutOfMemory>
    requires { IsModuleOutline outline.now }
    ensures store { KeepsTypes S.has store.old store.new }
    ensures table { IfOk result IsClassTable }
    ensures given { IfOk result (HasParts (S.has store.new)) }
    ensures classes { IfOk result (λ p. classes_with S.tree (classes_of_table p) ≡ classes_of (module_in outline.now)) }
    ensures found { OnOk result
        (found.new.items ≡ found.old.items
        ++ found_behind (module_in outline.now) [] 0 (classes_in (module_in outline.now).items)) }
    ensures annotated { OnOk result (in_annotations.new.items ≡ in_annotations.old.items
        ++ annotated_behind (module_in outline.now) [] 0 (classes_in (module_in outline.now).items)) }
{
    let mut reader = TypeReader {
        store,
        alloc,
        found: in_annotations,
    };
    all_classes(&mut reader, outline, found)
}

/// Returns the contents of the table of all classes of the module. Appends the findings about its classes to `found`,
/// those in the annotations of their members last.
fn read_parts<S: TypeStore>(
    store: &mut S,
    alloc: Global,
    outline: &ModuleOutline,
    found: &mut Findings,
) -> Result<ClassArena<S::Ty>, OutOfMemory>
    requires { IsModuleOutline outline.now }
    ensures store { KeepsTypes S.has store.old store.new }
    ensures table { IfOk result IsClassTable }
    ensures given { IfOk result (HasParts (S.has store.new)) }
    ensures classes { IfOk result (λ p. classes_with S.tree (classes_of_table p) ≡ classes_of (module_in outline.now)) }
    ensures found { OnOk result
        (found.new.items ≡ found.old.items
        ++ (found_behind (module_in outline.now) [] 0 (classes_in (module_in outline.now).items)
        ++ annotated_behind (module_in outline.now) [] 0 (classes_in (module_in outline.now).items))) }
{
    let mut in_annotations = Vec::new(alloc);
    let parts = read_classes(store, alloc, outline, found, &mut in_annotations)?;
    found.extend_from_slice(&in_annotations)?;
    Ok(parts)
}

/// Returns the class table of a module. Appends the findings about its classes to `found`: E07, then E06 and E08 of
/// each class; and after these the findings in the annotations of fields, and of methods that bind their names: E09,
/// E10 and E26. The annotations of a method that binds no name are not read here, since the table has no such method.
///
/// Library reference, `dataclasses`; Language Reference 3.12, 8.8 "Class definitions"; the codes are own rules of the
/// profile.
pub fn class_table<S: TypeStore>(
    store: &mut S,
    alloc: Global,
    tree: &Module,
    scopes: &Scopes,
    found: &mut Findings,
) -> Result<ClassTable<S::Ty>, OutOfMemory>
    requires { AreScopes (module_of tree.now) scopes.now }
    ensures classes { IfOk result (λ t. classes_with S.tree t ≡ classes_of (module_of tree.now)) }
    ensures given { IfOk result (HasEntries (S.has store.new)) }
    ensures kept { KeepsTypes S.has store.old store.new }
    ensures found { OnOk result (found.new.items ≡ found.old.items
        ++ (class_findings (module_of tree.now) ++ member_annotations (module_of tree.now))) }
{
    let parents = parents_of(alloc, tree, scopes)?;
    find_missing_bases(found, &parents, &tree.items)?;
    let outline = ModuleOutline {
        tree,
        scopes,
        parents: &parents,
    };
    let parts = read_parts(store, alloc, &outline, found)?;
    let lists = ClassLists::new(alloc, tree.keys, &parts)?;
    Ok(ClassTable::of(parts, parents, lists))
}
