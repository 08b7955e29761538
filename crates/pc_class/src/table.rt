//! The class table, its fields and its methods.

ghost use Rattle.std.specs.Prelude.{◌≡◌, ◌↔◌, ◌<◌, ◌≤◌, ◌-◌, ◌++◌, List, take, drop, length, slice_get, slice_index_or};
ghost use Rattle.std.specs.Prelude.{ℕ, map, IfOk, IsTrue};
ghost use Rattle.std.specs.Option.{option_copied, option_map};
ghost use Rattle.pc_scope.specs.Resolution.{index_of};
ghost use Rattle.pc_types.specs.Below.{Below};
ghost use Rattle.pc_types.specs.Tree.{Tree, Class};
ghost use Rattle.pc_shared_maps.specs.NameMaps.{IsMap};
ghost use Rattle.pc_class.specs.Facts.{field_by_name, method_by_name, class_facts_at};
ghost use Rattle.pc_class.specs.FieldLists.{AreClassLists, fields_in};
ghost use Rattle.pc_class.specs.Listed.{names_listed, needed_in};
ghost use Rattle.pc_class.specs.Outlines.{IsMapOf, first_named};
ghost use Rattle.pc_class.specs.Parts.{lent_parameter, bases_in, classes_of_table, IsClassTable};
ghost use Rattle.pc_class.specs.Tables.{ClassEntry, empty_entry, inherited_entry, classes_with, parameter_lent};
ghost use Rattle.pc_class.specs.Tables.{method_lent, IsFieldIfAny, IsMethodIfAny};

use crate::field_lists::ClassLists;
use crate::listed::ParameterList;
use crate::parts::ClassArena;
use pc_shared_maps::NamedMaps;
use pc_source::{OutOfMemory, Place};
use pc_types::Parents;
use std::alloc::Global;
use std::marker::Model;

/// A parameter of a function or method, or a field as a parameter of its class. Its name is in normal form NFKC.
#[derive(Drop)]
pub struct Parameter<Ty: Drop> {
    pub name: String,
    pub ty: Ty,
    pub has_default: bool,
}

/// A method: the place of its name, its class, its number there, its parameters without `self`, and its return type.
#[derive(Drop)]
pub struct Method<Ty: Drop> {
    pub name: String,
    pub place: Place,
    pub owner: usize,
    pub number: usize,
    pub params: ParameterList<Ty>,
    pub ret: Ty,
}

/// Returns the items of a range.
fn items_within<X>(items: &[X], start: usize, end: usize) -> &[X]
    requires order { start ≤ end }
    requires within { end ≤ length items.now }
    ensures { result.now ≡ take (end - start) (drop start items.now) }
{
    &items[start..end]
}

/// Returns the member with a name, given the members of its kind in all classes and the map of those that a class has,
/// if there is one.
fn member_named<'a, X>(named: &NamedMaps, at: usize, members: &'a [X], name: &str) -> Option<&'a X>
    requires { IsMap named.now at }
    ensures { (name_of : X → List ℕ) (these : List X) → IsMapOf name_of named.now members.now at these
        → option_copied result ≡ first_named name_of these name.now }
{
    match named.get(at, name) {
        None => None,
        Some(number) => members.get(number),
    }
}

/// The classes of a module, each with its fields and methods and those of its ancestors. Contracts see it as the list
/// of these.
///
/// Library reference, `dataclasses`; Language Reference 3.12, 8.8 "Class definitions".
#[derive(Drop)]
pub struct ClassTable<Ty: Drop> {
    parts: ClassArena<Ty>,
    parents: Parents,
    lists: ClassLists,
}

impl<Ty: Drop> Model for ClassTable<Ty> {
    ghost Value = { List (ClassEntry Ty) };

    ghost view = { λ t. classes_of_table t.parts };

    ghost invariant = { λ t. IsClassTable t.parts × ((t.parents ≡ bases_in (classes_of_table t.parts))
        × AreClassLists t.parts.fields.items t.lists (classes_of_table t.parts)) };
}

impl<Ty: Drop> ClassTable<Ty> {
    /// Returns the table with these contents, parents and lists of fields.
    pub(crate) fn of(parts: ClassArena<Ty>, parents: Parents, lists: ClassLists) -> ClassTable<Ty>
        requires table { IsClassTable parts }
        requires parents { parents ≡ bases_in (classes_of_table parts) }
        requires lists { AreClassLists parts.fields.items lists (classes_of_table parts) }
        ensures { result ≡ classes_of_table parts }
    {
        ClassTable {
            parts,
            parents,
            lists,
        }
    }

    /// Returns the parents of the classes.
    pub fn parents(&self) -> &Parents
        ensures { result.now ≡ bases_in self.now }
    {
        &self.parents
    }

    /// Returns whether a class is another one or has it as an ancestor. Language Reference 3.12, 8.8 "Class
    /// definitions".
    pub fn is_sub(&self, class: usize, other: usize) -> bool
        ensures { IsTrue result ↔ Below (bases_in self.now) (Class class) (Class other) }
    {
        self.parents.is_within(class, other)
    }

    /// Returns the field with a name that the class or an ancestor of it has, if there is one.
    pub fn field(&self, class: usize, name: &str) -> Option<&Parameter<Ty>>
        ensures value { (tree : Ty → Tree)
            → option_map (parameter_lent tree) result
            ≡ field_by_name (class_facts_at (classes_with tree self.now) class).fields name.now }
        ensures listed { IsFieldIfAny self.now result }
    {
        let parts = &self.parts;
        if class >= parts.classes.len() {
            return None;
        }
        member_named(
            &parts.named,
            parts.classes[class].held.fields,
            &parts.fields,
            name,
        )
    }

    /// Returns the fields of a class, in order, with those of its ancestors first; none if there is no class with this
    /// number. Library reference, `dataclasses`.
    ///
    /// # Errors
    ///
    /// `OutOfMemory` only if an allocation failed.
    pub fn fields(&self, alloc: Global, class: usize) -> Result<Vec<&Parameter<Ty>>, OutOfMemory>
        ensures fields { IfOk result (λ fs. map lent_parameter fs.items ≡ fields_in self.now class) }
    {
        let count = self.field_count(class);
        let mut fields = Vec::with_capacity(alloc, count)?;
        for place in 0..count {
            if let Some(field) = self.field_at(class, place) {
                fields.push(field)?;
            }
        }
        Ok(fields)
    }

    /// Returns the nearest method with a name, from the class through its ancestors, if there is one.
    pub fn method(&self, class: usize, name: &str) -> Option<&Method<Ty>>
        ensures value { (tree : Ty → Tree)
            → option_map (method_lent tree) result
            ≡ method_by_name (class_facts_at (classes_with tree self.now) class).methods name.now }
        ensures listed { IsMethodIfAny self.now result }
    {
        let parts = &self.parts;
        if class >= parts.classes.len() {
            return None;
        }
        member_named(
            &parts.named,
            parts.classes[class].held.methods,
            &parts.methods,
            name,
        )
    }

    /// Returns the number of classes.
    pub fn count(&self) -> usize
        ensures { result ≡ length self.now }
    {
        self.parts.classes.len()
    }

    /// Returns the methods that a class binds itself, in text order.
    pub fn own_methods(&self, class: usize) -> &[Method<Ty>]
        requires { class < length self.now }
        ensures over { (slice_index_or self.now class empty_entry).methods
            ≡ result.now ++ (inherited_entry self.now (slice_index_or self.now class empty_entry).base).methods }
    {
        let node = self.parts.classes[class];
        items_within(&self.parts.methods, node.methods.start, node.methods.end)
    }

    /// Returns the number of fields of a class, including those of its ancestors.
    pub(crate) fn field_count(&self, class: usize) -> usize
        ensures { result ≡ length (fields_in self.now class) }
    {
        self.lists.of(class).count
    }

    /// Returns the position of the first field with a name among the fields of a class, including those of its
    /// ancestors; `None` if there is no such field.
    pub(crate) fn field_place(&self, class: usize, name: &str) -> Option<usize>
        ensures { result ≡ index_of name.now (names_listed (fields_in self.now class)) }
    {
        self.lists.lists.place(self.lists.of(class), name)
    }

    /// Returns how many of the first `count` fields of a class there are up to the last one without a default, 0 if all
    /// have one.
    pub(crate) fn fields_needed(&self, class: usize, count: usize) -> usize
        requires { count ≤ length (fields_in self.now class) }
        ensures { result ≡ needed_in (fields_in self.now class) count }
    {
        self.lists.lists.needed(self.lists.of(class), count)
    }

    /// Returns the field at a position among the fields of a class, including those of its ancestors; `None` past the
    /// last one.
    pub(crate) fn field_at(&self, class: usize, place: usize) -> Option<&Parameter<Ty>>
        ensures { option_map lent_parameter result ≡ slice_get (fields_in self.now class) place }
    {
        match self.lists.lists.list_place(self.lists.of(class), place) {
            Some(list_place) => self.parts.fields.get(list_place.number),
            None => None,
        }
    }
}
