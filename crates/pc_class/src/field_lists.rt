//! The fields of each class, as parameters of a call of it: lists that share their common parts.

ghost use Rattle.std.specs.Prelude.{◌≡◌, ◌++◌, List, length, Some, IfOk, OnOk};
ghost use Rattle.pc_shared_maps.specs.SharedLists.{HasRoom, KeepsLists};
ghost use Rattle.pc_class.specs.declared.table.Parameter.{Parameter as ParameterOf};
ghost use Rattle.pc_class.specs.FieldLists.{IsListOf, AreClassLists, list_at, list_in};
ghost use Rattle.pc_class.specs.Parts.{items_in_span, IsSpan, classes_of_table, IsClassTable};

use crate::parts::{ClassArena, Span};
use crate::table::Parameter;
use pc_shared_maps::{SharedList, SharedLists};
use pc_source::OutOfMemory;
use pc_tree::Keys;
use std::alloc::Global;

/// The list of fields of each class.
#[derive(Drop)]
pub(crate) struct ClassLists {
    pub lists: SharedLists,
    pub classes: Vec<SharedList>,
}

/// Adds the list that is `list` with the fields of a range at its end. Returns it.
fn add_fields<Ty: Drop>(
    lists: &mut SharedLists,
    alloc: Global,
    list: SharedList,
    fields: &[Parameter<Ty>],
    span: Span,
) -> Result<SharedList, OutOfMemory>
    requires room { HasRoom lists.old list }
    requires span { IsSpan (length fields.now) span }
    ensures room { IfOk result (HasRoom lists.new) }
    ensures kept { OnOk result (KeepsLists lists.old lists.new) }
    ensures list { (before : List (ParameterOf Ty)) → IsListOf fields.now lists.old before list
        → IfOk result (IsListOf fields.now lists.new (before ++ items_in_span fields.now span)) }
{
    let mut longer = list;
    for number in span.start..span.end {
        let field = &fields[number];
        let needed = !field.has_default;
        longer = lists.push(alloc, longer, number, field.name.as_str(), needed)?;
    }
    Ok(longer)
}

/// Returns the list of a class, or the empty list if there is none.
fn list_at(classes: &[SharedList], class: Option<usize>) -> SharedList
    ensures { result ≡ list_at classes.now class }
{
    match class {
        Some(class) if class < classes.len() => classes[class],
        _ => SharedList::empty(),
    }
}

impl ClassLists {
    /// Returns the list of the fields of each class of a table.
    pub fn new<Ty: Drop>(
        alloc: Global,
        keys: Keys,
        parts: &ClassArena<Ty>,
    ) -> Result<ClassLists, OutOfMemory>
        requires { IsClassTable parts.now }
        ensures { IfOk result (λ s. AreClassLists parts.now.fields.items s (classes_of_table parts.now)) }
    {
        let mut lists = SharedLists::new(alloc, keys)?;
        let mut classes = Vec::new(alloc);
        for class in 0..parts.classes.len() {
            let node = parts.classes[class];
            let inherited = list_at(&classes, node.base);
            let list = add_fields(&mut lists, alloc, inherited, &parts.fields, node.fields)?;
            classes.push(list)?;
        }
        Ok(ClassLists { lists, classes })
    }

    /// Returns the list of a class.
    pub fn of(&self, class: usize) -> SharedList
        ensures { result ≡ list_in self.now class }
    {
        list_at(&self.classes, Some(class))
    }
}
