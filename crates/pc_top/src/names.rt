//! The names that a module binds, as entries of the listing of its types.

ghost use Rattle.std.specs.Prelude.{◌≡◌, ◌++◌, ◌∷◌, [], flat_map, map, IfOk, OnOk};
ghost use Rattle.std.specs.Option.{option_map};
ghost use Rattle.std.specs.Rc.{rc_str_bytes};
ghost use Rattle.pc_tree.specs.Tree.{ann_of, field_of, func_of, item_of, member_of, name_of, option_ann_of};
ghost use Rattle.pc_annotations.specs.Annotations.{read_option};
ghost use Rattle.pc_annotations.specs.Bases.{bases_of};
ghost use Rattle.pc_annotations.specs.Named.{named_module};
ghost use Rattle.pc_notes.specs.Notes.{names_of_notes, notes_of};
ghost use Rattle.pc_notes.specs.Texts.{texts_shown};
ghost use Rattle.pc_module_rules.specs.NamesOfModules.{field_name, names_declared, names_in_head, names_in_member};
ghost use Rattle.pc_report.specs.TypeListing.{fact_of};
ghost use Rattle.pc_top.specs.FactsOfTexts.{name_texts_fact};
ghost use Rattle.pc_top.specs.NamesRead.{IsNameReading, declared_name, module_read, noted_fact};
ghost use Rattle.pc_top.specs.TypesOfBytes.{name_fact, other_text};

use pc_annotations::{ClassNames, ModuleOutline, named_text, read_ann, read_option};
use pc_notes::Notes;
use pc_report::{TypeEntry, TypeKind};
use pc_source::{OutOfMemory, Place};
use pc_tree::{Ann, Field, FuncDef, Item, ItemKind, Member, Name};
use pc_types::TypeStore;
use std::alloc::Global;
use std::rc::RcStr;

/// The outline of a module, by which its annotations are read, and the names of its classes, of which texts are made.
#[derive(Drop)]
pub(crate) struct NameReading<'m> {
    pub(crate) alloc: Global,
    pub(crate) outline: &'m ModuleOutline<'m>,
    pub(crate) names: &'m ClassNames<'m>,
}

impl NameReading<'_> {
    /// Appends a name with its declared type, and without a current type.
    fn add<S: TypeStore>(
        &self,
        store: &S,
        entries: &mut Vec<TypeEntry>,
        name: &Name,
        ty: &S::Ty,
    ) -> Result<(), OutOfMemory>
        requires reading { IsNameReading self.now }
        requires ty { S.has store.now ty.now }
        ensures { OnOk result (map fact_of entries.new.items ≡ map fact_of entries.old.items
            ++ name_fact (module_read self.now) (declared_name (name_of name.now) (S.tree ty.now)) ∷ []) }
    {
        let text = named_text(store, self.alloc, self.names, ty)?;
        entries.push(TypeEntry {
            place: name.place,
            kind: TypeKind::Name,
            text: RcStr::from_string(text)?,
            current: None,
        })?;
        Ok(())
    }

    /// Appends a name with the type of its annotation, or `Any` if it has none.
    fn add_optional<S: TypeStore>(
        &self,
        store: &mut S,
        entries: &mut Vec<TypeEntry>,
        name: &Name,
        annotation: &Option<Ann>,
    ) -> Result<(), OutOfMemory>
        requires { IsNameReading self.now }
        ensures { OnOk result (map fact_of entries.new.items ≡ map fact_of entries.old.items
            ++ name_fact (module_read self.now) (declared_name (name_of name.now)
            (read_option (module_read self.now) (bases_of (module_read self.now)) (option_ann_of annotation.now))) ∷ []) }
    {
        // A check reports the findings in it.
        let mut found = Vec::new(self.alloc);
        let ty = read_option(store, self.alloc, self.outline, &mut found, annotation)?;
        self.add(store, entries, name, &ty)
    }

    /// Appends a field with the type of its annotation.
    fn add_field<S: TypeStore>(
        &self,
        store: &mut S,
        entries: &mut Vec<TypeEntry>,
        field: &Field,
    ) -> Result<(), OutOfMemory>
        requires { IsNameReading self.now }
        ensures { OnOk result (map fact_of entries.new.items ≡ map fact_of entries.old.items
            ++ name_fact (module_read self.now) (field_name (module_read self.now) (field_of field.now)) ∷ []) }
    {
        // A check reports the findings in it.
        let mut found = Vec::new(self.alloc);
        let annotation = &field.annotation;
        let ty = read_ann(store, self.alloc, self.outline, &mut found, annotation)?;
        self.add(store, entries, &field.name, &ty)
    }

    /// Appends a function with its return type, and its parameters.
    fn add_function<S: TypeStore>(
        &self,
        store: &mut S,
        entries: &mut Vec<TypeEntry>,
        def: &FuncDef,
    ) -> Result<(), OutOfMemory>
        requires { IsNameReading self.now }
        ensures { OnOk result (map fact_of entries.new.items ≡ map fact_of entries.old.items
            ++ map (name_fact (module_read self.now)) (names_in_head (module_read self.now) (func_of def.now))) }
    {
        self.add_optional(store, entries, &def.name, &def.returns)?;
        for param in &def.params {
            self.add_optional(store, entries, &param.name, &param.annotation)?;
        }
        Ok(())
    }

    /// Appends the names of a member: of a field, or of a method with its parameters.
    fn add_member<S: TypeStore>(
        &self,
        store: &mut S,
        entries: &mut Vec<TypeEntry>,
        member: &Member,
    ) -> Result<(), OutOfMemory>
        requires { IsNameReading self.now }
        ensures { OnOk result (map fact_of entries.new.items ≡ map fact_of entries.old.items
            ++ map (name_fact (module_read self.now)) (names_in_member (module_read self.now) (member_of member.now))) }
    {
        match member {
            Member::Field(field) => self.add_field(store, entries, field),
            Member::Method(def) => self.add_function(store, entries, def),
        }
    }

    /// Appends the names of members.
    fn add_members<S: TypeStore>(
        &self,
        store: &mut S,
        entries: &mut Vec<TypeEntry>,
        members: &[Member],
    ) -> Result<(), OutOfMemory>
        requires { IsNameReading self.now }
        ensures { OnOk result (map fact_of entries.new.items ≡ map fact_of entries.old.items
            ++ map (name_fact (module_read self.now)) (flat_map (names_in_member (module_read self.now))
            (map member_of members.now))) }
    {
        for member in members {
            self.add_member(store, entries, member)?;
        }
        Ok(())
    }

    /// Appends the names of an item whose types are by annotations alone: of functions, parameters and fields.
    fn add_item<S: TypeStore>(
        &self,
        store: &mut S,
        entries: &mut Vec<TypeEntry>,
        item: &Item,
    ) -> Result<(), OutOfMemory>
        requires { IsNameReading self.now }
        ensures { OnOk result (map fact_of entries.new.items ≡ map fact_of entries.old.items
            ++ map (name_fact (module_read self.now)) (names_declared (module_read self.now) (item_of item.now))) }
    {
        match &item.kind {
            ItemKind::Constant(_) => Ok(()),
            ItemKind::Class(class) => self.add_members(store, entries, &class.members),
            ItemKind::Def(def) => self.add_function(store, entries, def),
        }
    }

    /// Appends the names of the module whose types are by annotations alone: of functions, parameters and fields.
    pub(crate) fn add_declared<S: TypeStore>(
        &self,
        store: &mut S,
        entries: &mut Vec<TypeEntry>,
    ) -> Result<(), OutOfMemory>
        requires { IsNameReading self.now }
        ensures { OnOk result (map fact_of entries.new.items ≡ map fact_of entries.old.items
            ++ map (name_fact (module_read self.now)) (flat_map (names_declared (module_read self.now))
            (module_read self.now).items)) }
    {
        for item in &self.outline.tree.items {
            self.add_item(store, entries, item)?;
        }
        Ok(())
    }
}

/// Returns the text of the current type, if there is one and it is another than that of the declared type.
fn other_text(declared: &RcStr, current: &Option<RcStr>) -> Result<Option<RcStr>, OutOfMemory>
    ensures { IfOk result (λ o. option_map rc_str_bytes o
        ≡ other_text (rc_str_bytes declared.now) (option_map rc_str_bytes current.now)) }
{
    match current {
        None => Ok(None),
        Some(text) => {
            if text.as_str() == declared.as_str() {
                return Ok(None);
            }
            Ok(Some(text.clone()?))
        }
    }
}

/// Returns the texts of a noted name as an entry of a listing.
fn name_entry(noted: &(Place, RcStr, Option<RcStr>)) -> Result<TypeEntry, OutOfMemory>
    ensures { IfOk result (λ e. fact_of e ≡ name_texts_fact (texts_shown noted.now)) }
{
    let (place, text, current) = noted;
    Ok(TypeEntry {
        place: *place,
        kind: TypeKind::Name,
        text: text.clone()?,
        current: other_text(text, current)?,
    })
}

/// Appends the names that notes have: constants, and the locals of bodies.
pub(crate) fn add_noted(
    alloc: Global,
    names: &ClassNames<'_>,
    notes: &Notes,
    entries: &mut Vec<TypeEntry>,
) -> Result<(), OutOfMemory>
    ensures { OnOk result (map fact_of entries.new.items ≡ map fact_of entries.old.items
        ++ map (noted_fact (named_module names.now)) (names_of_notes (notes_of notes.now))) }
{
    let noted = notes.name_texts(alloc, names)?;
    for name in &noted {
        entries.push(name_entry(name)?)?;
    }
    Ok(())
}
