//! One more class in a class table.

ghost use Rattle.std.specs.Prelude.{◌≡◌, ◌+◌, ℕ, length, ◌++◌, ◌∷◌, [], List, map, None, OnOk, IfOk};
ghost use Rattle.pc_tree.specs.Tree.{class_of, member_of};
ghost use Rattle.pc_types.specs.Store.{KeepsTypes};
ghost use Rattle.pc_annotations.specs.Bases.{base_named};
ghost use Rattle.pc_class.specs.declared.table.Parameter.{Parameter as ParameterOf};
ghost use Rattle.pc_class.specs.declared.table.Method.{Method as MethodOf};
ghost use Rattle.pc_class.specs.Annotated.{field_annotated, method_annotated, fields_annotated, methods_annotated};
ghost use Rattle.pc_class.specs.Annotated.{class_annotated};
ghost use Rattle.pc_class.specs.Facts.{base_facts};
ghost use Rattle.pc_shared_maps.specs.NameMaps.{IsMap, KeepsNamed};
ghost use Rattle.pc_class.specs.Entries.{entry_seen};
ghost use Rattle.pc_class.specs.Outlines.{IsMapOf, first_named, field_name, method_name as class_method_name};
ghost use Rattle.pc_class.specs.Outlines.{own_field, own_method, all_own, AreOther, AreNew};
ghost use Rattle.pc_class.specs.Outlines.{found_over};
ghost use Rattle.pc_class.specs.Tables.{HasParameter, HasMethod, parameter_with, method_with, classes_with};
ghost use Rattle.pc_class.specs.Parts.{parameter_name, stored_method_name, inherited_node, classes_of_table, IsClassTable};
ghost use Rattle.pc_class.specs.Parts.{HasParts};
ghost use Rattle.pc_annotations.specs.ModuleOutlines.{IsModuleOutline, module_in};
ghost use Rattle.pc_class.specs.Built.{Added, IsClassAt, IsOneMore, members_of_entries};
ghost use Rattle.pc_class.specs.Internal.Readers.{IsLentSame};

use crate::entries::{ClassMember, MemberMaps, entries, find_clashes, find_late_fields};
use crate::parts::{ClassArena, ClassNode, Span};
use crate::reading::{TypeReader, read_field, read_method};
use crate::table::{Method, Parameter};
use pc_annotations::ModuleOutline;
use pc_shared_maps::NamedMaps;
use pc_source::OutOfMemory;
use pc_tree::{ClassDef, Findings, Member};
use pc_types::TypeStore;
use std::alloc::Global;

/// A class of a module: the outline of the module, and the number of the class.
#[derive(Drop)]
struct NumberedClass<'m> {
    pub outline: &'m ModuleOutline<'m>,
    pub number: usize,
}

/// A member of a class, which is found by its name.
trait NamedMember {
    /// The name of a member.
    ghost name_of: { Self → List ℕ };

    /// Returns the name.
    fn name(&self) -> &str
        ensures { result.now ≡ name_of self.now };
}

impl<Ty: Drop> NamedMember for Parameter<Ty> {
    ghost name_of = { parameter_name };

    fn name(&self) -> &str {
        self.name.as_str()
    }
}

impl<Ty: Drop> NamedMember for Method<Ty> {
    ghost name_of = { stored_method_name };

    fn name(&self) -> &str {
        self.name.as_str()
    }
}

/// Adds a member to the list of members of its kind, and to the map of a class by its name. Returns the new map.
fn add_member<X: NamedMember + Drop>(
    named: &mut NamedMaps,
    alloc: Global,
    members: &mut Vec<X>,
    at: usize,
    member: X,
) -> Result<usize, OutOfMemory>
    requires { IsMap named.old at }
    ensures within { IfOk result (λ new. IsMap named.new new) }
    ensures kept { OnOk result (KeepsNamed named.old named.new) }
    ensures members { OnOk result (members.new.items ≡ members.old.items ++ member ∷ []) }
    ensures held { (front back : List X) → IsMapOf X.name_of named.old members.old.items at (front ++ back)
        → first_named X.name_of front (X.name_of member) ≡ None
        → IfOk result (λ new. IsMapOf X.name_of named.new members.new.items new ((front ++ member ∷ []) ++ back)) }
{
    let number = members.len();
    let new = named.put(alloc, at, member.name(), number)?;
    members.push(member)?;
    Ok(new)
}

/// Reads the annotation of the entry's member if it is a field, and appends the findings in it. Adds the field to
/// `fields` if it binds its name. Returns the map with it, or the map `at` if nothing is added.
fn add_own_field<S: TypeStore>(
    reader: &mut TypeReader<'_, S>,
    outline: &ModuleOutline,
    named: &mut NamedMaps,
    fields: &mut Vec<Parameter<S::Ty>>,
    at: usize,
    entry: &ClassMember,
) -> Result<usize, OutOfMemory>
    requires map { IsMap named.old at }
    requires outline { IsModuleOutline outline.now }
    ensures within { IfOk result (λ new. IsMap named.new new) }
    ensures kept { OnOk result (KeepsNamed named.old named.new) }
    ensures store { KeepsTypes S.has reader.old.store.now reader.new.store.now }
    ensures same { IsLentSame reader.old reader.new }
    ensures found { OnOk result (reader.new.found.now.items ≡ reader.old.found.now.items
        ++ field_annotated (module_in outline.now) (member_of entry.now.member.now)) }
    ensures added { (front back : List (ParameterOf S.Ty))
        → IsMapOf parameter_name named.old fields.old.items at (front ++ back)
        → AreOther field_name (map (parameter_with S.tree) front)
        (own_field (module_in outline.now) (entry_seen entry.now))
        → IfOk result (λ new. Added parameter_name (HasParameter (S.has reader.new.store.now))
        (parameter_with S.tree) named.new fields.old.items fields.new.items new front back
        (own_field (module_in outline.now) (entry_seen entry.now))) }
{
    match entry.member {
        Member::Field(field) => {
            let parameter = read_field(reader, outline, field)?;
            if !entry.binds {
                return Ok(at);
            }
            let new = add_member(named, reader.alloc, fields, at, parameter)?;
            Ok(new)
        }
        Member::Method(_) => Ok(at),
    }
}

/// Reads the entry's member if it is a method that binds its name, appends the findings in its annotations and adds it
/// to `methods`. Returns the map with it, or the map `at` if nothing is added.
fn add_own_method<S: TypeStore>(
    reader: &mut TypeReader<'_, S>,
    class: &NumberedClass,
    named: &mut NamedMaps,
    methods: &mut Vec<Method<S::Ty>>,
    at: usize,
    entry: &ClassMember,
) -> Result<usize, OutOfMemory>
    requires map { IsMap named.old at }
    requires outline { IsModuleOutline class.now.outline.now }
    ensures within { IfOk result (λ new. IsMap named.new new) }
    ensures kept { OnOk result (KeepsNamed named.old named.new) }
    ensures store { KeepsTypes S.has reader.old.store.now reader.new.store.now }
    ensures same { IsLentSame reader.old reader.new }
    ensures found { OnOk result (reader.new.found.now.items ≡ reader.old.found.now.items
        ++ method_annotated (module_in class.now.outline.now) entry.now.binds (member_of entry.now.member.now)) }
    ensures added { (front back : List (MethodOf S.Ty))
        → IsMapOf stored_method_name named.old methods.old.items at (front ++ back)
        → AreOther class_method_name (map (method_with S.tree) front)
        (own_method (module_in class.now.outline.now) class.now.number (entry_seen entry.now))
        → IfOk result (λ new. Added stored_method_name (HasMethod (S.has reader.new.store.now))
        (method_with S.tree) named.new methods.old.items methods.new.items new front back
        (own_method (module_in class.now.outline.now) class.now.number (entry_seen entry.now))) }
{
    match entry.member {
        Member::Field(_) => Ok(at),
        Member::Method(def) => {
            // A method that binds no name is no method of the class; its annotations are read with its signature.
            if !entry.binds {
                return Ok(at);
            }
            let method = read_method(reader, class.outline, class.number, entry.number, def)?;
            let new = add_member(named, reader.alloc, methods, at, method)?;
            Ok(new)
        }
    }
}

/// Reads the annotations of all fields among the entries of a class, and appends the findings in them. Adds the fields
/// that bind their names to `fields`. Returns the map of all fields of the class: these, and those of the map
/// `inherited`.
fn add_fields<S: TypeStore>(
    reader: &mut TypeReader<'_, S>,
    outline: &ModuleOutline,
    named: &mut NamedMaps,
    fields: &mut Vec<Parameter<S::Ty>>,
    inherited: usize,
    entries: &[ClassMember],
) -> Result<usize, OutOfMemory>
    requires map { IsMap named.old inherited }
    requires outline { IsModuleOutline outline.now }
    ensures within { IfOk result (λ new. IsMap named.new new) }
    ensures kept { OnOk result (KeepsNamed named.old named.new) }
    ensures store { KeepsTypes S.has reader.old.store.now reader.new.store.now }
    ensures same { IsLentSame reader.old reader.new }
    ensures found { OnOk result (reader.new.found.now.items ≡ reader.old.found.now.items
        ++ fields_annotated (module_in outline.now) (members_of_entries entries.now)) }
    ensures added { (front back : List (ParameterOf S.Ty))
        → IsMapOf parameter_name named.old fields.old.items inherited (front ++ back)
        → AreNew field_name (own_field (module_in outline.now)) (map (parameter_with S.tree) front)
        (map entry_seen entries.now)
        → IfOk result (λ new. Added parameter_name (HasParameter (S.has reader.new.store.now))
        (parameter_with S.tree) named.new fields.old.items fields.new.items new front back
        (all_own (own_field (module_in outline.now)) (map entry_seen entries.now))) }
{
    let mut at = inherited;
    for entry in entries {
        at = add_own_field(reader, outline, named, fields, at, entry)?;
    }
    Ok(at)
}

/// Reads the methods among the entries of a class that bind their names, appends the findings in their annotations and
/// adds them to `methods`. Returns the map of all methods of the class: these, and those of the map `inherited`.
fn add_methods<S: TypeStore>(
    reader: &mut TypeReader<'_, S>,
    class: &NumberedClass,
    named: &mut NamedMaps,
    methods: &mut Vec<Method<S::Ty>>,
    inherited: usize,
    entries: &[ClassMember],
) -> Result<usize, OutOfMemory>
    requires map { IsMap named.old inherited }
    requires outline { IsModuleOutline class.now.outline.now }
    ensures within { IfOk result (λ new. IsMap named.new new) }
    ensures kept { OnOk result (KeepsNamed named.old named.new) }
    ensures store { KeepsTypes S.has reader.old.store.now reader.new.store.now }
    ensures same { IsLentSame reader.old reader.new }
    ensures found { OnOk result (reader.new.found.now.items ≡ reader.old.found.now.items
        ++ methods_annotated (module_in class.now.outline.now) (map entry_seen entries.now)) }
    ensures added { (front back : List (MethodOf S.Ty))
        → IsMapOf stored_method_name named.old methods.old.items inherited (front ++ back)
        → AreNew class_method_name (own_method (module_in class.now.outline.now) class.now.number)
        (map (method_with S.tree) front) (map entry_seen entries.now)
        → IfOk result (λ new. Added stored_method_name (HasMethod (S.has reader.new.store.now))
        (method_with S.tree) named.new methods.old.items methods.new.items new front back
        (all_own (own_method (module_in class.now.outline.now) class.now.number) (map entry_seen entries.now))) }
{
    let mut at = inherited;
    for entry in entries {
        at = add_own_method(reader, class, named, methods, at, entry)?;
    }
    Ok(at)
}

/// The base of classes that have none: no fields and no methods.
const EMPTY: ClassNode = ClassNode {
    base: None,
    held: MemberMaps {
        fields: 0,
        methods: 0,
    },
    defaulted: false,
    fields: Span { start: 0, end: 0 },
    methods: Span { start: 0, end: 0 },
};

/// Returns the base among the classes before, or an empty class if there is none.
fn inherited(classes: &[ClassNode], base: Option<usize>) -> ClassNode
    ensures { result ≡ inherited_node classes.now base }
{
    match base {
        None => EMPTY,
        Some(base) => {
            if base < classes.len() {
                classes[base]
            } else {
                EMPTY
            }
        }
    }
}

/// Returns the range of a list from `start` to its end.
fn places_from<T>(start: usize, list: &[T]) -> Span
    ensures start { result.start ≡ start }
    ensures end { result.end ≡ length list.now }
{
    Span {
        start,
        end: list.len(),
    }
}

/// Adds a class over its base, which is among the classes before it, and reads the annotations of its fields and of the
/// methods that it binds. Adds the findings about its members' names: E06, E08. Library reference, `dataclasses`; own
/// rules of the profile.
pub(crate) fn add_class<S: TypeStore>(
    reader: &mut TypeReader<'_, S>,
    outline: &ModuleOutline,
    parts: &mut ClassArena<S::Ty>,
    found: &mut Findings,
    definition: &ClassDef,
) -> Result<(), OutOfMemory>
    requires outline { IsModuleOutline outline.now }
    requires table { IsClassTable parts.old }
    requires given { HasParts (S.has reader.old.store.now) parts.old }
    requires class { IsClassAt (module_in outline.now) (length parts.old.classes.items) (class_of definition.now) }
    ensures store { KeepsTypes S.has reader.old.store.now reader.new.store.now }
    ensures same { IsLentSame reader.old reader.new }
    ensures more { OnOk result (length parts.new.classes.items ≡ length parts.old.classes.items + 1) }
    ensures added { OnOk result
        (IsOneMore S.tree (S.has reader.new.store.now) (module_in outline.now) (class_of definition.now) parts.old
        parts.new) }
    ensures found { OnOk result
        (found.new.items ≡ found.old.items
        ++ found_over (base_facts (classes_with S.tree (classes_of_table parts.old))
        (base_named (module_in outline.now) (length parts.old.classes.items) (class_of definition.now).base))
        (class_of definition.now)) }
    ensures annotated { OnOk result (reader.new.found.now.items ≡ reader.old.found.now.items
        ++ class_annotated (module_in outline.now) (base_facts (classes_with S.tree (classes_of_table parts.old))
        (base_named (module_in outline.now) (length parts.old.classes.items) (class_of definition.now).base))
        (class_of definition.now)) }
{
    let number = parts.classes.len();
    let class = NumberedClass { outline, number };
    let base = outline.parents.base(number);
    let inherited = inherited(&parts.classes, base);
    let members = entries(
        reader.alloc,
        outline.tree.keys,
        &parts.named,
        inherited.held,
        &definition.members,
    )?;
    find_clashes(found, &members)?;
    let defaulted = find_late_fields(found, inherited.defaulted, &members)?;
    let fields_start = parts.fields.len();
    let fields = add_fields(
        reader,
        outline,
        &mut parts.named,
        &mut parts.fields,
        inherited.held.fields,
        &members,
    )?;
    let methods_start = parts.methods.len();
    let methods = add_methods(
        reader,
        &class,
        &mut parts.named,
        &mut parts.methods,
        inherited.held.methods,
        &members,
    )?;
    parts.classes.push(ClassNode {
        base,
        held: MemberMaps { fields, methods },
        defaulted,
        fields: places_from(fields_start, &parts.fields),
        methods: places_from(methods_start, &parts.methods),
    })?;
    Ok(())
}
