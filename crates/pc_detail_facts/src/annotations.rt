//! The annotations of fields by class, and the methods of each class.

ghost use Rattle.std.specs.Prelude.{◌≡◌, ◌++◌, ◌∷◌, [], IfOk, List, OnOk, map, option_map, slice_get, slice_index_or};
ghost use Rattle.pc_tree.specs.Tree.{Module as ModuleOf, class_of, field_member, field_of, member_of, option_ann_of};
ghost use Rattle.pc_scope.specs.declared.resolution.Owner.TheVariants as owners;
ghost use Rattle.pc_scope.specs.Bindings.{classes_in, methods_in};
ghost use Rattle.pc_scope.specs.Resolution.{function_of};
ghost use Rattle.pc_annotations.specs.ModuleOutlines.{IsModuleOutline, module_in};
ghost use Rattle.pc_shared_maps.specs.NameMaps.{IsMap};
ghost use Rattle.pc_detail_facts.specs.Annotated.{HoldsFields, IsFieldMap, KeepsFields, annotation_lent};
ghost use Rattle.pc_detail_facts.specs.Held.{HoldsAnnotations, class_lent, function_lent};
ghost use Rattle.pc_detail_rules.specs.Written.{Annotated, annotated_field, annotated_fields, annotation_named};
ghost use Rattle.pc_detail_rules.specs.Written.{field_annotation, fields_behind, inherited_fields};

use pc_annotations::ModuleOutline;
use pc_shared_maps::NamedMaps;
use pc_source::OutOfMemory;
use pc_tree::{Ann, ClassDef, Field, FuncDef, Keys, Member};
use pc_types::Parents;
use std::alloc::Global;

/// Returns an annotation, if there is one.
pub fn option_ann(annotation: &Option<Ann>) -> Option<&Ann>
    ensures { option_map annotation_lent result ≡ option_ann_of annotation.now }
{
    match annotation {
        Some(annotation) => Some(annotation),
        None => None,
    }
}

/// The annotations of the fields of each class by name, with those of its ancestors.
#[derive(Drop)]
pub(crate) struct FieldAnnotations<'m> {
    named: NamedMaps,
    /// For each class the map from the names of its fields to their numbers among all.
    maps: Vec<usize>,
    fields: Vec<&'m Field>,
}

impl<'m> FieldAnnotations<'m> {
    /// Returns the annotation of a field of the class with this number, if it has one.
    fn get(&self, class: usize, name: &str) -> Option<&'m Ann>
        requires { (lists : List (List Annotated)) × HoldsFields lists self.now }
        ensures { (lists : List (List Annotated)) → HoldsFields lists self.now
            → option_map annotation_lent result ≡ annotation_named (slice_index_or lists class []) name.now }
    {
        match self.maps.get(class) {
            Some(map) => self.get_in(*map, name),
            None => None,
        }
    }

    /// Returns the annotation of a field in a map, if it has one of this name.
    fn get_in(&self, map: usize, name: &str) -> Option<&'m Ann>
        requires { (those : List Annotated) × IsFieldMap self.now those map }
        ensures { (those : List Annotated) → IsFieldMap self.now those map
            → option_map annotation_lent result ≡ annotation_named those name.now }
    {
        match self.named.get(map, name) {
            Some(number) => match self.fields.get(number) {
                Some(field) => Some(&field.annotation),
                None => None,
            },
            None => None,
        }
    }

    /// Returns the map of a class, or the empty one if there is none.
    fn map_of(&self, class: Option<usize>) -> usize
        ensures { (lists : List (List Annotated)) → HoldsFields lists self.now
            → IsFieldMap self.now (inherited_fields lists class) result }
    {
        match class {
            Some(class) => match self.maps.get(class) {
                Some(map) => *map,
                None => 0,
            },
            None => 0,
        }
    }

    /// Adds a field to a map, unless it has one of its name. Returns the new map.
    fn add_field(
        &mut self,
        alloc: Global,
        map: usize,
        field: &'m Field,
    ) -> Result<usize, OutOfMemory>
        requires { IsMap self.old.named map }
        ensures is_map { IfOk result (λ new. IsMap self.new.named new) }
        ensures kept { OnOk result (KeepsFields self.old self.new) }
        ensures maps { OnOk result (self.new.maps.items ≡ self.old.maps.items) }
        ensures held { (those : List Annotated) → IsFieldMap self.old those map
            → IfOk result (IsFieldMap self.new (those ++ annotated_field (field_member (field_of field.now)))) }
    {
        let name = field.name.text.as_str();
        if self.named.has(map, name) {
            return Ok(map);
        }
        let number = self.fields.len();
        let new = self.named.put(alloc, map, name, number)?;
        self.fields.push(field)?;
        Ok(new)
    }

    /// Adds the fields of a class to a map. Returns the new map.
    fn add_fields(
        &mut self,
        alloc: Global,
        map: usize,
        class: &'m ClassDef,
    ) -> Result<usize, OutOfMemory>
        requires { IsMap self.old.named map }
        ensures is_map { IfOk result (λ new. IsMap self.new.named new) }
        ensures kept { OnOk result (KeepsFields self.old self.new) }
        ensures maps { OnOk result (self.new.maps.items ≡ self.old.maps.items) }
        ensures held { (those : List Annotated) → IsFieldMap self.old those map
            → IfOk result (IsFieldMap self.new (those ++ annotated_fields (class_of class.now))) }
    {
        let mut map = map;
        for member in &class.members {
            map = self.add_member(alloc, map, member)?;
        }
        Ok(map)
    }

    /// Adds a member of a class to a map, if it is a field. Returns the new map.
    fn add_member(
        &mut self,
        alloc: Global,
        map: usize,
        member: &'m Member,
    ) -> Result<usize, OutOfMemory>
        requires { IsMap self.old.named map }
        ensures is_map { IfOk result (λ new. IsMap self.new.named new) }
        ensures kept { OnOk result (KeepsFields self.old self.new) }
        ensures maps { OnOk result (self.new.maps.items ≡ self.old.maps.items) }
        ensures held { (those : List Annotated) → IsFieldMap self.old those map
            → IfOk result (IsFieldMap self.new (those ++ annotated_field (member_of member.now))) }
    {
        match member {
            Member::Field(field) => self.add_field(alloc, map, field),
            Member::Method(_) => Ok(map),
        }
    }

    /// Adds a class, whose fields come after those of its base.
    fn add_class(
        &mut self,
        alloc: Global,
        base: Option<usize>,
        class: &'m ClassDef,
    ) -> Result<(), OutOfMemory>
        requires { (lists : List (List Annotated)) × HoldsFields lists self.old }
        ensures { (lists : List (List Annotated)) → HoldsFields lists self.old → OnOk result (HoldsFields
            (lists ++ (inherited_fields lists base ++ annotated_fields (class_of class.now)) ∷ []) self.new) }
    {
        let inherited = self.map_of(base);
        let map = self.add_fields(alloc, inherited, class)?;
        Ok(self.maps.push(map)?)
    }

    /// Returns the annotations of the fields of classes.
    fn of(
        alloc: Global,
        keys: Keys,
        parents: &Parents,
        classes: &[&'m ClassDef],
    ) -> Result<FieldAnnotations<'m>, OutOfMemory>
        ensures { IfOk result (HoldsFields (fields_behind parents.now [] 0 (map class_lent classes.now))) }
    {
        let mut fields = FieldAnnotations {
            named: NamedMaps::new(alloc, keys)?,
            maps: Vec::new(alloc),
            fields: Vec::new(alloc),
        };
        let mut number = 0;
        for class in classes {
            fields.add_class(alloc, parents.base(number), *class)?;
            number += 1;
        }
        Ok(fields)
    }
}

/// Returns the methods of a class, in text order.
fn methods_of<'m>(alloc: Global, class: &'m ClassDef) -> Result<Vec<&'m FuncDef>, OutOfMemory>
    ensures { IfOk result (λ v. map function_lent v.items ≡ methods_in (class_of class.now).members) }
{
    let mut methods = Vec::new(alloc);
    for member in &class.members {
        match member {
            Member::Field(_) => {}
            Member::Method(function) => methods.push(function)?,
        }
    }
    Ok(methods)
}

/// Returns the methods of each class, in text order.
fn methods_of_classes<'m>(
    alloc: Global,
    classes: &[&'m ClassDef],
) -> Result<Vec<Vec<&'m FuncDef>>, OutOfMemory>
    ensures { IfOk result (λ v. map (λ w. map function_lent w.items) v.items
        ≡ map (λ c. methods_in c.members) (map class_lent classes.now)) }
{
    let mut methods = Vec::new(alloc);
    for class in classes {
        methods.push(methods_of(alloc, *class)?)?;
    }
    Ok(methods)
}

/// The annotations of the fields of each class, and the methods of each.
#[derive(Drop)]
pub struct Annotations<'m> {
    fields: FieldAnnotations<'m>,
    methods: Vec<Vec<&'m FuncDef>>,
}

impl<'m> Annotations<'m> {
    /// Returns the annotations of the classes of a module.
    pub fn of(
        alloc: Global,
        outline: &ModuleOutline<'m>,
        classes: &[&'m ClassDef],
    ) -> Result<Annotations<'m>, OutOfMemory>
        requires outline { IsModuleOutline outline.now }
        requires classes { map class_lent classes.now ≡ classes_in (module_in outline.now).items }
        ensures { IfOk result (HoldsAnnotations (module_in outline.now)) }
    {
        let fields = FieldAnnotations::of(alloc, outline.tree.keys, outline.parents, classes)?;
        let methods = methods_of_classes(alloc, classes)?;
        Ok(Annotations { fields, methods })
    }

    /// Returns the annotation of a field of the class with this number, in the class or in an ancestor that declares it.
    pub(crate) fn field(&self, class: usize, name: &str) -> Option<&'m Ann>
        requires { (m : ModuleOf) × HoldsAnnotations m self.now }
        ensures { (m : ModuleOf) → HoldsAnnotations m self.now
            → option_map annotation_lent result ≡ field_annotation m class name.now }
    {
        self.fields.get(class, name)
    }

    /// Returns the method with a number in the class with a number.
    pub(crate) fn method(&self, class: usize, number: usize) -> Option<&'m FuncDef>
        ensures { (m : ModuleOf) → HoldsAnnotations m self.now
            → option_map function_lent result ≡ function_of m (owners.Method class number) }
    {
        match self.methods.get(class) {
            Some(methods) => method_in(methods, number),
            None => None,
        }
    }
}

/// Returns the method with a number among some.
fn method_in<'m>(methods: &[&'m FuncDef], number: usize) -> Option<&'m FuncDef>
    ensures { option_map function_lent result ≡ slice_get (map function_lent methods.now) number }
{
    methods.get(number).copied()
}
