//! The facts that details are made from, and names and types as texts.

ghost use Rattle.std.specs.Prelude.{◌≡◌, ◌&&◌, All, IfOk, IfSome, length, map, option_map, slice_get};
ghost use Rattle.pc_tree.specs.Depth.{place_of};
ghost use Rattle.pc_tree.specs.Stopping.{has_none};
ghost use Rattle.pc_tree.specs.Tree.{ann_of, expr_of};
ghost use Rattle.pc_scope.specs.declared.resolution.Owner.TheVariants as owners;
ghost use Rattle.pc_scope.specs.Bindings.{functions_in};
ghost use Rattle.pc_scope.specs.Resolution.{function_of};
ghost use Rattle.pc_types.specs.Boxed.{tree_of, IsGiven};
ghost use Rattle.pc_types.specs.Join.{same_tree};
ghost use Rattle.pc_types.specs.Shape.{members};
ghost use Rattle.pc_annotations.specs.Text.{class_text};
ghost use Rattle.pc_class.specs.Facts.{classes_of, class_facts_at, field_by_name, method_by_name};
ghost use Rattle.pc_class.specs.Tables.{HasEntries, HasMethod, classes_with, method_lent, method_with, parameter_lent};
ghost use Rattle.pc_detail_texts.specs.Mapped.{short_function};
ghost use Rattle.pc_detail_texts.specs.Shortened.{shortened};
ghost use Rattle.pc_detail_texts.specs.Shown.{all_words, function_of_value, words};
ghost use Rattle.pc_detail_facts.specs.Held.{HoldsDefinitions, AreFacts, AreListedGiven, HasGivenType, IsGivenLent, body_of, module_held, text_held};
ghost use Rattle.pc_detail_facts.specs.Held.{function_lent, known_held, listing_held, trees_lent};
ghost use Rattle.pc_detail_facts.specs.Annotated.{annotation_lent};
ghost use Rattle.pc_detail_rules.specs.Nodes.{function_name, name_with};
ghost use Rattle.pc_detail_rules.specs.Operations.{has_member, method_name};
ghost use Rattle.pc_detail_rules.specs.ToldTypes.{told_target};
ghost use Rattle.pc_detail_rules.specs.Written.{ann_text, field_annotation, denotes};

use crate::ann_texts::push_ann;
use crate::annotations::Annotations;
use crate::definitions::{Body, Definitions};
use crate::known::Known;
use crate::type_texts::push_type;
use pc_annotations::{ModuleOutline, read_ann};
use pc_class::{ClassTable, Listing, Method, Parameter};
use pc_detail_texts::{FunctionName, ShortText, Unsupported, shortened};
use pc_scope::Owner;
use pc_source::{OutOfMemory, Place};
use pc_tree::{Ann, Expr, Finding, FuncDef};
use pc_types::{BoxStore, BoxType, is_same};
use std::alloc::Global;
use std::rc::RcStr;

/// A module with its scopes and its classes, and what the notes of its check tell.
#[derive(Drop)]
pub struct Facts<'m, 'n> {
    pub alloc: Global,
    pub outline: &'m ModuleOutline<'m>,
    pub classes: &'m ClassTable<BoxType>,
    pub fields: &'m [Listing<'m, BoxType>],
    pub annotations: &'m Annotations<'m>,
    pub definitions: &'m Definitions<'m>,
    pub known: &'m Known<'n>,
}

impl<'m> Facts<'m, '_> {
    /// Returns a text, of at most 200 bytes, to be kept in a detail.
    pub fn words(&self, text: &str) -> Result<RcStr, OutOfMemory>
        ensures { IfOk result (λ t. words t ≡ shortened text.now) }
    {
        shortened(self.alloc, text)
    }

    /// Returns the text of a type, of at most 200 bytes.
    pub fn type_words(&self, ty: &BoxType) -> Result<RcStr, OutOfMemory>
        requires { HoldsDefinitions (module_held self.now) self.now.definitions.now }
        ensures { IfOk result (λ t. words t ≡ text_held self.now (tree_of ty.now)) }
    {
        let mut text = ShortText::new();
        push_type(self.definitions, ty, &mut text);
        text.to_words(self.alloc)
    }

    /// Returns whether an annotation denotes a type: it has no findings, and it is read as that type.
    fn denotes(&self, ann: &Ann, ty: &BoxType) -> Result<bool, OutOfMemory>
        requires { AreFacts self.now }
        ensures { IfOk result (λ b. b ≡ denotes (module_held self.now) (ann_of ann.now) (tree_of ty.now)) }
    {
        // The findings in the annotation are reported at its own place.
        let mut found = Vec::new(self.alloc);
        let mut store = BoxStore::new();
        let read = read_ann(&mut store, self.alloc, self.outline, &mut found, ann)?;
        Ok(is_read_as(&found, &read, ty))
    }

    /// Returns the text of an annotation, of at most 200 bytes.
    fn ann_words(&self, ann: &Ann) -> Result<RcStr, OutOfMemory>
        ensures { IfOk result (λ t. words t ≡ shortened (ann_text (ann_of ann.now))) }
    {
        let mut text = ShortText::new();
        push_ann(ann, &mut text);
        text.to_words(self.alloc)
    }

    /// Returns the text of the type of a target, of at most 200 bytes: that of its annotation, if it has one that
    /// denotes the type.
    pub fn target_words(&self, written: Option<&Ann>, ty: &BoxType) -> Result<RcStr, OutOfMemory>
        requires { AreFacts self.now }
        ensures { IfOk result (λ t. words t
            ≡ told_target (module_held self.now) (option_map annotation_lent written.entry) (tree_of ty.now)) }
    {
        match written {
            Some(ann) => {
                let is_written = self.denotes(ann, ty)?;
                if is_written {
                    self.ann_words(ann)
                } else {
                    self.type_words(ty)
                }
            }
            None => self.type_words(ty),
        }
    }

    /// Returns the texts of types.
    pub fn all_type_words(&self, types: &[&BoxType]) -> Result<Vec<RcStr>, OutOfMemory>
        requires { HoldsDefinitions (module_held self.now) self.now.definitions.now }
        ensures { IfOk result (λ v. all_words v.items ≡ map (text_held self.now) (trees_lent types.now)) }
    {
        let mut texts = Vec::new(self.alloc);
        for ty in types {
            texts.push(self.type_words(*ty)?)?;
        }
        Ok(texts)
    }

    /// Returns the name of the class with this number.
    pub fn class_words(&self, class: usize) -> Result<RcStr, OutOfMemory>
        requires { HoldsDefinitions (module_held self.now) self.now.definitions.now }
        ensures { IfOk result (λ t. words t ≡ shortened (class_text (module_held self.now) class)) }
    {
        self.words(self.definitions.class_name(class))
    }

    /// Returns the number of fields of the class with this number.
    pub fn field_count(&self, class: usize) -> usize
        requires { AreFacts self.now }
        ensures { result ≡ length (class_facts_at (classes_of (module_held self.now)) class).fields }
    {
        match self.fields.get(class) {
            Some(fields) => fields.len(),
            None => 0,
        }
    }

    /// Returns the field at a position of the class with this number.
    pub fn field_at(&self, class: usize, position: usize) -> Option<&'m Parameter<BoxType>>
        requires { AreFacts self.now }
        ensures field { option_map (parameter_lent tree_of) result
            ≡ slice_get (class_facts_at (classes_of (module_held self.now)) class).fields position }
        ensures given { HasGivenType result }
    {
        match self.fields.get(class) {
            Some(fields) => fields.at(position),
            None => None,
        }
    }

    /// Returns the function with this number.
    pub fn function_at(&self, number: usize) -> Option<&'m FuncDef>
        requires { AreFacts self.now }
        ensures { option_map function_lent result ≡ slice_get (functions_in (module_held self.now).items) number }
    {
        self.definitions.functions.get(number).copied()
    }

    /// Returns the method with a name of the class with this number.
    pub fn method_named(&self, class: usize, name: &str) -> Option<&'m Method<BoxType>>
        requires { AreFacts self.now }
        ensures method { option_map (method_lent tree_of) result
            ≡ method_by_name (class_facts_at (classes_of (module_held self.now)) class).methods name.now }
        ensures given { IfSome result (λ x. HasMethod IsGiven x.now) }
    {
        self.classes.method(class, name)
    }

    /// Returns the field with a name of the class with this number.
    pub fn field_named(&self, class: usize, name: &str) -> Option<&'m Parameter<BoxType>>
        requires { AreFacts self.now }
        ensures field { option_map (parameter_lent tree_of) result
            ≡ field_by_name (class_facts_at (classes_of (module_held self.now)) class).fields name.now }
        ensures given { HasGivenType result }
    {
        self.classes.field(class, name)
    }

    /// Returns the annotation of a field with a name of the class with this number, if it has one.
    pub fn field_annotation(&self, class: usize, name: &str) -> Option<&'m Ann>
        requires { AreFacts self.now }
        ensures { option_map annotation_lent result ≡ field_annotation (module_held self.now) class name.now }
    {
        self.annotations.field(class, name)
    }

    /// Returns the function of a method, if there is one.
    pub(crate) fn function_of(&self, method: &Method<BoxType>) -> Option<&'m FuncDef>
        requires { AreFacts self.now }
        ensures { option_map function_lent result
            ≡ function_of (module_held self.now) (owners.Method method.now.owner method.now.number) }
    {
        self.annotations.method(method.owner, method.number)
    }

    /// Returns the name of a function of this owner as it is shown; that of a method with its class.
    pub fn function_words(&self, owner: Owner, name: &str) -> Result<FunctionName, OutOfMemory>
        requires { HoldsDefinitions (module_held self.now) self.now.definitions.now }
        ensures { IfOk result (λ f. function_of_value f
            ≡ short_function (name_with (module_held self.now) owner name.now)) }
    {
        let class = match owner {
            Owner::Method(class, _) => Some(self.class_words(class)?),
            Owner::Module | Owner::Func(_) => None,
        };
        let name = self.words(name)?;
        Ok(FunctionName { class, name })
    }

    /// Returns the name of a method as it is shown, with the class that defines it.
    pub fn method_words(&self, method: &Method<BoxType>) -> Result<FunctionName, OutOfMemory>
        requires { HoldsDefinitions (module_held self.now) self.now.definitions.now }
        ensures { IfOk result (λ f. function_of_value f
            ≡ short_function (method_name (module_held self.now) (method_with tree_of method.now))) }
    {
        let class = Some(self.class_words(method.owner)?);
        let name = self.words(method.name.as_str())?;
        Ok(FunctionName { class, name })
    }

    /// Returns a type and its members that do not support an operation.
    pub fn unsupported(
        &self,
        ty: &BoxType,
        lacking: &[&BoxType],
    ) -> Result<Unsupported, OutOfMemory>
        requires { HoldsDefinitions (module_held self.now) self.now.definitions.now }
        ensures object { IfOk result (λ u. words u.object ≡ text_held self.now (tree_of ty.now)) }
        ensures lacking { IfOk result
            (λ u. all_words u.lacking.items ≡ map (text_held self.now) (trees_lent lacking.now)) }
    {
        let object = self.type_words(ty)?;
        let lacking = self.all_type_words(lacking)?;
        Ok(Unsupported { object, lacking })
    }

    /// Returns the type of the expression at a place, `Any` if there is none.
    pub fn type_at(&self, place: Place) -> &'m BoxType
        requires { AreFacts self.now }
        ensures tree { tree_of result.now ≡ (known_held self.now).types place }
        ensures given { IsGiven result.now }
    {
        self.known.type_at(place)
    }

    /// Returns the type of an expression.
    pub fn type_of(&self, expr: &Expr) -> &'m BoxType
        requires { AreFacts self.now }
        ensures tree { tree_of result.now ≡ (known_held self.now).types (place_of (expr_of expr.now)) }
        ensures given { IsGiven result.now }
    {
        self.type_at(expr.place())
    }

    /// Returns whether a class has a field or a method of this name.
    pub fn has_member(&self, class: usize, name: &str) -> bool
        requires { AreFacts self.now }
        ensures { result ≡ has_member (module_held self.now) name.now class }
    {
        self.classes.field(class, name).is_some() || self.classes.method(class, name).is_some()
    }

    /// Returns the name of a function or method as it is shown.
    pub fn body_words(&self, body: Body<'_>) -> Result<FunctionName, OutOfMemory>
        requires { AreFacts self.now }
        ensures { IfOk result (λ f. function_of_value f
            ≡ short_function (function_name (module_held self.now) (body_of body.entry))) }
    {
        self.function_words(body.owner, body.function.name.text.as_str())
    }
}

/// Returns whether nothing was found in an annotation, and it was read as a type.
fn is_read_as(found: &[Finding], read: &BoxType, ty: &BoxType) -> bool
    ensures { result ≡ has_none found.now && same_tree (tree_of read.now) (tree_of ty.now) }
{
    found.is_empty() && is_same(read, ty)
}

/// Returns the fields of each class.
pub fn fields_of_classes<'m>(
    alloc: Global,
    classes: &'m ClassTable<BoxType>,
) -> Result<Vec<Listing<'m, BoxType>>, OutOfMemory>
    requires { HasEntries IsGiven classes.now }
    ensures fields { IfOk result
        (λ v. map listing_held v.items ≡ map (λ c. c.fields) (classes_with tree_of classes.now)) }
    ensures given { IfOk result (λ v. All AreListedGiven v.items) }
{
    let mut fields = Vec::new(alloc);
    for class in 0..classes.count() {
        fields.push(Listing::Fields(classes, class))?;
    }
    Ok(fields)
}

/// Returns the members of a type in order: none for `Never`, those of a union, else the type itself.
pub fn members_of_type<'t>(alloc: Global, ty: &'t BoxType) -> Result<Vec<&'t BoxType>, OutOfMemory>
    requires { IsGiven ty.now }
    ensures trees { IfOk result (λ v. trees_lent v.items ≡ members (tree_of ty.now)) }
    ensures given { IfOk result (λ v. All IsGivenLent v.items) }
{
    let mut members = Vec::new(alloc);
    let mut rest = ty;
    'down: while let BoxType::Union(first, others) = rest {
        members.push(first.as_ref())?;
        rest = others.as_ref();
    }
    match rest {
        BoxType::Never => {}
        _ => members.push(rest)?,
    }
    Ok(members)
}
