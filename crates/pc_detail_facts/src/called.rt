//! The target of a call, and the parameters that it takes.

ghost use Rattle.std.specs.Prelude.{◌≡◌, IfOk, IfSome, Some, length, option_map};
ghost use Rattle.std.specs.Prelude.{slice_get};
ghost use Rattle.std.specs.Option.{option_copied};
ghost use Rattle.pc_tree.specs.Tree.{Module as ModuleOf, func_of, param_of};
ghost use Rattle.pc_types.specs.Boxed.{tree_of, IsGiven};
ghost use Rattle.pc_class.specs.Facts.{parameters_of};
ghost use Rattle.pc_class.specs.Facts.{typed_parameter};
ghost use Rattle.pc_class.specs.Tables.{HasMethod, method_with, parameter_lent, parameters_with};
ghost use Rattle.pc_detail_texts.specs.Mapped.{map_callable};
ghost use Rattle.pc_detail_texts.specs.Shown.{callable_of_value};
ghost use Rattle.pc_detail_facts.specs.Annotated.{annotation_lent};
ghost use Rattle.pc_detail_facts.specs.Callees.{IsHeldCalled, called_of, default_in, name_of_parameter, parameters_called};
ghost use Rattle.pc_detail_facts.specs.Callees.{argument_type, takes_names_in, type_of_parameter};
ghost use Rattle.pc_detail_facts.specs.declared.facts.Facts.{Facts as FactsOf};
ghost use Rattle.pc_detail_rules.specs.Written.{annotations_of, method_annotations, written_at};
ghost use Rattle.pc_detail_facts.specs.Held.{AreFacts, HasGivenType, module_held, text_held, tree_lent};

use crate::annotations::option_ann;
use crate::facts::Facts;
use pc_annotations::read_option;
use pc_class::{Method, Parameter};
use pc_detail_texts::Callable;
use pc_scope::Owner;
use pc_source::OutOfMemory;
use pc_tree::{Ann, FuncDef, Param};
use pc_types::{BoxStore, BoxType, TypeStore};

/// The target of a call: a function, a class, a method, or a built-in.
#[derive(Clone, Copy)]
pub enum CallTarget<'c> {
    Function(&'c FuncDef),
    /// The class with this number, which takes its fields.
    Class(usize),
    Method(&'c Method<BoxType>),
    /// A built-in function, the number of arguments by position that it takes, and whether each is an `int`.
    Builtin(&'c str, usize, bool),
    /// A method of a list or a dict: the type of the object, the name, and the type of its argument, if it takes one.
    Member(&'c BoxType, &'c str, Option<&'c BoxType>),
    /// A value of this type, which takes no arguments.
    Value(&'c BoxType),
}

impl<'c> CallTarget<'c> {
    /// Returns whether arguments may be given by name.
    pub fn takes_names(self) -> bool
        ensures { (facts : FactsOf) → result ≡ takes_names_in (called_of facts self.entry).signature }
    {
        match self {
            CallTarget::Function(_) | CallTarget::Class(_) | CallTarget::Method(_) => true,
            CallTarget::Builtin(_, _, _) | CallTarget::Member(_, _, _) | CallTarget::Value(_) =>
                false,
        }
    }

    /// Returns the number of parameters.
    pub fn count(self, facts: &Facts<'c, '_>) -> usize
        requires { AreFacts facts.now }
        ensures { result ≡ length (parameters_called facts.now self.entry) }
    {
        match self {
            CallTarget::Function(def) => def.params.len(),
            CallTarget::Class(class) => facts.field_count(class),
            CallTarget::Method(method) => method.params.as_slice().len(),
            CallTarget::Builtin(_, count, _) => count,
            CallTarget::Member(_, _, Some(_)) => 1,
            CallTarget::Member(_, _, None) | CallTarget::Value(_) => 0,
        }
    }

    /// Returns the name of the parameter at a position, empty if it has none.
    pub fn name_at(self, facts: &Facts<'c, '_>, position: usize) -> &'c str
        requires { AreFacts facts.now }
        ensures { result.now ≡ name_of_parameter (slice_get (parameters_called facts.now self.entry) position) }
    {
        match self {
            CallTarget::Function(def) => match function_parameter(def, position) {
                Some(param) => param.name.text.as_str(),
                None => "",
            },
            CallTarget::Class(class) => match facts.field_at(class, position) {
                Some(field) => field.name.as_str(),
                None => "",
            },
            CallTarget::Method(method) => match method_parameter(method, position) {
                Some(param) => param.name.as_str(),
                None => "",
            },
            CallTarget::Builtin(_, _, _) => "",
            CallTarget::Member(_, _, _) => "",
            CallTarget::Value(_) => "",
        }
    }

    /// Returns whether the parameter at a position has a default.
    pub fn has_default(self, facts: &Facts<'c, '_>, position: usize) -> bool
        requires { AreFacts facts.now }
        ensures { result ≡ default_in (slice_get (parameters_called facts.now self.entry) position) }
    {
        match self {
            CallTarget::Function(def) => match function_parameter(def, position) {
                Some(param) => param.default.is_some(),
                None => false,
            },
            CallTarget::Class(class) => match facts.field_at(class, position) {
                Some(field) => field.has_default,
                None => false,
            },
            CallTarget::Method(method) => match method_parameter(method, position) {
                Some(param) => param.has_default,
                None => false,
            },
            CallTarget::Builtin(_, _, _) => false,
            CallTarget::Member(_, _, _) => false,
            CallTarget::Value(_) => false,
        }
    }

    /// Returns the type of the parameter at a position, if there is one.
    #[tactic(auto, using(crate::proofs::CalledParameters::repeated_type))]
    pub fn type_at(
        self,
        facts: &Facts<'c, '_>,
        position: usize,
    ) -> Result<Option<BoxType>, OutOfMemory>
        requires facts { AreFacts facts.now }
        requires held { IsHeldCalled self }
        ensures { IfOk result (λ t. option_map tree_of t
            ≡ type_of_parameter (slice_get (parameters_called facts.now self.entry) position)) }
    {
        match self {
            CallTarget::Function(def) => function_type(facts, def, position),
            CallTarget::Class(class) => match facts.field_at(class, position) {
                Some(field) => copied(facts, Some(&field.ty)),
                None => Ok(None),
            },
            CallTarget::Method(method) => match method_parameter(method, position) {
                Some(param) => copied(facts, Some(&param.ty)),
                None => Ok(None),
            },
            CallTarget::Builtin(_, count, is_int) => {
                if position >= count {
                    return Ok(None);
                }
                Ok(Some(argument_of(is_int)))
            }
            CallTarget::Member(_, _, argument) => {
                if position > 0 {
                    return Ok(None);
                }
                copied(facts, argument)
            }
            CallTarget::Value(_) => Ok(None),
        }
    }

    /// Returns the annotation of the parameter at a position, if it has one.
    pub fn annotation_at(self, facts: &Facts<'c, '_>, position: usize) -> Option<&'c Ann>
        requires { AreFacts facts.now }
        ensures { option_map annotation_lent result ≡ written_at (called_of facts.now self.entry).annotations position }
    {
        match self {
            CallTarget::Function(def) => parameter_annotation(def, position),
            CallTarget::Class(class) => match facts.field_at(class, position) {
                Some(field) => facts.field_annotation(class, field.name.as_str()),
                None => None,
            },
            CallTarget::Method(method) => method_annotation(facts, method, position),
            CallTarget::Builtin(_, _, _) => None,
            CallTarget::Member(_, _, _) => None,
            CallTarget::Value(_) => None,
        }
    }

    /// Returns what is called as it is shown.
    pub fn shown(self, facts: &Facts<'c, '_>) -> Result<Callable, OutOfMemory>
        requires facts { AreFacts facts.now }
        requires held { IsHeldCalled self }
        ensures { IfOk result (λ c. callable_of_value c
            ≡ map_callable (text_held facts.now) (called_of facts.now self.entry).what) }
    {
        match self {
            CallTarget::Function(def) => {
                let name = facts.function_words(Owner::Module, def.name.text.as_str())?;
                Ok(Callable::Function(name))
            }
            CallTarget::Class(class) => Ok(Callable::Class(facts.class_words(class)?)),
            CallTarget::Method(method) => Ok(Callable::Function(facts.method_words(method)?)),
            CallTarget::Builtin(name, _, _) => Ok(Callable::Builtin(facts.words(name)?)),
            CallTarget::Member(object, name, _) => {
                let object = facts.type_words(object)?;
                Ok(Callable::Member(object, facts.words(name)?))
            }
            CallTarget::Value(ty) => Ok(Callable::Value(facts.type_words(ty)?)),
        }
    }
}

/// Returns the parameter of a function at a position, if there is one.
fn function_parameter(def: &FuncDef, position: usize) -> Option<&Param>
    ensures { (m : ModuleOf) → option_map (λ p. typed_parameter m (param_of p.now)) result
        ≡ slice_get (parameters_of m (func_of def.now).params) position }
{
    match def.params.get(position) {
        Some(param) => Some(param),
        None => None,
    }
}

/// Returns the annotation of the parameter of a function at a position, if it has one.
fn parameter_annotation(def: &FuncDef, position: usize) -> Option<&Ann>
    ensures { option_map annotation_lent result ≡ written_at (annotations_of (Some (func_of def.now))) position }
{
    match def.params.get(position) {
        Some(param) => option_ann(&param.annotation),
        None => None,
    }
}

/// Returns the annotation of the parameter of a method at a position, if it has one.
fn method_annotation<'c>(
    facts: &Facts<'c, '_>,
    method: &Method<BoxType>,
    position: usize,
) -> Option<&'c Ann>
    requires { AreFacts facts.now }
    ensures { option_map annotation_lent result
        ≡ written_at (method_annotations (module_held facts.now) (method_with tree_of method.now)) position }
{
    match facts.function_of(method) {
        Some(def) => parameter_annotation(def, position),
        None => None,
    }
}

/// Returns the parameter of a method at a position, if there is one.
fn method_parameter(method: &Method<BoxType>, position: usize) -> Option<&Parameter<BoxType>>
    ensures param { option_map (parameter_lent tree_of) result
        ≡ slice_get (parameters_with tree_of method.now.params) position }
    ensures given { HasMethod IsGiven method.now → HasGivenType result }
{
    method.params.as_slice().get(position)
}

/// Returns the type of an argument of a built-in.
fn argument_of(is_int: bool) -> BoxType
    ensures { tree_of result ≡ argument_type is_int }
{
    if is_int {
        BoxType::Int
    } else {
        BoxType::Object
    }
}

/// Returns a copy of a type, if there is one.
fn copied(facts: &Facts<'_, '_>, ty: Option<&BoxType>) -> Result<Option<BoxType>, OutOfMemory>
    requires { IfSome (option_copied ty) IsGiven }
    ensures { IfOk result (λ t. option_map tree_of t ≡ option_map tree_lent ty.entry) }
{
    match ty {
        Some(ty) => Ok(Some(BoxStore::new().copy(facts.alloc, ty)?)),
        None => Ok(None),
    }
}

/// Returns the type of a function's parameter at a position, read from its annotation.
fn function_type(
    facts: &Facts<'_, '_>,
    def: &FuncDef,
    position: usize,
) -> Result<Option<BoxType>, OutOfMemory>
    requires { AreFacts facts.now }
    ensures { IfOk result (λ t. option_map tree_of t
        ≡ type_of_parameter (slice_get (parameters_of (module_held facts.now) (func_of def.now).params) position)) }
{
    match function_parameter(def, position) {
        Some(param) => {
            // The findings in the annotation are reported at its own place.
            let mut found = Vec::new(facts.alloc);
            let mut store = BoxStore::new();
            let ty = read_option(
                &mut store,
                facts.alloc,
                facts.outline,
                &mut found,
                &param.annotation,
            )?;
            Ok(Some(ty))
        }
        None => Ok(None),
    }
}
