//! Values of literals, binding of arguments to parameters, and the frame of a call.

ghost use Rattle.std.specs.Prelude.{◌≡◌, ◌++◌, map, IfOk, List, ℕ, chars, string_bytes};
ghost use Rattle.std.specs.List.{list_all};
ghost use Rattle.pc_tree.specs.Stopping.{is_among};
ghost use Rattle.pc_tree.specs.Names.{at_text, texts_in};
ghost use Rattle.pc_tree.specs.Tree.{literal_of, param_of};
ghost use Rattle.pc_value.specs.Doing.{action_of};
ghost use Rattle.pc_value.specs.Meaning.{value_of, slot_of};
ghost use Rattle.pc_value.specs.Actions.{read_attribute, store_attribute};
ghost use Rattle.pc_value.specs.Internal.Keys.{option_value};
ghost use Rattle.pc_machine.specs.Calls.{value_named, is_parameter, are_parameters, bound_arguments, value_taken};
ghost use Rattle.pc_machine.specs.Calls.{filled_parameters, NamedValue as NamedValueOf};
ghost use Rattle.pc_machine.specs.Calls.{method_of, or_type_error, slots_of, builtin_method_action};
ghost use Rattle.pc_machine.specs.Names.{frame_of};
ghost use Rattle.pc_machine.specs.State.{Local as LocalOf};
ghost use Rattle.pc_machine.specs.Machine.{literal_value, parameter_of, parameter_of_param, named_of, value_if_any};
ghost use Rattle.pc_machine.specs.Machine.{locals_of, default_of, TellsOutcome, method_seen, local_of, with_object};
ghost use Rattle.pc_machine.specs.Machine.{frame_of_vec, method_of_def};

use crate::halt::{Halt, Stop};
use crate::machine::raised;
use crate::names::add_names;
use crate::state::{BuiltinMethod, FormalParameter, Local, NamedValue};
use indexmap::{IndexMap, IndexSet};
use pc_source::OutOfMemory;
use pc_tree::{FuncDef, Keys, Literal, LiteralKind, NameMap, NameSet, Param, bind_first, put};
use pc_value::{Action, Exception, Slot, Value};
use std::alloc::Global;

/// Returns the value of a literal, or `None` for a whole number that does not fit 128 signed bits.
/// Language Reference 2.4 "Literals".
pub fn literal_value(alloc: Global, literal: &Literal) -> Result<Option<Value>, OutOfMemory>
    ensures { IfOk result (λ o. value_if_any o ≡ literal_value (literal_of literal.now)) }
{
    match &literal.kind {
        LiteralKind::Int(digits) => Ok(pc_value::read_number(false, digits.as_bytes()).map(
            Value::Int,
        )),
        LiteralKind::NegativeInt(digits) => Ok(pc_value::read_number(true, digits.as_bytes()).map(
            Value::Int,
        )),
        LiteralKind::Str(text) => Ok(Some(Value::Str(characters(alloc, text.as_str())?))),
        LiteralKind::True => Ok(Some(Value::Bool(true))),
        LiteralKind::False => Ok(Some(Value::Bool(false))),
        LiteralKind::NoneValue => Ok(Some(Value::None)),
    }
}

/// Returns the characters of a text.
pub fn characters(alloc: Global, text: &str) -> Result<Vec<char>, OutOfMemory>
    ensures { IfOk result (λ cs. cs.items ≡ chars text.now) }
{
    Ok(text.chars().collect(alloc)?)
}

/// Returns an owned copy of a text.
pub fn owned_text(alloc: Global, text: &str) -> Result<String, OutOfMemory>
    ensures { IfOk result (λ s. string_bytes s ≡ text.now) }
{
    Ok(String::from_str(alloc, text)?)
}

/// Returns the parameters of a def, with their defaults.
pub fn parameters<'m>(
    alloc: Global,
    params: &'m [Param],
) -> Result<Vec<FormalParameter<'m>>, OutOfMemory>
    ensures { IfOk result (λ ps. map parameter_of ps.items ≡ map parameter_of_param (map param_of params.now)) }
{
    let mut parameters = Vec::new(alloc);
    for param in params {
        parameters.push(FormalParameter {
            name: param.name.text.as_str(),
            default: param.default.as_ref(),
        })?;
    }
    Ok(parameters)
}

/// Maps each name to the value of the first argument given by that name.
fn first_values<'a, 'm>(
    alloc: Global,
    keys: Keys,
    named: &'a [NamedValue<'m>],
) -> Result<NameMap<'m, &'a Value>, OutOfMemory>
    ensures { IfOk result (λ m. (name : List ℕ)
        → option_value (at_text m name) ≡ value_named name (map named_of named.now)) }
{
    let mut values = IndexMap::with_hasher(alloc, keys);
    for argument in named {
        bind_first(&mut values, argument.name, &argument.value)?;
    }
    Ok(values)
}

/// Returns the set of the parameters' names.
fn parameter_names<'m>(
    alloc: Global,
    keys: Keys,
    parameters: &[FormalParameter<'m>],
) -> Result<NameSet<'m>, OutOfMemory>
    ensures { IfOk result (λ s. (name : List ℕ)
        → is_among (texts_in s) name ≡ is_parameter name (map parameter_of parameters.now)) }
{
    let mut names = IndexSet::with_hasher(alloc, keys);
    for parameter in parameters {
        put(&mut names, parameter.name)?;
    }
    Ok(names)
}

/// Returns whether every argument given by name has its name among these.
fn are_among(named: &[NamedValue<'_>], names: &NameSet<'_>) -> bool
    ensures { result ≡ list_all (λ a. is_among (texts_in names.now) a.name.now) named.now }
{
    for argument in named {
        if !names.contains(argument.name) {
            return false;
        }
    }
    true
}

/// Returns whether every argument given by name is for a parameter.
fn are_parameters(
    alloc: Global,
    keys: Keys,
    named: &[NamedValue<'_>],
    parameters: &[FormalParameter<'_>],
) -> Result<bool, OutOfMemory>
    ensures { IfOk result (λ b. b ≡ are_parameters (map named_of named.now) (map parameter_of parameters.now)) }
{
    if named.is_empty() {
        return Ok(true);
    }
    let names = parameter_names(alloc, keys, parameters)?;
    Ok(are_among(named, &names))
}

/// Returns the value of a parameter's default. `None` if there is no default, or it is a whole number that does not
/// fit.
fn default_value(alloc: Global, default: Option<&Literal>) -> Result<Option<Value>, OutOfMemory>
    ensures { IfOk result (λ o. value_if_any o ≡ default_of default.entry) }
{
    match default {
        Some(literal) => literal_value(alloc, literal),
        None => Ok(None),
    }
}

/// Returns the value of a parameter: its argument by position, else by name, else its default. `None` if it has both
/// arguments or no value.
fn take(
    alloc: Global,
    parameter: FormalParameter<'_>,
    by_position: Option<&Value>,
    by_name: Option<&Value>,
) -> Result<Option<Value>, OutOfMemory>
    ensures { IfOk result (λ o. value_if_any o
        ≡ value_taken (parameter_of parameter.entry) (option_value by_position.entry) (option_value by_name.entry)) }
{
    match (by_position, by_name) {
        (Some(_), Some(_)) => Ok(None),
        (Some(value), None) => Ok(Some(value.copy(alloc)?)),
        (None, Some(value)) => Ok(Some(value.copy(alloc)?)),
        (None, None) => default_value(alloc, parameter.default),
    }
}

/// Binds the arguments to the parameters, as the locals of a call. `None` if they do not match.
/// Language Reference 6.3.4 "Calls".
pub fn bound_arguments<'m>(
    alloc: Global,
    keys: Keys,
    parameters: &[FormalParameter<'m>],
    values: &[Value],
    named: &[NamedValue<'_>],
) -> Result<Option<Vec<Local<'m>>>, OutOfMemory>
    ensures { IfOk result (λ o. locals_of o
        ≡ bound_arguments (map parameter_of parameters.now) (map value_of values.now) (map named_of named.now)) }
{
    if !are_parameters(alloc, keys, named, parameters)? {
        return Ok(None);
    }
    let by_name = first_values(alloc, keys, named)?;
    filled_parameters(alloc, parameters, values, &by_name)
}

/// Gives each parameter its value, as the locals of a call. `None` if one has no value or an argument by position is
/// left over.
fn filled_parameters<'m>(
    alloc: Global,
    parameters: &[FormalParameter<'m>],
    values: &[Value],
    by_name: &NameMap<'_, &Value>,
) -> Result<Option<Vec<Local<'m>>>, OutOfMemory>
    ensures { IfOk result (λ o. (named : List NamedValueOf)
        → ((name : List ℕ) → option_value (at_text by_name.now name) ≡ value_named name named)
        → locals_of o ≡ filled_parameters (map parameter_of parameters.now) (map value_of values.now) named) }
{
    let mut locals = Vec::new(alloc);
    for (i, parameter) in parameters.iter().enumerate() {
        match take(
            alloc,
            *parameter,
            values.get(i),
            by_name.get(parameter.name).copied(),
        )? {
            Some(value) => locals.push(Local {
                name: parameter.name,
                value: Some(value),
            })?,
            None => return Ok(None),
        }
    }
    if values.len() > parameters.len() {
        return Ok(None);
    }
    Ok(Some(locals))
}

/// Returns the fields of a new instance, given the values bound to its class's fields.
pub fn slots_of(alloc: Global, locals: &[Local<'_>]) -> Result<Vec<Slot>, OutOfMemory>
    ensures { IfOk result (λ ss. map slot_of ss.items ≡ slots_of (map local_of locals.now)) }
{
    let mut slots = Vec::new(alloc);
    for local in locals {
        if let Some(value) = &local.value {
            let name = owned_text(alloc, local.name)?;
            let value = value.copy(alloc)?;
            slots.push(Slot { name, value })?;
        }
    }
    Ok(slots)
}

/// Returns the action of a call of a built-in method. Ends the run out of the profile for arguments by name or a wrong
/// count.
pub fn builtin_action(
    alloc: Global,
    object: Value,
    method: BuiltinMethod,
    values: &[Value],
    named: &[NamedValue<'_>],
) -> Result<Action, Halt>
    ensures { TellsOutcome action_of result
        (builtin_method_action (value_of object) (method_seen method) (map value_of values.now)
        (map named_of named.now)) }
{
    if !named.is_empty() {
        drop(object);
        return Err(Halt::Stopped(Stop::Outside));
    }
    match (method, values) {
        (BuiltinMethod::ListAppend, [value]) => {
            let (object, value) = with_copy(alloc, object, value)?;
            Ok(Action::Append(object, value))
        }
        (BuiltinMethod::ListPop, []) => Ok(Action::Pop(object)),
        (BuiltinMethod::DictGet, [key]) => {
            let (object, key) = with_copy(alloc, object, key)?;
            Ok(Action::Get(object, key))
        }
        _ => {
            drop(object);
            Err(Halt::Stopped(Stop::Outside))
        }
    }
}

/// Returns an object and a copy of an operand.
fn with_copy(alloc: Global, object: Value, operand: &Value) -> Result<(Value, Value), OutOfMemory>
    ensures { IfOk result (λ both. (both.0 ≡ object) × (value_of both.1 ≡ value_of operand.now)) }
{
    match operand.copy(alloc) {
        Ok(copy) => Ok((object, copy)),
        Err(error) => {
            drop(object);
            Err(error)
        }
    }
}

/// Returns the action that reads an attribute of an object.
pub fn attribute_read(
    alloc: Global,
    object: Value,
    name: &str,
    is_method: bool,
) -> Result<Action, OutOfMemory>
    ensures { IfOk result (λ a. action_of a ≡ read_attribute (value_of object) name.now is_method) }
{
    match owned_text(alloc, name) {
        Ok(name) => Ok(Action::ReadAttribute(object, name, is_method)),
        Err(error) => {
            drop(object);
            Err(error)
        }
    }
}

/// Returns the action that stores a value to an attribute of an object.
pub fn attribute_store(
    alloc: Global,
    object: Value,
    name: &str,
    value: Value,
) -> Result<Action, OutOfMemory>
    ensures { IfOk result (λ a. action_of a ≡ store_attribute (value_of object) name.now (value_of value)) }
{
    match owned_text(alloc, name) {
        Ok(name) => Ok(Action::StoreAttribute(object, name, value)),
        Err(error) => {
            drop(object);
            drop(value);
            Err(error)
        }
    }
}

/// Binds the arguments to the parameters of a def; TypeError if they do not match.
pub fn suited_arguments<'m>(
    alloc: Global,
    keys: Keys,
    def: &'m FuncDef,
    values: &[Value],
    named: &[NamedValue<'m>],
) -> Result<Vec<Local<'m>>, Halt>
    ensures { TellsOutcome frame_of_vec result
        (or_type_error (bound_arguments (method_of_def def.entry).parameters (map value_of values.now)
        (map named_of named.now))) }
{
    let parameters = parameters(alloc, &def.params)?;
    match bound_arguments(alloc, keys, &parameters, values, named)? {
        Some(locals) => Ok(locals),
        None => Err(raised(Exception::TypeError)),
    }
}

/// Returns the frame of a call: `self` for a method, then the arguments, then the other names that the def binds.
pub fn frame_of<'m>(
    alloc: Global,
    object: Option<Value>,
    arguments: Vec<Local<'m>>,
    def: &'m FuncDef,
) -> Result<Vec<Local<'m>>, OutOfMemory>
    ensures { IfOk result (λ ls. map local_of ls.items
        ≡ frame_of (method_of_def def.entry) (with_object (value_if_any object) (map local_of arguments.entry.items))) }
{
    let mut frame = object_local(alloc, object)?;
    for argument in arguments {
        frame.push(argument)?;
    }
    add_names(&mut frame, &def.body)?;
    Ok(frame)
}

/// Returns the local `self` of a method's frame; no local for a function's.
fn object_local<'m>(alloc: Global, object: Option<Value>) -> Result<Vec<Local<'m>>, OutOfMemory>
    ensures { IfOk result (λ ls. (others : List LocalOf)
        → with_object (value_if_any object) others ≡ map local_of ls.items ++ others) }
{
    let mut locals = Vec::new(alloc);
    match object {
        None => Ok(locals),
        Some(object) => {
            locals.push(Local {
                name: "self",
                value: Some(object),
            })?;
            Ok(locals)
        }
    }
}
