//! The details of overrides: the first method above that a method does not fit, and the part that differs.

ghost use Rattle.std.specs.Prelude.{[], ◌∷◌, ◌≡◌, All, IfOk, bytes_eq, map, option_map, string_bytes};
ghost use Rattle.pc_tree.specs.Tree.{func_of, param_of};
ghost use Rattle.pc_types.specs.Boxed.{tree_of, IsGiven};
ghost use Rattle.pc_annotations.specs.Bases.{bases_of};
ghost use Rattle.pc_class.specs.Facts.{base_facts, classes_of, method_made, parameters_of, return_type, typed_parameter};
ghost use Rattle.pc_class.specs.Tables.{HasMethod, HasParameter, method_with, parameter_with, parameters_with};
ghost use Rattle.pc_detail_texts.specs.Mapped.{map_override};
ghost use Rattle.pc_detail_texts.specs.Shown.{override_of_value, words};
ghost use Rattle.pc_detail_facts.specs.Held.{AreFacts, ShowsDetail, body_of, module_held, text_held};
ghost use Rattle.pc_details.specs.OverridesHeld.{first_over, parameter_fault_at, shape_fault_at};
ghost use Rattle.pc_detail_rules.specs.Overrides.{against, fault_against, fits_for, override_detail, parameter_fault, shape_fault};

use pc_annotations::read_option;
use pc_class::{Method, Parameter, ParameterList, read_param};
use pc_detail_facts::{Body, Facts};
use pc_detail_texts::{Detail, OverrideFault, OverrideTypes, TypeFault};
use pc_scope::Owner;
use pc_source::OutOfMemory;
use pc_tree::{Code, FuncDef, Param};
use pc_types::{BoxStore, BoxType, TypeStore};

/// Returns whether a method has the name of another.
fn has_word(here: &Method<BoxType>, above: &Method<BoxType>) -> bool
    ensures { result ≡ bytes_eq (string_bytes here.now.name) (string_bytes above.now.name) }
{
    here.name.as_str() == above.name.as_str()
}

/// Returns whether a type flows into another: of `A8` statically, of `E11` assignably.
fn fits(facts: &Facts<'_, '_>, code: Code, from: &BoxType, into: &BoxType) -> bool
    requires facts { AreFacts facts.now }
    requires from { IsGiven from.now }
    requires into { IsGiven into.now }
    ensures { result ≡ fits_for (bases_of (module_held facts.now)) code (tree_of from.now) (tree_of into.now) }
{
    let mut store = BoxStore::new();
    match code {
        Code::A8 => store.is_static(facts.outline.parents, from, into),
        _ => store.is_assignable(facts.outline.parents, from, into),
    }
}

/// Returns the types of a part of two methods.
fn both_types(
    facts: &Facts<'_, '_>,
    above: &BoxType,
    here: &BoxType,
) -> Result<OverrideTypes, OutOfMemory>
    requires { AreFacts facts.now }
    ensures above { IfOk result (λ t. words t.above ≡ text_held facts.now (tree_of above.now)) }
    ensures here { IfOk result (λ t. words t.here ≡ text_held facts.now (tree_of here.now)) }
{
    let above = facts.type_words(above)?;
    let here = facts.type_words(here)?;
    Ok(OverrideTypes { above, here })
}

/// Returns in which way the parameter at a position, from 1, has another shape than the one above: another name, or no
/// default where the one above has one.
fn shape_fault_at(
    facts: &Facts<'_, '_>,
    position: usize,
    above: &Parameter<BoxType>,
    here: &Parameter<BoxType>,
) -> Result<Option<OverrideFault>, OutOfMemory>
    ensures { IfOk result (λ f. option_map override_of_value f ≡ option_map (map_override (text_held facts.now))
        (shape_fault_at position (parameter_with tree_of above.now) (parameter_with tree_of here.now))) }
{
    if above.name.as_str() != here.name.as_str() {
        let above = facts.words(above.name.as_str())?;
        let here = facts.words(here.name.as_str())?;
        return Ok(Some(OverrideFault::OtherName(position, above, here)));
    }
    if above.has_default && !here.has_default {
        let name = facts.words(above.name.as_str())?;
        return Ok(Some(OverrideFault::NoDefault(name)));
    }
    Ok(None)
}

/// Returns the first parameter with another name, or without a default where the one above has one.
fn shape_fault(
    facts: &Facts<'_, '_>,
    above: &[Parameter<BoxType>],
    here: &[Parameter<BoxType>],
) -> Result<Option<OverrideFault>, OutOfMemory>
    ensures { IfOk result (λ f. option_map override_of_value f ≡ option_map (map_override (text_held facts.now))
        (shape_fault 1 (parameters_with tree_of above.now) (parameters_with tree_of here.now))) }
{
    for position in 0..above.len().min(here.len()) {
        let fault = shape_fault_at(facts, position + 1, &above[position], &here[position])?;
        if fault.is_some() {
            return Ok(fault);
        }
    }
    Ok(None)
}

/// Returns the parameter, if the type of the one above does not flow into its own.
fn parameter_fault_at(
    facts: &Facts<'_, '_>,
    code: Code,
    above: &Parameter<BoxType>,
    here: &Parameter<BoxType>,
) -> Result<Option<OverrideFault>, OutOfMemory>
    requires facts { AreFacts facts.now }
    requires above { IsGiven above.now.ty }
    requires here { IsGiven here.now.ty }
    ensures { IfOk result (λ f. option_map override_of_value f ≡ option_map (map_override (text_held facts.now))
        (parameter_fault_at (fits_for (bases_of (module_held facts.now)) code)
        (parameter_with tree_of above.now) (parameter_with tree_of here.now))) }
{
    if fits(facts, code, &above.ty, &here.ty) {
        return Ok(None);
    }
    let types = both_types(facts, &above.ty, &here.ty)?;
    let name = facts.words(here.name.as_str())?;
    Ok(Some(OverrideFault::OtherParameter(name, types)))
}

/// Returns the first parameter whose type above does not flow into its own.
fn parameter_fault(
    facts: &Facts<'_, '_>,
    code: Code,
    above: &[Parameter<BoxType>],
    here: &[Parameter<BoxType>],
) -> Result<Option<OverrideFault>, OutOfMemory>
    requires facts { AreFacts facts.now }
    requires above { All (HasParameter IsGiven) above.now }
    requires here { All (HasParameter IsGiven) here.now }
    ensures { IfOk result (λ f. option_map override_of_value f ≡ option_map (map_override (text_held facts.now))
        (parameter_fault (fits_for (bases_of (module_held facts.now)) code) (parameters_with tree_of above.now)
        (parameters_with tree_of here.now))) }
{
    for position in 0..above.len().min(here.len()) {
        let fault = parameter_fault_at(facts, code, &above[position], &here[position])?;
        if fault.is_some() {
            return Ok(fault);
        }
    }
    Ok(None)
}

/// Returns the first part in which a method differs from one above: the number of parameters, a name, a default,
/// the return type, the type of a parameter.
fn fault_against(
    facts: &Facts<'_, '_>,
    code: Code,
    above: &Method<BoxType>,
    here: &Method<BoxType>,
) -> Result<Option<OverrideFault>, OutOfMemory>
    requires facts { AreFacts facts.now }
    requires above { HasMethod IsGiven above.now }
    requires here { HasMethod IsGiven here.now }
    ensures { IfOk result (λ f. option_map override_of_value f ≡ option_map (map_override (text_held facts.now))
        (fault_against (fits_for (bases_of (module_held facts.now)) code) (method_with tree_of above.now)
        (method_with tree_of here.now))) }
{
    let (first, second) = (above.params.as_slice(), here.params.as_slice());
    if first.len() != second.len() {
        return Ok(Some(OverrideFault::OtherCount(first.len(), second.len())));
    }
    let shape = shape_fault(facts, first, second)?;
    if shape.is_some() {
        return Ok(shape);
    }
    if !fits(facts, code, &here.ret, &above.ret) {
        let types = both_types(facts, &above.ret, &here.ret)?;
        return Ok(Some(OverrideFault::OtherReturn(types)));
    }
    parameter_fault(facts, code, first, second)
}

/// Returns a parameter with the type of its annotation.
fn param_read(facts: &Facts<'_, '_>, param: &Param) -> Result<Parameter<BoxType>, OutOfMemory>
    requires { AreFacts facts.now }
    ensures means { IfOk result
        (λ p. parameter_with tree_of p ≡ typed_parameter (module_held facts.now) (param_of param.now)) }
    ensures given { IfOk result (HasParameter IsGiven) }
{
    let mut found = Vec::new(facts.alloc);
    let mut store = BoxStore::new();
    read_param(&mut store, facts.alloc, facts.outline, &mut found, param)
}

/// Returns parameters with the types of their annotations.
fn params_read(
    facts: &Facts<'_, '_>,
    params: &[Param],
) -> Result<Vec<Parameter<BoxType>>, OutOfMemory>
    requires { AreFacts facts.now }
    ensures means { IfOk result (λ v. parameters_with tree_of v.items
        ≡ parameters_of (module_held facts.now) (map param_of params.now)) }
    ensures given { IfOk result (λ v. All (HasParameter IsGiven) v.items) }
{
    let mut read = Vec::new(facts.alloc);
    for param in params {
        read.push(param_read(facts, param)?)?;
    }
    Ok(read)
}

/// Returns the return type of a function.
fn return_read(facts: &Facts<'_, '_>, def: &FuncDef) -> Result<BoxType, OutOfMemory>
    requires { AreFacts facts.now }
    ensures means { IfOk result (λ t. tree_of t ≡ return_type (module_held facts.now) (func_of def.now)) }
    ensures given { IfOk result IsGiven }
{
    let mut found = Vec::new(facts.alloc);
    let mut store = BoxStore::new();
    read_option(
        &mut store,
        facts.alloc,
        facts.outline,
        &mut found,
        &def.returns,
    )
}

/// Returns a method with this number in a class, with the types of its annotations.
fn method_read(
    facts: &Facts<'_, '_>,
    class: usize,
    number: usize,
    def: &FuncDef,
) -> Result<Method<BoxType>, OutOfMemory>
    requires { AreFacts facts.now }
    ensures means { IfOk result
        (λ x. method_with tree_of x ≡ method_made (module_held facts.now) class number (func_of def.now)) }
    ensures given { IfOk result (HasMethod IsGiven) }
{
    let params = params_read(facts, &def.params)?;
    let params = ParameterList::new(facts.alloc, facts.outline.tree.keys, params)?;
    let ret = return_read(facts, def)?;
    let name = String::from_str(facts.alloc, def.name.text.as_str())?;
    Ok(Method {
        name,
        place: def.name.place,
        owner: class,
        number,
        params,
        ret,
    })
}

/// Returns the detail of a method against one above it, if it does not fit.
fn against(
    facts: &Facts<'_, '_>,
    code: Code,
    above: &Method<BoxType>,
    here: &Method<BoxType>,
) -> Result<Option<Detail>, OutOfMemory>
    requires facts { AreFacts facts.now }
    requires above { HasMethod IsGiven above.now }
    requires here { HasMethod IsGiven here.now }
    ensures { IfOk result (ShowsDetail facts.now
        (against (module_held facts.now) code (method_with tree_of here.now) (method_with tree_of above.now))) }
{
    match fault_against(facts, code, above, here)? {
        Some(fault) => {
            let name = facts.method_words(above)?;
            let fault = TypeFault::Override(name, above.place, fault);
            Ok(Some(Detail::Types(fault)))
        }
        None => Ok(None),
    }
}

/// Returns the detail of a method against another one, if that has its name and does not fit.
fn against_named(
    facts: &Facts<'_, '_>,
    code: Code,
    above: &Method<BoxType>,
    here: &Method<BoxType>,
) -> Result<Option<Detail>, OutOfMemory>
    requires facts { AreFacts facts.now }
    requires above { HasMethod IsGiven above.now }
    requires here { HasMethod IsGiven here.now }
    ensures { IfOk result (ShowsDetail facts.now (first_over (module_held facts.now) code (method_with tree_of here.now)
        (method_with tree_of above.now ∷ []))) }
{
    if !has_word(here, above) {
        return Ok(None);
    }
    against(facts, code, above, here)
}

/// Returns the detail of a method against the first of some methods of its name that it does not fit.
fn against_these(
    facts: &Facts<'_, '_>,
    code: Code,
    above: &[Method<BoxType>],
    here: &Method<BoxType>,
) -> Result<Option<Detail>, OutOfMemory>
    requires facts { AreFacts facts.now }
    requires above { All (HasMethod IsGiven) above.now }
    requires here { HasMethod IsGiven here.now }
    ensures { IfOk result (ShowsDetail facts.now
        (first_over (module_held facts.now) code (method_with tree_of here.now) (map (method_with tree_of) above.now))) }
{
    for method in above {
        let detail = against_named(facts, code, method, here)?;
        if detail.is_some() {
            return Ok(detail);
        }
    }
    Ok(None)
}

/// Returns the detail of a method against the first method of its name, of a class or above it, that it does not fit.
fn against_each(
    facts: &Facts<'_, '_>,
    code: Code,
    class: Option<usize>,
    here: &Method<BoxType>,
) -> Result<Option<Detail>, OutOfMemory>
    requires facts { AreFacts facts.now }
    requires here { HasMethod IsGiven here.now }
    ensures { IfOk result (ShowsDetail facts.now
        (first_over (module_held facts.now) code (method_with tree_of here.now)
        (base_facts (classes_of (module_held facts.now)) class).methods)) }
{
    let mut next = class;
    'up: while let Some(above) = next {
        if above >= facts.classes.count() {
            return Ok(None);
        }
        let detail = against_these(facts, code, facts.classes.own_methods(above), here)?;
        if detail.is_some() {
            return Ok(detail);
        }
        next = facts.outline.parents.base(above);
    }
    Ok(None)
}

/// Returns the detail of `E11` and `A8`: the first method above that it does not fit, and the part that differs.
pub(crate) fn override_detail(
    facts: &Facts<'_, '_>,
    code: Code,
    body: Body<'_>,
) -> Result<Option<Detail>, OutOfMemory>
    requires { AreFacts facts.now }
    ensures { IfOk result (ShowsDetail facts.now
        (override_detail (module_held facts.now) code (body_of body.entry))) }
{
    match body.owner {
        Owner::Method(class, number) => {
            let here = method_read(facts, class, number, body.function)?;
            against_each(facts, code, facts.outline.parents.base(class), &here)
        }
        Owner::Module | Owner::Func(_) => Ok(None),
    }
}
