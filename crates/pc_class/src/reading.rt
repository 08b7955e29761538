//! Parameters of functions and members of classes, with the types of their annotations and the findings in these.

ghost use Rattle.std.specs.Prelude.{◌≡◌, ◌++◌, map, All, IfOk, OnOk};
ghost use Rattle.pc_tree.specs.Tree.{param_of, func_of, field_of, option_ann_of};
ghost use Rattle.pc_types.specs.Store.{Means, KeepsTypes};
ghost use Rattle.pc_annotations.specs.Annotations.{read_option};
ghost use Rattle.pc_annotations.specs.Bases.{bases_of};
ghost use Rattle.pc_annotations.specs.Listed.{ann_findings, option_findings};
ghost use Rattle.pc_class.specs.Annotated.{params_annotated, def_annotated};
ghost use Rattle.pc_class.specs.Facts.{typed_parameter, parameters_of, method_made};
ghost use Rattle.pc_class.specs.Entries.{parameter_made};
ghost use Rattle.pc_annotations.specs.ModuleOutlines.{IsModuleOutline, module_in};
ghost use Rattle.pc_class.specs.Tables.{HasParameter, HasMethod, parameter_with, parameters_with, method_with};
ghost use Rattle.pc_class.specs.Internal.Readers.{IsLentSame};

use crate::listed::ParameterList;
use crate::table::{Method, Parameter};
use pc_annotations::{ModuleOutline, read_ann, read_option};
use pc_source::OutOfMemory;
use pc_tree::{Ann, Field, Findings, FuncDef, Param};
use pc_types::TypeStore;
use std::alloc::Global;

/// The context in which the annotations of members are read: the store of their types, the allocator, and the list to
/// which the findings in them are appended.
#[derive(Drop)]
pub(crate) struct TypeReader<'r, S: TypeStore> {
    pub store: &'r mut S,
    pub alloc: Global,
    pub found: &'r mut Findings,
}

/// Returns a parameter of a function or method with the type of its annotation, `Any` if it has none. Appends the
/// findings in the annotation to `found`: E09, E10 and E26. Typing specification, "Type annotations".
///
/// # Errors
///
/// `OutOfMemory` only if an allocation failed.
pub fn read_param<S: TypeStore>(
    store: &mut S,
    alloc: Global,
    outline: &ModuleOutline,
    found: &mut Findings,
    param: &Param,
) -> Result<Parameter<S::Ty>, OutOfMemory>
    requires { IsModuleOutline outline.now }
    ensures given { IfOk result (λ p. HasParameter (S.has store.new) p) }
    ensures means { IfOk result
        (λ p. parameter_with S.tree p ≡ typed_parameter (module_in outline.now) (param_of param.now)) }
    ensures found { OnOk result (found.new.items ≡ found.old.items
        ++ option_findings (module_in outline.now) (bases_of (module_in outline.now)) (param_of param.now).annotation) }
    ensures kept { KeepsTypes S.has store.old store.new }
{
    let ty = read_option(store, alloc, outline, found, &param.annotation)?;
    let name = String::from_str(alloc, param.name.text.as_str())?;
    Ok(Parameter {
        name,
        ty,
        has_default: param.default.is_some(),
    })
}

/// Returns parameters with the types of their annotations. Adds the findings in these, one after another.
fn read_params<S: TypeStore>(
    reader: &mut TypeReader<'_, S>,
    outline: &ModuleOutline,
    params: &[Param],
) -> Result<Vec<Parameter<S::Ty>>, OutOfMemory>
    requires { IsModuleOutline outline.now }
    ensures given { IfOk result (λ ps. All (HasParameter (S.has reader.new.store.now)) ps.items) }
    ensures means { IfOk result
        (λ ps. parameters_with S.tree ps.items ≡ parameters_of (module_in outline.now) (map param_of params.now)) }
    ensures found { OnOk result (reader.new.found.now.items ≡ reader.old.found.now.items
        ++ params_annotated (module_in outline.now) (map param_of params.now)) }
    ensures kept { KeepsTypes S.has reader.old.store.now reader.new.store.now }
    ensures same { IsLentSame reader.old reader.new }
{
    let mut all = Vec::new(reader.alloc);
    for param in params {
        let parameter = read_param(reader.store, reader.alloc, outline, reader.found, param)?;
        all.push(parameter)?;
    }
    Ok(all)
}

/// Returns a field as a parameter of its class, with the type of its annotation. Adds the findings in the annotation.
pub(crate) fn read_field<S: TypeStore>(
    reader: &mut TypeReader<'_, S>,
    outline: &ModuleOutline,
    field: &Field,
) -> Result<Parameter<S::Ty>, OutOfMemory>
    requires { IsModuleOutline outline.now }
    ensures given { IfOk result (λ p. HasParameter (S.has reader.new.store.now) p) }
    ensures means { IfOk result
        (λ p. parameter_with S.tree p ≡ parameter_made (module_in outline.now) (field_of field.now)) }
    ensures found { OnOk result (reader.new.found.now.items ≡ reader.old.found.now.items
        ++ ann_findings (module_in outline.now) (bases_of (module_in outline.now)) (field_of field.now).annotation) }
    ensures kept { KeepsTypes S.has reader.old.store.now reader.new.store.now }
    ensures same { IsLentSame reader.old reader.new }
{
    let ty = read_ann(
        reader.store,
        reader.alloc,
        outline,
        reader.found,
        &field.annotation,
    )?;
    let name = String::from_str(reader.alloc, field.name.text.as_str())?;
    Ok(Parameter {
        name,
        ty,
        has_default: field.default.is_some(),
    })
}

/// Returns the list of these parameters with the types of their annotations. Adds the findings in these, one after
/// another.
fn read_list<S: TypeStore>(
    reader: &mut TypeReader<'_, S>,
    outline: &ModuleOutline,
    params: &[Param],
) -> Result<ParameterList<S::Ty>, OutOfMemory>
    requires { IsModuleOutline outline.now }
    ensures given { IfOk result (λ ps. All (HasParameter (S.has reader.new.store.now)) ps) }
    ensures means { IfOk result
        (λ ps. parameters_with S.tree ps ≡ parameters_of (module_in outline.now) (map param_of params.now)) }
    ensures found { OnOk result (reader.new.found.now.items ≡ reader.old.found.now.items
        ++ params_annotated (module_in outline.now) (map param_of params.now)) }
    ensures kept { KeepsTypes S.has reader.old.store.now reader.new.store.now }
    ensures same { IsLentSame reader.old reader.new }
{
    let params = read_params(reader, outline, params)?;
    let list = ParameterList::new(reader.alloc, outline.tree.keys, params)?;
    Ok(list)
}

/// Returns the type of a return annotation, `Any` if there is none. Adds the findings in it.
fn read_return<S: TypeStore>(
    reader: &mut TypeReader<'_, S>,
    outline: &ModuleOutline,
    returns: &Option<Ann>,
) -> Result<S::Ty, OutOfMemory>
    requires { IsModuleOutline outline.now }
    ensures typed { IfOk result (λ t. Means S.has S.tree reader.new.store.now t
        (read_option (module_in outline.now) (bases_of (module_in outline.now)) (option_ann_of returns.now))) }
    ensures found { OnOk result (reader.new.found.now.items ≡ reader.old.found.now.items
        ++ option_findings (module_in outline.now) (bases_of (module_in outline.now)) (option_ann_of returns.now)) }
    ensures kept { KeepsTypes S.has reader.old.store.now reader.new.store.now }
    ensures same { IsLentSame reader.old reader.new }
{
    let ty = read_option(reader.store, reader.alloc, outline, reader.found, returns)?;
    Ok(ty)
}

/// Returns a method of a class, with its number there and the types of its annotations. Adds the findings in these.
pub(crate) fn read_method<S: TypeStore>(
    reader: &mut TypeReader<'_, S>,
    outline: &ModuleOutline,
    class: usize,
    number: usize,
    def: &FuncDef,
) -> Result<Method<S::Ty>, OutOfMemory>
    requires { IsModuleOutline outline.now }
    ensures given { IfOk result (λ x. HasMethod (S.has reader.new.store.now) x) }
    ensures means { IfOk result
        (λ x. method_with S.tree x ≡ method_made (module_in outline.now) class number (func_of def.now)) }
    ensures found { OnOk result (reader.new.found.now.items ≡ reader.old.found.now.items
        ++ def_annotated (module_in outline.now) (func_of def.now)) }
    ensures kept { KeepsTypes S.has reader.old.store.now reader.new.store.now }
    ensures same { IsLentSame reader.old reader.new }
{
    let params = read_list(reader, outline, &def.params)?;
    let ret = read_return(reader, outline, &def.returns)?;
    let name = String::from_str(reader.alloc, def.name.text.as_str())?;
    Ok(Method {
        name,
        place: def.name.place,
        owner: class,
        number,
        params,
        ret,
    })
}
