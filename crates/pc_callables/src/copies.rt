//! Copies of the signatures of a class table's methods.
#![tactic(auto, using(pc_rules::proofs::TypingStates::goes_further))]

ghost use Rattle.std.specs.Prelude.{All, IfOk};
ghost use Rattle.pc_class.specs.Tables.{HasParameter, HasMethod, parameter_with, parameters_with, method_with};
ghost use Rattle.pc_rules.specs.Calls.{method_signature};
ghost use Rattle.pc_callables.specs.SignaturesRead.{IsParameter, AreParameters, IsSignature};

use pc_class::{Method, Parameter, ParameterList};
use pc_rules::Signature;
use pc_source::OutOfMemory;
use pc_tree::Keys;
use pc_types::TypeStore;
use std::alloc::Global;

/// Returns a copy of a parameter.
fn copy_parameter<S: TypeStore>(
    store: &S,
    alloc: Global,
    parameter: &Parameter<S::Ty>,
) -> Result<Parameter<S::Ty>, OutOfMemory>
    requires { HasParameter (S.has store.now) parameter.now }
    ensures { IfOk result (λ p. IsParameter S.has S.tree store.now p (parameter_with S.tree parameter.now)) }
{
    let ty = store.copy(alloc, &parameter.ty)?;
    let name = String::from_str(alloc, parameter.name.as_str())?;
    Ok(Parameter {
        name,
        ty,
        has_default: parameter.has_default,
    })
}

/// Returns copies of parameters.
fn copy_parameters<S: TypeStore>(
    store: &S,
    alloc: Global,
    parameters: &[Parameter<S::Ty>],
) -> Result<Vec<Parameter<S::Ty>>, OutOfMemory>
    requires { All (HasParameter (S.has store.now)) parameters.now }
    ensures { IfOk result
        (λ ps. AreParameters S.has S.tree store.now ps.items (parameters_with S.tree parameters.now)) }
{
    let mut all = Vec::new(alloc);
    for parameter in parameters {
        all.push(copy_parameter(store, alloc, parameter)?)?;
    }
    Ok(all)
}

/// Returns a copy of the signature of a method, without `self`.
pub(crate) fn copy_signature<S: TypeStore>(
    store: &S,
    alloc: Global,
    keys: Keys,
    method: &Method<S::Ty>,
) -> Result<Signature<S::Ty>, OutOfMemory>
    requires { HasMethod (S.has store.now) method.now }
    ensures { IfOk result
        (λ s. IsSignature S.has S.tree store.now s (method_signature (method_with S.tree method.now))) }
{
    let params = copy_parameters(store, alloc, method.params.as_slice())?;
    let params = ParameterList::new(alloc, keys, params)?;
    let ret = store.copy(alloc, &method.ret)?;
    Ok(Signature { params, ret })
}
