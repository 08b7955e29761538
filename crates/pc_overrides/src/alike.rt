//! Methods with equal demands.

ghost use Rattle.std.specs.Prelude.{◌≡◌, IfOk, IsTrue, true};
ghost use Rattle.pc_class.specs.Parts.{parameter_name};
ghost use Rattle.pc_class.specs.Tables.{HasMethod, method_with};
ghost use Rattle.pc_overrides.specs.Internal.Representing.{AreAlike};

use pc_class::{Method, Parameter};
use pc_flow::is_same_type;
use pc_source::OutOfMemory;
use pc_types::TypeStore;
use std::alloc::Global;

/// Returns whether two parameters have the same name, and both a default or neither.
fn agrees<Ty: Drop>(p: &Parameter<Ty>, q: &Parameter<Ty>) -> bool
    ensures { IsTrue result → (parameter_name p.now ≡ parameter_name q.now) × (p.now.has_default ≡ q.now.has_default) }
{
    p.name.as_str() == q.name.as_str() && p.has_default == q.has_default
}

/// Returns true only if two methods have the same parameters and return the same type.
pub(crate) fn is_alike<S: TypeStore>(
    store: &S,
    alloc: Global,
    x: &Method<S::Ty>,
    y: &Method<S::Ty>,
) -> Result<bool, OutOfMemory>
    requires left { HasMethod (S.has store.now) x.now }
    requires right { HasMethod (S.has store.now) y.now }
    ensures { IfOk result (λ alike. alike ≡ true → AreAlike (method_with S.tree x.now) (method_with S.tree y.now)) }
{
    let left = x.params.as_slice();
    let right = y.params.as_slice();
    if left.len() != right.len() || !is_same_type(store, alloc, &x.ret, &y.ret)? {
        return Ok(false);
    }
    for number in 0..left.len() {
        let p = &left[number];
        let q = &right[number];
        if !agrees(p, q) || !is_same_type(store, alloc, &p.ty, &q.ty)? {
            return Ok(false);
        }
    }
    Ok(true)
}
