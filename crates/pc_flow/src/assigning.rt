//! The current type after an assignment.

ghost use Rattle.std.specs.Prelude.{IfOk};
ghost use Rattle.pc_types.specs.Store.{Means};
ghost use Rattle.pc_flow.specs.Environment.{assigned_type};

use pc_source::OutOfMemory;
use pc_tree::Code;
use pc_types::{Head, TypeStore};
use std::alloc::Global;

/// Returns the current type of a local after an assignment of a value of type `from`: that type if the declared type is
/// a union and the flow has no finding, else the declared type.
///
/// Typing specification, "Type narrowing"; own rule of the profile.
pub fn assigned_type<S: TypeStore>(
    store: &S,
    alloc: Global,
    declared: &S::Ty,
    from: &S::Ty,
    found: Option<Code>,
) -> Result<S::Ty, OutOfMemory>
    requires declared { S.has store.now declared.now }
    requires from { S.has store.now from.now }
    ensures { IfOk result (λ t.
        Means S.has S.tree store.now t (assigned_type (S.tree declared.now) (S.tree from.now) found)) }
{
    match store.head(declared) {
        Head::Union(_) => match found {
            None => store.copy(alloc, from),
            Some(_) => store.copy(alloc, declared),
        },
        _ => store.copy(alloc, declared),
    }
}
