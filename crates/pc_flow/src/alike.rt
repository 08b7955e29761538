//! Equality of stored types.

ghost use Rattle.std.specs.Prelude.{◌≡◌, IfOk, true};

use pc_source::OutOfMemory;
use pc_types::TypeStore;
use std::alloc::Global;

/// Returns true only if two types are equal, by comparing their heads and parts.
pub fn is_same_type<S: TypeStore>(
    store: &S,
    alloc: Global,
    s: &S::Ty,
    t: &S::Ty,
) -> Result<bool, OutOfMemory>
    requires left { S.has store.now s.now }
    requires right { S.has store.now t.now }
    ensures { IfOk result (λ same. same ≡ true → S.tree s.now ≡ S.tree t.now) }
{
    let head = store.head(s);
    if head != store.head(t) {
        return Ok(false);
    }
    // Most types have no parts, and allocate nothing here.
    if head.part_count() == 0 {
        return Ok(true);
    }
    let left = store.parts(alloc, s)?;
    let right = store.parts(alloc, t)?;
    for part in 0..left.len() {
        if !is_same_type(store, alloc, &left[part], &right[part])? {
            return Ok(false);
        }
    }
    Ok(true)
}
