//! Types that subsume others: whatever is good against the one is good against the other.

ghost use Rattle.std.specs.Prelude.{◌≡◌, IfOk, true};
ghost use Rattle.pc_types.specs.Assignable.{IsPlain};
ghost use Rattle.pc_class.specs.Tables.{HasMethod, method_with};
ghost use Rattle.pc_overrides.specs.Internal.Representing.{TypeSubsumes, PartSubsumes};

use pc_class::Method;
use pc_flow::is_same_type;
use pc_source::OutOfMemory;
use pc_types::{Head, TypeStore};
use std::alloc::Global;

/// Returns true only if a type has no `Any`, by its head and parts.
fn is_plain<S: TypeStore>(store: &S, alloc: Global, ty: &S::Ty) -> Result<bool, OutOfMemory>
    requires { S.has store.now ty.now }
    ensures { IfOk result (λ plain. plain ≡ true → IsPlain (S.tree ty.now)) }
{
    let head = store.head(ty);
    if head == Head::Any {
        return Ok(false);
    }
    // Most types have no parts, and allocate nothing here.
    if head.part_count() == 0 {
        return Ok(true);
    }
    let parts = store.parts(alloc, ty)?;
    for part in 0..parts.len() {
        if !is_plain(store, alloc, &parts[part])? {
            return Ok(false);
        }
    }
    Ok(true)
}

/// Returns true only if a type subsumes another: it has no `Any`, it is the same, or the other is `Any`.
fn subsumes<S: TypeStore>(
    store: &S,
    alloc: Global,
    new: &S::Ty,
    old: &S::Ty,
) -> Result<bool, OutOfMemory>
    requires new { S.has store.now new.now }
    requires old { S.has store.now old.now }
    ensures { IfOk result (λ subsumed. subsumed ≡ true → TypeSubsumes (S.tree new.now) (S.tree old.now)) }
{
    if store.head(old) == Head::Any {
        return Ok(true);
    }
    if is_plain(store, alloc, new)? {
        return Ok(true);
    }
    let same = is_same_type(store, alloc, new, old)?;
    Ok(same)
}

/// Returns true only if the type of a method at a part subsumes that of another method at this part.
pub(crate) fn subsumes_at<S: TypeStore>(
    store: &S,
    alloc: Global,
    new: &Method<S::Ty>,
    old: &Method<S::Ty>,
    part: usize,
) -> Result<bool, OutOfMemory>
    requires new { HasMethod (S.has store.now) new.now }
    requires old { HasMethod (S.has store.now) old.now }
    ensures { IfOk result (λ subsumed. subsumed ≡ true
        → PartSubsumes (method_with S.tree new.now) (method_with S.tree old.now) part) }
{
    if part == 0 {
        return subsumes(store, alloc, &new.ret, &old.ret);
    }
    let number = part - 1;
    let taken = old.params.as_slice();
    let takes = new.params.as_slice();
    if number >= taken.len() || number >= takes.len() {
        return Ok(false);
    }
    let into = &takes[number];
    let from = &taken[number];
    let subsumed = subsumes(store, alloc, &into.ty, &from.ty)?;
    Ok(subsumed)
}
