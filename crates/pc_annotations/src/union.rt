//! Unions in annotations.

ghost use Rattle.std.specs.Prelude.{◌≡◌, IfOk};
ghost use Rattle.std.specs.List.{list_all};
ghost use Rattle.std.specs.Option.{option_map};
ghost use Rattle.pc_tree.specs.Tree.{Anns, module_of};
ghost use Rattle.pc_types.specs.Store.{KeepsTypes};
ghost use Rattle.pc_annotations.specs.Annotations.{union_type, read_anns};
ghost use Rattle.pc_annotations.specs.Internal.TypesRead.{AreRead, IsReadAny, is_member_head, head_absorbs, heads_apart};
ghost use Rattle.pc_annotations.specs.Internal.TypesRead.{heads_make_union, united_head};

use crate::marks::{are_unrelated, other_heads, with_marks};
use crate::ordered::{in_order, rank};
use crate::outline::ModuleOutline;
use crate::reading::{ReadAnnotation, Readings};
use pc_source::OutOfMemory;
use pc_types::{Head, Parents, TypeStore};
use std::alloc::Global;

/// Most members of a union: one with more has over 256 nodes.
const MOST_MEMBERS: usize = 128;

/// Returns whether a type with this head may be a member of a union. Own rule of the profile.
fn is_member(head: Head) -> bool
    ensures { result ≡ is_member_head head }
{
    !matches!(
        head,
        Head::Any | Head::Object | Head::Never | Head::Union(_)
    )
}

/// Returns whether a member with the first head absorbs one with the second.
fn does_absorb(parents: &Parents, head: Head, other: Head) -> bool
    ensures { result ≡ head_absorbs parents.now head other }
{
    match head {
        Head::Int => matches!(other, Head::Bool),
        Head::Class(ancestor) => match other {
            Head::Class(class) => class != ancestor && parents.is_within(class, ancestor),
            _ => false,
        },
        _ => false,
    }
}

/// Returns whether members with these heads may be in one union.
fn are_apart(parents: &Parents, head: Head, other: Head) -> bool
    ensures { result ≡ heads_apart parents.now head other }
{
    rank(head) != rank(other)
        && !does_absorb(parents, head, other)
        && !does_absorb(parents, other, head)
}

/// Returns whether a member may be in one union with each of the others.
fn is_apart_from(parents: &Parents, head: Head, others: &[Head]) -> bool
    ensures { result ≡ list_all (heads_apart parents.now head) others.now }
{
    others.iter().all(|other| are_apart(parents, head, *other))
}

/// Returns whether types with these heads make a union, by comparing each with each other. Own rule of the profile.
fn are_all_apart(parents: &Parents, heads: &[Head]) -> bool
    ensures { result ≡ heads_make_union parents.now heads.now }
{
    for i in 0..heads.len() {
        if !is_member(heads[i]) || !is_apart_from(parents, heads[i], &heads[i + 1..]) {
            return false;
        }
    }
    true
}

/// Returns whether types with these heads make a union. Many classes are marked, and visited once in the order of their
/// numbers, if that takes fewer steps than comparing them with each other.
fn make_union(parents: &Parents, alloc: Global, heads: &[Head]) -> Result<bool, OutOfMemory>
    ensures { IfOk result (λ b. b ≡ heads_make_union parents.now heads.now) }
{
    parents.ordered();
    let count = parents.count();
    if heads.len() <= MOST_MEMBERS || count / heads.len() > heads.len() {
        return Ok(are_all_apart(parents, heads));
    }
    let others = other_heads(alloc, count, heads)?;
    if !are_all_apart(parents, &others) {
        return Ok(false);
    }
    let marks = vec![in alloc; false; count]?;
    match with_marks(marks, heads) {
        None => Ok(false),
        Some(marks) => Ok(are_unrelated(parents, marks)),
    }
}

/// Returns the head of the union of types with these heads, given that they make a union: of a single type its own, of
/// none that of `Never`.
fn united_head(heads: &[Head]) -> Head
    ensures { result ≡ united_head heads.now }
{
    match heads {
        [] => Head::Never,
        [head] => *head,
        _ => Head::Union(heads.len()),
    }
}

/// Returns the union of the types of parts of an annotation, with `None` as its type if it has over 256 nodes. Returns
/// `None` if they make no union: one is `Any`, `object` or itself a union, two have the same rank, as two lists have,
/// or one absorbs another, as `int` does `bool`. Typing specification, "Union types"; own rules of the profile.
pub(crate) fn unite<S: TypeStore>(
    outline: &ModuleOutline,
    store: &mut S,
    alloc: Global,
    types: Readings<S::Ty>,
) -> Result<Option<ReadAnnotation<S::Ty>>, OutOfMemory>
    requires { (parts : Anns) × AreRead S.has S.tree store.old types.heads.items types.types
        (read_anns (module_of outline.now.tree.now) outline.now.parents.now parts) }
    ensures value { (parts : Anns) → AreRead S.has S.tree store.old types.heads.items types.types
        (read_anns (module_of outline.now.tree.now) outline.now.parents.now parts)
        → IfOk result
        (λ r. IsReadAny S.has S.tree store.new (option_map (λ x. (x.head, x.ty)) r)
        (union_type outline.now.parents.now
        (read_anns (module_of outline.now.tree.now) outline.now.parents.now parts))) }
    ensures kept { KeepsTypes S.has store.old store.new }
{
    outline.parents.ordered();
    let Readings { heads, types } = types;
    let is_union = make_union(outline.parents, alloc, &heads)?;
    if !is_union {
        return Ok(None);
    }
    let head = united_head(&heads);
    let Some(types) = types else {
        return Ok(Some(ReadAnnotation { head, ty: None }));
    };
    if types.len() > MOST_MEMBERS {
        return Ok(Some(ReadAnnotation { head, ty: None }));
    }
    let members = in_order(store, alloc, types)?;
    let ty = store.union(alloc, &members)?;
    Ok(Some(ReadAnnotation { head, ty }))
}
