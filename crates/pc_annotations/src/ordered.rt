//! Types in the order of a union.

ghost use Rattle.std.specs.Prelude.{◌≡◌, ◌≤◌, ◌++◌, ◌∷◌, All, IfOk, length, map, take, drop};
ghost use Rattle.pc_types.specs.Join.{is_before};
ghost use Rattle.pc_annotations.specs.Annotations.{insert_member, in_union_order};
ghost use Rattle.pc_annotations.specs.Internal.TypesRead.{rank_of_head};

use pc_source::OutOfMemory;
use pc_types::{Head, TypeStore};
use std::alloc::Global;

/// Returns the rank of a type with this head among the members of a union, which are in ascending order of ranks. The
/// second number orders tuples by length and classes by number. (0, 0) if no member of a union has this head. Own rule
/// of the profile.
pub(crate) fn rank(head: Head) -> (usize, usize)
    ensures { result ≡ rank_of_head head }
{
    match head {
        Head::Int => (1, 0),
        Head::Bool => (2, 0),
        Head::Str => (3, 0),
        Head::None => (4, 0),
        Head::List => (5, 0),
        Head::Dict => (6, 0),
        Head::Tuple(count) => (7, count),
        Head::Class(number) => (8, number),
        Head::Any | Head::Object | Head::Never | Head::Union(_) => (0, 0),
    }
}

/// Returns whether the first type comes before the second in a union.
fn stands_before<S: TypeStore>(store: &S, s: &S::Ty, t: &S::Ty) -> bool
    requires left { S.has store.now s.now }
    requires right { S.has store.now t.now }
    ensures { result ≡ is_before (S.tree s.now) (S.tree t.now) }
{
    let (kind, detail) = rank(store.head(s));
    let (other_kind, other_detail) = rank(store.head(t));
    kind < other_kind || (kind == other_kind && detail < other_detail)
}

/// Returns the index at which a type belongs among others: before the first that comes after it.
fn place<S: TypeStore>(store: &S, types: &[S::Ty], ty: &S::Ty) -> usize
    requires types { All (S.has store.now) types.now }
    requires ty { S.has store.now ty.now }
    ensures within { result ≤ length types.now }
    ensures placed { insert_member (S.tree ty.now) (map S.tree types.now)
        ≡ map S.tree (take result types.now) ++ (S.tree ty.now ∷ map S.tree (drop result types.now)) }
{
    for i in 0..types.len() {
        if stands_before(store, ty, &types[i]) {
            return i;
        }
    }
    types.len()
}

/// Returns types in the order of a union. They are inserted from the last to the first.
pub(crate) fn in_order<S: TypeStore>(
    store: &S,
    alloc: Global,
    types: Vec<S::Ty>,
) -> Result<Vec<S::Ty>, OutOfMemory>
    requires { All (S.has store.now) types.items }
    ensures held { IfOk result (λ v. All (S.has store.now) v.items) }
    ensures value { IfOk result (λ v. map S.tree v.items ≡ in_union_order (map S.tree types.items)) }
{
    let mut types = types;
    let mut ordered = Vec::new(alloc);
    while let Some(ty) = types.pop() {
        let at = place(store, &ordered, &ty);
        ordered.insert(at, ty)?;
    }
    Ok(ordered)
}
