//! Joins of two types, and of several.

ghost use Rattle.std.specs.Prelude.{◌≡◌, All, IfOk, MatchOption, MatchResult, Some, None, map, unwrap_or};
ghost use Rattle.std.specs.Option.{option_map};
ghost use Rattle.pc_types.specs.Tree.{Never, Object};
ghost use Rattle.pc_types.specs.Normal.{IsNormal, AreNormal, IsOfMembers};
ghost use Rattle.pc_types.specs.Shape.{ahead, union};
ghost use Rattle.pc_types.specs.Join.{IsSplit, unabsorbed_members, by_rule, kept_with, one_with, one_of, ahead_of};
ghost use Rattle.pc_types.specs.Join.{parts_of};
ghost use Rattle.pc_types.specs.Join.{put_all, join_each, join_of, join, within_limit};
ghost use Rattle.pc_types.specs.JoinedTypes.{types_joined};
ghost use Rattle.pc_types.specs.Boxed.{tree_of, trees_in, IsGiven};

use crate::compare::{is_member_absorbed, is_same, stands_before};
use crate::shape::{LIMIT, copied_ahead, copy, count_nodes, put_ahead};
use crate::{BoxStore, BoxType, Parents};
use pc_source::OutOfMemory;
use std::alloc::Global;

/// Returns the first member of a type and a type with the others, or `None` for `Never`.
pub(crate) fn split<'a>(t: &'a BoxType, never: &'a BoxType) -> Option<(&'a BoxType, &'a BoxType)>
    requires { tree_of never.now ≡ Never }
    ensures { MatchOption result (tree_of t.now ≡ Never)
        (λ p. IsSplit (tree_of t.now) (tree_of p.0.now) (tree_of p.1.now)) }
{
    match t {
        BoxType::Never => None,
        BoxType::Union(first, others) => Some((first, others)),
        _ => Some((t, never)),
    }
}

/// Returns a copy of a member ahead of the members of `rest`, if there is a rest.
fn copy_ahead(
    alloc: Global,
    m: &BoxType,
    rest: Option<BoxType>,
) -> Result<Option<BoxType>, OutOfMemory>
    ensures { IfOk result (λ o. option_map tree_of o ≡ option_map (ahead (tree_of m.now)) (option_map tree_of rest)) }
{
    match rest {
        None => Ok(None),
        Some(rest) => Ok(Some(copied_ahead(alloc, m, rest)?)),
    }
}

/// Returns a copy of a member ahead of the members of `rest`, or `rest` alone if `other` absorbs the member. An error
/// in place of `rest` is passed on.
fn kept_ahead(
    alloc: Global,
    parents: &Parents,
    m: &BoxType,
    other: &BoxType,
    rest: Result<Option<BoxType>, OutOfMemory>,
) -> Result<Option<BoxType>, OutOfMemory>
    ensures { IfOk result (λ o. MatchResult rest (λ r. option_map tree_of o
        ≡ kept_with parents.now (tree_of m.now) (tree_of other.now) (option_map tree_of r)) (λ _. ⊥)) }
{
    let rest = rest?;
    if is_member_absorbed(parents, m, other) {
        Ok(rest)
    } else {
        copy_ahead(alloc, m, rest)
    }
}

/// Returns a member ahead of the members of `rest`, if both exist. An error in place of the member is passed on.
fn both_ahead(
    alloc: Global,
    m: Result<Option<BoxType>, OutOfMemory>,
    rest: Option<BoxType>,
) -> Result<Option<BoxType>, OutOfMemory>
    ensures { IfOk result (λ o. MatchResult m (λ m. option_map tree_of o
        ≡ ahead_of (option_map tree_of m) (option_map tree_of rest)) (λ _. ⊥)) }
{
    match m {
        Ok(Some(m)) => match rest {
            Some(rest) => Ok(Some(put_ahead(alloc, m, rest)?)),
            None => {
                drop(m);
                Ok(None)
            }
        },
        Ok(None) => {
            drop(rest);
            Ok(None)
        }
        Err(error) => {
            drop(rest);
            Err(error)
        }
    }
}

/// Returns a copy of a type, as one that there is.
fn copied(alloc: Global, t: &BoxType) -> Result<Option<BoxType>, OutOfMemory>
    ensures { IfOk result (λ o. option_map tree_of o ≡ Some (tree_of t.now)) }
{
    Ok(Some(copy(alloc, t)?))
}

/// Returns the parts of a tuple, none of any other type.
pub(crate) fn parts_of(t: &BoxType) -> &[BoxType]
    ensures { trees_in result.now ≡ parts_of (tree_of t.now) }
{
    match t {
        BoxType::Tuple(parts) => parts,
        _ => &[],
    }
}

/// Two types to join, and a type without members.
#[derive(Drop)]
pub(crate) struct Sides<'a> {
    pub(crate) left: &'a BoxType,
    pub(crate) right: &'a BoxType,
    pub(crate) never: &'a BoxType,
}

/// Returns the join of two types, or `None` if a part has none or it has over 256 nodes.
pub(crate) fn join(
    alloc: Global,
    parents: &Parents,
    s: &BoxType,
    t: &BoxType,
) -> Result<Option<BoxType>, OutOfMemory>
    requires left { IsGiven s.now }
    requires right { IsGiven t.now }
    ensures { IfOk result (λ o.
        MatchOption o (join parents.now (tree_of s.now) (tree_of t.now) ≡ None)
        (λ u. IsGiven u × (join parents.now (tree_of s.now) (tree_of t.now) ≡ Some (tree_of u)))) }
{
    let u = joined(alloc, parents, s, t)?;
    Ok(within_limit(u))
}

/// Returns the join of two types, or `object` if there is none.
pub(crate) fn join_or_object(
    alloc: Global,
    parents: &Parents,
    s: &BoxType,
    t: &BoxType,
) -> Result<BoxType, OutOfMemory>
    requires left { IsGiven s.now }
    requires right { IsGiven t.now }
    ensures given { IfOk result IsGiven }
    ensures value { IfOk result
        (λ u. tree_of u ≡ unwrap_or (join parents.now (tree_of s.now) (tree_of t.now)) Object) }
{
    match join(alloc, parents, s, t)? {
        Some(join) => Ok(join),
        None => Ok(BoxType::Object),
    }
}

/// Returns the join of several types from the left. A join that does not exist is replaced by `object`.
pub(crate) fn join_all(
    alloc: Global,
    parents: &Parents,
    types: &[BoxType],
) -> Result<BoxType, OutOfMemory>
    requires { All IsGiven types.now }
    ensures { IfOk result (λ u. IsGiven u × (tree_of u ≡ types_joined parents.now (map tree_of types.now))) }
{
    let mut joined = BoxType::Never;
    for ty in types {
        joined = BoxStore::new().join_onto(alloc, parents, joined, ty)?;
    }
    Ok(joined)
}

/// Returns a type if it is within the limit of nodes.
fn within_limit(u: Option<BoxType>) -> Option<BoxType>
    ensures { option_map tree_of result ≡ within_limit (option_map tree_of u) }
{
    match u {
        Some(u) => {
            if count_nodes(&u) <= LIMIT {
                Some(u)
            } else {
                None
            }
        }
        None => None,
    }
}

/// Returns the join of two types, whatever its size.
#[cycle(join)]
fn joined(
    alloc: Global,
    parents: &Parents,
    s: &BoxType,
    t: &BoxType,
) -> Result<Option<BoxType>, OutOfMemory>
    requires left { IsNormal (tree_of s.now) }
    requires right { IsNormal (tree_of t.now) }
    ensures { IfOk result (λ o. option_map tree_of o ≡ join_of parents.now (tree_of s.now) (tree_of t.now)) }
{
    match s {
        BoxType::Tuple(_) => ruled(alloc, parents, s, t),
        _ => {
            if is_same(s, t) {
                copied(alloc, s)
            } else {
                ruled(alloc, parents, s, t)
            }
        }
    }
}

/// Returns the join of two types that are not equal or are tuples.
#[cycle(join)]
fn ruled(
    alloc: Global,
    parents: &Parents,
    s: &BoxType,
    t: &BoxType,
) -> Result<Option<BoxType>, OutOfMemory>
    requires left { IsNormal (tree_of s.now) }
    requires right { IsNormal (tree_of t.now) }
    ensures { IfOk result (λ o. option_map tree_of o
        ≡ by_rule (tree_of s.now) (tree_of t.now)
        (option_map union (put_all parents.now (tree_of t.now) (tree_of s.now)
        (unabsorbed_members parents.now (tree_of t.now) (tree_of s.now))))) }
{
    match s {
        BoxType::Never => copied(alloc, t),
        BoxType::Any => Ok(Some(BoxType::Any)),
        BoxType::Object => match t {
            BoxType::Any => Ok(Some(BoxType::Any)),
            _ => Ok(Some(BoxType::Object)),
        },
        _ => match t {
            BoxType::Never => copied(alloc, s),
            BoxType::Any => Ok(Some(BoxType::Any)),
            BoxType::Object => Ok(Some(BoxType::Object)),
            _ => {
                let sides = Sides {
                    left: s,
                    right: t,
                    never: &BoxType::Never,
                };
                merged(alloc, parents, &sides, s, t)
            }
        },
    }
}

/// Merges the members of two types that the other side does not absorb, two of one head into one. `None` if two of one
/// head cannot be merged.
#[cycle(join)]
fn merged(
    alloc: Global,
    parents: &Parents,
    sides: &Sides,
    s: &BoxType,
    t: &BoxType,
) -> Result<Option<BoxType>, OutOfMemory>
    requires empty { tree_of sides.now.never.now ≡ Never }
    requires left { IsOfMembers (tree_of s.now) }
    requires right { IsOfMembers (tree_of t.now) }
    ensures { IfOk result (λ o. option_map tree_of o
        ≡ option_map union (put_all parents.now (tree_of sides.now.right.now) (tree_of s.now)
        (unabsorbed_members parents.now (tree_of t.now) (tree_of sides.now.left.now)))) }
{
    match split(s, sides.never) {
        None => match split(t, sides.never) {
            None => Ok(Some(BoxType::Never)),
            Some((b, others)) => {
                let rest = merged(alloc, parents, sides, s, others);
                kept_ahead(alloc, parents, b, sides.left, rest)
            }
        },
        Some((a, others)) => match split(t, sides.never) {
            None => {
                let rest = merged(alloc, parents, sides, others, t);
                kept_ahead(alloc, parents, a, sides.right, rest)
            }
            Some((b, bs)) => {
                if stands_before(a, b) {
                    let rest = merged(alloc, parents, sides, others, t);
                    kept_ahead(alloc, parents, a, sides.right, rest)
                } else if stands_before(b, a) {
                    let rest = merged(alloc, parents, sides, s, bs);
                    kept_ahead(alloc, parents, b, sides.left, rest)
                } else {
                    let rest = merged(alloc, parents, sides, others, bs)?;
                    one_ahead(alloc, parents, sides, a, b, rest)
                }
            }
        },
    }
}

/// Returns two members of one head, merged into one, ahead of `rest`. A member that the other side absorbs is dropped.
/// `None` if there is no rest or the two cannot be merged.
#[cycle(join)]
fn one_ahead(
    alloc: Global,
    parents: &Parents,
    sides: &Sides,
    a: &BoxType,
    b: &BoxType,
    rest: Option<BoxType>,
) -> Result<Option<BoxType>, OutOfMemory>
    requires left { IsNormal (tree_of a.now) }
    requires right { IsNormal (tree_of b.now) }
    ensures { IfOk result (λ o. option_map tree_of o
        ≡ one_with parents.now (tree_of sides.now.left.now) (tree_of sides.now.right.now) (tree_of a.now)
        (tree_of b.now) (option_map tree_of rest)) }
{
    if is_member_absorbed(parents, b, sides.left) {
        return kept_ahead(alloc, parents, a, sides.right, Ok(rest));
    }
    if is_member_absorbed(parents, a, sides.right) {
        return copy_ahead(alloc, b, rest);
    }
    both_ahead(alloc, one(alloc, parents, a, b), rest)
}

/// Merges two types of one head: tuples part by part, other types if they are equal. `None` if they cannot be merged.
#[cycle(join)]
fn one(
    alloc: Global,
    parents: &Parents,
    a: &BoxType,
    b: &BoxType,
) -> Result<Option<BoxType>, OutOfMemory>
    requires left { IsNormal (tree_of a.now) }
    requires right { IsNormal (tree_of b.now) }
    ensures { IfOk result (λ o. option_map tree_of o ≡ one_of parents.now (tree_of a.now) (tree_of b.now)) }
{
    match a {
        BoxType::Tuple(ss) => match joined_parts(alloc, parents, ss, parts_of(b))? {
            None => Ok(None),
            Some(parts) => Ok(Some(BoxType::Tuple(parts))),
        },
        _ => {
            if is_same(a, b) {
                copied(alloc, a)
            } else {
                Ok(None)
            }
        }
    }
}

/// Returns the joins of the parts of two tuples, or `None` if the lengths differ or a part has no join.
#[cycle(join)]
fn joined_parts(
    alloc: Global,
    parents: &Parents,
    ss: &[BoxType],
    ts: &[BoxType],
) -> Result<Option<Vec<BoxType>>, OutOfMemory>
    requires left { AreNormal (trees_in ss.now) }
    requires right { AreNormal (trees_in ts.now) }
    ensures { IfOk result (λ o. option_map (λ v. trees_in v.items) o
        ≡ join_each parents.now (trees_in ss.now) (trees_in ts.now)) }
{
    if ss.len() != ts.len() {
        return Ok(None);
    }
    let mut parts = Vec::new(alloc);
    for i in 0..ss.len() {
        match joined(alloc, parents, &ss[i], &ts[i])? {
            None => return Ok(None),
            Some(part) => parts.push(part)?,
        }
    }
    Ok(Some(parts))
}
