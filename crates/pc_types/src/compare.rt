//! Comparison of union members: equality, absorption, order.

ghost use Rattle.std.specs.Prelude.{◌≡◌};
ghost use Rattle.pc_types.specs.Normal.{member_rank};
ghost use Rattle.pc_types.specs.Join.{same_tree, same_trees, absorbs, is_absorbed, is_before};
ghost use Rattle.pc_types.specs.Boxed.{tree_of, trees_in};
ghost use Rattle.pc_types.specs.Internal.Absorbing.{may_be_absorbed};

use crate::{BoxType, Parents};

/// Returns whether two types are equal.
#[cycle(same)]
pub fn is_same(s: &BoxType, t: &BoxType) -> bool
    ensures { result ≡ same_tree (tree_of s.now) (tree_of t.now) }
{
    match s {
        BoxType::Any => matches!(t, BoxType::Any),
        BoxType::Object => matches!(t, BoxType::Object),
        BoxType::Never => matches!(t, BoxType::Never),
        BoxType::Int => matches!(t, BoxType::Int),
        BoxType::Bool => matches!(t, BoxType::Bool),
        BoxType::Str => matches!(t, BoxType::Str),
        BoxType::NoneType => matches!(t, BoxType::NoneType),
        BoxType::Class(c) => match t {
            BoxType::Class(d) => c == d,
            _ => false,
        },
        BoxType::List(a) => match t {
            BoxType::List(b) => is_same(a, b),
            _ => false,
        },
        BoxType::Dict(j, v) => match t {
            BoxType::Dict(k, w) => is_same(j, k) && is_same(v, w),
            _ => false,
        },
        BoxType::Tuple(ss) => match t {
            BoxType::Tuple(ts) => are_same(ss, ts),
            _ => false,
        },
        BoxType::Union(a, b) => match t {
            BoxType::Union(c, d) => is_same(a, c) && is_same(b, d),
            _ => false,
        },
    }
}

/// Returns whether two tuples have equal parts.
#[cycle(same)]
fn are_same(ss: &[BoxType], ts: &[BoxType]) -> bool
    ensures { result ≡ same_trees (trees_in ss.now) (trees_in ts.now) }
{
    if ss.len() != ts.len() {
        return false;
    }
    for i in 0..ss.len() {
        if !is_same(&ss[i], &ts[i]) {
            return false;
        }
    }
    true
}

/// Returns whether the first absorbs the second in a union.
fn does_absorb(parents: &Parents, a: &BoxType, m: &BoxType) -> bool
    ensures { result ≡ absorbs parents.now (tree_of a.now) (tree_of m.now) }
{
    match a {
        BoxType::Int => matches!(m, BoxType::Bool),
        BoxType::Class(d) => match m {
            BoxType::Class(c) => c != d && parents.is_within(*c, *d),
            _ => false,
        },
        _ => false,
    }
}

/// Returns whether a member can be absorbed at all: only `bool` and a class with a base can.
fn may_be_absorbed(parents: &Parents, m: &BoxType) -> bool
    ensures { result ≡ may_be_absorbed parents.now (tree_of m.now) }
{
    match m {
        BoxType::Bool => true,
        BoxType::Class(c) => parents.base(*c).is_some(),
        _ => false,
    }
}

/// Returns whether a member of a type absorbs a member, by asking each in turn.
fn does_one_absorb(parents: &Parents, m: &BoxType, t: &BoxType) -> bool
    ensures { result ≡ is_absorbed parents.now (tree_of m.now) (tree_of t.now) }
{
    match t {
        BoxType::Never => false,
        BoxType::Union(first, others) => {
            does_absorb(parents, first, m) || does_one_absorb(parents, m, others)
        }
        _ => does_absorb(parents, t, m),
    }
}

/// Returns whether some member of a type absorbs a member.
#[tactic(auto, using(crate::proofs::Absorbing::absorbed_where_may))]
pub(crate) fn is_member_absorbed(parents: &Parents, m: &BoxType, t: &BoxType) -> bool
    ensures { result ≡ is_absorbed parents.now (tree_of m.now) (tree_of t.now) }
{
    // Most members of large unions have no base, and this is called for each of them.
    may_be_absorbed(parents, m) && does_one_absorb(parents, m, t)
}

/// Returns whether the first member comes before the second in a union.
pub(crate) fn stands_before(m: &BoxType, n: &BoxType) -> bool
    ensures { result ≡ is_before (tree_of m.now) (tree_of n.now) }
{
    let (kind, detail) = rank(m);
    let (other_kind, other_detail) = rank(n);
    kind < other_kind || (kind == other_kind && detail < other_detail)
}

/// Returns the rank of a type's head among the members of a union.
fn rank(t: &BoxType) -> (usize, usize)
    ensures { result ≡ member_rank (tree_of t.now) }
{
    match t {
        BoxType::Int => (1, 0),
        BoxType::Bool => (2, 0),
        BoxType::Str => (3, 0),
        BoxType::NoneType => (4, 0),
        BoxType::List(_) => (5, 0),
        BoxType::Dict(_, _) => (6, 0),
        BoxType::Tuple(parts) => (7, parts.len()),
        BoxType::Class(c) => (8, *c),
        BoxType::Any | BoxType::Object | BoxType::Never | BoxType::Union(_, _) => (0, 0),
    }
}
