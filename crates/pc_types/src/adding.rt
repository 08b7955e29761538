//! Decides without allocation whether a join is its first type.

ghost use Rattle.std.specs.Prelude.{◌≡◌, ◌↔◌, ◌⊎◌, IsTrue, Some, false, true};
ghost use Rattle.std.specs.Option.{option_map};
ghost use Rattle.pc_types.specs.Tree.{Never};
ghost use Rattle.pc_types.specs.Normal.{AreNormal, IsNormal, IsOfMembers};
ghost use Rattle.pc_types.specs.Shape.{union};
ghost use Rattle.pc_types.specs.Join.{is_absorbed, join, join_each, join_of, one_of, put_all, unabsorbed_members};
ghost use Rattle.pc_types.specs.Boxed.{tree_of, trees_in, IsGiven};

use crate::compare::{is_member_absorbed, is_same, stands_before};
use crate::join::{Sides, parts_of, split};
use crate::{BoxType, Parents};

/// Returns true only if the join of `s` and `t` is `s`. False means nothing.
pub(crate) fn adds_nothing(parents: &Parents, s: &BoxType, t: &BoxType) -> bool
    requires left { IsGiven s.now }
    requires right { IsGiven t.now }
    ensures { IsTrue result → join parents.now (tree_of s.now) (tree_of t.now) ≡ Some (tree_of s.now) }
{
    if !has_members(s) || !has_members(t) {
        return false;
    }
    let sides = Sides {
        left: s,
        right: t,
        never: &BoxType::Never,
    };
    stays(parents, &sides, s, t)
}

/// Returns whether a type is one member or more: neither `Any`, `object` nor `Never`.
fn has_members(t: &BoxType) -> bool
    ensures listed { IsTrue result → IsNormal (tree_of t.now) → IsOfMembers (tree_of t.now) }
    ensures any { IsTrue result → tree_of t.now ≡ Never → ⊥ }
{
    !matches!(t, BoxType::Any | BoxType::Object | BoxType::Never)
}

/// Returns true only if merging the members of two types yields those of the first.
#[cycle(stays)]
fn stays(parents: &Parents, sides: &Sides, s: &BoxType, t: &BoxType) -> bool
    requires empty { tree_of sides.now.never.now ≡ Never }
    requires left { IsOfMembers (tree_of s.now) }
    requires right { IsOfMembers (tree_of t.now) }
    ensures { IsTrue result → option_map union (put_all parents.now (tree_of sides.now.right.now) (tree_of s.now)
        (unabsorbed_members parents.now (tree_of t.now) (tree_of sides.now.left.now))) ≡ Some (tree_of s.now) }
{
    match split(s, sides.never) {
        None => match split(t, sides.never) {
            None => true,
            Some((b, bs)) => is_dropped(parents, sides, b) && stays(parents, sides, s, bs),
        },
        Some((a, others)) => match split(t, sides.never) {
            None => is_kept(parents, sides, a) && stays(parents, sides, others, t),
            Some((b, bs)) => {
                if stands_before(a, b) {
                    is_kept(parents, sides, a) && stays(parents, sides, others, t)
                } else if stands_before(b, a) {
                    is_dropped(parents, sides, b) && stays(parents, sides, s, bs)
                } else {
                    is_one(parents, sides, a, b) && stays(parents, sides, others, bs)
                }
            }
        },
    }
}

/// Returns whether no member of the right side absorbs a member.
fn is_kept(parents: &Parents, sides: &Sides, m: &BoxType) -> bool
    ensures { IsTrue result ↔ (is_absorbed parents.now (tree_of m.now) (tree_of sides.now.right.now) ≡ false) }
{
    !is_member_absorbed(parents, m, sides.right)
}

/// Returns whether some member of the left side absorbs a member.
fn is_dropped(parents: &Parents, sides: &Sides, m: &BoxType) -> bool
    ensures { result ≡ is_absorbed parents.now (tree_of m.now) (tree_of sides.now.left.now) }
{
    is_member_absorbed(parents, m, sides.left)
}

/// Returns true only if merging two members of one head leaves the first: it is kept, and the second adds nothing or is
/// absorbed.
#[cycle(stays)]
fn is_one(parents: &Parents, sides: &Sides, a: &BoxType, b: &BoxType) -> bool
    requires left { IsNormal (tree_of a.now) }
    requires right { IsNormal (tree_of b.now) }
    ensures kept { IsTrue result → is_absorbed parents.now (tree_of a.now) (tree_of sides.now.right.now) ≡ false }
    ensures one { IsTrue result → (is_absorbed parents.now (tree_of b.now) (tree_of sides.now.left.now) ≡ true)
        ⊎ (one_of parents.now (tree_of a.now) (tree_of b.now) ≡ Some (tree_of a.now)) }
{
    is_kept(parents, sides, a) && (one_stays(parents, a, b) || is_dropped(parents, sides, b))
}

/// Returns true only if two types of one head merge into the first: tuples part by part, other types if they are equal.
#[cycle(stays)]
fn one_stays(parents: &Parents, a: &BoxType, b: &BoxType) -> bool
    requires left { IsNormal (tree_of a.now) }
    requires right { IsNormal (tree_of b.now) }
    ensures { IsTrue result → one_of parents.now (tree_of a.now) (tree_of b.now) ≡ Some (tree_of a.now) }
{
    match a {
        BoxType::Tuple(ss) => parts_stay(parents, ss, parts_of(b)),
        _ => is_same(a, b),
    }
}

/// Returns true only if joining the parts of two tuples one by one yields the parts of the first.
#[cycle(stays)]
fn parts_stay(parents: &Parents, ss: &[BoxType], ts: &[BoxType]) -> bool
    requires left { AreNormal (trees_in ss.now) }
    requires right { AreNormal (trees_in ts.now) }
    ensures { IsTrue result → join_each parents.now (trees_in ss.now) (trees_in ts.now) ≡ Some (trees_in ss.now) }
{
    if ss.len() != ts.len() {
        return false;
    }
    for i in 0..ss.len() {
        if !part_stays(parents, &ss[i], &ts[i]) {
            return false;
        }
    }
    true
}

/// Returns true only if the join of two parts is the first.
#[cycle(stays)]
fn part_stays(parents: &Parents, s: &BoxType, t: &BoxType) -> bool
    requires left { IsNormal (tree_of s.now) }
    requires right { IsNormal (tree_of t.now) }
    ensures { IsTrue result → join_of parents.now (tree_of s.now) (tree_of t.now) ≡ Some (tree_of s.now) }
{
    if !has_members(s) || !has_members(t) {
        return is_same(s, t);
    }
    let sides = Sides {
        left: s,
        right: t,
        never: &BoxType::Never,
    };
    stays(parents, &sides, s, t)
}
