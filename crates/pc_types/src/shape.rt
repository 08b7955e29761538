//! The form of boxed types: nodes, heads, parts, copies.

ghost use Rattle.std.specs.Prelude.{◌≡◌, ◌<◌, ◌+◌, ◌++◌, ◌∷◌, [], min, map, length, slice_get, IfOk, OnOk, Some};
ghost use Rattle.pc_types.specs.Shape.{nodes, nodes_of, parts, members, ahead, union};
ghost use Rattle.pc_types.specs.Head.{head_of};
ghost use Rattle.pc_types.specs.Boxed.{tree_of, trees_in};

use crate::{BoxType, Head};
use pc_source::OutOfMemory;
use std::alloc::Global;

/// The largest number of nodes of a type.
pub(crate) const LIMIT: usize = 256;

/// Returns the number, capped at one more than the limit of nodes.
fn capped(count: usize) -> usize
    ensures { result ≡ min count 257 }
{
    count.min(LIMIT + 1)
}

/// Returns the number of nodes of a type, capped at one more than the limit.
#[cycle(nodes)]
pub(crate) fn count_nodes(t: &BoxType) -> usize
    ensures { result ≡ min (nodes (tree_of t.now)) 257 }
{
    match t {
        BoxType::List(item) => capped(1 + count_nodes(item)),
        BoxType::Dict(key, value) => capped(1 + count_nodes(key) + count_nodes(value)),
        BoxType::Tuple(parts) => capped(1 + count_each(parts)),
        BoxType::Union(first, others) => capped(1 + count_nodes(first) + count_nodes(others)),
        _ => 1,
    }
}

/// Returns the number of nodes of several types together, capped at one more than the limit.
#[cycle(nodes)]
pub(crate) fn count_each(ts: &[BoxType]) -> usize
    ensures { result ≡ min (nodes_of (trees_in ts.now)) 257 }
{
    let mut sum = 0;
    for t in ts {
        sum = capped(sum + count_nodes(t));
    }
    sum
}

/// Returns a copy of a type.
#[cycle(copy)]
pub(crate) fn copy(alloc: Global, t: &BoxType) -> Result<BoxType, OutOfMemory>
    ensures { IfOk result (λ c. tree_of c ≡ tree_of t.now) }
{
    match t {
        BoxType::Any => Ok(BoxType::Any),
        BoxType::Object => Ok(BoxType::Object),
        BoxType::Never => Ok(BoxType::Never),
        BoxType::Int => Ok(BoxType::Int),
        BoxType::Bool => Ok(BoxType::Bool),
        BoxType::Str => Ok(BoxType::Str),
        BoxType::NoneType => Ok(BoxType::NoneType),
        BoxType::Class(c) => Ok(BoxType::Class(*c)),
        BoxType::List(item) => {
            let item = copy(alloc, item)?;
            Ok(BoxType::List(Box::new(alloc, item)?))
        }
        BoxType::Dict(key, value) => {
            let key = Box::new(alloc, copy(alloc, key)?)?;
            Ok(BoxType::Dict(key, Box::new(alloc, copy(alloc, value)?)?))
        }
        BoxType::Tuple(parts) => Ok(BoxType::Tuple(copies(alloc, parts)?)),
        BoxType::Union(first, others) => {
            let first = Box::new(alloc, copy(alloc, first)?)?;
            Ok(BoxType::Union(first, Box::new(alloc, copy(alloc, others)?)?))
        }
    }
}

/// Returns copies of several types.
#[cycle(copy)]
pub(crate) fn copies(alloc: Global, ts: &[BoxType]) -> Result<Vec<BoxType>, OutOfMemory>
    ensures { IfOk result (λ v. map tree_of v.items ≡ map tree_of ts.now) }
{
    let mut out = Vec::new(alloc);
    for t in ts {
        out.push(copy(alloc, t)?)?;
    }
    Ok(out)
}

/// Returns the number of members of a type: those of a union, none for `Never`, else one.
fn count_members(t: &BoxType) -> usize
    requires { nodes (tree_of t.now) < 257 }
    ensures { result ≡ length (members (tree_of t.now)) }
{
    match t {
        BoxType::Never => 0,
        BoxType::Union(_, others) => 1 + count_members(others),
        _ => 1,
    }
}

/// Returns the head of a type.
pub(crate) fn head(t: &BoxType) -> Head
    requires { nodes (tree_of t.now) < 257 }
    ensures { result ≡ head_of (tree_of t.now) }
{
    match t {
        BoxType::Any => Head::Any,
        BoxType::Object => Head::Object,
        BoxType::Never => Head::Never,
        BoxType::Int => Head::Int,
        BoxType::Bool => Head::Bool,
        BoxType::Str => Head::Str,
        BoxType::NoneType => Head::None,
        BoxType::Class(c) => Head::Class(*c),
        BoxType::List(_) => Head::List,
        BoxType::Dict(_, _) => Head::Dict,
        BoxType::Tuple(parts) => Head::Tuple(parts.len()),
        BoxType::Union(_, others) => Head::Union(1 + count_members(others)),
    }
}

/// Returns the member of a type with this number, from 0.
fn member(t: &BoxType, number: usize) -> &BoxType
    requires { number < length (members (tree_of t.now)) }
    ensures { slice_get (members (tree_of t.now)) number ≡ Some (tree_of result.now) }
{
    match t {
        BoxType::Union(first, others) => {
            if number == 0 {
                first
            } else {
                member(others, number - 1)
            }
        }
        _ => t,
    }
}

/// Returns the part of a type with this number, from 0.
pub(crate) fn part(t: &BoxType, number: usize) -> &BoxType
    requires { number < length (parts (tree_of t.now)) }
    ensures { slice_get (parts (tree_of t.now)) number ≡ Some (tree_of result.now) }
{
    match t {
        BoxType::List(item) => item,
        BoxType::Dict(key, value) => { if number == 0 { key } else { value } }
        BoxType::Tuple(parts) => &parts[number],
        _ => member(t, number),
    }
}

/// Appends a copy of a type.
fn push_copy(alloc: Global, t: &BoxType, out: &mut Vec<BoxType>) -> Result<(), OutOfMemory>
    ensures { OnOk result (map tree_of out.new.items ≡ map tree_of out.old.items ++ (tree_of t.now ∷ [])) }
{
    out.push(copy(alloc, t)?)?;
    Ok(())
}

/// Appends copies of the members of a type.
fn push_members(alloc: Global, t: &BoxType, out: &mut Vec<BoxType>) -> Result<(), OutOfMemory>
    ensures { OnOk result (map tree_of out.new.items ≡ map tree_of out.old.items ++ members (tree_of t.now)) }
{
    match t {
        BoxType::Never => Ok(()),
        BoxType::Union(first, others) => {
            push_copy(alloc, first, out)?;
            push_members(alloc, others, out)
        }
        _ => push_copy(alloc, t, out),
    }
}

/// Returns copies of the members of a type.
pub(crate) fn members(alloc: Global, t: &BoxType) -> Result<Vec<BoxType>, OutOfMemory>
    ensures { IfOk result (λ v. map tree_of v.items ≡ members (tree_of t.now)) }
{
    let mut out = Vec::new(alloc);
    push_members(alloc, t, &mut out)?;
    Ok(out)
}

/// Returns a list of a copy of one type.
fn one_copy(alloc: Global, t: &BoxType) -> Result<Vec<BoxType>, OutOfMemory>
    ensures { IfOk result (λ v. map tree_of v.items ≡ tree_of t.now ∷ []) }
{
    let mut out = Vec::with_capacity(alloc, 1)?;
    push_copy(alloc, t, &mut out)?;
    Ok(out)
}

/// Returns a list of copies of two types.
fn two_copies(alloc: Global, s: &BoxType, t: &BoxType) -> Result<Vec<BoxType>, OutOfMemory>
    ensures { IfOk result (λ v. map tree_of v.items ≡ tree_of s.now ∷ tree_of t.now ∷ []) }
{
    let mut out = Vec::with_capacity(alloc, 2)?;
    push_copy(alloc, s, &mut out)?;
    push_copy(alloc, t, &mut out)?;
    Ok(out)
}

/// Returns copies of the parts of a type.
pub(crate) fn parts(alloc: Global, t: &BoxType) -> Result<Vec<BoxType>, OutOfMemory>
    ensures { IfOk result (λ v. map tree_of v.items ≡ parts (tree_of t.now)) }
{
    match t {
        BoxType::List(item) => one_copy(alloc, item),
        BoxType::Dict(key, value) => two_copies(alloc, key, value),
        BoxType::Tuple(parts) => copies(alloc, parts),
        BoxType::Union(_, _) => members(alloc, t),
        _ => Ok(Vec::new(alloc)),
    }
}

/// Returns a type with a member ahead of those of another type.
pub(crate) fn put_ahead(alloc: Global, m: BoxType, rest: BoxType) -> Result<BoxType, OutOfMemory>
    ensures { IfOk result (λ u. tree_of u ≡ ahead (tree_of m) (tree_of rest)) }
{
    match rest {
        BoxType::Never => Ok(m),
        _ => {
            let rest = Box::new(alloc, rest)?;
            Ok(BoxType::Union(Box::new(alloc, m)?, rest))
        }
    }
}

/// Returns a type with a copy of a member ahead of those of another type.
pub(crate) fn copied_ahead(
    alloc: Global,
    m: &BoxType,
    rest: BoxType,
) -> Result<BoxType, OutOfMemory>
    ensures { IfOk result (λ u. tree_of u ≡ ahead (tree_of m.now) (tree_of rest)) }
{
    match copy(alloc, m) {
        Ok(m) => put_ahead(alloc, m, rest),
        Err(error) => {
            drop(rest);
            Err(error)
        }
    }
}

/// Returns the union of members.
pub(crate) fn union(alloc: Global, types: &[BoxType]) -> Result<BoxType, OutOfMemory>
    ensures { IfOk result (λ u. tree_of u ≡ union (map tree_of types.now)) }
{
    let mut out = BoxType::Never;
    let mut at = types.len();
    while at > 0 {
        at -= 1;
        out = copied_ahead(alloc, &types[at], out)?;
    }
    Ok(out)
}
