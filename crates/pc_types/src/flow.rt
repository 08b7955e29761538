//! Flow of a type into another: static and consistent subtyping.

ghost use Rattle.std.specs.Prelude.{◌≡◌, ◌↔◌, length, IsTrue, true};
ghost use Rattle.pc_types.specs.Below.{Static};
ghost use Rattle.pc_types.specs.Assignable.{Assignable};
ghost use Rattle.pc_types.specs.Computed.{static_test, assignable_test};
ghost use Rattle.pc_types.specs.Internal.HeadFlow.{Covers, HeadFlow, FlowsBack, EachFlow, FlowFits, HeadFits, as_tested};
ghost use Rattle.pc_types.specs.Internal.HeadFlow.{seen_each};
ghost use Rattle.pc_types.specs.Normal.{IsNormal};
ghost use Rattle.pc_types.specs.Boxed.{tree_of, trees_in, IsNoUnion};

use crate::{BoxType, Parents};

/// Returns whether each member of the first type has a counterpart in the second: a member with its head or one above
/// it.
fn covers(parents: &Parents, gradual: bool, s: &BoxType, t: &BoxType) -> bool
    ensures { IsTrue result ↔ Covers parents.now (as_tested gradual (tree_of s.now)) (as_tested gradual (tree_of t.now)) }
{
    if gradual && matches!(s, BoxType::Any) {
        return true;
    }
    match s {
        BoxType::Never => true,
        BoxType::Union(a, b) => covers(parents, gradual, a, t) && covers(parents, gradual, b, t),
        _ => match t {
            BoxType::Any => true,
            BoxType::Object => true,
            BoxType::Union(a, b) => covers(parents, gradual, s, a)
                || covers(parents, gradual, s, b),
            _ => head_fits(parents, gradual, s, t),
        },
    }
}

/// Returns whether the heads of two types other than unions fit.
fn head_fits(parents: &Parents, gradual: bool, s: &BoxType, t: &BoxType) -> bool
    requires left { IsNoUnion s.now }
    requires right { IsNoUnion t.now }
    ensures { IsTrue result ↔ HeadFits parents.now (as_tested gradual (tree_of s.now)) (as_tested gradual (tree_of t.now)) }
{
    match s {
        BoxType::Int => matches!(t, BoxType::Int),
        BoxType::Bool => matches!(t, BoxType::Bool | BoxType::Int),
        BoxType::Str => matches!(t, BoxType::Str),
        BoxType::NoneType => matches!(t, BoxType::NoneType),
        BoxType::Class(c) => match t {
            BoxType::Class(d) => parents.is_within(*c, *d),
            _ => false,
        },
        BoxType::List(_) => matches!(t, BoxType::List(_)),
        BoxType::Dict(_, _) => matches!(t, BoxType::Dict(_, _)),
        BoxType::Tuple(ss) => match t {
            BoxType::Tuple(ts) => ss.len() == ts.len(),
            _ => false,
        },
        BoxType::Any | BoxType::Object | BoxType::Never | BoxType::Union(_, _) => false,
    }
}

/// Returns whether the first type flows into the second. If `gradual`, `Any` fits everything, else it counts as
/// `object`; if `both`, each part of a tuple in the second must also be covered by its counterpart in the first.
#[cycle(flow)]
fn flows(parents: &Parents, gradual: bool, both: bool, s: &BoxType, t: &BoxType) -> bool
    ensures { IsTrue result ↔ HeadFlow parents.now both (as_tested gradual (tree_of s.now)) (as_tested gradual (tree_of t.now)) }
{
    if gradual && matches!(s, BoxType::Any) {
        return true;
    }
    match s {
        BoxType::Never => true,
        BoxType::Union(a, b) => {
            flows(parents, gradual, both, a, t) && flows(parents, gradual, both, b, t)
        }
        _ => match t {
            BoxType::Any => true,
            BoxType::Object => true,
            BoxType::Union(a, b) => {
                flows(parents, gradual, both, s, a) || flows(parents, gradual, both, s, b)
            }
            _ => fits(parents, gradual, both, s, t),
        },
    }
}

/// Returns whether the heads of two types other than unions fit, and so do their parts.
#[cycle(flow)]
fn fits(parents: &Parents, gradual: bool, both: bool, s: &BoxType, t: &BoxType) -> bool
    requires left { IsNoUnion s.now }
    requires right { IsNoUnion t.now }
    ensures { IsTrue result ↔ FlowFits parents.now both (as_tested gradual (tree_of s.now)) (as_tested gradual (tree_of t.now)) }
{
    match s {
        BoxType::List(a) => match t {
            BoxType::List(b) => agree(parents, gradual, true, a, b),
            _ => false,
        },
        BoxType::Dict(j, v) => match t {
            BoxType::Dict(k, w) => {
                agree(parents, gradual, true, j, k) && agree(parents, gradual, true, v, w)
            }
            _ => false,
        },
        BoxType::Tuple(ss) => match t {
            BoxType::Tuple(ts) => each_flows(parents, gradual, both, ss, ts),
            _ => false,
        },
        _ => head_fits(parents, gradual, s, t),
    }
}

/// Returns whether the first flows into the second and, if `both`, the second is covered by the first.
#[cycle(flow)]
fn agree(parents: &Parents, gradual: bool, both: bool, s: &BoxType, t: &BoxType) -> bool
    ensures { IsTrue result ↔ FlowsBack parents.now both (as_tested gradual (tree_of s.now)) (as_tested gradual (tree_of t.now)) }
{
    flows(parents, gradual, both, s, t) && (!both || covers(parents, gradual, t, s))
}

/// Returns whether two tuples have the same length and each part of the first flows into the same part of the second.
#[cycle(flow)]
fn each_flows(parents: &Parents, gradual: bool, both: bool, ss: &[BoxType], ts: &[BoxType]) -> bool
    ensures { IsTrue result ↔ EachFlow parents.now both (seen_each gradual (trees_in ss.now))
        (seen_each gradual (trees_in ts.now)) }
{
    if ss.len() != ts.len() {
        return false;
    }
    for i in 0..ss.len() {
        if !agree(parents, gradual, both, &ss[i], &ts[i]) {
            return false;
        }
    }
    true
}

/// Returns whether the first is a static subtype of the second.
pub(crate) fn is_static(parents: &Parents, s: &BoxType, t: &BoxType) -> bool
    requires left { IsNormal (tree_of s.now) }
    requires right { IsNormal (tree_of t.now) }
    ensures value { IsTrue result ↔ Static parents.now (tree_of s.now) (tree_of t.now) }
    ensures test { result ≡ static_test parents.now (tree_of s.now) (tree_of t.now) }
{
    parents.ordered();
    flows(parents, false, false, s, t)
}

/// Returns whether the first is assignable to the second.
pub(crate) fn is_assignable(parents: &Parents, s: &BoxType, t: &BoxType) -> bool
    requires left { IsNormal (tree_of s.now) }
    requires right { IsNormal (tree_of t.now) }
    ensures value { IsTrue result ↔ Assignable parents.now (tree_of s.now) (tree_of t.now) }
    ensures test { result ≡ assignable_test parents.now (tree_of s.now) (tree_of t.now) }
{
    parents.ordered();
    flows(parents, true, false, s, t)
}
