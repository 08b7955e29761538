//! Facts kept of the methods that were judged.

ghost use Rattle.std.specs.Prelude.{◌≡◌, ◌≤◌, length, IfSome, string_bytes};
ghost use Rattle.pc_types.specs.Tree.{Tree};
ghost use Rattle.pc_class.specs.Overrides.{overridden};
ghost use Rattle.pc_overrides.specs.declared.known.Judging.{Judging as JudgingOf};
ghost use Rattle.pc_overrides.specs.Internal.OverrideTests.{IsJudging, methods_above};
ghost use Rattle.pc_overrides.specs.Internal.Representing.{Represent, IsKnown, AreKnown};

use crate::overriding::Demand;
use pc_class::{ClassTable, Method};
use pc_tree::{Code, Module};
use std::alloc::Global;

/// The context in which overrides are judged: a module, the table of its classes, and the allocator.
#[derive(Drop)]
pub struct Judging<'a, Ty: Drop> {
    pub tree: &'a Module,
    pub classes: &'a ClassTable<Ty>,
    pub alloc: Global,
}

/// A judged method and its code. `demands` represent it and every method of its name above it, except those that the
/// class `rest` has.
#[derive(Drop)]
pub struct Judged<'t, Ty: Drop> {
    pub method: &'t Method<Ty>,
    pub code: Option<Code>,
    pub demands: Vec<Demand<'t, Ty>>,
    pub rest: Option<usize>,
}

/// The methods that a method of a class with this base overrides. `demands` represent them, except those that the class
/// `rest` has.
#[derive(Drop)]
pub struct Above<'j, 't, Ty: Drop> {
    pub base: Option<usize>,
    pub demands: &'j [Demand<'t, Ty>],
    pub rest: Option<usize>,
}

/// Returns how many of these methods, which are in the order of their numbers, have a smaller number.
fn count_before<Ty: Drop>(own: &[Judged<Ty>], number: usize) -> usize
    ensures { result ≤ length own.now }
{
    let mut start = 0;
    let mut end = own.len();
    while start < end {
        let middle = start + (end - start) / 2;
        if own[middle].method.number < number {
            start = middle + 1;
        } else {
            end = middle;
        }
    }
    start
}

/// Returns the facts kept of a method, if it was judged.
pub(crate) fn judged_at<'j, 't, Ty: Drop>(
    judged: &'j [Vec<Judged<'t, Ty>>],
    method: &Method<Ty>,
) -> Option<&'j Judged<'t, Ty>>
    ensures { (tree : Ty → Tree) (s : JudgingOf Ty)
        → AreKnown tree s judged.now
        → IfSome result (λ k. IsKnown tree s method.now.owner k.now
        × (string_bytes k.now.method.now.name ≡ string_bytes method.now.name)) }
{
    let own = judged.get(method.owner)?;
    let known = own.get(count_before(own, method.number))?;
    let same = known.method;
    if same.name.as_str() == method.name.as_str() {
        Some(known)
    } else {
        None
    }
}

/// Returns the facts kept of the nearest method of a name that a class with this base inherits, if it was judged.
fn nearest_judged<'j, 't, Ty: Drop>(
    judging: &Judging<'t, Ty>,
    judged: &'j [Vec<Judged<'t, Ty>>],
    base: Option<usize>,
    name: &str,
) -> Option<&'j Judged<'t, Ty>>
    ensures { (tree : Ty → Tree) → IsJudging tree judging.now
        → AreKnown tree judging.now judged.now
        → IfSome result (λ k. Represent tree judging.now name.now
        (overridden (methods_above judging.now base) name.now) k.now.demands.items k.now.rest) }
{
    match base {
        None => None,
        Some(class) => match judging.classes.method(class, name) {
            None => None,
            Some(old) => judged_at(judged, old),
        },
    }
}

/// Returns the methods that a method of this name in a class with this base overrides.
pub(crate) fn all_above<'j, 't, Ty: Drop>(
    judging: &Judging<'t, Ty>,
    judged: &'j [Vec<Judged<'t, Ty>>],
    base: Option<usize>,
    name: &str,
) -> Above<'j, 't, Ty>
    ensures base { result.base ≡ base }
    ensures known { (tree : Ty → Tree) → IsJudging tree judging.now
        → AreKnown tree judging.now judged.now
        → Represent tree judging.now name.now
        (overridden (methods_above judging.now base) name.now) result.demands.now result.rest }
{
    match nearest_judged(judging, judged, base, name) {
        None => Above {
            base,
            demands: &[],
            rest: base,
        },
        Some(known) => Above {
            base,
            demands: known.demands.as_slice(),
            rest: known.rest,
        },
    }
}
