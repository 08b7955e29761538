//! Demands that represent all methods of a name that a class has.

ghost use Rattle.std.specs.Prelude.{◌≡◌, ◌∷◌, slice_get, IfOk, OnOk, true, Some, IfSome};
ghost use Rattle.std.specs.List.{list_all};
ghost use Rattle.pc_types.specs.Below.{Bases};
ghost use Rattle.pc_types.specs.Store.{KeepsTypes};
ghost use Rattle.pc_types.specs.Tree.{Tree};
ghost use Rattle.pc_annotations.specs.Bases.{bases_of};
ghost use Rattle.pc_class.specs.Facts.{Method as Means};
ghost use Rattle.pc_class.specs.Overrides.{overridden};
ghost use Rattle.pc_class.specs.Tables.{HasMethod, HasEntries, IsMethod, method_with};
ghost use Rattle.pc_class.specs.WellFormed.{MethodWellFormed};
ghost use Rattle.pc_overrides.specs.declared.known.Judging.{Judging as JudgingOf};
ghost use Rattle.pc_overrides.specs.declared.overriding.Relation.{Relation as RelationOf};
ghost use Rattle.pc_overrides.specs.Internal.OverrideTests.{overrides_by, meets_demand, IsJudging, module_judged};
ghost use Rattle.pc_overrides.specs.Internal.OverrideTests.{methods_above};
ghost use Rattle.pc_overrides.specs.Internal.Representing.{Implies, IsOneMore, AreWith, AreListed, Represent};

use crate::known::{Above, Judged, Judging};
use crate::overriding::{Demand, Relation, meets};
use crate::subsuming::subsumes_at;
use pc_class::Method;
use pc_source::OutOfMemory;
use pc_tree::Code;
use pc_types::TypeStore;
use std::alloc::Global;

/// Most demands that represent all methods of a name, beside two for each part of a method.
const MANY: usize = 64;

/// Returns true only if the demand of a method at a part implies that of another: it satisfies that demand statically,
/// and its type subsumes the other's. Whatever satisfies the one then satisfies the other.
fn implies<S: TypeStore>(
    judging: &Judging<S::Ty>,
    store: &mut S,
    new: &Method<S::Ty>,
    old: &Method<S::Ty>,
    part: usize,
) -> Result<bool, OutOfMemory>
    requires judging { IsJudging S.tree judging.now }
    requires new { HasMethod (S.has store.old) new.now }
    requires old { HasMethod (S.has store.old) old.now }
    requires types { MethodWellFormed (bases_of (module_judged judging.now)) (method_with S.tree new.now) }
    requires old_types { MethodWellFormed (bases_of (module_judged judging.now)) (method_with S.tree old.now) }
    ensures value { IfOk result (λ implied. implied ≡ true → Implies (bases_of (module_judged judging.now))
        (method_with S.tree new.now) (method_with S.tree old.now) part) }
    ensures kept { KeepsTypes S.has store.old store.new }
{
    let parents = judging.classes.parents();
    if !meets(store, parents, Relation::Static, new, old, part) {
        return Ok(false);
    }
    let subsumed = subsumes_at(store, judging.alloc, new, old, part)?;
    Ok(subsumed)
}

/// Returns the method of the first demand at a part, if that demand is at the index of the part's number.
fn first_at<'t, Ty: Drop>(demands: &[Demand<'t, Ty>], part: usize) -> Option<&'t Method<Ty>>
    ensures { IfSome result (λ first. slice_get demands.now part ≡ Some (record { method = first; part = part })) }
{
    if part < demands.len() {
        let first = &demands[part];
        if first.part == part {
            return Some(first.method);
        }
    }
    None
}

/// Adds a demand to others. If it implies the first one at its part, or that one implies it, only one of them is kept.
fn add_demand<'t, S: TypeStore>(
    judging: &Judging<'t, S::Ty>,
    store: &mut S,
    demands: &mut Vec<Demand<'t, S::Ty>>,
    demand: &Demand<'t, S::Ty>,
) -> Result<(), OutOfMemory>
    requires judging { IsJudging S.tree judging.now }
    requires table { HasEntries (S.has store.old) judging.now.classes.now }
    requires listed { AreListed S.tree judging.now demands.old.items }
    requires method { IsMethod judging.now.classes.now demand.now.method.now }
    ensures listed { OnOk result (AreListed S.tree judging.now demands.new.items) }
    ensures more { OnOk result (IsOneMore S.tree (bases_of (module_judged judging.now)) demands.new.items
        demands.old.items demand.now) }
    ensures kept { KeepsTypes S.has store.old store.new }
{
    let method = demand.method;
    let part = demand.part;
    if let Some(first) = first_at(demands, part) {
        if implies(judging, store, first, method, part)? {
            return Ok(());
        }
        if implies(judging, store, method, first, part)? {
            demands[part] = Demand { method, part };
            return Ok(());
        }
    }
    demands.push(Demand { method, part })?;
    Ok(())
}

/// Returns the demands of a method, one for each part.
fn own_demands<'t, Ty: Drop>(
    alloc: Global,
    method: &'t Method<Ty>,
) -> Result<Vec<Demand<'t, Ty>>, OutOfMemory>
    ensures own { IfOk result (λ own. (tree : Ty → Tree) (relation : RelationOf) (bases : Bases) (z : Means)
        → list_all (meets_demand tree relation bases z) own.items
        ≡ overrides_by relation bases z (method_with tree method.now)) }
    ensures listed { (tree : Ty → Tree) (s : JudgingOf Ty) → IsMethod s.classes.now method.now
        → IfOk result (λ own. AreListed tree s own.items) }
{
    let count = method.params.as_slice().len() + 1;
    let mut own = Vec::with_capacity(alloc, count)?;
    for part in 0..count {
        own.push(Demand { method, part })?;
    }
    Ok(own)
}

/// Returns the demands of a method together with those of others.
fn demands_with<'t, S: TypeStore>(
    judging: &Judging<'t, S::Ty>,
    store: &mut S,
    method: &'t Method<S::Ty>,
    others: &[Demand<'t, S::Ty>],
) -> Result<Vec<Demand<'t, S::Ty>>, OutOfMemory>
    requires judging { IsJudging S.tree judging.now }
    requires table { HasEntries (S.has store.old) judging.now.classes.now }
    requires listed { AreListed S.tree judging.now others.now }
    requires method { IsMethod judging.now.classes.now method.now }
    ensures listed { IfOk result (λ demands. AreListed S.tree judging.now demands.items) }
    ensures asked { IfOk result (λ demands. AreWith S.tree (bases_of (module_judged judging.now)) demands.items
        (method_with S.tree method.now) others.now) }
    ensures kept { KeepsTypes S.has store.old store.new }
{
    let mut demands = own_demands(judging.alloc, method)?;
    demands.reserve_exact(others.len())?;
    for other in others {
        add_demand(judging, store, &mut demands, other)?;
    }
    Ok(demands)
}

/// Returns the facts kept of a method with this code: demands that represent it and all methods of its name above it.
/// If these were too many, the demands of the method alone are kept, and `rest` is the base of its class.
pub(crate) fn judged_with<'j, 't, S: TypeStore>(
    judging: &Judging<'t, S::Ty>,
    store: &mut S,
    above: &Above<'j, 't, S::Ty>,
    method: &'t Method<S::Ty>,
    code: Option<Code>,
) -> Result<Judged<'t, S::Ty>, OutOfMemory>
    requires judging { IsJudging S.tree judging.now }
    requires table { HasEntries (S.has store.old) judging.now.classes.now }
    requires above { Represent S.tree judging.now (method_with S.tree method.now).name
        (overridden (methods_above judging.now above.now.base) (method_with S.tree method.now).name)
        above.now.demands.now above.now.rest }
    requires method { IsMethod judging.now.classes.now method.now }
    ensures method { IfOk result (λ k. k.method.now ≡ method.now) }
    ensures code { IfOk result (λ k. k.code ≡ code) }
    ensures known { IfOk result (λ k. Represent S.tree judging.now (method_with S.tree method.now).name
        (method_with S.tree method.now
        ∷ overridden (methods_above judging.now above.now.base) (method_with S.tree method.now).name)
        k.demands.items k.rest) }
    ensures kept { KeepsTypes S.has store.old store.new }
{
    let demands = demands_with(judging, store, method, above.demands)?;
    let parts = method.params.as_slice().len() + 1;
    if demands.len().saturating_sub(parts) <= MANY + parts {
        return Ok(Judged {
            method,
            code,
            demands,
            rest: above.rest,
        });
    }
    let own = own_demands(judging.alloc, method)?;
    Ok(Judged {
        method,
        code,
        demands: own,
        rest: above.base,
    })
}
