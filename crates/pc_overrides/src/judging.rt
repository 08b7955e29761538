//! The code of a method against the methods of its name that it overrides.

ghost use Rattle.std.specs.Prelude.{◌≡◌, ◌&&◌, Bool, IfOk, IfSome, string_bytes};
ghost use Rattle.std.specs.List.{list_all};
ghost use Rattle.pc_types.specs.Below.{base_of};
ghost use Rattle.pc_types.specs.Store.{KeepsTypes};
ghost use Rattle.pc_annotations.specs.Bases.{bases_of};
ghost use Rattle.pc_class.specs.Overrides.{overridden};
ghost use Rattle.pc_class.specs.OverrideFindings.{is_good_to, is_static_to, code_where, override_code};
ghost use Rattle.pc_class.specs.Parts.{bases_in};
ghost use Rattle.pc_class.specs.Tables.{HasMethod, HasEntries, IsMethod, method_with};
ghost use Rattle.pc_overrides.specs.declared.overriding.Relation.TheVariants.{Static, Assignable};
ghost use Rattle.pc_overrides.specs.Internal.OverrideTests.{meets_demand, IsJudging, module_judged, methods_above};
ghost use Rattle.pc_overrides.specs.Internal.Representing.{static_where, AreListed, Represent, AreKnown};

use crate::alike::is_alike;
use crate::known::{Above, Judged, Judging, judged_at};
use crate::overriding::{Demand, Relation, meets, overrides};
use pc_class::Method;
use pc_source::OutOfMemory;
use pc_tree::Code;
use pc_types::TypeStore;

/// Returns whether a method is static to each of these demands, or `None` if it is not good against one.
fn static_among<S: TypeStore>(
    judging: &Judging<S::Ty>,
    store: &mut S,
    demands: &[Demand<S::Ty>],
    method: &Method<S::Ty>,
) -> Option<bool>
    requires table { HasEntries (S.has store.old) judging.now.classes.now }
    requires listed { AreListed S.tree judging.now demands.now }
    requires method { HasMethod (S.has store.old) method.now }
    ensures value { result ≡ static_where
        (list_all (meets_demand S.tree Assignable (bases_in judging.now.classes.now) (method_with S.tree method.now)) demands.now)
        (list_all (meets_demand S.tree Static (bases_in judging.now.classes.now) (method_with S.tree method.now)) demands.now) }
    ensures kept { KeepsTypes S.has store.old store.new }
{
    let parents = judging.classes.parents();
    let mut is_static = true;
    for demand in demands {
        let old = demand.method;
        if !meets(
            store,
            parents,
            Relation::Assignable,
            method,
            old,
            demand.part,
        ) {
            return None;
        }
        if is_static {
            is_static = meets(store, parents, Relation::Static, method, old, demand.part);
        }
    }
    Some(is_static)
}

/// Returns the code of a method against more methods, given its code against some and whether it is static to the
/// `others`, to all of which it is good.
fn with_others(code: Option<Code>, others: bool) -> Option<Code>
    ensures { (good static : Bool) → code ≡ code_where good static → result ≡ code_where good (others && static) }
{
    match code {
        None => { if others { None } else { Some(Code::A8) } }
        Some(code) => Some(code),
    }
}

/// Returns the facts kept of `old` if it was judged and is like `method`: both get the same code against all methods
/// above `old`.
fn judged_alike<'j, 't, S: TypeStore>(
    judging: &Judging<S::Ty>,
    store: &S,
    judged: &'j [Vec<Judged<'t, S::Ty>>],
    old: &Method<S::Ty>,
    method: &Method<S::Ty>,
) -> Result<Option<&'j Judged<'t, S::Ty>>, OutOfMemory>
    requires table { HasEntries (S.has store.now) judging.now.classes.now }
    requires judged { AreKnown S.tree judging.now judged.now }
    requires method { HasMethod (S.has store.now) method.now }
    ensures { IfOk result (λ known. IfSome known (λ k. k.now.code ≡ override_code (bases_of (module_judged judging.now))
        (overridden (methods_above judging.now (base_of (bases_of (module_judged judging.now)) old.now.owner))
        (string_bytes old.now.name)) (method_with S.tree method.now))) }
{
    match judged_at(judged, old) {
        None => Ok(None),
        Some(known) => {
            if is_alike(store, judging.alloc, known.method, method)? {
                Ok(Some(known))
            } else {
                Ok(None)
            }
        }
    }
}

/// Returns the code of a method of a class with this base, against the methods of its name above: `E11` if it is not
/// good against one, else `A8` if it is not static to one or `others` is false. Own rule of the profile.
fn code_of<S: TypeStore>(
    judging: &Judging<S::Ty>,
    store: &mut S,
    judged: &[Vec<Judged<S::Ty>>],
    base: Option<usize>,
    method: &Method<S::Ty>,
    others: bool,
) -> Result<Option<Code>, OutOfMemory>
    requires judging { IsJudging S.tree judging.now }
    requires table { HasEntries (S.has store.old) judging.now.classes.now }
    requires judged { AreKnown S.tree judging.now judged.now }
    requires method { HasMethod (S.has store.old) method.now }
    ensures value { IfOk result (λ code. code ≡ code_where
        (list_all (is_good_to (bases_in judging.now.classes.now) (method_with S.tree method.now))
        (overridden (methods_above judging.now base) (method_with S.tree method.now).name))
        (others && list_all (is_static_to (bases_in judging.now.classes.now) (method_with S.tree method.now))
        (overridden (methods_above judging.now base) (method_with S.tree method.now).name))) }
    ensures kept { KeepsTypes S.has store.old store.new }
{
    let parents = judging.classes.parents();
    let mut is_static = others;
    let mut at = base;
    while let Some(class) = at {
        match judging.classes.method(class, method.name.as_str()) {
            None => {
                at = None;
            }
            Some(old) => {
                if !overrides(store, parents, Relation::Assignable, method, old) {
                    return Ok(Some(Code::E11));
                }
                let here = overrides(store, parents, Relation::Static, method, old);
                is_static = is_static && here;
                // A method is static to one that is like it, and that is tested sooner than likeness.
                if here && let Some(known) = judged_alike(judging, store, judged, old, method)? {
                    return Ok(with_others(known.code, is_static));
                }
                at = parents.base(old.owner);
            }
        }
    }
    Ok(with_others(None, is_static))
}

/// Returns the code of a method against all methods that it overrides.
pub(crate) fn code_among<S: TypeStore>(
    judging: &Judging<S::Ty>,
    store: &mut S,
    judged: &[Vec<Judged<S::Ty>>],
    above: &Above<S::Ty>,
    method: &Method<S::Ty>,
) -> Result<Option<Code>, OutOfMemory>
    requires judging { IsJudging S.tree judging.now }
    requires table { HasEntries (S.has store.old) judging.now.classes.now }
    requires judged { AreKnown S.tree judging.now judged.now }
    requires method { IsMethod judging.now.classes.now method.now }
    requires above { Represent S.tree judging.now (method_with S.tree method.now).name
        (overridden (methods_above judging.now above.now.base) (method_with S.tree method.now).name)
        above.now.demands.now above.now.rest }
    ensures value { IfOk result (λ code. code ≡ override_code (bases_of (module_judged judging.now))
        (overridden (methods_above judging.now above.now.base) (method_with S.tree method.now).name)
        (method_with S.tree method.now)) }
    ensures kept { KeepsTypes S.has store.old store.new }
{
    match static_among(judging, store, above.demands, method) {
        None => Ok(Some(Code::E11)),
        Some(is_static) => {
            let code = code_of(judging, store, judged, above.rest, method, is_static)?;
            Ok(code)
        }
    }
}
