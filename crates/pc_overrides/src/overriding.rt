//! One method against another that it overrides.

ghost use Rattle.std.specs.Prelude.{◌≡◌, ◌&&◌, ◌||◌, not, bytes_eq};
ghost use Rattle.pc_types.specs.Store.{KeepsTypes};
ghost use Rattle.pc_class.specs.Overrides.{TypeFlow};
ghost use Rattle.pc_class.specs.Parts.{parameter_name};
ghost use Rattle.pc_class.specs.Tables.{HasMethod, method_with};
ghost use Rattle.pc_overrides.specs.Internal.OverrideTests.{flow_fits, overrides_by, meets};

use pc_class::{Method, Parameter};
use pc_types::{Parents, TypeStore};

/// The relation in which one type must flow into another. Typing specification, "Type system concepts".
#[derive(Clone, Copy)]
pub enum Relation {
    /// Each `Any` counts as `object`.
    Static,
    /// Some reading of each `Any` is enough.
    Assignable,
}

/// The demand of a method, at one of its parts, on each method that overrides it. Part 0 is the return type, and each
/// further part is a parameter.
#[derive(Drop)]
pub struct Demand<'t, Ty: Drop> {
    pub method: &'t Method<Ty>,
    pub part: usize,
}

/// Returns whether a parameter has the name of the ancestor's and a default if that one has a default.
fn suits<Ty: Drop>(old: &Parameter<Ty>, new: &Parameter<Ty>) -> bool
    ensures { result ≡ (bytes_eq (parameter_name old.now) (parameter_name new.now)
        && (not old.now.has_default || new.now.has_default)) }
{
    old.name.as_str() == new.name.as_str() && (!old.has_default || new.has_default)
}

/// Returns whether the first type flows into the second in the relation.
fn fits<S: TypeStore>(
    store: &mut S,
    parents: &Parents,
    relation: Relation,
    from: &S::Ty,
    into: &S::Ty,
) -> bool
    requires from { S.has store.old from.now }
    requires into { S.has store.old into.now }
    ensures value { result ≡ flow_fits relation parents.now
        (let flow : TypeFlow = record { from = S.tree from.now; into = S.tree into.now } in flow) }
    ensures kept { KeepsTypes S.has store.old store.new }
{
    match relation {
        Relation::Static => store.is_static(parents, from, into),
        Relation::Assignable => store.is_assignable(parents, from, into),
    }
}

/// Returns whether a method satisfies, in the relation, the demand of another at a part. It must have as many
/// parameters. At part 0, its return type must flow into the other's; at a parameter, the other's type must flow into
/// its own, which must suit it.
pub(crate) fn meets<S: TypeStore>(
    store: &mut S,
    parents: &Parents,
    relation: Relation,
    new: &Method<S::Ty>,
    old: &Method<S::Ty>,
    part: usize,
) -> bool
    requires new { HasMethod (S.has store.old) new.now }
    requires old { HasMethod (S.has store.old) old.now }
    ensures value { result ≡ meets relation parents.now (method_with S.tree new.now) (method_with S.tree old.now) part }
    ensures kept { KeepsTypes S.has store.old store.new }
{
    let taken = old.params.as_slice();
    let takes = new.params.as_slice();
    if taken.len() != takes.len() {
        return false;
    }
    if part == 0 {
        return fits(store, parents, relation, &new.ret, &old.ret);
    }
    let number = part - 1;
    if number >= taken.len() {
        return true;
    }
    let from = &taken[number];
    let into = &takes[number];
    if !suits(from, into) {
        return false;
    }
    fits(store, parents, relation, &from.ty, &into.ty)
}

/// Returns whether a method overrides another in the relation: it satisfies the demand of that one at each part.
/// Typing specification, "Type system concepts", assignability of callables.
pub(crate) fn overrides<S: TypeStore>(
    store: &mut S,
    parents: &Parents,
    relation: Relation,
    new: &Method<S::Ty>,
    old: &Method<S::Ty>,
) -> bool
    requires new { HasMethod (S.has store.old) new.now }
    requires old { HasMethod (S.has store.old) old.now }
    ensures value { result ≡ overrides_by relation parents.now (method_with S.tree new.now)
        (method_with S.tree old.now) }
    ensures kept { KeepsTypes S.has store.old store.new }
{
    for part in 0..old.params.as_slice().len() + 1 {
        if !meets(store, parents, relation, new, old, part) {
            return false;
        }
    }
    true
}
