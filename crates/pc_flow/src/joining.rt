//! Joins of environments where two paths join, and of types there.

ghost use Rattle.std.specs.Prelude.{◌≡◌, Some, IfOk, OnOk, slice_set, true};
ghost use Rattle.std.specs.Option.{option_copied, option_map};
ghost use Rattle.pc_types.specs.Store.{Means, KeepsTypes};
ghost use Rattle.pc_flow.specs.Agreement.{TakesIn};
ghost use Rattle.pc_flow.specs.Environment.{current, declared_type, join_or_object, join_local};
ghost use Rattle.pc_flow.specs.Declarations.{join_with};
ghost use Rattle.pc_flow.specs.Stored.{env_of, declared_one, declared_of, HasOne, HasEach, GivesOne, GivesEnv};

use crate::alike::is_same_type;
use crate::{Declarations, Env};
use pc_source::OutOfMemory;
use pc_types::{Parents, TypeStore};
use std::alloc::Global;

/// Returns the join of two types, or `object` if there is none. Own rule of the profile.
pub fn join_or_object<S: TypeStore>(
    store: &mut S,
    alloc: Global,
    parents: &Parents,
    s: &S::Ty,
    t: &S::Ty,
) -> Result<S::Ty, OutOfMemory>
    requires left { S.has store.old s.now }
    requires right { S.has store.old t.now }
    ensures value { IfOk result
        (λ u. Means S.has S.tree store.new u (join_or_object parents.now (S.tree s.now) (S.tree t.now))) }
    ensures kept { KeepsTypes S.has store.old store.new }
{
    match store.join(alloc, parents, s, t)? {
        Some(join) => Ok(join),
        None => store.object(alloc),
    }
}

/// Returns a copy of a local's declared type, or `Any` while it is unknown.
pub(crate) fn declared_type<S: TypeStore>(
    store: &mut S,
    alloc: Global,
    declared: Option<&S::Ty>,
) -> Result<S::Ty, OutOfMemory>
    requires { HasOne (S.has store.old) (option_copied declared) }
    ensures value { IfOk result (λ t. Means S.has S.tree store.new t
        (declared_one S.tree (option_copied declared.entry))) }
    ensures kept { KeepsTypes S.has store.old store.new }
{
    match declared {
        Some(ty) => store.copy(alloc, ty),
        None => store.any(alloc),
    }
}

/// The type of a local where two paths join, if it is assigned there.
#[derive(Drop)]
struct LocalMet<Ty: Drop> {
    ty: Option<Ty>,
    /// Whether joining the second path again is known to change nothing.
    is_settled: bool,
}

/// Returns true only if the join of a type with others is that type; false if the caller does not ask.
fn is_unchanged<S: TypeStore>(
    store: &S,
    alloc: Global,
    is_asked: bool,
    join: &S::Ty,
    s: &S::Ty,
) -> Result<bool, OutOfMemory>
    requires join { S.has store.now join.now }
    requires first { S.has store.now s.now }
    ensures { IfOk result (λ same. same ≡ true → S.tree join.now ≡ S.tree s.now) }
{
    // Comparing large types part by part takes longer than joining them.
    if !is_asked {
        return Ok(false);
    }
    is_same_type(store, alloc, join, s)
}

/// Returns the type of a local that both paths assign, and whether it is settled. The type is the join of its types,
/// settled only if that is `s` and the caller asks; if they have no join, it is the declared type, or `Any` while that
/// is unknown, and not settled.
fn join_assigned<S: TypeStore>(
    store: &mut S,
    alloc: Global,
    parents: &Parents,
    declared: Option<&S::Ty>,
    is_asked: bool,
    s: &S::Ty,
    t: &S::Ty,
) -> Result<LocalMet<S::Ty>, OutOfMemory>
    requires declared { HasOne (S.has store.old) (option_copied declared) }
    requires left { S.has store.old s.now }
    requires right { S.has store.old t.now }
    ensures value { IfOk result
        (λ j. GivesOne S.has S.tree store.new j.ty
        (join_local parents.now (declared_one S.tree (option_copied declared.entry)) (Some (S.tree s.now))
        (Some (S.tree t.now)))) }
    ensures settled { IfOk result (λ j. j.is_settled ≡ true → TakesIn parents.now
        (join_local parents.now (declared_one S.tree (option_copied declared.entry)) (Some (S.tree s.now))
        (Some (S.tree t.now))) (Some (S.tree t.now))) }
    ensures kept { KeepsTypes S.has store.old store.new }
{
    match store.join(alloc, parents, s, t)? {
        Some(join) => {
            let is_settled = is_unchanged(store, alloc, is_asked, &join, s)?;
            Ok(LocalMet {
                ty: Some(join),
                is_settled,
            })
        }
        None => Ok(LocalMet {
            ty: Some(declared_type(store, alloc, declared)?),
            is_settled: false,
        }),
    }
}

/// Returns the type of a local where two paths join, and whether it is settled, if the caller asks. A local that is not
/// assigned on both has no type, and is settled.
fn join_local<S: TypeStore>(
    store: &mut S,
    alloc: Global,
    parents: &Parents,
    declared: Option<&S::Ty>,
    is_asked: bool,
    s: Option<&S::Ty>,
    t: Option<&S::Ty>,
) -> Result<LocalMet<S::Ty>, OutOfMemory>
    requires declared { HasOne (S.has store.old) (option_copied declared) }
    requires left { HasOne (S.has store.old) (option_copied s) }
    requires right { HasOne (S.has store.old) (option_copied t) }
    ensures value { IfOk result
        (λ j. GivesOne S.has S.tree store.new j.ty
        (join_local parents.now (declared_one S.tree (option_copied declared.entry))
        (option_map S.tree (option_copied s.entry)) (option_map S.tree (option_copied t.entry)))) }
    ensures settled { IfOk result (λ j. j.is_settled ≡ true → TakesIn parents.now
        (join_local parents.now (declared_one S.tree (option_copied declared.entry))
        (option_map S.tree (option_copied s.entry)) (option_map S.tree (option_copied t.entry)))
        (option_map S.tree (option_copied t.entry))) }
    ensures kept { KeepsTypes S.has store.old store.new }
{
    // A local that is unassigned on one path is unassigned after the join, and remains so.
    let none = LocalMet {
        ty: None,
        is_settled: true,
    };
    match s {
        None => Ok(none),
        Some(s) => match t {
            None => Ok(none),
            Some(t) => join_assigned(store, alloc, parents, declared, is_asked, s, t),
        },
    }
}

/// Two paths that join.
#[derive(Drop)]
pub(crate) struct Paths<'p, Ty: Drop> {
    pub(crate) first: &'p Env<Ty>,
    pub(crate) second: &'p Env<Ty>,
    /// Whether the caller asks which locals are settled. A local that both paths assign is not, if it does not ask.
    pub(crate) is_asked: bool,
}

/// Gives a local of `met` its type where two paths join. Returns true only if joining the second again changes nothing
/// there.
pub(crate) fn set_joined<S: TypeStore>(
    store: &mut S,
    alloc: Global,
    declarations: &Declarations<'_, S::Ty>,
    local: usize,
    paths: &Paths<'_, S::Ty>,
    met: &mut Env<S::Ty>,
) -> Result<bool, OutOfMemory>
    requires declared { HasEach (S.has store.old) declarations.now.declared.now }
    requires left { HasEach (S.has store.old) paths.now.first.now }
    requires right { HasEach (S.has store.old) paths.now.second.now }
    requires met { HasEach (S.has store.old) met.old }
    ensures value { OnOk result (GivesEnv S.has S.tree store.new met.new (slice_set (env_of S.tree met.old) local
        (join_local declarations.now.parents.now (declared_type (declared_of S.tree declarations.now.declared.now)
        local) (current (env_of S.tree paths.now.first.now) local)
        (current (env_of S.tree paths.now.second.now) local)))) }
    ensures settled { IfOk result (λ settled. settled ≡ true → TakesIn declarations.now.parents.now
        (join_local declarations.now.parents.now (declared_type (declared_of S.tree declarations.now.declared.now)
        local) (current (env_of S.tree paths.now.first.now) local) (current (env_of S.tree paths.now.second.now) local))
        (current (env_of S.tree paths.now.second.now) local)) }
    ensures kept { KeepsTypes S.has store.old store.new }
{
    let parents = declarations.parents;
    let declared = declarations.declared.declared(local);
    let joined = join_local(
        store,
        alloc,
        parents,
        declared,
        paths.is_asked,
        paths.first.current(local),
        paths.second.current(local),
    )?;
    met.set(alloc, local, joined.ty)?;
    Ok(joined.is_settled)
}

/// Returns the join of two environments; for tests, since the typing joins by `join_env_onto`. A local is assigned if
/// both assign it, with the join of its current types, or its declared type if there is no join. A declared type that
/// is unknown counts as `Any`. Own rule of the profile.
pub fn join_env<S: TypeStore>(
    store: &mut S,
    alloc: Global,
    declarations: &Declarations<'_, S::Ty>,
    a: &Env<S::Ty>,
    b: &Env<S::Ty>,
) -> Result<Env<S::Ty>, OutOfMemory>
    requires declared { HasEach (S.has store.old) declarations.now.declared.now }
    requires left { HasEach (S.has store.old) a.now }
    requires right { HasEach (S.has store.old) b.now }
    ensures value { IfOk result
        (λ e. GivesEnv S.has S.tree store.new e
        (join_with S.tree declarations.now (env_of S.tree a.now) (env_of S.tree b.now))) }
    ensures kept { KeepsTypes S.has store.old store.new }
{
    let locals = declarations.declared.types().len().min(b.len());
    let mut met = a.copied(alloc)?.first(locals);
    // Nothing is joined again here, so it does not matter which locals are settled.
    let paths = Paths {
        first: a,
        second: b,
        is_asked: false,
    };
    for local in 0..locals {
        set_joined(store, alloc, declarations, local, &paths, &mut met)?;
    }
    Ok(met)
}
