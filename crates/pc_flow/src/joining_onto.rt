//! Paths joined one after another: the join of two, and the locals at which a second join could still change something.

ghost use Rattle.std.specs.Prelude.{◌≡◌, ◌∷◌, ◌++◌, [], IfOk, OnOk, length, min, take, if◌then◌else◌};
ghost use Rattle.pc_types.specs.Store.{KeepsTypes};
ghost use Rattle.pc_flow.specs.Agreement.{AgreeBelow, TakesInOutside};
ghost use Rattle.pc_flow.specs.Declarations.{join_with};
ghost use Rattle.pc_flow.specs.WellFormed.{IsWellFormedEnv};
ghost use Rattle.pc_flow.specs.Stored.{env_of, HasEach, GivesEnv};

use crate::joining::{Paths, set_joined};
use crate::{Declarations, Env};
use pc_source::OutOfMemory;
use pc_types::TypeStore;
use std::alloc::Global;

/// Appends a local unless it is settled.
fn note_unsettled(
    unsettled: &mut Vec<usize>,
    local: usize,
    is_settled: bool,
) -> Result<(), OutOfMemory>
    ensures { OnOk result (unsettled.new.items
        ≡ (if is_settled then unsettled.old.items else unsettled.old.items ++ local ∷ [])) }
{
    if !is_settled {
        unsettled.push(local)?;
    }
    Ok(())
}

/// The point where two paths join.
#[derive(Drop)]
pub struct EnvJoin<Ty: Drop> {
    /// The environment there.
    pub env: Env<Ty>,
    /// The locals at which joining the second path again may change `env`.
    pub unsettled: Vec<usize>,
}

/// Joins two paths at `locals`; elsewhere the first must already subsume the second. `env` has the types of the first
/// path before, for the locals that are declared and on both paths, and those that `join_env` gives after. Returns the
/// locals where joining the second path again could still change something; if that is not asked, each local that both
/// assign counts as such.
fn join_each<S: TypeStore>(
    store: &mut S,
    alloc: Global,
    declarations: &Declarations<'_, S::Ty>,
    locals: &[usize],
    paths: &Paths<'_, S::Ty>,
    env: &mut Env<S::Ty>,
) -> Result<Vec<usize>, OutOfMemory>
    requires declared { HasEach (S.has store.old) declarations.now.declared.now }
    requires left { HasEach (S.has store.old) paths.now.first.now }
    requires right { HasEach (S.has store.old) paths.now.second.now }
    requires firsts { env.old ≡ take (min (length declarations.now.declared.now) (length paths.now.second.now))
        paths.now.first.now }
    requires taken_in { TakesInOutside declarations.now.parents.now locals.now (env_of S.tree paths.now.first.now)
        (env_of S.tree paths.now.second.now) }
    ensures value { OnOk result (GivesEnv S.has S.tree store.new env.new
        (join_with S.tree declarations.now (env_of S.tree paths.now.first.now)
        (env_of S.tree paths.now.second.now))) }
    ensures settled { IfOk result (λ unsettled. TakesInOutside declarations.now.parents.now unsettled.items
        (env_of S.tree env.new) (env_of S.tree paths.now.second.now)) }
    ensures kept { KeepsTypes S.has store.old store.new }
{
    let mut unsettled = Vec::new(alloc);
    for local in locals {
        let is_settled = set_joined(store, alloc, declarations, *local, paths, env)?;
        note_unsettled(&mut unsettled, *local, is_settled)?;
    }
    Ok(unsettled)
}

/// Joins `b` into `a` at `locals`; elsewhere `a` must already subsume `b`. Returns the same environment as `join_env`,
/// and the locals where a second join could still change something; if that is not asked, each local that both assign
/// counts as such.
fn join_at<S: TypeStore>(
    store: &mut S,
    alloc: Global,
    declarations: &Declarations<'_, S::Ty>,
    locals: &[usize],
    a: Env<S::Ty>,
    b: &Env<S::Ty>,
    is_asked: bool,
) -> Result<EnvJoin<S::Ty>, OutOfMemory>
    requires declared { HasEach (S.has store.old) declarations.now.declared.now }
    requires left { HasEach (S.has store.old) a }
    requires right { HasEach (S.has store.old) b.now }
    requires taken_in { TakesInOutside declarations.now.parents.now locals.now (env_of S.tree a) (env_of S.tree b.now) }
    ensures value { IfOk result
        (λ m. GivesEnv S.has S.tree store.new m.env
        (join_with S.tree declarations.now (env_of S.tree a) (env_of S.tree b.now))) }
    ensures settled { IfOk result (λ m. TakesInOutside declarations.now.parents.now m.unsettled.items
        (env_of S.tree m.env) (env_of S.tree b.now)) }
    ensures kept { KeepsTypes S.has store.old store.new }
{
    // The old types are read while they are replaced; a copy costs a pointer for each chunk.
    let before = a.copied(alloc)?;
    let mut env = a.first(declarations.declared.types().len().min(b.len()));
    let paths = Paths {
        first: &before,
        second: b,
        is_asked,
    };
    let unsettled = join_each(store, alloc, declarations, locals, &paths, &mut env)?;
    Ok(EnvJoin { env, unsettled })
}

/// Joins `b` into `a` at `locals`; elsewhere `a` must already subsume `b`. Returns the same environment as `join_env`,
/// and the locals where a second join could still change something, so that joining paths one after another costs only
/// what changes between them. Own rule of the profile.
pub fn join_env_onto<S: TypeStore>(
    store: &mut S,
    alloc: Global,
    declarations: &Declarations<'_, S::Ty>,
    locals: &[usize],
    a: Env<S::Ty>,
    b: &Env<S::Ty>,
) -> Result<EnvJoin<S::Ty>, OutOfMemory>
    requires declared { HasEach (S.has store.old) declarations.now.declared.now }
    requires left { HasEach (S.has store.old) a }
    requires right { HasEach (S.has store.old) b.now }
    requires taken_in { TakesInOutside declarations.now.parents.now locals.now (env_of S.tree a) (env_of S.tree b.now) }
    ensures value { IfOk result
        (λ m. GivesEnv S.has S.tree store.new m.env
        (join_with S.tree declarations.now (env_of S.tree a) (env_of S.tree b.now))) }
    ensures settled { IfOk result (λ m. TakesInOutside declarations.now.parents.now m.unsettled.items
        (env_of S.tree m.env) (env_of S.tree b.now)) }
    ensures kept { KeepsTypes S.has store.old store.new }
{
    join_at(store, alloc, declarations, locals, a, b, true)
}

/// Joins `b` into `a` at `locals`; at all other declared locals they must agree, since the join of a type with itself
/// is that type. Returns the same environment as `join_env`.
pub(crate) fn join_some<S: TypeStore>(
    store: &mut S,
    alloc: Global,
    declarations: &Declarations<'_, S::Ty>,
    locals: &[usize],
    a: Env<S::Ty>,
    b: &Env<S::Ty>,
) -> Result<Env<S::Ty>, OutOfMemory>
    requires declared { HasEach (S.has store.old) declarations.now.declared.now }
    requires left { HasEach (S.has store.old) a }
    requires right { HasEach (S.has store.old) b.now }
    requires well_formed { IsWellFormedEnv declarations.now.parents.now (env_of S.tree a) }
    requires agree { AgreeBelow (length declarations.now.declared.now) locals.now (env_of S.tree a)
        (env_of S.tree b.now) }
    ensures value { IfOk result
        (λ e. GivesEnv S.has S.tree store.new e
        (join_with S.tree declarations.now (env_of S.tree a) (env_of S.tree b.now))) }
    ensures kept { KeepsTypes S.has store.old store.new }
{
    let a = a.first(declarations.declared.types().len());
    let met = join_at(store, alloc, declarations, locals, a, b, false)?;
    Ok(met.env)
}
