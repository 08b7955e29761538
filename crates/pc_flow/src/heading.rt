//! Loop heads.

ghost use Rattle.std.specs.Prelude.{IfOk, OnOk, slice_set, true};
ghost use Rattle.pc_types.specs.Store.{KeepsTypes};
ghost use Rattle.pc_flow.specs.Agreement.{is_among};
ghost use Rattle.pc_flow.specs.Environment.{current, declared_type, head_local, loop_head};
ghost use Rattle.pc_flow.specs.Stored.{env_of, declared_of, HasEach, GivesEnv};

use crate::joining::declared_type;
use crate::{DeclaredTypes, Env};
use pc_source::OutOfMemory;
use pc_types::TypeStore;
use std::alloc::Global;

/// Gives a local its declared type if it is assigned.
fn set_declared<S: TypeStore>(
    store: &mut S,
    alloc: Global,
    declared: &DeclaredTypes<S::Ty>,
    local: usize,
    env: &mut Env<S::Ty>,
) -> Result<(), OutOfMemory>
    requires declared { HasEach (S.has store.old) declared.now }
    requires env { HasEach (S.has store.old) env.old }
    ensures value { OnOk result (GivesEnv S.has S.tree store.new env.new (slice_set (env_of S.tree env.old) local
        (head_local true (declared_type (declared_of S.tree declared.now) local)
        (current (env_of S.tree env.old) local)))) }
    ensures kept { KeepsTypes S.has store.old store.new }
{
    if env.current(local).is_none() {
        return Ok(());
    }
    let ty = declared_type(store, alloc, declared.declared(local))?;
    env.assign(alloc, local, ty)
}

/// Returns the environment at a loop head, given the one before the loop and the locals that its body binds: each of
/// these that is assigned has its declared type there, the others keep their current type. Own rule of the profile.
pub fn loop_head<S: TypeStore>(
    store: &mut S,
    alloc: Global,
    bound: &[usize],
    declared: &DeclaredTypes<S::Ty>,
    env: &Env<S::Ty>,
) -> Result<Env<S::Ty>, OutOfMemory>
    requires declared { HasEach (S.has store.old) declared.now }
    requires env { HasEach (S.has store.old) env.now }
    ensures value { IfOk result
        (λ e. GivesEnv S.has S.tree store.new e
        (loop_head (λ x. is_among bound.now x) (declared_of S.tree declared.now) (env_of S.tree env.now))) }
    ensures kept { KeepsTypes S.has store.old store.new }
{
    let mut head = env.copied(alloc)?.first(declared.types().len());
    // An earlier iteration may have assigned any value that the declared type allows.
    for local in bound {
        set_declared(store, alloc, declared, *local, &mut head)?;
    }
    Ok(head)
}
