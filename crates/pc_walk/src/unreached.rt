//! Locals first bound in unreachable code.

#![tactic(auto, using(crate::proofs::Walks::goes_further))]

ghost use Rattle.std.specs.Prelude.{◌≡◌, OnOk};
ghost use Rattle.pc_source.specs.declared.place.Place.{Place as PlaceOf};
ghost use Rattle.pc_tree.specs.Tree.{stmt_of_kind};
ghost use Rattle.pc_tree.specs.Stopping.{bound_by_stmt};
ghost use Rattle.pc_types.specs.Tree.{Any};
ghost use Rattle.pc_flow.specs.Stored.{env_of};
ghost use Rattle.pc_notes.specs.Notes.{notes_of};
ghost use Rattle.pc_module_rules.specs.Computed.Statements.{bound_type, with_declared, unreached_names};
ghost use Rattle.pc_walk.specs.Internal.BoundNames.{unreached_numbers};
ghost use Rattle.pc_walk.specs.Walks.{HoldsEnv, IsEnv, WalkKept, body_context_in};

use crate::binding::declare;
use crate::locals::numbers_of_locals;
use crate::walk::Walk;
use pc_source::OutOfMemory;
use pc_tree::{StmtKind, add_bound_by};
use pc_types::TypeStore;

/// Declares a local `Any`, unless it already has a declared type.
fn declare_any<S: TypeStore>(walk: &mut Walk<'_, S>, local: usize) -> Result<(), OutOfMemory>
    requires { HoldsEnv S.TypeStore walk.old walk.old.declared.now }
    ensures declared { OnOk result (IsEnv S.TypeStore walk.new walk.new.declared.now (with_declared
        (bound_type (env_of S.tree walk.old.declared.now) local) (env_of S.tree walk.old.declared.now) local Any)) }
    ensures goes_on { WalkKept S.TypeStore walk.old walk.new }
    ensures found { OnOk result (notes_of walk.new.found.now ≡ notes_of walk.old.found.now) }
{
    let any = walk.store.any(walk.alloc)?;
    declare(walk.declared, local, any);
    Ok(())
}

/// Declares `Any` each of these locals that has no declared type yet.
fn declare_each<S: TypeStore>(walk: &mut Walk<'_, S>, locals: &[usize]) -> Result<(), OutOfMemory>
    requires { HoldsEnv S.TypeStore walk.old walk.old.declared.now }
    ensures declared { OnOk result (IsEnv S.TypeStore walk.new walk.new.declared.now
        (unreached_numbers (env_of S.tree walk.old.declared.now) locals.now)) }
    ensures goes_on { WalkKept S.TypeStore walk.old walk.new }
    ensures found { OnOk result (notes_of walk.new.found.now ≡ notes_of walk.old.found.now) }
{
    for local in locals {
        declare_any(walk, *local)?;
    }
    Ok(())
}

/// Declares `Any` each local first bound in an unreachable statement. Own rule of the profile.
pub fn declare_unreached<S: TypeStore>(
    walk: &mut Walk<'_, S>,
    kind: &StmtKind,
) -> Result<(), OutOfMemory>
    requires { HoldsEnv S.TypeStore walk.old walk.old.declared.now }
    ensures declared { (p : PlaceOf) → OnOk result (IsEnv S.TypeStore walk.new walk.new.declared.now
        (unreached_names (body_context_in S.TypeStore walk.old) (env_of S.tree walk.old.declared.now)
        (bound_by_stmt (stmt_of_kind p kind.now)))) }
    ensures goes_on { WalkKept S.TypeStore walk.old walk.new }
    ensures found { OnOk result (notes_of walk.new.found.now ≡ notes_of walk.old.found.now) }
{
    let mut bound = Vec::new(walk.alloc);
    add_bound_by(&mut bound, kind)?;
    let locals = numbers_of_locals(walk.alloc, walk.context.names, &bound)?;
    // No value gets there, so any type is right, but later statements need one.
    declare_each(walk, &locals)?;
    Ok(())
}
