//! Environments in a walk over statements.

#![tactic(auto, using(crate::proofs::Walks::goes_further))]

ghost use Rattle.std.specs.Prelude.{IfOk, OnOk};
ghost use Rattle.pc_flow.specs.Environment.{join_env, loop_head};
ghost use Rattle.pc_flow.specs.Stored.{env_of};
ghost use Rattle.pc_module_rules.specs.Computed.Statements.{type_table};
ghost use Rattle.pc_walk.specs.Walks.{HoldsEnv, IsEnv, IsQuiet, WalkKept};
ghost use Rattle.pc_flow.specs.Agreement.{is_among, TakesInOutside};
ghost use Rattle.pc_rules.specs.Computed.ModuleParents.{class_parents};

use crate::walk::Walk;
use pc_flow::{Declarations, Env, EnvJoin, join_env_onto, loop_head};
use pc_source::OutOfMemory;
use pc_types::TypeStore;

/// Joins `b` into `a` at `locals`; elsewhere `a` must already subsume `b`. Also returns the locals where a second join
/// could still change something.
pub(crate) fn join_at_locals<S: TypeStore>(
    walk: &mut Walk<'_, S>,
    locals: &[usize],
    a: Env<S::Ty>,
    b: &Env<S::Ty>,
) -> Result<EnvJoin<S::Ty>, OutOfMemory>
    requires declared { HoldsEnv S.TypeStore walk.old walk.old.declared.now }
    requires left { HoldsEnv S.TypeStore walk.old a }
    requires right { HoldsEnv S.TypeStore walk.old b.now }
    requires taken_in { TakesInOutside (class_parents walk.old.context.globals.now) locals.now
        (env_of S.tree a) (env_of S.tree b.now) }
    ensures joined { IfOk result (λ m. IsEnv S.TypeStore walk.new m.env
        (join_env (class_parents walk.old.context.globals.now)
        (type_table (env_of S.tree walk.old.declared.now)) (env_of S.tree a) (env_of S.tree b.now))) }
    ensures settled { IfOk result (λ m. TakesInOutside (class_parents walk.old.context.globals.now)
        m.unsettled.items (env_of S.tree m.env) (env_of S.tree b.now)) }
    ensures quiet { OnOk result (IsQuiet S.TypeStore walk.old walk.new) }
    ensures goes_on { WalkKept S.TypeStore walk.old walk.new }
{
    let parents = walk.context.globals.outline.parents;
    parents.ordered();
    let declarations = Declarations {
        parents,
        declared: walk.declared,
        names: walk.context.names,
    };
    let met = join_env_onto(walk.store, walk.alloc, &declarations, locals, a, b)?;
    Ok(met)
}

/// Returns the environment at the head of a loop that binds the locals `bound`, given the one before the loop: each of
/// them that is assigned has its declared type there.
pub(crate) fn head_in<S: TypeStore>(
    walk: &mut Walk<'_, S>,
    bound: &[usize],
    env: &Env<S::Ty>,
) -> Result<Env<S::Ty>, OutOfMemory>
    requires declared { HoldsEnv S.TypeStore walk.old walk.old.declared.now }
    requires env { HoldsEnv S.TypeStore walk.old env.now }
    ensures head { IfOk result (λ e. IsEnv S.TypeStore walk.new e (loop_head (λ x. is_among bound.now x)
        (type_table (env_of S.tree walk.old.declared.now)) (env_of S.tree env.now))) }
    ensures quiet { OnOk result (IsQuiet S.TypeStore walk.old walk.new) }
    ensures goes_on { WalkKept S.TypeStore walk.old walk.new }
{
    let head = loop_head(walk.store, walk.alloc, bound, walk.declared, env)?;
    Ok(head)
}
