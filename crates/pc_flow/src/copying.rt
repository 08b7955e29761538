//! Copies of environments.

ghost use Rattle.std.specs.Prelude.{IfOk};
ghost use Rattle.pc_flow.specs.Stored.{env_of, HasEach, GivesEnv};

use crate::env::Env;
use pc_source::OutOfMemory;
use pc_types::TypeStore;
use std::alloc::Global;

/// Returns a copy of an environment, at the cost of one pointer for each chunk of locals.
pub fn copy_env<S: TypeStore>(
    store: &S,
    alloc: Global,
    env: &Env<S::Ty>,
) -> Result<Env<S::Ty>, OutOfMemory>
    requires { HasEach (S.has store.now) env.now }
    ensures { IfOk result (λ e. GivesEnv S.has S.tree store.now e (env_of S.tree env.now)) }
{
    env.copied(alloc)
}
