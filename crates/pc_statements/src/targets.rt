//! Assignment targets: a name, an attribute or an item.

#![tactic(auto, using(pc_walk::proofs::Walks::goes_further))]

ghost use Rattle.std.specs.Prelude.{IfOk};
ghost use Rattle.pc_tree.specs.Tree.{expr_of, name_of, target_of, to_name};
ghost use Rattle.pc_module_rules.specs.Computed.Statements.{assign_target};
ghost use Rattle.pc_walk.specs.Walks.{IsValidIn, WalkKept, BindsName};

use crate::binding::bind_value;
use crate::stores::find_store;
use pc_flow::Env;
use pc_source::OutOfMemory;
use pc_tree::{Expr, Name, Target};
use pc_types::TypeStore;
use pc_walk::{Walk, note_binding};

/// Assigns a value to a name: binds it. Appends the findings, and if types are kept, the name with its types, and returns
/// the environment after it.
fn assign_name<S: TypeStore>(
    walk: &mut Walk<'_, S>,
    env: Env<S::Ty>,
    name: &Name,
    value: &Expr,
) -> Result<Env<S::Ty>, OutOfMemory>
    requires { IsValidIn S.TypeStore walk.old env }
    ensures bound { IfOk result (λ b. BindsName S.TypeStore walk.old env walk.new b
        (λ f t k. assign_target f t k (to_name (name_of name.now)) (expr_of value.now))) }
    ensures goes_on { WalkKept S.TypeStore walk.old walk.new }
{
    let meaning = walk.context.names.resolve(name.text.as_str());
    let behind = bind_value(walk, env, meaning, None, value)?;
    note_binding(walk, &behind, meaning, name.place, true)?;
    Ok(behind)
}

/// Assigns a value to a target: binds the name, or stores to the attribute or item. Appends the findings, and if types
/// are kept, the name with its types, and returns the environment after it; a store does not change the environment.
/// Language Reference 7.2 "Assignment statements".
pub fn assign_target<S: TypeStore>(
    walk: &mut Walk<'_, S>,
    env: Env<S::Ty>,
    target: &Target,
    value: &Expr,
) -> Result<Env<S::Ty>, OutOfMemory>
    requires { IsValidIn S.TypeStore walk.old env }
    ensures bound { IfOk result (λ b. BindsName S.TypeStore walk.old env walk.new b
        (λ f t k. assign_target f t k (target_of target.now) (expr_of value.now))) }
    ensures goes_on { WalkKept S.TypeStore walk.old walk.new }
{
    match target {
        Target::Name(name) => assign_name(walk, env, name, value),
        Target::Attribute { .. } | Target::Index { .. } => {
            find_store(walk, &env, target, value)?;
            Ok(env)
        }
    }
}
