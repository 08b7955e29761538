//! Narrowing by `and` and `or`: by each part alone, and then with both answers put together.
ghost use Rattle.std.specs.Prelude.{◌≡◌, IfOk, true};
ghost use Rattle.pc_tree.specs.Tree.{expr_of};
ghost use Rattle.pc_types.specs.Boxed.{IsGiven, tree_of};
ghost use Rattle.pc_flow.specs.Narrowing.{IsSimple};
ghost use Rattle.pc_flow.specs.Stored.{HasEach, env_of, declared_of};
ghost use Rattle.pc_flow.specs.WellFormed.{IsWellFormedEnv, AreWellFormed};

use pc_flow::{BothWays, Connective, Declarations, Env, Junction, narrow_junction, narrow_simple};
use pc_source::OutOfMemory;
use pc_tree::Expr;
use pc_types::{BoxStore, BoxType};
use std::alloc::Global;

/// Returns whether an expression is no `not`, `and` or `or`.
fn is_simple(e: &Expr) -> bool
    ensures { result ≡ true → IsSimple (expr_of e.now) }
{
    match e {
        Expr::Not(_, _) | Expr::And { .. } | Expr::Or { .. } => false,
        _ => true,
    }
}

/// Narrows an environment by a junction of two simple conditions, given the narrowing by each of them.
fn met(
    alloc: Global,
    declarations: &Declarations<'_, BoxType>,
    junction: &Junction,
    env: Env<BoxType>,
) -> Result<BothWays<BoxType>, OutOfMemory>
    requires left { IsSimple (expr_of junction.now.left.now) }
    requires right { IsSimple (expr_of junction.now.right.now) }
    requires declared { HasEach IsGiven declarations.now.declared.now }
    requires env { HasEach IsGiven env }
    requires declared_well_formed { AreWellFormed declarations.now.parents.now
        (declared_of tree_of declarations.now.declared.now) }
    requires env_well_formed { IsWellFormedEnv declarations.now.parents.now (env_of tree_of env) }
    ensures where_true { IfOk result (λ n. HasEach IsGiven n.where_true) }
    ensures where_false { IfOk result (λ n. HasEach IsGiven n.where_false) }
{
    declarations.parents.ordered();
    let mut store = BoxStore::new();
    let right = junction.right;
    let first = narrow_simple(&mut store, alloc, declarations, junction.left, env)?;
    match junction.connective {
        Connective::And => {
            let asked = first.where_true;
            let second = narrow_simple(&mut store, alloc, declarations, right, asked)?;
            let short_circuit_env = first.where_false;
            narrow_junction(
                &mut store,
                alloc,
                declarations,
                junction,
                short_circuit_env,
                second,
            )
        }
        Connective::Or => {
            let asked = first.where_false;
            let second = narrow_simple(&mut store, alloc, declarations, right, asked)?;
            let short_circuit_env = first.where_true;
            narrow_junction(
                &mut store,
                alloc,
                declarations,
                junction,
                short_circuit_env,
                second,
            )
        }
    }
}

/// Narrows an environment by a junction of two simple conditions that is true or false; unchanged for any other
/// condition.
pub(crate) fn narrowed_by_parts(
    alloc: Global,
    declarations: &Declarations<'_, BoxType>,
    condition: &Expr,
    holds: bool,
    env: Env<BoxType>,
) -> Result<Env<BoxType>, OutOfMemory>
    requires declared { HasEach IsGiven declarations.now.declared.now }
    requires env { HasEach IsGiven env }
    requires declared_well_formed { AreWellFormed declarations.now.parents.now
        (declared_of tree_of declarations.now.declared.now) }
    requires env_well_formed { IsWellFormedEnv declarations.now.parents.now (env_of tree_of env) }
    ensures { IfOk result (λ e. HasEach IsGiven e) }
{
    let (connective, left, right) = match condition {
        Expr::And { left, right, .. } => (Connective::And, left, right),
        Expr::Or { left, right, .. } => (Connective::Or, left, right),
        _ => return Ok(env),
    };
    if !is_simple(left) || !is_simple(right) {
        return Ok(env);
    }
    let junction = Junction {
        connective,
        left,
        right,
    };
    let ways = met(alloc, declarations, &junction, env)?;
    if holds {
        Ok(ways.where_true)
    } else {
        Ok(ways.where_false)
    }
}
