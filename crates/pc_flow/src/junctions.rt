//! Narrowing by a conjunction or a disjunction, given the results of its operands.

ghost use Rattle.std.specs.Prelude.{◌≡◌, ◌++◌, IfOk, length};
ghost use Rattle.pc_tree.specs.Tree.{expr_of};
ghost use Rattle.pc_types.specs.Store.{KeepsTypes};
ghost use Rattle.pc_flow.specs.Agreement.{AgreeBelow};
ghost use Rattle.pc_flow.specs.Declarations.{join_with};
ghost use Rattle.pc_flow.specs.Naming.{meanings};
ghost use Rattle.pc_flow.specs.Narrowing.{tested_locals};
ghost use Rattle.pc_flow.specs.WellFormed.{IsWellFormedEnv};
ghost use Rattle.pc_flow.specs.Stored.{env_of, HasEach, GivesEnv};
ghost use Rattle.pc_flow.specs.Ways.{way_on, way_out};

use crate::joining_onto::join_some;
use crate::narrowing::BothWays;
use crate::tested::tested_by_both;
use crate::{Declarations, Env};
use pc_source::OutOfMemory;
use pc_tree::Expr;
use pc_types::TypeStore;
use std::alloc::Global;

/// The connective of two conditions.
#[derive(Drop)]
pub enum Connective {
    And,
    Or,
}

/// A conjunction or a disjunction. Its second operand is evaluated where the first is true for `and`, false for `or`.
/// Language Reference 6.11 "Boolean operations".
#[derive(Drop)]
pub struct Junction<'e> {
    pub connective: Connective,
    pub left: &'e Expr,
    pub right: &'e Expr,
}

/// Returns the environment where an operand of a junction decides it.
fn deciding<'w, Ty: Drop>(connective: &Connective, ways: &'w BothWays<Ty>) -> &'w Env<Ty>
    ensures { result.now ≡ way_out connective.now ways.now }
{
    match connective {
        Connective::And => &ways.where_false,
        Connective::Or => &ways.where_true,
    }
}

/// Returns the environments where a junction is true and where it is false, given `short_circuit_env`, the one where
/// the first operand alone decides it, and `second`, those after the second operand. Two paths lead to the outcome that
/// either operand can decide; they are joined at the locals that the operands test, and agree at all others. Language
/// Reference 6.11 "Boolean operations".
pub fn narrow_junction<S: TypeStore>(
    store: &mut S,
    alloc: Global,
    declarations: &Declarations<'_, S::Ty>,
    junction: &Junction,
    short_circuit_env: Env<S::Ty>,
    second: BothWays<S::Ty>,
) -> Result<BothWays<S::Ty>, OutOfMemory>
    requires declared { HasEach (S.has store.old) declarations.now.declared.now }
    requires short_circuit_env { HasEach (S.has store.old) short_circuit_env }
    requires second { HasEach (S.has store.old) (way_out junction.now.connective second) }
    requires well_formed { IsWellFormedEnv declarations.now.parents.now (env_of S.tree short_circuit_env) }
    requires agree { AgreeBelow (length declarations.now.declared.now)
        (tested_locals (meanings declarations.now.names.now) (expr_of junction.now.left.now)
        ++ tested_locals (meanings declarations.now.names.now) (expr_of junction.now.right.now))
        (env_of S.tree short_circuit_env) (env_of S.tree (way_out junction.now.connective second)) }
    ensures asked { IfOk result
        (λ n. way_on junction.now.connective n ≡ way_on junction.now.connective second) }
    ensures met { IfOk result
        (λ n. GivesEnv S.has S.tree store.new (way_out junction.now.connective n)
        (join_with S.tree declarations.now (env_of S.tree short_circuit_env)
        (env_of S.tree (way_out junction.now.connective second)))) }
    ensures kept { KeepsTypes S.has store.old store.new }
{
    let Junction {
        connective,
        left,
        right,
    } = junction;
    let tested = tested_by_both(alloc, declarations.names, left, right)?;
    let late = deciding(connective, &second);
    let met = join_some(store, alloc, declarations, &tested, short_circuit_env, late)?;
    match connective {
        Connective::And => Ok(BothWays {
            where_true: second.where_true,
            where_false: met,
        }),
        Connective::Or => Ok(BothWays {
            where_true: met,
            where_false: second.where_false,
        }),
    }
}
