//! The statements of a module, each before those in its suites, and their targets.
#![tactic(auto, using(crate::proofs::WalkedLists::then_parts))]

ghost use Rattle.std.specs.Prelude.{◌≡◌, ◌++◌, map, flat_map, IfOk, OnOk};
ghost use Rattle.pc_source.specs.declared.place.Place.{Place as PlaceOf};
ghost use Rattle.pc_tree.specs.Lists.{branches_of_list};
ghost use Rattle.pc_tree.specs.Tree.{stmt_of, stmt_of_kind, stmts_of_list};
ghost use Rattle.pc_detail_facts.specs.Held.{body_of};
ghost use Rattle.pc_detail_rules.specs.Nodes.{stmts_in_branches, stmts_in_suite, targets_of};
ghost use Rattle.pc_detail_nodes.specs.NodesHeld.{stmts_below, stmts_of_all, target_lent};
ghost use Rattle.pc_detail_facts.specs.Held.{stmt_lent};

use pc_detail_facts::Body;
use pc_source::OutOfMemory;
use pc_tree::{Branch, Stmt, StmtKind, Target};
use std::alloc::Global;

/// Adds the statements of a suite, and those in their suites.
#[cycle(stmts)]
pub(crate) fn add_stmts<'m>(stmts: &mut Vec<&'m Stmt>, suite: &'m [Stmt]) -> Result<(), OutOfMemory>
    ensures { OnOk result (map stmt_lent stmts.new.items
        ≡ map stmt_lent stmts.old.items ++ stmts_in_suite (stmts_of_list suite.now)) }
{
    for statement in suite {
        stmts.push(statement)?;
        add_below(stmts, &statement.kind)?;
    }
    Ok(())
}

/// Adds the statements in the suites of a statement.
#[cycle(stmts)]
fn add_below<'m>(stmts: &mut Vec<&'m Stmt>, kind: &'m StmtKind) -> Result<(), OutOfMemory>
    ensures { (p : PlaceOf) → OnOk result (map stmt_lent stmts.new.items
        ≡ map stmt_lent stmts.old.items ++ stmts_below (stmt_of_kind p kind.now)) }
{
    let (branches, last) = kind.suites();
    add_branches(stmts, branches)?;
    add_stmts(stmts, last)
}

/// Adds the statements of branches.
#[cycle(stmts)]
fn add_branches<'m>(stmts: &mut Vec<&'m Stmt>, branches: &'m [Branch]) -> Result<(), OutOfMemory>
    ensures { OnOk result (map stmt_lent stmts.new.items
        ≡ map stmt_lent stmts.old.items ++ stmts_in_branches (branches_of_list branches.now)) }
{
    for branch in branches {
        add_stmts(stmts, &branch.body)?;
    }
    Ok(())
}

/// Returns the statements of functions and methods.
pub(crate) fn all_stmts<'m>(
    alloc: Global,
    bodies: &[Body<'m>],
) -> Result<Vec<&'m Stmt>, OutOfMemory>
    ensures { IfOk result (λ v. map stmt_lent v.items ≡ stmts_of_all (map body_of bodies.now)) }
{
    let mut stmts = Vec::new(alloc);
    for body in bodies {
        add_stmts(&mut stmts, &body.function.body)?;
    }
    Ok(stmts)
}

/// Adds the target of a statement, if it assigns.
fn add_target<'m>(targets: &mut Vec<&'m Target>, statement: &'m Stmt) -> Result<(), OutOfMemory>
    ensures { OnOk result (map target_lent targets.new.items
        ≡ map target_lent targets.old.items ++ targets_of (stmt_of statement.now)) }
{
    match &statement.kind {
        StmtKind::Assign(target, _) => Ok(targets.push(target)?),
        _ => Ok(()),
    }
}

/// Returns the targets of statements.
pub(crate) fn assigned_targets<'m>(
    alloc: Global,
    stmts: &[&'m Stmt],
) -> Result<Vec<&'m Target>, OutOfMemory>
    ensures { IfOk result (λ v. map target_lent v.items ≡ flat_map targets_of (map stmt_lent stmts.now)) }
{
    let mut targets = Vec::new(alloc);
    for statement in stmts {
        add_target(&mut targets, *statement)?;
    }
    Ok(targets)
}
