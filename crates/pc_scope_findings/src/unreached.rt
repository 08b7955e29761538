//! E30: an unreachable statement. Own rule of the profile.
#![tactic(auto, using(pc_tree::proofs::Finds::at_both, pc_tree::proofs::Joints::joined))]

ghost use Rattle.std.specs.Prelude.{◌≡◌, ◌++◌, map, OnOk};
ghost use Rattle.pc_source.specs.declared.place.Place.{Place as PlaceOf};
ghost use Rattle.pc_tree.specs.declared.code.Code.TheVariants.{E30};
ghost use Rattle.pc_tree.specs.Tree.{stmts_of_list, stmt_of_kind, member_of, item_of};
ghost use Rattle.pc_tree.specs.Lists.{branches_of_list};
ghost use Rattle.pc_tree.specs.Stopping.{of_members};
ghost use Rattle.pc_scope_findings.specs.Internal.FindingLists.{unreached_def, unreached_in_defs};
ghost use Rattle.pc_tree.specs.Code.{at_code};
ghost use Rattle.pc_scope_findings.specs.Unreached.{unreached_places, unreached_in, unreached_in_branches};

use crate::completion::completes;
use pc_source::OutOfMemory;
use pc_tree::{Branch, Code, Findings, Item, ItemKind, Member, Stmt, StmtKind, find};

/// Adds E30 for the first statement after one that cannot complete, in a suite and in each suite of its reached
/// statements. Own rule of the profile.
#[cycle(unreached)]
fn find_unreached(found: &mut Findings, body: &[Stmt]) -> Result<(), OutOfMemory>
    ensures { OnOk result (found.new.items
        ≡ found.old.items ++ at_code E30 (unreached_places (stmts_of_list body.now))) }
{
    let mut reached = true;
    for statement in body {
        if !reached {
            return find(found, Code::E30, statement.first);
        }
        find_unreached_in(found, &statement.kind)?;
        reached = completes(&statement.kind);
    }
    Ok(())
}

/// Adds E30 for the first unreachable statement of each suite of a statement, and of the suites reached in them.
#[cycle(unreached)]
fn find_unreached_in(found: &mut Findings, kind: &StmtKind) -> Result<(), OutOfMemory>
    ensures { (p : PlaceOf) → OnOk result
        (found.new.items ≡ found.old.items ++ at_code E30 (unreached_in (stmt_of_kind p kind.now))) }
{
    let (branches, last) = kind.suites();
    find_unreached_among(found, branches)?;
    find_unreached(found, last)
}

/// Adds E30 for the first unreachable statement of the suite of each condition, and of the suites reached in them.
#[cycle(unreached)]
fn find_unreached_among(found: &mut Findings, branches: &[Branch]) -> Result<(), OutOfMemory>
    ensures { OnOk result (found.new.items
        ≡ found.old.items ++ at_code E30 (unreached_in_branches (branches_of_list branches.now))) }
{
    for branch in branches {
        find_unreached(found, &branch.body)?;
    }
    Ok(())
}

/// Adds E30 for the first unreachable statement of each reached suite of a class's methods.
fn find_unreached_in_methods(found: &mut Findings, members: &[Member]) -> Result<(), OutOfMemory>
    ensures { OnOk result (found.new.items
        ≡ found.old.items ++ at_code E30 (of_members unreached_def (map member_of members.now))) }
{
    for member in members {
        match member {
            Member::Field(_) => {}
            Member::Method(def) => find_unreached(found, &def.body)?,
        }
    }
    Ok(())
}

/// Adds E30 for the first unreachable statement of each reached suite of a module's functions and methods.
pub fn find_unreached_in_defs(found: &mut Findings, items: &[Item]) -> Result<(), OutOfMemory>
    ensures { OnOk result (found.new.items
        ≡ found.old.items ++ at_code E30 (unreached_in_defs (map item_of items.now))) }
{
    for item in items {
        match &item.kind {
            ItemKind::Constant(_) => {}
            ItemKind::Class(class) => find_unreached_in_methods(found, &class.members)?,
            ItemKind::Def(def) => find_unreached(found, &def.body)?,
        }
    }
    Ok(())
}
