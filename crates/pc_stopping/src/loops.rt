//! E05: `break` or `continue` outside a loop. Language Reference 7.9, 7.10.
ghost use Rattle.std.specs.Prelude.{◌≡◌, ◌++◌, OnOk};
ghost use Rattle.pc_tree.specs.declared.code.Code.TheVariants.{E05};
ghost use Rattle.pc_tree.specs.Tree.{stmts_of_list, stmt_of_kind};
ghost use Rattle.pc_tree.specs.Lists.{branches_of_list};
ghost use Rattle.pc_tree.specs.Stopping.{loose_in, loose_in_stmt, loose_in_branches};
ghost use Rattle.pc_tree.specs.Code.{at_code};

use pc_source::{OutOfMemory, Place};
use pc_tree::{Branch, Code, Findings, Stmt, StmtKind, find};

/// Adds E05 for each `break` and `continue` of these statements that is outside a loop.
#[cycle(loose)]
pub fn find_loose(found: &mut Findings, body: &[Stmt]) -> Result<(), OutOfMemory>
    ensures { OnOk result (found.new.items ≡ found.old.items ++ at_code E05 (loose_in (stmts_of_list body.now))) }
{
    for statement in body {
        find_loose_by(found, statement.first, &statement.kind)?;
    }
    Ok(())
}

/// Adds E05 for a statement that is a `break` or `continue`, or for those in the suites of an `if` statement.
#[cycle(loose)]
fn find_loose_by(found: &mut Findings, first: Place, kind: &StmtKind) -> Result<(), OutOfMemory>
    ensures { OnOk result (found.new.items
        ≡ found.old.items ++ at_code E05 (loose_in_stmt (stmt_of_kind first kind.now))) }
{
    match kind {
        StmtKind::Pass | StmtKind::Return(_) | StmtKind::Assert(_, _) => Ok(()),
        StmtKind::Annotated { .. } | StmtKind::Assign(_, _) | StmtKind::Expr(_) => Ok(()),
        StmtKind::While(_, _) | StmtKind::For { .. } => Ok(()),
        StmtKind::Break => find(found, Code::E05, first),
        StmtKind::Continue => find(found, Code::E05, first),
        StmtKind::If(branches, otherwise) => {
            find_loose_in(found, branches)?;
            find_loose(found, otherwise)
        }
    }
}

/// Adds E05 for each `break` and `continue` outside a loop in the suites of these conditions.
#[cycle(loose)]
fn find_loose_in(found: &mut Findings, branches: &[Branch]) -> Result<(), OutOfMemory>
    ensures { OnOk result (found.new.items
        ≡ found.old.items ++ at_code E05 (loose_in_branches (branches_of_list branches.now))) }
{
    for branch in branches {
        find_loose(found, &branch.body)?;
    }
    Ok(())
}
