//! The statements that can complete.

ghost use Rattle.std.specs.Prelude.{◌≡◌};
ghost use Rattle.pc_source.specs.declared.place.Place.{Place as PlaceOf};
ghost use Rattle.pc_tree.specs.Tree.{stmts_of_list, stmt_of_kind};
ghost use Rattle.pc_tree.specs.Lists.{branches_of_list};
ghost use Rattle.pc_scope.specs.Reach.{completes, completes_all, some_completes};

use pc_tree::{Branch, Stmt, StmtKind};

/// Returns whether a statement can complete. Own rule of the profile.
#[cycle(completing)]
pub fn completes(kind: &StmtKind) -> bool
    ensures { (first : PlaceOf) → result ≡ completes (stmt_of_kind first kind.now) }
{
    match kind {
        StmtKind::Pass => true,
        StmtKind::Break => false,
        StmtKind::Continue => false,
        StmtKind::Return(_) => false,
        StmtKind::Assert(_, _) => true,
        StmtKind::Annotated { .. } => true,
        StmtKind::Assign(_, _) => true,
        StmtKind::Expr(_) => true,
        StmtKind::While(_, _) => true,
        StmtKind::For { .. } => true,
        StmtKind::If(branches, otherwise) => {
            if otherwise.is_empty() {
                return true;
            }
            some_completes(branches) || completes_all(otherwise)
        }
    }
}

/// Returns whether every statement of a suite can complete.
#[cycle(completing)]
fn completes_all(body: &[Stmt]) -> bool
    ensures { result ≡ completes_all (stmts_of_list body.now) }
{
    for statement in body {
        if !completes(&statement.kind) {
            return false;
        }
    }
    true
}

/// Returns whether the suite of one of these conditions can complete.
#[cycle(completing)]
fn some_completes(branches: &[Branch]) -> bool
    ensures { result ≡ some_completes (branches_of_list branches.now) }
{
    for branch in branches {
        if completes_all(&branch.body) {
            return true;
        }
    }
    false
}
