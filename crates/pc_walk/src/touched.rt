//! The locals that statements touch: those that they bind, and those tested by conditions in them.

ghost use Rattle.std.specs.Prelude.{◌≡◌, ◌++◌, ℕ, IfOk, OnOk};
ghost use Rattle.pc_source.specs.declared.place.Place.{Place as PlaceOf};
ghost use Rattle.pc_tree.specs.Tree.{expr_of, name_of, stmts_of_list, stmt_of_kind};
ghost use Rattle.pc_tree.specs.Lists.{branches_of_list};
ghost use Rattle.pc_flow.specs.Agreement.{is_among};
ghost use Rattle.pc_walk.specs.Touched.{tested_in, tested_in_stmt, tested_in_branches, touched_by_if, touched_by_while};
ghost use Rattle.pc_walk.specs.Touched.{touched_by_for, touched_by_stmt};
ghost use Rattle.pc_flow.specs.Naming.{meanings};

use crate::locals::numbers_of_locals;
use pc_flow::{OwnerNames, add_tested};
use pc_source::OutOfMemory;
use pc_tree::{Branch, Expr, Name, Stmt, StmtKind, add_bound, add_bound_by, add_bound_in};
use std::alloc::Global;

/// Appends the locals tested by conditions in statements, in text order.
#[cycle(tested)]
fn add_tested_in(
    names: &OwnerNames,
    body: &[Stmt],
    tested: &mut Vec<usize>,
) -> Result<(), OutOfMemory>
    ensures { OnOk result (tested.new.items
        ≡ tested.old.items ++ tested_in (meanings names.now) (stmts_of_list body.now)) }
{
    for statement in body {
        add_tested_by(names, &statement.kind, tested)?;
    }
    Ok(())
}

/// Appends the locals tested by conditions in a statement.
#[cycle(tested)]
fn add_tested_by(
    names: &OwnerNames,
    kind: &StmtKind,
    tested: &mut Vec<usize>,
) -> Result<(), OutOfMemory>
    ensures { (p : PlaceOf) → OnOk result (tested.new.items
        ≡ tested.old.items ++ tested_in_stmt (meanings names.now) (stmt_of_kind p kind.now)) }
{
    match kind {
        StmtKind::Pass => Ok(()),
        StmtKind::Break => Ok(()),
        StmtKind::Continue => Ok(()),
        StmtKind::Return(_) => Ok(()),
        StmtKind::Assert(condition, _) => add_tested(names, condition, tested),
        StmtKind::Annotated { .. } => Ok(()),
        StmtKind::Assign(_, _) => Ok(()),
        StmtKind::Expr(_) => Ok(()),
        StmtKind::While(condition, body) => {
            add_tested(names, condition, tested)?;
            add_tested_in(names, body, tested)
        }
        StmtKind::For { body, .. } => add_tested_in(names, body, tested),
        StmtKind::If(branches, otherwise) => {
            add_tested_in_branches(names, branches, tested)?;
            add_tested_in(names, otherwise, tested)
        }
    }
}

/// Appends the locals tested by the conditions of an `if`, and by conditions in its branches.
#[cycle(tested)]
fn add_tested_in_branches(
    names: &OwnerNames,
    branches: &[Branch],
    tested: &mut Vec<usize>,
) -> Result<(), OutOfMemory>
    ensures { OnOk result (tested.new.items
        ≡ tested.old.items ++ tested_in_branches (meanings names.now) (branches_of_list branches.now)) }
{
    for branch in branches {
        add_tested(names, &branch.condition, tested)?;
        add_tested_in(names, &branch.body, tested)?;
    }
    Ok(())
}

/// Appends the locals that a statement touches: those that it binds, at any depth, and those tested by conditions in
/// it.
pub(crate) fn add_touched(
    alloc: Global,
    names: &OwnerNames,
    kind: &StmtKind,
    touched: &mut Vec<usize>,
) -> Result<(), OutOfMemory>
    ensures { (p : PlaceOf) → OnOk result (touched.new.items
        ≡ touched.old.items ++ touched_by_stmt (meanings names.now) (stmt_of_kind p kind.now)) }
{
    let mut bound = Vec::new(alloc);
    add_bound_by(&mut bound, kind)?;
    let locals = numbers_of_locals(alloc, names, &bound)?;
    touched.extend_from_slice(&locals)?;
    add_tested_by(names, kind, touched)
}

/// Sorts locals and removes duplicates.
pub(crate) fn each_once(locals: &mut Vec<usize>)
    ensures { (x : ℕ) → is_among locals.new.items x ≡ is_among locals.old.items x }
{
    locals.sort_unstable();
    locals.dedup();
}

/// Returns the locals that an `if` with these branches and this suite of `else` touches, sorted, without duplicates:
/// those bound in its suites, at any depth, and those tested by a condition in it. Every other local is the same after
/// the `if` as before it. Own rule of the profile.
pub fn touched_by_if(
    alloc: Global,
    names: &OwnerNames,
    branches: &[Branch],
    otherwise: &[Stmt],
) -> Result<Vec<usize>, OutOfMemory>
    ensures { (x : ℕ) → IfOk result (λ locals. is_among locals.items x
        ≡ is_among
        (touched_by_if (meanings names.now) (branches_of_list branches.now) (stmts_of_list otherwise.now)) x) }
{
    let mut bound = Vec::new(alloc);
    add_bound_in(&mut bound, branches)?;
    add_bound(&mut bound, otherwise)?;
    let mut locals = numbers_of_locals(alloc, names, &bound)?;
    add_tested_in_branches(names, branches, &mut locals)?;
    add_tested_in(names, otherwise, &mut locals)?;
    locals.sort_unstable();
    locals.dedup();
    Ok(locals)
}

/// Returns the locals that a `while` touches, sorted, without duplicates: those bound in its body, at any depth, and
/// those tested by a condition in it. Every other local is the same inside the loop and after it as before it. Own rule
/// of the profile.
pub fn touched_by_while(
    alloc: Global,
    names: &OwnerNames,
    condition: &Expr,
    body: &[Stmt],
) -> Result<Vec<usize>, OutOfMemory>
    ensures { (x : ℕ) → IfOk result (λ locals. is_among locals.items x
        ≡ is_among (touched_by_while (meanings names.now) (expr_of condition.now) (stmts_of_list body.now)) x) }
{
    let mut bound = Vec::new(alloc);
    add_bound(&mut bound, body)?;
    let mut locals = numbers_of_locals(alloc, names, &bound)?;
    add_tested(names, condition, &mut locals)?;
    add_tested_in(names, body, &mut locals)?;
    locals.sort_unstable();
    locals.dedup();
    Ok(locals)
}

/// Returns the locals that a `for` touches, sorted, without duplicates: its target, those bound in its body, at any
/// depth, and those tested by a condition in it. Every other local is the same inside the loop and after it as before
/// it. Own rule of the profile.
pub fn touched_by_for(
    alloc: Global,
    names: &OwnerNames,
    target: &Name,
    body: &[Stmt],
) -> Result<Vec<usize>, OutOfMemory>
    ensures { (x : ℕ) → IfOk result (λ locals. is_among locals.items x
        ≡ is_among (touched_by_for (meanings names.now) (name_of target.now) (stmts_of_list body.now)) x) }
{
    let mut bound = Vec::new(alloc);
    bound.push(target)?;
    add_bound(&mut bound, body)?;
    let mut locals = numbers_of_locals(alloc, names, &bound)?;
    add_tested_in(names, body, &mut locals)?;
    locals.sort_unstable();
    locals.dedup();
    Ok(locals)
}
