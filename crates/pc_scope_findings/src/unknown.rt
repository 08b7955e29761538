//! E02: an unknown name, which means nothing to its owner. Own rule of the profile.
#![tactic(auto, using(crate::proofs::Seeking::unknown_sought, pc_tree::proofs::Finds::at_both, pc_tree::proofs::Joints::joined, crate::proofs::Seeking::unknown_both))]

ghost use Rattle.std.specs.Prelude.{◌≡◌, ◌++◌, map, OnOk, true};
ghost use Rattle.pc_tree.specs.declared.code.Code.TheVariants.{E02};
ghost use Rattle.pc_source.specs.declared.place.Place.{Place as PlaceOf};
ghost use Rattle.pc_tree.specs.Tree.{expr_of, option_expr_of, target_of, stmt_of_kind, stmts_of_list, member_of};
ghost use Rattle.pc_tree.specs.Tree.{item_of};
ghost use Rattle.pc_tree.specs.Lists.{branches_of_list};
ghost use Rattle.pc_scope.specs.declared.resolution.Owner.TheVariants as owners;
ghost use Rattle.pc_scope.specs.Expressions.{parts_in, option_exprs, target_exprs, exprs_in, exprs_in_all};
ghost use Rattle.pc_scope.specs.Expressions.{exprs_in_branches};
ghost use Rattle.pc_tree.specs.Code.{at_code};
ghost use Rattle.pc_scope_findings.specs.Internal.FindingLists.{unknown_among, unknown_in, unknown_in_constants};
ghost use Rattle.pc_scope_findings.specs.Internal.FindingLists.{unknown_in_methods, unknown_in_bodies, decorators_in};
ghost use Rattle.pc_scope_findings.specs.Internal.FindingLists.{unknown_decorators};
ghost use Rattle.pc_scope.specs.Tables.{meaning_by_tables};

use crate::completion::completes;
use crate::parts::{Sought, seek};
use pc_scope::{Owner, Scopes};
use pc_source::OutOfMemory;
use pc_tree::{Branch, Code, Expr, Findings, Item, ItemKind, Member, Stmt, StmtKind, Target, find};

/// Adds E02 for each name in an expression that is unknown to its owner. Own rule of the profile.
fn find_unknown(
    found: &mut Findings,
    scopes: &Scopes,
    owner: Owner,
    e: &Expr,
) -> Result<(), OutOfMemory>
    ensures { OnOk result (found.new.items
        ≡ found.old.items ++ at_code E02
        (unknown_among (meaning_by_tables scopes.now.tables owner) (parts_in true (expr_of e.now)))) }
{
    seek(found, scopes, Sought::Unknown(owner), e)
}

/// Adds E02 for each unknown name in an expression that may be missing.
fn find_unknown_in_option(
    found: &mut Findings,
    scopes: &Scopes,
    owner: Owner,
    e: &Option<Box<Expr>>,
) -> Result<(), OutOfMemory>
    ensures { OnOk result (found.new.items
        ≡ found.old.items ++ at_code E02
        (unknown_in (meaning_by_tables scopes.now.tables owner) (option_exprs (option_expr_of e.now)))) }
{
    match e {
        Some(e) => find_unknown(found, scopes, owner, e),
        None => Ok(()),
    }
}

/// Adds E02 for each unknown name in an assignment target.
fn find_unknown_in_target(
    found: &mut Findings,
    scopes: &Scopes,
    owner: Owner,
    target: &Target,
) -> Result<(), OutOfMemory>
    ensures { OnOk result (found.new.items
        ≡ found.old.items ++ at_code E02
        (unknown_in (meaning_by_tables scopes.now.tables owner) (target_exprs (target_of target.now)))) }
{
    match target {
        Target::Name(_) => Ok(()),
        Target::Attribute { object, .. } => find_unknown(found, scopes, owner, object),
        Target::Index { object, key, .. } => {
            find_unknown(found, scopes, owner, object)?;
            find_unknown(found, scopes, owner, key)
        }
    }
}

/// Adds E02 for each unknown name in the reached statements of a body. Own rule of the profile.
#[cycle(unknown_in_body)]
fn find_unknown_in_body(
    found: &mut Findings,
    scopes: &Scopes,
    owner: Owner,
    body: &[Stmt],
) -> Result<(), OutOfMemory>
    ensures { OnOk result (found.new.items
        ≡ found.old.items ++ at_code E02
        (unknown_in (meaning_by_tables scopes.now.tables owner) (exprs_in_all true (stmts_of_list body.now)))) }
{
    for statement in body {
        find_unknown_in_statement(found, scopes, owner, &statement.kind)?;
        if !completes(&statement.kind) {
            return Ok(());
        }
    }
    Ok(())
}

/// Adds E02 for each unknown name in a statement.
#[cycle(unknown_in_body)]
fn find_unknown_in_statement(
    found: &mut Findings,
    scopes: &Scopes,
    owner: Owner,
    kind: &StmtKind,
) -> Result<(), OutOfMemory>
    ensures { (first : PlaceOf)
        → OnOk result (found.new.items
        ≡ found.old.items ++ at_code E02
        (unknown_in (meaning_by_tables scopes.now.tables owner) (exprs_in true (stmt_of_kind first kind.now)))) }
{
    match kind {
        StmtKind::Pass => Ok(()),
        StmtKind::Break => Ok(()),
        StmtKind::Continue => Ok(()),
        StmtKind::Return(value) => find_unknown_in_option(found, scopes, owner, value),
        StmtKind::Assert(condition, message) => {
            find_unknown(found, scopes, owner, condition)?;
            find_unknown_in_option(found, scopes, owner, message)
        }
        StmtKind::Annotated { value, .. } => find_unknown_in_option(found, scopes, owner, value),
        StmtKind::Assign(target, value) => {
            find_unknown(found, scopes, owner, value)?;
            find_unknown_in_target(found, scopes, owner, target)
        }
        StmtKind::Expr(value) => find_unknown(found, scopes, owner, value),
        StmtKind::While(condition, body) => {
            find_unknown(found, scopes, owner, condition)?;
            find_unknown_in_body(found, scopes, owner, body)
        }
        StmtKind::For { iterable, body, .. } => {
            find_unknown(found, scopes, owner, iterable)?;
            find_unknown_in_body(found, scopes, owner, body)
        }
        StmtKind::If(branches, otherwise) => {
            find_unknown_in_branches(found, scopes, owner, branches)?;
            find_unknown_in_body(found, scopes, owner, otherwise)
        }
    }
}

/// Adds E02 for each unknown name in conditions and the reached statements of their suites.
#[cycle(unknown_in_body)]
fn find_unknown_in_branches(
    found: &mut Findings,
    scopes: &Scopes,
    owner: Owner,
    branches: &[Branch],
) -> Result<(), OutOfMemory>
    ensures { OnOk result (found.new.items
        ≡ found.old.items ++ at_code E02
        (unknown_in (meaning_by_tables scopes.now.tables owner)
        (exprs_in_branches true (branches_of_list branches.now)))) }
{
    for branch in branches {
        find_unknown(found, scopes, owner, &branch.condition)?;
        find_unknown_in_body(found, scopes, owner, &branch.body)?;
    }
    Ok(())
}

/// Adds E02 for each unknown name in the initializer of a constant.
pub fn find_unknown_in_constants(
    found: &mut Findings,
    scopes: &Scopes,
    items: &[Item],
) -> Result<(), OutOfMemory>
    ensures { OnOk result (found.new.items
        ≡ found.old.items ++ at_code E02
        (unknown_in_constants (meaning_by_tables scopes.now.tables owners.Module) (map item_of items.now))) }
{
    for item in items {
        match &item.kind {
            ItemKind::Constant(constant) => find_unknown(
                found,
                scopes,
                Owner::Module,
                &constant.value,
            )?,
            ItemKind::Class(_) => {}
            ItemKind::Def(_) => {}
        }
    }
    Ok(())
}

/// Adds E02 for each unknown name in the methods of a class.
fn find_unknown_in_methods(
    found: &mut Findings,
    scopes: &Scopes,
    class: usize,
    members: &[Member],
) -> Result<(), OutOfMemory>
    ensures { OnOk result (found.new.items
        ≡ found.old.items ++ at_code E02
        (unknown_in_methods (meaning_by_tables scopes.now.tables) class 0 (map member_of members.now))) }
{
    let mut methods = 0;
    for member in members {
        match member {
            Member::Field(_) => {}
            Member::Method(def) => {
                find_unknown_in_body(found, scopes, Owner::Method(class, methods), &def.body)?;
                methods += 1;
            }
        }
    }
    Ok(())
}

/// Adds E02 for each unknown name in the functions and methods of a module.
pub fn find_unknown_in_bodies(
    found: &mut Findings,
    scopes: &Scopes,
    items: &[Item],
) -> Result<(), OutOfMemory>
    ensures { OnOk result (found.new.items
        ≡ found.old.items ++ at_code E02
        (unknown_in_bodies (meaning_by_tables scopes.now.tables) 0 0 (map item_of items.now))) }
{
    let mut functions = 0;
    let mut classes = 0;
    for item in items {
        match &item.kind {
            ItemKind::Constant(_) => {}
            ItemKind::Class(class) => {
                find_unknown_in_methods(found, scopes, classes, &class.members)?;
                classes += 1;
            }
            ItemKind::Def(def) => {
                find_unknown_in_body(found, scopes, Owner::Func(functions), &def.body)?;
                functions += 1;
            }
        }
    }
    Ok(())
}

/// Adds E02 for the decorator of each class.
fn find_decorators(found: &mut Findings, items: &[Item]) -> Result<(), OutOfMemory>
    ensures { OnOk result (found.new.items ≡ found.old.items ++ at_code E02 (decorators_in (map item_of items.now))) }
{
    for item in items {
        match &item.kind {
            ItemKind::Constant(_) => {}
            ItemKind::Class(class) => find(found, Code::E02, class.decorator)?,
            ItemKind::Def(_) => {}
        }
    }
    Ok(())
}

/// Adds E02 for the decorator of each class, unless the header imports `dataclass`.
pub fn find_unknown_decorators(
    found: &mut Findings,
    imported: bool,
    items: &[Item],
) -> Result<(), OutOfMemory>
    ensures { OnOk result (found.new.items
        ≡ found.old.items ++ at_code E02 (unknown_decorators imported (map item_of items.now))) }
{
    if imported {
        return Ok(());
    }
    find_decorators(found, items)
}
