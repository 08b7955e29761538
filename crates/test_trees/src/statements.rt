//! The rows of statements.
use crate::annotations::list_ann;
use crate::expressions::{list_expr, list_optional};
use crate::rows::{TreePosition, list_group, list_name, list_node};
use crate::words::word_of_stmt;
use pc_tree::{Branch, Stmt, StmtKind, Target};
use std::alloc::AllocError;

/// Adds the rows of statements, each with this position.
#[cycle(statements)]
pub fn list_suite(out: &mut String, at: TreePosition, body: &[Stmt]) -> Result<(), AllocError> {
    for statement in body {
        list_node(out, at, word_of_stmt(&statement.kind), statement.first)?;
        list_parts(out, at, &statement.kind)?;
    }
    Ok(())
}

/// Adds the rows of the parts of a statement.
#[cycle(statements)]
fn list_parts(out: &mut String, at: TreePosition, kind: &StmtKind) -> Result<(), AllocError> {
    match kind {
        StmtKind::Pass | StmtKind::Break | StmtKind::Continue => Ok(()),
        StmtKind::Return(value) => list_optional(out, at.part("value"), value),
        StmtKind::Assert(condition, message) => {
            list_expr(out, at.part("condition"), condition)?;
            list_optional(out, at.part("message"), message)
        }
        StmtKind::Annotated {
            target,
            annotation,
            value,
        } => {
            list_name(out, at.part("target"), target)?;
            list_ann(out, at.part("annotation"), annotation)?;
            list_optional(out, at.part("value"), value)
        }
        StmtKind::Assign(target, value) => {
            list_target(out, at.part("target"), target)?;
            list_expr(out, at.part("value"), value)
        }
        StmtKind::Expr(value) => list_expr(out, at.part("value"), value),
        StmtKind::While(condition, body) => {
            list_expr(out, at.part("condition"), condition)?;
            list_suite(out, at.part("body"), body)
        }
        StmtKind::For {
            target,
            iterable,
            body,
        } => {
            list_name(out, at.part("target"), target)?;
            list_expr(out, at.part("iterable"), iterable)?;
            list_suite(out, at.part("body"), body)
        }
        StmtKind::If(branches, otherwise) => {
            list_branches(out, at.part("branch"), branches)?;
            list_suite(out, at.part("else"), otherwise)
        }
    }
}

/// Adds the rows of the branches of an `if`.
#[cycle(statements)]
fn list_branches(
    out: &mut String,
    at: TreePosition,
    branches: &[Branch],
) -> Result<(), AllocError> {
    for branch in branches {
        list_group(out, at, "Branch")?;
        list_expr(out, at.part("condition"), &branch.condition)?;
        list_suite(out, at.part("body"), &branch.body)?;
    }
    Ok(())
}

/// Adds the rows of the target of an assignment.
fn list_target(out: &mut String, at: TreePosition, target: &Target) -> Result<(), AllocError> {
    match target {
        Target::Name(name) => list_name(out, at, name),
        Target::Attribute {
            place,
            object,
            name,
        } => {
            list_node(out, at, "Attribute", *place)?;
            list_expr(out, at.part("object"), object)?;
            list_name(out, at.part("name"), name)
        }
        Target::Index { place, object, key } => {
            list_node(out, at, "Index", *place)?;
            list_expr(out, at.part("object"), object)?;
            list_expr(out, at.part("key"), key)
        }
    }
}
