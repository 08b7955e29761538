//! The rows of expressions and literals.
use crate::rows::{TreePosition, list_group, list_name, list_node, list_string, list_word};
use crate::words::{word_of_expr, word_of_literal};
use pc_tree::{Entry, Expr, KeywordArgument, Literal, LiteralKind};
use std::alloc::AllocError;

/// Adds the rows of an expression.
#[cycle(expressions)]
pub fn list_expr(out: &mut String, at: TreePosition, e: &Expr) -> Result<(), AllocError> {
    let (kind, place) = (word_of_expr(e), e.place());
    match e {
        Expr::Name(name) => return list_name(out, at, name),
        Expr::Int(_, digits) => return list_word(out, at, kind, place, digits.as_str()),
        Expr::Str(_, text) => return list_string(out, at, place, text.as_str()),
        _ => list_node(out, at, kind, place)?,
    }
    match e {
        Expr::Name(_) | Expr::Int(_, _) | Expr::Str(_, _) => Ok(()),
        Expr::True(_) | Expr::False(_) | Expr::NoneValue(_) => Ok(()),
        Expr::Tuple(_, items) | Expr::List(_, items) => list_exprs(out, at.part("item"), items),
        Expr::Dict(_, entries) => list_entries(out, at.part("entry"), entries),
        Expr::Negative(_, operand)
        | Expr::Not(_, operand)
        | Expr::IsNone(_, operand)
        | Expr::IsNotNone(_, operand) => list_expr(out, at.part("operand"), operand),
        Expr::Binary { left, right, .. }
        | Expr::Compare { left, right, .. }
        | Expr::And { left, right, .. }
        | Expr::Or { left, right, .. } => {
            list_expr(out, at.part("left"), left)?;
            list_expr(out, at.part("right"), right)
        }
        Expr::Attribute { object, name, .. } => {
            list_expr(out, at.part("object"), object)?;
            list_name(out, at.part("name"), name)
        }
        Expr::Index { object, key, .. } => {
            list_expr(out, at.part("object"), object)?;
            list_expr(out, at.part("key"), key)
        }
        Expr::Call {
            callee,
            arguments,
            keywords: by_name,
            ..
        } => {
            list_expr(out, at.part("callee"), callee)?;
            list_exprs(out, at.part("argument"), arguments)?;
            list_by_name(out, at.part("argument"), by_name)
        }
    }
}

/// Adds the rows of expressions, each with this position.
#[cycle(expressions)]
fn list_exprs(out: &mut String, at: TreePosition, items: &[Expr]) -> Result<(), AllocError> {
    for item in items {
        list_expr(out, at, item)?;
    }
    Ok(())
}

/// Adds the rows of the entries of a dict display.
#[cycle(expressions)]
fn list_entries(out: &mut String, at: TreePosition, entries: &[Entry]) -> Result<(), AllocError> {
    for entry in entries {
        list_group(out, at, "Entry")?;
        list_expr(out, at.part("key"), &entry.key)?;
        list_expr(out, at.part("value"), &entry.value)?;
    }
    Ok(())
}

/// Adds the rows of arguments by name.
#[cycle(expressions)]
fn list_by_name(
    out: &mut String,
    at: TreePosition,
    by_name: &[KeywordArgument],
) -> Result<(), AllocError> {
    for argument in by_name {
        list_group(out, at, "ByName")?;
        list_name(out, at.part("name"), &argument.name)?;
        list_expr(out, at.part("value"), &argument.value)?;
    }
    Ok(())
}

/// Adds the rows of an expression that may be missing.
pub fn list_optional(
    out: &mut String,
    at: TreePosition,
    e: &Option<Box<Expr>>,
) -> Result<(), AllocError> {
    match e {
        Some(e) => list_expr(out, at, e),
        None => Ok(()),
    }
}

/// Adds the row of a default, if there is one.
pub fn list_default(
    out: &mut String,
    at: TreePosition,
    default: &Option<Literal>,
) -> Result<(), AllocError> {
    let Some(literal) = default else {
        return Ok(());
    };
    let (kind, place) = (word_of_literal(&literal.kind), literal.place);
    match &literal.kind {
        LiteralKind::Int(digits) | LiteralKind::NegativeInt(digits) => {
            list_word(out, at, kind, place, digits.as_str())
        }
        LiteralKind::Str(text) => list_string(out, at, place, text.as_str()),
        LiteralKind::True | LiteralKind::False | LiteralKind::NoneValue => {
            list_node(out, at, kind, place)
        }
    }
}
