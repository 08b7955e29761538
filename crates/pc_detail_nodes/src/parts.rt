//! An expression and its parts, each before its own.
#![tactic(auto, using(crate::proofs::WalkedLists::then_parts))]

ghost use Rattle.std.specs.Prelude.{◌≡◌, ◌++◌, map, OnOk, false};
ghost use Rattle.pc_tree.specs.Tree.{expr_of};
ghost use Rattle.pc_tree.specs.Lists.{exprs_of_list, entries_of_list, keywords_of_list};
ghost use Rattle.pc_scope.specs.Expressions.{parts_in, parts_in_all, parts_in_entries, parts_in_keywords};
ghost use Rattle.pc_detail_nodes.specs.NodesHeld.{expr_lent, parts_inside};

use pc_source::OutOfMemory;
use pc_tree::{Entry, Expr, KeywordArgument};

/// Adds an expression and its parts.
#[cycle(parts)]
pub(crate) fn add_parts<'m>(parts: &mut Vec<&'m Expr>, expr: &'m Expr) -> Result<(), OutOfMemory>
    ensures { OnOk result
        (map expr_lent parts.new.items ≡ map expr_lent parts.old.items ++ parts_in false (expr_of expr.now)) }
{
    parts.push(expr)?;
    add_inside(parts, expr)
}

/// Adds the parts of an expression.
#[cycle(parts)]
fn add_inside<'m>(parts: &mut Vec<&'m Expr>, expr: &'m Expr) -> Result<(), OutOfMemory>
    ensures { OnOk result
        (map expr_lent parts.new.items ≡ map expr_lent parts.old.items ++ parts_inside (expr_of expr.now)) }
{
    match expr {
        Expr::Name(_) | Expr::Int(_, _) | Expr::Str(_, _) => Ok(()),
        Expr::True(_) | Expr::False(_) | Expr::NoneValue(_) => Ok(()),
        Expr::Tuple(_, items) => add_each(parts, items),
        Expr::List(_, items) => add_each(parts, items),
        Expr::Dict(_, entries) => add_entries(parts, entries),
        Expr::Negative(_, operand) => add_parts(parts, operand),
        Expr::Not(_, operand) => add_parts(parts, operand),
        Expr::IsNone(_, operand) => add_parts(parts, operand),
        Expr::IsNotNone(_, operand) => add_parts(parts, operand),
        Expr::Attribute { object, .. } => add_parts(parts, object),
        Expr::Binary { left, right, .. } => {
            add_parts(parts, left)?;
            add_parts(parts, right)
        }
        Expr::Compare { left, right, .. } => {
            add_parts(parts, left)?;
            add_parts(parts, right)
        }
        Expr::And { left, right, .. }
        | Expr::Or { left, right, .. }
        | Expr::Index {
            object: left,
            key: right,
            ..
        } => {
            add_parts(parts, left)?;
            add_parts(parts, right)
        }
        Expr::Call {
            callee,
            arguments,
            keywords,
            ..
        } => {
            add_parts(parts, callee)?;
            add_each(parts, arguments)?;
            add_values(parts, keywords)
        }
    }
}

/// Adds expressions and their parts.
#[cycle(parts)]
fn add_each<'m>(parts: &mut Vec<&'m Expr>, exprs: &'m [Expr]) -> Result<(), OutOfMemory>
    ensures { OnOk result (map expr_lent parts.new.items
        ≡ map expr_lent parts.old.items ++ parts_in_all false (exprs_of_list exprs.now)) }
{
    for expr in exprs {
        add_parts(parts, expr)?;
    }
    Ok(())
}

/// Adds the keys and the values of a dict display and their parts.
#[cycle(parts)]
fn add_entries<'m>(parts: &mut Vec<&'m Expr>, entries: &'m [Entry]) -> Result<(), OutOfMemory>
    ensures { OnOk result (map expr_lent parts.new.items
        ≡ map expr_lent parts.old.items ++ parts_in_entries false (entries_of_list entries.now)) }
{
    for entry in entries {
        add_parts(parts, &entry.key)?;
        add_parts(parts, &entry.value)?;
    }
    Ok(())
}

/// Adds the values of arguments by name and their parts.
#[cycle(parts)]
fn add_values<'m>(
    parts: &mut Vec<&'m Expr>,
    keywords: &'m [KeywordArgument],
) -> Result<(), OutOfMemory>
    ensures { OnOk result (map expr_lent parts.new.items
        ≡ map expr_lent parts.old.items ++ parts_in_keywords false (keywords_of_list keywords.now)) }
{
    for keyword in keywords {
        add_parts(parts, &keyword.value)?;
    }
    Ok(())
}
