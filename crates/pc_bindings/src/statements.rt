//! The names in statements.

ghost use Rattle.std.specs.Prelude.{◌≡◌, ◌++◌, map, OnOk};
ghost use Rattle.pc_source.specs.declared.place.Place.{Place as PlaceOf};
ghost use Rattle.pc_tree.specs.Tree.{name_of, expr_of, target_of, stmt_of_kind, stmts_of_list};
ghost use Rattle.pc_tree.specs.Lists.{branches_of_list};
ghost use Rattle.pc_bindings.specs.Mentions.{in_target, in_head, in_stmt, in_stmts, in_branches};
ghost use Rattle.pc_bindings.specs.Written.{scope_of, mention_of};

use crate::expressions::{add_in_ann, add_in_expr, add_in_option};
use crate::mention::{Mention, Scope, add_attribute, add_name};
use pc_source::OutOfMemory;
use pc_tree::{Branch, Expr, Name, Stmt, StmtKind, Target};

/// Adds the names in the target of an assignment.
fn add_in_target<'m>(
    mentions: &mut Vec<Mention<'m>>,
    scope: Scope<'m>,
    target: &'m Target,
) -> Result<(), OutOfMemory>
    ensures { OnOk result (map mention_of mentions.new.items
        ≡ map mention_of mentions.old.items ++ in_target (scope_of scope.entry) (target_of target.now)) }
{
    match target {
        Target::Name(name) => add_name(mentions, scope, name),
        Target::Attribute {
            object,
            name: field,
            ..
        } => {
            add_in_expr(mentions, scope, object)?;
            add_attribute(mentions, scope, object, field)
        }
        Target::Index { object, key, .. } => {
            add_in_expr(mentions, scope, object)?;
            add_in_expr(mentions, scope, key)
        }
    }
}

/// Adds the names in statements, in text order.
#[cycle(body)]
pub fn add_in_body<'m>(
    mentions: &mut Vec<Mention<'m>>,
    scope: Scope<'m>,
    body: &'m [Stmt],
) -> Result<(), OutOfMemory>
    ensures { OnOk result (map mention_of mentions.new.items
        ≡ map mention_of mentions.old.items ++ in_stmts (scope_of scope.entry) (stmts_of_list body.now)) }
{
    for statement in body {
        add_in_statement(mentions, scope, &statement.kind)?;
    }
    Ok(())
}

/// Adds the names in a statement.
#[cycle(body)]
fn add_in_statement<'m>(
    mentions: &mut Vec<Mention<'m>>,
    scope: Scope<'m>,
    kind: &'m StmtKind,
) -> Result<(), OutOfMemory>
    ensures { (p : PlaceOf) → OnOk result (map mention_of mentions.new.items
        ≡ map mention_of mentions.old.items ++ in_stmt (scope_of scope.entry) (stmt_of_kind p kind.now)) }
{
    match kind {
        StmtKind::Pass | StmtKind::Break | StmtKind::Continue => Ok(()),
        StmtKind::Return(value) => add_in_option(mentions, scope, value),
        StmtKind::Assert(condition, message) => {
            add_in_expr(mentions, scope, condition)?;
            add_in_option(mentions, scope, message)
        }
        StmtKind::Annotated {
            target: name,
            annotation,
            value,
        } => {
            add_name(mentions, scope, name)?;
            add_in_ann(mentions, annotation)?;
            add_in_option(mentions, scope, value)
        }
        StmtKind::Assign(target, value) => {
            add_in_target(mentions, scope, target)?;
            add_in_expr(mentions, scope, value)
        }
        StmtKind::Expr(value) => add_in_expr(mentions, scope, value),
        StmtKind::While(condition, body) => {
            add_in_expr(mentions, scope, condition)?;
            add_in_body(mentions, scope, body)
        }
        StmtKind::For {
            target: name,
            iterable,
            body,
        } => {
            add_loop_head(mentions, scope, name, iterable)?;
            add_in_body(mentions, scope, body)
        }
        StmtKind::If(branches, otherwise) => {
            add_in_branches(mentions, scope, branches)?;
            add_in_body(mentions, scope, otherwise)
        }
    }
}

/// Adds the target of a `for` loop, and the names in what it goes over.
fn add_loop_head<'m>(
    mentions: &mut Vec<Mention<'m>>,
    scope: Scope<'m>,
    name: &'m Name,
    iterable: &'m Expr,
) -> Result<(), OutOfMemory>
    ensures { OnOk result (map mention_of mentions.new.items ≡ map mention_of mentions.old.items
        ++ in_head (scope_of scope.entry) (name_of name.now) (expr_of iterable.now)) }
{
    add_name(mentions, scope, name)?;
    add_in_expr(mentions, scope, iterable)
}

/// Adds the names in conditions and their suites.
#[cycle(body)]
fn add_in_branches<'m>(
    mentions: &mut Vec<Mention<'m>>,
    scope: Scope<'m>,
    branches: &'m [Branch],
) -> Result<(), OutOfMemory>
    ensures { OnOk result (map mention_of mentions.new.items
        ≡ map mention_of mentions.old.items ++ in_branches (scope_of scope.entry) (branches_of_list branches.now)) }
{
    for branch in branches {
        add_in_expr(mentions, scope, &branch.condition)?;
        add_in_body(mentions, scope, &branch.body)?;
    }
    Ok(())
}
