//! The expressions of a module, each before its parts.
#![tactic(auto, using(crate::proofs::WalkedLists::then_parts))]

ghost use Rattle.std.specs.Prelude.{◌≡◌, ◌++◌, map, flat_map, IfOk, OnOk, false};
ghost use Rattle.pc_source.specs.declared.place.Place.{Place as PlaceOf};
ghost use Rattle.pc_tree.specs.Lists.{branches_of_list};
ghost use Rattle.pc_tree.specs.Tree.{option_expr_of, stmt_of_kind, stmts_of_list, target_of};
ghost use Rattle.pc_scope.specs.Expressions.{exprs_in, exprs_in_all, exprs_in_branches, option_exprs, parts_in};
ghost use Rattle.pc_scope.specs.Expressions.{target_exprs};
ghost use Rattle.pc_detail_facts.specs.Held.{body_of, constant_lent, owned_of};
ghost use Rattle.pc_detail_rules.specs.Nodes.{exprs_of_body, owned};
ghost use Rattle.pc_detail_nodes.specs.NodesHeld.{expr_lent, exprs_of_all, own_exprs};

use crate::parts::add_parts;
use pc_detail_facts::{Body, OwnedExpr};
use pc_scope::Owner;
use pc_source::OutOfMemory;
use pc_tree::{Branch, Constant, Expr, Stmt, StmtKind, Target};
use std::alloc::Global;

/// Adds the expressions in a target.
fn add_target<'m>(exprs: &mut Vec<&'m Expr>, target: &'m Target) -> Result<(), OutOfMemory>
    ensures { OnOk result (map expr_lent exprs.new.items
        ≡ map expr_lent exprs.old.items ++ target_exprs (target_of target.now)) }
{
    match target {
        Target::Name(_) => Ok(()),
        Target::Attribute { object, .. } => Ok(exprs.push(object)?),
        Target::Index {
            object,
            key: index,
            ..
        } => {
            exprs.push(object)?;
            Ok(exprs.push(index)?)
        }
    }
}

/// Adds an expression, if there is one.
fn add_option<'m>(
    exprs: &mut Vec<&'m Expr>,
    value: &'m Option<Box<Expr>>,
) -> Result<(), OutOfMemory>
    ensures { OnOk result (map expr_lent exprs.new.items
        ≡ map expr_lent exprs.old.items ++ option_exprs (option_expr_of value.now)) }
{
    match value {
        Some(value) => Ok(exprs.push(value)?),
        None => Ok(()),
    }
}

/// Adds the expressions of a statement outside its suites and the conditions of its branches.
fn add_own<'m>(exprs: &mut Vec<&'m Expr>, kind: &'m StmtKind) -> Result<(), OutOfMemory>
    ensures { (p : PlaceOf) → OnOk result (map expr_lent exprs.new.items
        ≡ map expr_lent exprs.old.items ++ own_exprs (stmt_of_kind p kind.now)) }
{
    match kind {
        StmtKind::Pass | StmtKind::Break | StmtKind::Continue | StmtKind::If(_, _) => Ok(()),
        StmtKind::Return(value) => add_option(exprs, value),
        StmtKind::Annotated { value, .. } => add_option(exprs, value),
        StmtKind::Assert(condition, message) => {
            exprs.push(condition)?;
            add_option(exprs, message)
        }
        StmtKind::Assign(target, value) => {
            exprs.push(value)?;
            add_target(exprs, target)
        }
        StmtKind::Expr(value) => Ok(exprs.push(value)?),
        StmtKind::While(condition, _) => Ok(exprs.push(condition)?),
        StmtKind::For { iterable, .. } => Ok(exprs.push(iterable)?),
    }
}

/// Adds the expressions of a suite, in text order.
#[cycle(exprs)]
fn add_suite<'m>(exprs: &mut Vec<&'m Expr>, suite: &'m [Stmt]) -> Result<(), OutOfMemory>
    ensures { OnOk result (map expr_lent exprs.new.items
        ≡ map expr_lent exprs.old.items ++ exprs_in_all false (stmts_of_list suite.now)) }
{
    for statement in suite {
        add_statement(exprs, &statement.kind)?;
    }
    Ok(())
}

/// Adds the expressions of a statement.
#[cycle(exprs)]
fn add_statement<'m>(exprs: &mut Vec<&'m Expr>, kind: &'m StmtKind) -> Result<(), OutOfMemory>
    ensures { (p : PlaceOf) → OnOk result (map expr_lent exprs.new.items
        ≡ map expr_lent exprs.old.items ++ exprs_in false (stmt_of_kind p kind.now)) }
{
    add_own(exprs, kind)?;
    let (branches, last) = kind.suites();
    add_branches(exprs, branches)?;
    add_suite(exprs, last)
}

/// Adds the expressions of branches.
#[cycle(exprs)]
fn add_branches<'m>(exprs: &mut Vec<&'m Expr>, branches: &'m [Branch]) -> Result<(), OutOfMemory>
    ensures { OnOk result (map expr_lent exprs.new.items
        ≡ map expr_lent exprs.old.items ++ exprs_in_branches false (branches_of_list branches.now)) }
{
    for branch in branches {
        exprs.push(&branch.condition)?;
        add_suite(exprs, &branch.body)?;
    }
    Ok(())
}

/// Returns expressions with their parts.
fn parts_of<'m>(alloc: Global, exprs: &[&'m Expr]) -> Result<Vec<&'m Expr>, OutOfMemory>
    ensures { IfOk result (λ v. map expr_lent v.items ≡ flat_map (parts_in false) (map expr_lent exprs.now)) }
{
    let mut parts = Vec::new(alloc);
    for expr in exprs {
        add_parts(&mut parts, *expr)?;
    }
    Ok(parts)
}

/// Adds expressions with their owner.
fn add_owned<'m>(
    all: &mut Vec<OwnedExpr<'m>>,
    owner: Owner,
    exprs: &[&'m Expr],
) -> Result<(), OutOfMemory>
    ensures { OnOk result (map owned_of all.new.items
        ≡ map owned_of all.old.items ++ map (owned owner) (map expr_lent exprs.now)) }
{
    for expr in exprs {
        all.push(OwnedExpr { owner, expr: *expr })?;
    }
    Ok(())
}

/// Returns the values of constants.
fn initializers<'m>(alloc: Global, constants: &[&'m Constant]) -> Result<Vec<&'m Expr>, OutOfMemory>
    ensures { IfOk result (λ v. map expr_lent v.items ≡ map (λ c. c.value) (map constant_lent constants.now)) }
{
    let mut values = Vec::new(alloc);
    for constant in constants {
        values.push(&constant.value)?;
    }
    Ok(values)
}

/// Adds the expressions of a function or method with their parts.
fn add_body<'m>(
    alloc: Global,
    all: &mut Vec<OwnedExpr<'m>>,
    body: Body<'m>,
) -> Result<(), OutOfMemory>
    ensures { OnOk result
        (map owned_of all.new.items ≡ map owned_of all.old.items ++ exprs_of_body (body_of body.entry)) }
{
    let mut exprs = Vec::new(alloc);
    add_suite(&mut exprs, &body.function.body)?;
    let parts = parts_of(alloc, &exprs)?;
    add_owned(all, body.owner, &parts)
}

/// Returns the expressions of constants, and then of functions and methods, each with its parts.
pub(crate) fn all_exprs<'m>(
    alloc: Global,
    constants: &[&'m Constant],
    bodies: &[Body<'m>],
) -> Result<Vec<OwnedExpr<'m>>, OutOfMemory>
    ensures { IfOk result (λ v. map owned_of v.items
        ≡ exprs_of_all (map constant_lent constants.now) (map body_of bodies.now)) }
{
    let mut all = Vec::new(alloc);
    let values = initializers(alloc, constants)?;
    let parts = parts_of(alloc, &values)?;
    add_owned(&mut all, Owner::Module, &parts)?;
    for body in bodies {
        add_body(alloc, &mut all, *body)?;
    }
    Ok(all)
}
