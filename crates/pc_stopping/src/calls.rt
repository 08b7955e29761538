//! E01 in calls: a keyword given twice in one call. Language Reference 6.3.4 "Calls".
#![tactic(auto, using(pc_tree::proofs::Finds::at_both))]

ghost use Rattle.std.specs.Prelude.{◌≡◌, ◌++◌, [], map, OnOk};
ghost use Rattle.pc_source.specs.declared.place.Place.{Place as PlaceOf};
ghost use Rattle.pc_tree.specs.declared.code.Code.TheVariants.{E01};
ghost use Rattle.pc_tree.specs.Tree.{item_of, expr_of, option_expr_of, target_of, stmt_of_kind, stmts_of_list};
ghost use Rattle.pc_tree.specs.Lists.{exprs_of_list, entries_of_list, keywords_of_list, branches_of_list};
ghost use Rattle.pc_tree.specs.Stopping.{given_again, given_in_constants, given_in, given_in_all, given_in_entries};
ghost use Rattle.pc_tree.specs.Stopping.{given_in_keywords, given_in_optional, given_in_target, given_in_stmt};
ghost use Rattle.pc_tree.specs.Stopping.{given_in_stmts, given_in_branches};
ghost use Rattle.pc_tree.specs.Code.{at_code};

use indexmap::IndexSet;
use pc_source::OutOfMemory;
use pc_tree::{
    Branch, Code, Entry, Expr, Findings, Item, ItemKind, Keys, KeywordArgument, Stmt, StmtKind,
    Target, find_if, put,
};
use std::alloc::Global;

/// Adds E01 for each keyword given again in one call.
fn find_given_again(
    found: &mut Findings,
    alloc: Global,
    keys: Keys,
    by_name: &[KeywordArgument],
) -> Result<(), OutOfMemory>
    ensures { OnOk result (found.new.items
        ≡ found.old.items ++ at_code E01 (given_again [] (keywords_of_list by_name.now))) }
{
    let mut before = IndexSet::with_hasher(alloc, keys);
    for argument in by_name {
        let again = put(&mut before, argument.name.text.as_str())?;
        find_if(found, again, Code::E01, argument.name.place)?;
    }
    Ok(())
}

/// Adds E01 for each keyword given again in a call of an expression, in text order.
#[cycle(given)]
fn find_given(found: &mut Findings, alloc: Global, keys: Keys, e: &Expr) -> Result<(), OutOfMemory>
    ensures { OnOk result (found.new.items ≡ found.old.items ++ at_code E01 (given_in (expr_of e.now))) }
{
    match e {
        Expr::Name(_) => Ok(()),
        Expr::Int(_, _) | Expr::Str(_, _) => Ok(()),
        Expr::True(_) | Expr::False(_) | Expr::NoneValue(_) => Ok(()),
        Expr::Tuple(_, items) => find_given_in_all(found, alloc, keys, items),
        Expr::List(_, items) => find_given_in_all(found, alloc, keys, items),
        Expr::Dict(_, entries) => find_given_in_entries(found, alloc, keys, entries),
        Expr::Negative(_, operand)
        | Expr::Not(_, operand)
        | Expr::IsNone(_, operand)
        | Expr::IsNotNone(_, operand)
        | Expr::Attribute {
            object: operand,
            ..
        } => find_given(found, alloc, keys, operand),
        Expr::Binary { left, right, .. }
        | Expr::Compare { left, right, .. }
        | Expr::And { left, right, .. }
        | Expr::Or { left, right, .. }
        | Expr::Index {
            object: left,
            key: right,
            ..
        } => {
            find_given(found, alloc, keys, left)?;
            find_given(found, alloc, keys, right)
        }
        Expr::Call {
            callee,
            arguments,
            keywords: by_name,
            ..
        } => {
            find_given(found, alloc, keys, callee)?;
            find_given_in_all(found, alloc, keys, arguments)?;
            find_given_again(found, alloc, keys, by_name)?;
            find_given_in_values(found, alloc, keys, by_name)
        }
    }
}

/// Adds E01 for each keyword given again in a call of these expressions.
#[cycle(given)]
fn find_given_in_all(
    found: &mut Findings,
    alloc: Global,
    keys: Keys,
    items: &[Expr],
) -> Result<(), OutOfMemory>
    ensures { OnOk result (found.new.items ≡ found.old.items ++ at_code E01 (given_in_all (exprs_of_list items.now))) }
{
    for item in items {
        find_given(found, alloc, keys, item)?;
    }
    Ok(())
}

/// Adds E01 for each keyword given again in a call of the keys and values of a dict display.
#[cycle(given)]
fn find_given_in_entries(
    found: &mut Findings,
    alloc: Global,
    keys: Keys,
    entries: &[Entry],
) -> Result<(), OutOfMemory>
    ensures { OnOk result (found.new.items
        ≡ found.old.items ++ at_code E01 (given_in_entries (entries_of_list entries.now))) }
{
    for entry in entries {
        find_given(found, alloc, keys, &entry.key)?;
        find_given(found, alloc, keys, &entry.value)?;
    }
    Ok(())
}

/// Adds E01 for each keyword given again in a call of the values of keyword arguments.
#[cycle(given)]
fn find_given_in_values(
    found: &mut Findings,
    alloc: Global,
    keys: Keys,
    by_name: &[KeywordArgument],
) -> Result<(), OutOfMemory>
    ensures { OnOk result (found.new.items
        ≡ found.old.items ++ at_code E01 (given_in_keywords (keywords_of_list by_name.now))) }
{
    for argument in by_name {
        find_given(found, alloc, keys, &argument.value)?;
    }
    Ok(())
}

/// Adds E01 for each keyword given again in a call of an expression that may be missing.
fn find_given_in_optional(
    found: &mut Findings,
    alloc: Global,
    keys: Keys,
    e: &Option<Box<Expr>>,
) -> Result<(), OutOfMemory>
    ensures { OnOk result (found.new.items ≡ found.old.items
        ++ at_code E01 (given_in_optional (option_expr_of e.now))) }
{
    match e {
        Some(e) => find_given(found, alloc, keys, e),
        None => Ok(()),
    }
}

/// Adds E01 for each keyword given again in a call of an assignment target.
fn find_given_in_target(
    found: &mut Findings,
    alloc: Global,
    keys: Keys,
    target: &Target,
) -> Result<(), OutOfMemory>
    ensures { OnOk result (found.new.items ≡ found.old.items ++ at_code E01 (given_in_target (target_of target.now))) }
{
    match target {
        Target::Name(_) => Ok(()),
        Target::Attribute { object, .. } => find_given(found, alloc, keys, object),
        Target::Index { object, key, .. } => {
            find_given(found, alloc, keys, object)?;
            find_given(found, alloc, keys, key)
        }
    }
}

/// Adds E01 for each keyword given again in a call of these statements.
#[cycle(given_in_body)]
pub fn find_given_in_body(
    found: &mut Findings,
    alloc: Global,
    keys: Keys,
    body: &[Stmt],
) -> Result<(), OutOfMemory>
    ensures { OnOk result (found.new.items ≡ found.old.items ++ at_code E01 (given_in_stmts (stmts_of_list body.now))) }
{
    for statement in body {
        find_given_in_statement(found, alloc, keys, &statement.kind)?;
    }
    Ok(())
}

/// Adds E01 for each keyword given again in a call of one statement.
#[cycle(given_in_body)]
fn find_given_in_statement(
    found: &mut Findings,
    alloc: Global,
    keys: Keys,
    kind: &StmtKind,
) -> Result<(), OutOfMemory>
    ensures { (p : PlaceOf) → OnOk result
        (found.new.items ≡ found.old.items ++ at_code E01 (given_in_stmt (stmt_of_kind p kind.now))) }
{
    match kind {
        StmtKind::Pass | StmtKind::Break | StmtKind::Continue => Ok(()),
        StmtKind::Return(value) => find_given_in_optional(found, alloc, keys, value),
        StmtKind::Assert(condition, message) => {
            find_given(found, alloc, keys, condition)?;
            find_given_in_optional(found, alloc, keys, message)
        }
        StmtKind::Annotated { value, .. } => find_given_in_optional(found, alloc, keys, value),
        StmtKind::Assign(target, value) => {
            find_given_in_target(found, alloc, keys, target)?;
            find_given(found, alloc, keys, value)
        }
        StmtKind::Expr(value) => find_given(found, alloc, keys, value),
        StmtKind::While(condition, body) => {
            find_given(found, alloc, keys, condition)?;
            find_given_in_body(found, alloc, keys, body)
        }
        StmtKind::For { iterable, body, .. } => {
            find_given(found, alloc, keys, iterable)?;
            find_given_in_body(found, alloc, keys, body)
        }
        StmtKind::If(branches, otherwise) => {
            find_given_in_branches(found, alloc, keys, branches)?;
            find_given_in_body(found, alloc, keys, otherwise)
        }
    }
}

/// Adds E01 for each keyword given again in a call of these conditions and their suites.
#[cycle(given_in_body)]
fn find_given_in_branches(
    found: &mut Findings,
    alloc: Global,
    keys: Keys,
    branches: &[Branch],
) -> Result<(), OutOfMemory>
    ensures { OnOk result (found.new.items
        ≡ found.old.items ++ at_code E01 (given_in_branches (branches_of_list branches.now))) }
{
    for branch in branches {
        find_given(found, alloc, keys, &branch.condition)?;
        find_given_in_body(found, alloc, keys, &branch.body)?;
    }
    Ok(())
}

/// Adds E01 for each keyword given again in a call of the initializer of a constant.
pub fn find_given_in_constants(
    found: &mut Findings,
    alloc: Global,
    keys: Keys,
    items: &[Item],
) -> Result<(), OutOfMemory>
    ensures { OnOk result (found.new.items
        ≡ found.old.items ++ at_code E01 (given_in_constants (map item_of items.now))) }
{
    for item in items {
        match &item.kind {
            ItemKind::Constant(constant) => find_given(found, alloc, keys, &constant.value)?,
            ItemKind::Class(_) => {}
            ItemKind::Def(_) => {}
        }
    }
    Ok(())
}
