//! The sinks in expressions: of what each takes, and of what its parts take.

ghost use Rattle.std.specs.Prelude.{◌≡◌, OnOk, false};
ghost use Rattle.pc_source.specs.declared.place.Place.{Place as PlaceOf};
ghost use Rattle.pc_tree.specs.Lists.{branches_of_list, entries_of_list, exprs_of_list, keywords_of_list};
ghost use Rattle.pc_tree.specs.Tree.{expr_of, option_expr_of, stmt_of_kind, stmts_of_list, target_of};
ghost use Rattle.pc_scope.specs.Expressions.{exprs_in, exprs_in_all, exprs_in_branches, option_exprs, parts_in};
ghost use Rattle.pc_scope.specs.Expressions.{parts_in_all, parts_in_entries, parts_in_keywords, target_exprs};
ghost use Rattle.pc_scope_findings.specs.Internal.SoughtParts.{inner_parts};
ghost use Rattle.pc_detail_facts.specs.Held.{AreFacts};
ghost use Rattle.pc_flow_details.specs.Kept.{first_of_both, flows_to_sinks, flows_kept, taken_below, taken_in};

use crate::sink::Sinks;
use crate::taken::add_taken;
use pc_detail_facts::Facts;
use pc_scope::Owner;
use pc_source::OutOfMemory;
use pc_tree::{Branch, Entry, Expr, KeywordArgument, Stmt, StmtKind, Target};

/// Adds the sinks in the expressions of the statements of a suite.
#[cycle(search_suites)]
pub(crate) fn search_suite<'c>(
    facts: &Facts<'c, '_>,
    sinks: &mut Sinks,
    owner: Owner,
    suite: &'c [Stmt],
) -> Result<(), OutOfMemory>
    requires { AreFacts facts.now }
    ensures { OnOk result (flows_kept sinks.new ≡ first_of_both (flows_kept sinks.old)
        (flows_to_sinks facts.now (taken_below facts.now owner (exprs_in_all false (stmts_of_list suite.now))))) }
{
    for statement in suite {
        search_statement(facts, sinks, owner, &statement.kind)?;
    }
    Ok(())
}

/// Adds the sinks in the expressions of a statement.
#[cycle(search_suites)]
fn search_statement<'c>(
    facts: &Facts<'c, '_>,
    sinks: &mut Sinks,
    owner: Owner,
    kind: &'c StmtKind,
) -> Result<(), OutOfMemory>
    requires { AreFacts facts.now }
    ensures { (first : PlaceOf) → OnOk result (flows_kept sinks.new ≡ first_of_both (flows_kept sinks.old)
        (flows_to_sinks facts.now (taken_below facts.now owner (exprs_in false (stmt_of_kind first kind.now))))) }
{
    match kind {
        StmtKind::Pass | StmtKind::Break | StmtKind::Continue => Ok(()),
        StmtKind::Return(value) => search_option(facts, sinks, owner, value),
        StmtKind::Assert(condition, message) => {
            search(facts, sinks, owner, condition)?;
            search_option(facts, sinks, owner, message)
        }
        StmtKind::Annotated { value, .. } => search_option(facts, sinks, owner, value),
        StmtKind::Assign(target, value) => {
            search(facts, sinks, owner, value)?;
            search_target(facts, sinks, owner, target)
        }
        StmtKind::Expr(value) => search(facts, sinks, owner, value),
        StmtKind::While(condition, body) => {
            search(facts, sinks, owner, condition)?;
            search_suite(facts, sinks, owner, body)
        }
        StmtKind::For { iterable, body, .. } => {
            search(facts, sinks, owner, iterable)?;
            search_suite(facts, sinks, owner, body)
        }
        StmtKind::If(branches, otherwise) => {
            search_branches(facts, sinks, owner, branches)?;
            search_suite(facts, sinks, owner, otherwise)
        }
    }
}

/// Adds the sinks in the expressions of branches.
#[cycle(search_suites)]
fn search_branches<'c>(
    facts: &Facts<'c, '_>,
    sinks: &mut Sinks,
    owner: Owner,
    branches: &'c [Branch],
) -> Result<(), OutOfMemory>
    requires { AreFacts facts.now }
    ensures { OnOk result (flows_kept sinks.new ≡ first_of_both (flows_kept sinks.old)
        (flows_to_sinks facts.now (taken_below facts.now owner (exprs_in_branches false (branches_of_list branches.now))))) }
{
    for branch in branches {
        search(facts, sinks, owner, &branch.condition)?;
        search_suite(facts, sinks, owner, &branch.body)?;
    }
    Ok(())
}

/// Adds the sinks in an expression, if there is one.
fn search_option<'c>(
    facts: &Facts<'c, '_>,
    sinks: &mut Sinks,
    owner: Owner,
    value: &'c Option<Box<Expr>>,
) -> Result<(), OutOfMemory>
    requires { AreFacts facts.now }
    ensures { OnOk result (flows_kept sinks.new ≡ first_of_both (flows_kept sinks.old)
        (flows_to_sinks facts.now (taken_below facts.now owner (option_exprs (option_expr_of value.now))))) }
{
    match value {
        Some(value) => search(facts, sinks, owner, value),
        None => Ok(()),
    }
}

/// Adds the sinks in the expressions of a target.
fn search_target<'c>(
    facts: &Facts<'c, '_>,
    sinks: &mut Sinks,
    owner: Owner,
    target: &'c Target,
) -> Result<(), OutOfMemory>
    requires { AreFacts facts.now }
    ensures { OnOk result (flows_kept sinks.new ≡ first_of_both (flows_kept sinks.old)
        (flows_to_sinks facts.now (taken_below facts.now owner (target_exprs (target_of target.now))))) }
{
    match target {
        Target::Name(_) => Ok(()),
        Target::Attribute { object, .. } => search(facts, sinks, owner, object),
        Target::Index {
            object,
            key: index,
            ..
        } => {
            search(facts, sinks, owner, object)?;
            search(facts, sinks, owner, index)
        }
    }
}

/// Adds the sinks of what an expression takes, and those in its parts.
#[cycle(search)]
pub(crate) fn search<'c>(
    facts: &Facts<'c, '_>,
    sinks: &mut Sinks,
    owner: Owner,
    expr: &'c Expr,
) -> Result<(), OutOfMemory>
    requires { AreFacts facts.now }
    ensures { OnOk result (flows_kept sinks.new ≡ first_of_both (flows_kept sinks.old)
        (flows_to_sinks facts.now (taken_in facts.now owner (parts_in false (expr_of expr.now))))) }
{
    add_taken(facts, sinks, owner, expr)?;
    search_parts(facts, sinks, owner, expr)
}

/// Adds the sinks in the parts of an expression.
#[cycle(search)]
fn search_parts<'c>(
    facts: &Facts<'c, '_>,
    sinks: &mut Sinks,
    owner: Owner,
    expr: &'c Expr,
) -> Result<(), OutOfMemory>
    requires { AreFacts facts.now }
    ensures { OnOk result (flows_kept sinks.new ≡ first_of_both (flows_kept sinks.old)
        (flows_to_sinks facts.now (taken_in facts.now owner (inner_parts false (expr_of expr.now))))) }
{
    match expr {
        Expr::Name(_) | Expr::Int(_, _) | Expr::Str(_, _) => Ok(()),
        Expr::True(_) | Expr::False(_) | Expr::NoneValue(_) => Ok(()),
        Expr::Tuple(_, items) => search_each(facts, sinks, owner, items),
        Expr::List(_, items) => search_each(facts, sinks, owner, items),
        Expr::Dict(_, entries) => search_entries(facts, sinks, owner, entries),
        Expr::Negative(_, operand) => search(facts, sinks, owner, operand),
        Expr::Not(_, operand) => search(facts, sinks, owner, operand),
        Expr::IsNone(_, operand) => search(facts, sinks, owner, operand),
        Expr::IsNotNone(_, operand) => search(facts, sinks, owner, operand),
        Expr::Attribute { object, .. } => search(facts, sinks, owner, object),
        Expr::Binary { left, right, .. } => {
            search(facts, sinks, owner, left)?;
            search(facts, sinks, owner, right)
        }
        Expr::Compare { left, right, .. } => {
            search(facts, sinks, owner, left)?;
            search(facts, sinks, owner, right)
        }
        Expr::And { left, right, .. }
        | Expr::Or { left, right, .. }
        | Expr::Index {
            object: left,
            key: right,
            ..
        } => {
            search(facts, sinks, owner, left)?;
            search(facts, sinks, owner, right)
        }
        Expr::Call {
            callee,
            arguments,
            keywords,
            ..
        } => {
            search(facts, sinks, owner, callee)?;
            search_each(facts, sinks, owner, arguments)?;
            search_values(facts, sinks, owner, keywords)
        }
    }
}

/// Adds the sinks in expressions.
#[cycle(search)]
fn search_each<'c>(
    facts: &Facts<'c, '_>,
    sinks: &mut Sinks,
    owner: Owner,
    exprs: &'c [Expr],
) -> Result<(), OutOfMemory>
    requires { AreFacts facts.now }
    ensures { OnOk result (flows_kept sinks.new ≡ first_of_both (flows_kept sinks.old)
        (flows_to_sinks facts.now (taken_in facts.now owner (parts_in_all false (exprs_of_list exprs.now))))) }
{
    for expr in exprs {
        search(facts, sinks, owner, expr)?;
    }
    Ok(())
}

/// Adds the sinks in the keys and values of a dict display.
#[cycle(search)]
fn search_entries<'c>(
    facts: &Facts<'c, '_>,
    sinks: &mut Sinks,
    owner: Owner,
    entries: &'c [Entry],
) -> Result<(), OutOfMemory>
    requires { AreFacts facts.now }
    ensures { OnOk result (flows_kept sinks.new ≡ first_of_both (flows_kept sinks.old)
        (flows_to_sinks facts.now (taken_in facts.now owner (parts_in_entries false (entries_of_list entries.now))))) }
{
    for entry in entries {
        search(facts, sinks, owner, &entry.key)?;
        search(facts, sinks, owner, &entry.value)?;
    }
    Ok(())
}

/// Adds the sinks in the values of arguments by name.
#[cycle(search)]
fn search_values<'c>(
    facts: &Facts<'c, '_>,
    sinks: &mut Sinks,
    owner: Owner,
    keywords: &'c [KeywordArgument],
) -> Result<(), OutOfMemory>
    requires { AreFacts facts.now }
    ensures { OnOk result (flows_kept sinks.new ≡ first_of_both (flows_kept sinks.old)
        (flows_to_sinks facts.now (taken_in facts.now owner (parts_in_keywords false (keywords_of_list keywords.now))))) }
{
    for keyword in keywords {
        search(facts, sinks, owner, &keyword.value)?;
    }
    Ok(())
}
