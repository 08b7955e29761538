//! The details of statements outside loops, and of statements that are not reached.

ghost use Rattle.std.specs.Prelude.{◌≡◌, OnOk, None, map, option_map};
ghost use Rattle.pc_tree.specs.declared.code.Code.TheVariants.{E05, E30};
ghost use Rattle.pc_tree.specs.Lists.{branches_of_list};
ghost use Rattle.pc_tree.specs.Tree.{stmt_of, stmts_of_list};
ghost use Rattle.pc_scope_findings.specs.Unreached.{first_token_place};
ghost use Rattle.pc_detail_texts.specs.Shown.{leaving_of_value};
ghost use Rattle.pc_detail_facts.specs.Held.{body_of};
ghost use Rattle.pc_name_details.specs.Naming.{behind_rule, below_rule, branches_rule, outside_of_value, statement_rule};
ghost use Rattle.pc_name_details.specs.Naming.{statements_rule};
ghost use Rattle.pc_name_details.specs.Naming.{suite_rule};
ghost use Rattle.pc_detail_facts.specs.Held.{stmt_lent};
ghost use Rattle.pc_name_details.specs.Offered.{AddsDetails, of_code, at_place};
ghost use Rattle.pc_detail_rules.specs.Statements.{leaving_of, loose_detail};

use crate::offers::Offers;
use pc_detail_facts::{Body, Facts};
use pc_detail_texts::{Leaving, RuleFault};
use pc_source::OutOfMemory;
use pc_tree::{Branch, Code, Stmt, StmtKind};

/// Returns how a statement leaves its suite.
fn leaving_of(statement: &Stmt) -> Leaving
    ensures { leaving_of_value result ≡ leaving_of (stmt_of statement.now) }
{
    match &statement.kind {
        StmtKind::Return(_) => Leaving::Return,
        StmtKind::Break => Leaving::Break,
        StmtKind::Continue => Leaving::Continue,
        _ => Leaving::If,
    }
}

/// Finds the details of the statements of a suite, and of those in their suites.
#[cycle(leaving)]
fn add_suite(facts: &Facts<'_, '_>, offers: &mut Offers, suite: &[Stmt]) -> Result<(), OutOfMemory>
    ensures { OnOk result (AddsDetails facts.now (suite_rule None (stmts_of_list suite.now)) offers.old offers.new) }
{
    let mut before: Option<&Stmt> = None;
    for statement in suite {
        add_statement(facts, offers, before, statement)?;
        add_below(facts, offers, statement)?;
        before = Some(statement);
    }
    Ok(())
}

/// Finds the details of the statements in the suites of a statement.
#[cycle(leaving)]
fn add_below(
    facts: &Facts<'_, '_>,
    offers: &mut Offers,
    statement: &Stmt,
) -> Result<(), OutOfMemory>
    ensures { OnOk result (AddsDetails facts.now (below_rule (stmt_of statement.now)) offers.old offers.new) }
{
    let (branches, last) = statement.kind.suites();
    add_branches(facts, offers, branches)?;
    add_suite(facts, offers, last)
}

/// Finds the details of the statements of branches.
#[cycle(leaving)]
fn add_branches(
    facts: &Facts<'_, '_>,
    offers: &mut Offers,
    branches: &[Branch],
) -> Result<(), OutOfMemory>
    ensures { OnOk result
        (AddsDetails facts.now (branches_rule (branches_of_list branches.now)) offers.old offers.new) }
{
    for branch in branches {
        add_suite(facts, offers, &branch.body)?;
    }
    Ok(())
}

/// Finds the details of a statement, after the one before it.
fn add_statement(
    facts: &Facts<'_, '_>,
    offers: &mut Offers,
    before: Option<&Stmt>,
    statement: &Stmt,
) -> Result<(), OutOfMemory>
    ensures { OnOk result (AddsDetails facts.now
        (statement_rule (option_map stmt_lent before.entry) (stmt_of statement.now)) offers.old offers.new) }
{
    add_unreached(facts, offers, before, statement)?;
    add_loose(facts, offers, statement)
}

/// Adds the detail of a statement that is not reached, since the one before it leaves the suite.
fn add_unreached(
    facts: &Facts<'_, '_>,
    offers: &mut Offers,
    before: Option<&Stmt>,
    statement: &Stmt,
) -> Result<(), OutOfMemory>
    ensures { OnOk result (AddsDetails facts.now
        (behind_rule (option_map stmt_lent before.entry) (stmt_of statement.now)) offers.old offers.new) }
{
    let Some(before) = before else {
        return Ok(());
    };
    if !offers.wants(Code::E30, statement.first) {
        return Ok(());
    }
    let fault = RuleFault::Unreachable(leaving_of(before), before.first);
    offers.keep(Code::E30, statement.first, fault)
}

/// Returns the keyword of a `break` or a `continue`.
fn loose(statement: &Stmt) -> Option<Leaving>
    ensures { option_map outside_of_value result ≡ loose_detail (stmt_of statement.now) }
{
    match &statement.kind {
        StmtKind::Break => Some(Leaving::Break),
        StmtKind::Continue => Some(Leaving::Continue),
        _ => None,
    }
}

/// Adds the detail of a `break` or a `continue` outside a loop.
fn add_loose(
    facts: &Facts<'_, '_>,
    offers: &mut Offers,
    statement: &Stmt,
) -> Result<(), OutOfMemory>
    ensures { OnOk result (AddsDetails facts.now (of_code E05 (at_place (first_token_place (stmt_of statement.now))
        (loose_detail (stmt_of statement.now)))) offers.old offers.new) }
{
    let Some(word) = loose(statement) else {
        return Ok(());
    };
    if !offers.wants(Code::E05, statement.first) {
        return Ok(());
    }
    offers.keep(Code::E05, statement.first, RuleFault::OutsideLoop(word))
}

/// Finds the details of the statements of functions and methods.
pub fn add_statements(
    facts: &Facts<'_, '_>,
    offers: &mut Offers,
    bodies: &[Body<'_>],
) -> Result<(), OutOfMemory>
    ensures { OnOk result (AddsDetails facts.now (statements_rule (map body_of bodies.now)) offers.old offers.new) }
{
    for body in bodies {
        add_suite(facts, offers, &body.function.body)?;
    }
    Ok(())
}
