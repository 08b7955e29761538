//! The execution of statements.

ghost use Rattle.std.specs.Prelude.{◌≤◌, ◌<◌, ◌≢◌, ℕ, [], OnOk, if◌then◌else◌};
ghost use Rattle.pc_tree.specs.Tree.{expr_of, stmts_of_list, stmt_of_kind, target_of};
ghost use Rattle.pc_value.specs.Meaning.{value_of};
ghost use Rattle.pc_machine.specs.Runs.{plain_parts};
ghost use Rattle.pc_run.specs.Internal.Nodes.{exec_one};
ghost use Rattle.pc_run.specs.Internal.Nodes.{assign_traced, branches_in};
ghost use Rattle.pc_machine.specs.Machine.{TellsProgress, progress_of, flow_of};
ghost use Rattle.pc_tree.specs.Lists.{branches_of_list};
ghost use Rattle.pc_source.specs.declared.place.Place.{Place as PlaceOf};
ghost use Rattle.pc_tree.specs.Tree.{asserts, assigns, evaluates, option_expr_of};

use crate::evaluate::eval;
use crate::loops::{eval_iterable, run_for, run_while};
use pc_machine::{Completion, Halt, Machine, Stop};
use pc_tree::{Branch, Expr, Name, Stmt, StmtKind, Target};
use pc_value::Value;
use std::alloc::Global;

/// Executes statements one after another; returns the way the last of them ended.
#[cycle(evaluate)]
pub(crate) fn exec<'m>(
    machine: &mut Machine<'m>,
    alloc: Global,
    body: &'m [Stmt],
) -> Result<Completion, Halt>
    ensures plain { (n : ℕ) → machine.old.fuel < n
        → TellsProgress flow_of result machine.new
        ((plain_parts n).exec (stmts_of_list body.now) (progress_of machine.old)) }
    ensures fuel { machine.new.fuel ≤ machine.old.fuel }
    ensures spent { OnOk result (body.now ≢ [] → machine.new.fuel < machine.old.fuel) }
{
    for statement in body {
        machine.charge()?;
        match exec_node(machine, alloc, &statement.kind)? {
            Completion::Next => {}
            flow => return Ok(flow),
        }
    }
    Ok(Completion::Next)
}

/// Executes a statement after its charge.
#[cycle(evaluate)]
#[inline(never)]
fn exec_node<'m>(
    machine: &mut Machine<'m>,
    alloc: Global,
    kind: &'m StmtKind,
) -> Result<Completion, Halt>
    ensures plain { (n : ℕ) (p : PlaceOf) → machine.old.fuel < n
        → TellsProgress flow_of result machine.new (exec_one n (stmt_of_kind p kind.now) (progress_of machine.old)) }
    ensures fuel { machine.new.fuel ≤ machine.old.fuel }
{
    match kind {
        StmtKind::Pass => Ok(Completion::Next),
        StmtKind::Break => Ok(Completion::Breaking),
        StmtKind::Continue => Ok(Completion::Continuing),
        StmtKind::Return(None) => Ok(Completion::Leaves(Value::None)),
        StmtKind::Return(Some(e)) => {
            let v = eval(machine, alloc, e)?;
            Ok(Completion::Leaves(v))
        }
        StmtKind::Assert(condition, message) => exec_assert(machine, alloc, condition, message),
        StmtKind::Annotated { value: None, .. } => Ok(Completion::Next),
        StmtKind::Annotated {
            target: name,
            value: Some(e),
            ..
        } => {
            let v = eval(machine, alloc, e)?;
            machine.bind_local(name.text.as_str(), v);
            Ok(Completion::Next)
        }
        StmtKind::Assign(target, e) => exec_assignment(machine, alloc, target, e),
        StmtKind::Expr(e) => exec_expression(machine, alloc, e),
        StmtKind::While(condition, body) => run_while(machine, alloc, condition, body),
        StmtKind::For {
            target: name,
            iterable: e,
            body,
        } => {
            let over = eval_iterable(machine, alloc, e)?;
            run_for(machine, alloc, over, name.text.as_str(), body)
        }
        StmtKind::If(branches, otherwise) => exec_branches(machine, alloc, branches, otherwise),
    }
}

/// Executes an assignment: its value, then its target. Language Reference 7.2 "Assignment statements".
#[cycle(evaluate)]
#[inline(never)]
fn exec_assignment<'m>(
    machine: &mut Machine<'m>,
    alloc: Global,
    target: &'m Target,
    e: &'m Expr,
) -> Result<Completion, Halt>
    ensures plain { (n : ℕ) (p : PlaceOf) → machine.old.fuel < n
        → TellsProgress flow_of result machine.new
        (exec_one n (assigns p (target_of target.now) (expr_of e.now)) (progress_of machine.old)) }
    ensures fuel { machine.new.fuel ≤ machine.old.fuel }
{
    let v = eval(machine, alloc, e)?;
    assign(machine, alloc, target, v)
}

/// Executes an expression and drops its value. Language Reference 7.1 "Expression statements".
#[cycle(evaluate)]
#[inline(never)]
fn exec_expression<'m>(
    machine: &mut Machine<'m>,
    alloc: Global,
    e: &'m Expr,
) -> Result<Completion, Halt>
    ensures plain { (n : ℕ) (p : PlaceOf) → machine.old.fuel < n
        → TellsProgress flow_of result machine.new
        (exec_one n (evaluates p (expr_of e.now)) (progress_of machine.old)) }
    ensures fuel { machine.new.fuel ≤ machine.old.fuel }
{
    eval(machine, alloc, e)?;
    Ok(Completion::Next)
}

/// Executes an `assert`: its condition, and if that is false its message, then another exception.
#[cycle(evaluate)]
#[inline(never)]
fn exec_assert<'m>(
    machine: &mut Machine<'m>,
    alloc: Global,
    condition: &'m Expr,
    message: &'m Option<Box<Expr>>,
) -> Result<Completion, Halt>
    ensures plain { (n : ℕ) (p : PlaceOf) → machine.old.fuel < n
        → TellsProgress flow_of result machine.new
        (exec_one n (asserts p (expr_of condition.now) (option_expr_of message.now)) (progress_of machine.old)) }
    ensures fuel { machine.new.fuel ≤ machine.old.fuel }
{
    let v = eval(machine, alloc, condition)?;
    if machine.is_true(&v) {
        return Ok(Completion::Next);
    }
    if let Some(e) = message {
        eval(machine, alloc, e)?;
    }
    Err(Halt::Stopped(Stop::Other))
}

/// Assigns a value to a target: the target's parts, its event, the store.
#[cycle(evaluate)]
#[inline(never)]
fn assign<'m>(
    machine: &mut Machine<'m>,
    alloc: Global,
    target: &'m Target,
    value: Value,
) -> Result<Completion, Halt>
    ensures plain { (n : ℕ) → machine.old.fuel < n
        → TellsProgress flow_of result machine.new
        (assign_traced n (target_of target.now) (value_of value) (progress_of machine.old)) }
    ensures fuel { machine.new.fuel ≤ machine.old.fuel }
{
    match target {
        Target::Name(name) => {
            machine.bind_local(name.text.as_str(), value);
            Ok(Completion::Next)
        }
        Target::Attribute {
            place,
            object,
            name: field,
        } => {
            let o = eval(machine, alloc, object)?;
            machine.store_attribute(alloc, *place, o, field.text.as_str(), value)
        }
        Target::Index { place, object, key } => {
            let o = eval(machine, alloc, object)?;
            let k = eval(machine, alloc, key)?;
            machine.store_item(alloc, *place, o, k, value)
        }
    }
}

/// Executes the first branch whose condition is true, else the suite of `else`.
#[cycle(evaluate)]
#[inline(never)]
fn exec_branches<'m>(
    machine: &mut Machine<'m>,
    alloc: Global,
    branches: &'m [Branch],
    otherwise: &'m [Stmt],
) -> Result<Completion, Halt>
    ensures plain { (n : ℕ) → machine.old.fuel < n
        → TellsProgress flow_of result machine.new
        (branches_in n (branches_of_list branches.now) (stmts_of_list otherwise.now) (progress_of machine.old)) }
    ensures fuel { machine.new.fuel ≤ machine.old.fuel }
{
    for branch in branches {
        let v = eval(machine, alloc, &branch.condition)?;
        if machine.is_true(&v) {
            return exec(machine, alloc, &branch.body);
        }
    }
    exec(machine, alloc, otherwise)
}
