//! The turns of loops.

ghost use Rattle.std.specs.Prelude.{◌≤◌, ◌<◌, ℕ};
ghost use Rattle.pc_tree.specs.Tree.{expr_of, stmts_of_list};
ghost use Rattle.pc_value.specs.Doing.{iteration_of};
ghost use Rattle.pc_machine.specs.Runs.{plain_parts};
ghost use Rattle.pc_run.specs.Internal.Nodes.{iterable_in};
ghost use Rattle.pc_machine.specs.Machine.{TellsProgress, progress_of, flow_of};

use crate::evaluate::{eval, eval_all, eval_keywords};
use crate::forms::{advance, range_call};
use crate::statements::exec;
use pc_machine::{Completion, Halt, Machine};
use pc_tree::{Expr, Stmt};
use pc_value::{Action, Iteration};
use std::alloc::Global;

/// Runs a `while`. Language Reference 8.2 "The while statement".
#[cycle(evaluate)]
#[inline(never)]
pub(crate) fn run_while<'m>(
    machine: &mut Machine<'m>,
    alloc: Global,
    condition: &'m Expr,
    body: &'m [Stmt],
) -> Result<Completion, Halt>
    ensures plain { (n : ℕ) → machine.old.fuel < n
        → TellsProgress flow_of result machine.new
        ((plain_parts n).again (expr_of condition.now) (stmts_of_list body.now) (progress_of machine.old)) }
    ensures fuel { machine.new.fuel ≤ machine.old.fuel }
{
    loop {
        let v = eval(machine, alloc, condition)?;
        if !machine.is_true(&v) {
            return Ok(Completion::Next);
        }
        machine.charge_empty(body)?;
        match exec(machine, alloc, body)? {
            Completion::Next => {}
            Completion::Continuing => {}
            Completion::Breaking => return Ok(Completion::Next),
            Completion::Leaves(v) => return Ok(Completion::Leaves(v)),
        }
    }
}

/// Evaluates the iterable of a `for` and returns its source of items. Language Reference 8.3 "The for statement".
#[cycle(evaluate)]
#[inline(never)]
pub(crate) fn eval_iterable<'m>(
    machine: &mut Machine<'m>,
    alloc: Global,
    e: &'m Expr,
) -> Result<Iteration, Halt>
    ensures plain { (n : ℕ) → machine.old.fuel < n
        → TellsProgress iteration_of result machine.new (iterable_in n (expr_of e.now) (progress_of machine.old)) }
    ensures fuel { machine.new.fuel ≤ machine.old.fuel }
{
    if let Some((place, name, arguments, by_name)) = range_call(e) {
        machine.charge()?;
        machine.charge()?;
        machine.emit(name.place)?;
        let values = eval_all(machine, alloc, arguments)?;
        let named = eval_keywords(machine, alloc, by_name)?;
        return machine.iterate_range(alloc, place, values, &named);
    }
    let v = eval(machine, alloc, e)?;
    machine.act_iteration(alloc, Action::Iterate(v))
}

/// Runs the turns of a `for`. Language Reference 8.3 "The for statement".
#[cycle(evaluate)]
#[inline(never)]
pub(crate) fn run_for<'m>(
    machine: &mut Machine<'m>,
    alloc: Global,
    over: Iteration,
    name: &'m str,
    body: &'m [Stmt],
) -> Result<Completion, Halt>
    ensures plain { (n : ℕ) → machine.old.fuel < n
        → TellsProgress flow_of result machine.new
        ((plain_parts n).turns (iteration_of over) 0 name.now (stmts_of_list body.now) (progress_of machine.old)) }
    ensures fuel { machine.new.fuel ≤ machine.old.fuel }
{
    // Each turn takes at least one unit of fuel, so no more turns than this follow.
    let _most = machine.fuel;
    let mut turn = Action::Turn(over, 0);
    loop {
        match machine.act_item(alloc, &turn)? {
            None => return Ok(Completion::Next),
            Some(v) => machine.bind_local(name, v),
        }
        machine.charge_empty(body)?;
        match exec(machine, alloc, body)? {
            Completion::Next => {}
            Completion::Continuing => {}
            Completion::Breaking => return Ok(Completion::Next),
            Completion::Leaves(v) => return Ok(Completion::Leaves(v)),
        }
        advance(&mut turn);
    }
}
