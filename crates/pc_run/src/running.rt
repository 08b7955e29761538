//! A plain run of a module, from its first item to its end.

ghost use Rattle.std.specs.Prelude.{◌≡◌, ◌≤◌, ◌<◌, ℕ, IfOk};
ghost use Rattle.pc_tree.specs.Tree.{module_of};
ghost use Rattle.pc_value.specs.Value.{Value as ValueOf};
ghost use Rattle.pc_value.specs.Meaning.{value_of};
ghost use Rattle.pc_machine.specs.Plain.{After};
ghost use Rattle.pc_machine.specs.Runs.{stopped, Leaves, PlainRun};
ghost use Rattle.pc_run.specs.Traces.{end_of_rust};
ghost use Rattle.pc_run.specs.Internal.LastLine.{main_entered};
ghost use Rattle.pc_machine.specs.Machine.{TellsProgress, progress_of, stop_of};

use crate::calls::call;
use crate::items::run_module;
use crate::trace::{End, Trace};
use pc_machine::{Halt, Machine, Stop};
use pc_source::OutOfMemory;
use pc_stopping::stops;
use pc_tree::Module;
use pc_value::{Exception, Value};
use std::alloc::Global;

/// Returns the end of a run that was stopped.
fn end_of_stop(stop: Stop) -> End
    ensures { end_of_rust result ≡ stopped (stop_of stop) }
{
    match stop {
        Stop::Raised(Exception::TypeError) => End::TypeError,
        Stop::Raised(Exception::AttributeError) => End::AttributeError,
        Stop::Raised(Exception::NameError) => End::NameError,
        Stop::Raised(Exception::UnboundLocalError) => End::UnboundLocalError,
        Stop::Other => End::Other,
        Stop::Outside => End::Outside,
        Stop::Cut => End::Cut,
    }
}

/// Calls `main`, without an event.
pub fn enter_main<'m>(machine: &mut Machine<'m>, alloc: Global) -> Result<Value, Halt>
    ensures plain { (n : ℕ) → machine.old.fuel < n
        → TellsProgress value_of result machine.new (main_entered n (progress_of machine.old)) }
    ensures fuel { machine.new.fuel ≤ machine.old.fuel }
{
    let called = machine.look_up_callee(alloc, "main")?;
    call(machine, alloc, called, &[], &[])
}

/// Returns the trace of a run that has ended.
fn trace_of(machine: Machine<'_>, ended: Result<Value, Halt>) -> Result<Trace, OutOfMemory>
    ensures { (l : After ValueOf) → TellsProgress value_of ended machine.entry l
        → IfOk result (λ trace. Leaves l trace.events.items (end_of_rust trace.end)) }
{
    match ended {
        Ok(_) => Ok(Trace {
            events: machine.events,
            end: End::Done,
        }),
        Err(Halt::Stopped(stop)) => Ok(Trace {
            events: machine.events,
            end: end_of_stop(stop),
        }),
        Err(Halt::OutOfMemory(error)) => Err(error),
    }
}

/// Runs a module and returns the trace of its plain run for this fuel and these choices, each a byte from which one
/// free answer is taken. A module with a code that prevents running leaves the profile without an event. Own rule
/// of the profile.
///
/// # Errors
///
/// `OutOfMemory` if an allocation failed.
pub fn run(alloc: Global, program: &Module, fuel: u64, choices: &[u8]) -> Result<Trace, OutOfMemory>
    ensures { IfOk result (λ trace.
        PlainRun (module_of program.now) fuel choices.now trace.events.items (end_of_rust trace.end)) }
{
    let found = stops(alloc, program.keys, program)?;
    if !found.is_empty() {
        return Ok(Trace {
            events: Vec::new(alloc),
            end: End::Outside,
        });
    }
    let mut machine = Machine::begin(alloc, program.keys, fuel, choices);
    let ended = run_module(&mut machine, alloc, program);
    trace_of(machine, ended)
}
