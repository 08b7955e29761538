//! The run of the module that bytes spell.
ghost use Rattle.std.specs.Prelude.{length, IfOk, IfErr};
ghost use Rattle.pc_source.specs.Answers.{OnRefusal};
ghost use Rattle.pc_source.specs.Within.{IsWithin};
ghost use Rattle.pc_run.specs.Traces.{end_of_rust};
ghost use Rattle.pc_front.specs.Bytes.{IsRefusalOf};
ghost use Rattle.pc_commands.specs.Running.{RunsPlainly};

use pc_front::read_module;
use pc_run::{Trace, run};
use pc_source::Fault;
use std::alloc::Global;

/// Runs the module that the bytes spell and returns the trace of its plain run with that fuel and these choices, each a
/// byte from which one free answer is taken. Own rule of the profile.
///
/// # Errors
///
/// The refusal of the bytes if they spell no module; `OutOfMemory` if an allocation failed.
pub fn traced(alloc: Global, bytes: &[u8], fuel: u64, choices: &[u8]) -> Result<Trace, Fault>
    ensures runs { IfOk result
        (λ t. RunsPlainly bytes.now fuel choices.now t.events.items (end_of_rust t.end)) }
    ensures refused { IfErr result (OnRefusal (IsRefusalOf bytes.now)) }
    ensures within { IfErr result (IsWithin (length bytes.now)) }
{
    let program = read_module(alloc, bytes)?;
    let trace = run(alloc, &program, fuel, choices)?;
    Ok(trace)
}
