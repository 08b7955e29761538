//! The run of the bytes of a reader, as text.

ghost use Rattle.std.specs.Prelude.{IfOk, IfErr, string_bytes};
ghost use Rattle.pc_source.specs.Answers.{OnRefusal};
ghost use Rattle.pc_front.specs.Bytes.{IsRefusalOf};
ghost use Rattle.pc_commands.specs.Running.{RunsPlainly};
ghost use Rattle.pc_traced_file.specs.Answers.{RunsInput, IsRefusedInput, IsTraceText};
ghost use Rattle.pc_traced_file.specs.Faults.{WhenRefused, IsBeforeWriting};

use crate::fault::RunFault;
use pc_commands::traced;
use pc_report::read_at_most;
use pc_run::trace_text;
use pc_source::{Counted, Fault};
use std::alloc::Global;
use std::io::Read;

/// The greatest number of bytes read: one more than a source text may have.
const MOST: usize = 1_048_577;

/// Runs the module that the bytes spell, and returns the text of its trace.
fn traced_text(alloc: Global, fuel: u64, choices: &[u8], bytes: &[u8]) -> Result<String, Fault>
    ensures trace { IfOk result
        (λ text. IsTraceText (RunsPlainly bytes.now fuel choices.now) (string_bytes text)) }
    ensures refused { IfErr result (OnRefusal (IsRefusalOf bytes.now)) }
{
    match traced(alloc, bytes, fuel, choices) {
        Ok(trace) => match trace_text(alloc, &trace) {
            Ok(text) => Ok(text),
            Err(_) => Err(Fault::OutOfMemory),
        },
        Err(fault) => Err(fault),
    }
}

/// Runs the module that the bytes of a reader spell, and returns the text of its trace.
pub(crate) fn traced_input<R: Read + Drop>(
    alloc: Global,
    fuel: u64,
    choices: &[u8],
    input: &mut Counted<R>,
) -> Result<String, RunFault>
    ensures trace { IfOk result
        (λ text. IsTraceText (RunsInput R.remaining fuel choices.now input.old input.new) (string_bytes text)) }
    ensures refused { IfErr result (WhenRefused (IsRefusedInput R.remaining input.old input.new)) }
    ensures before { IfErr result IsBeforeWriting }
{
    match read_at_most(alloc, input, MOST) {
        Ok(bytes) => match traced_text(alloc, fuel, choices, bytes.as_slice()) {
            Ok(text) => Ok(text),
            Err(fault) => Err(RunFault::from(fault)),
        },
        Err(fault) => Err(RunFault::from(fault)),
    }
}
