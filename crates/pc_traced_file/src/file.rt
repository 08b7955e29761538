//! The run of a file.

ghost use Rattle.std.specs.Prelude.{◌≡◌, ℕ, IfErr, IsTrue, false, take};
ghost use Rattle.std.specs.Io.KnownBytes.{Appends};
ghost use Rattle.pc_source.specs.Taken.{TakesAll};
ghost use Rattle.pc_traced_file.specs.Answers.{IsFaultShown, IsOutput, IsRefusedInput, RunsInput};
ghost use Rattle.pc_traced_file.specs.Faults.{WhenRefused};

use crate::fault::RunFault;
use crate::reading::traced_input;
use crate::telling::after_telling;
use pc_source::Counted;
use std::alloc::Global;
use std::io::{Read, Write};

/// Writes bytes and flushes the writer: bytes that were not flushed may be lost. Returns whether the writer accepted
/// all of them; if not, it accepted a beginning.
fn is_written<W: Write + Drop>(bytes: &[u8], output: &mut Counted<W>) -> bool
    ensures all { IsTrue result → TakesAll W.contents bytes.now output.old output.new }
    ensures beginning { result ≡ false
        → (count : ℕ) × Appends (W.contents output.old.device) (W.contents output.new.device) (take count bytes.now) }
{
    if !output.write_whole(bytes) {
        return false;
    }
    output.flush().is_ok()
}

/// Runs the bytes of a reader and writes the trace.
fn shown<R: Read + Drop, W: Write + Drop>(
    alloc: Global,
    fuel: u64,
    choices: &[u8],
    input: &mut Counted<R>,
    output: &mut Counted<W>,
) -> Result<(), RunFault>
    ensures output { IsOutput W.contents (RunsInput R.remaining fuel choices.now input.old input.new) result output.old output.new }
    ensures refused { IfErr result (WhenRefused (IsRefusedInput R.remaining input.old input.new)) }
{
    match traced_input(alloc, fuel, choices, input) {
        Ok(text) => {
            if is_written(text.as_bytes(), output) {
                Ok(())
            } else {
                Err(RunFault::Write)
            }
        }
        Err(fault) => Err(fault),
    }
}

/// Runs the module that the bytes of a reader spell, with that fuel and these choices, each a byte from which one free
/// answer is taken. Writes the text of its trace to `output`, or the line of a refusal or of a failed allocation to
/// `errors`. `status_of` gives the exit status of the program for the result.
///
/// Reading stops after 1,048,577 bytes, one more than a source text may have. Own rule of
/// the profile.
///
/// # Errors
///
/// `Refused` if the bytes spell no module; more than 1,048,576 bytes are refused once one more is read. `OutOfMemory`
/// only if an allocation failed; it takes the place of a refusal whose line found no memory. `Read` and `Write` if a
/// call of that device failed, a flush included, and even by an interruption: no call of it follows, and nothing is
/// written to `errors`. Nothing is written to `output` after any of these except `Write`, after which a beginning of
/// the trace is.
pub fn run_file<R: Read + Drop, W: Write + Drop, E: Write + Drop>(
    alloc: Global,
    fuel: u64,
    choices: &[u8],
    input: &mut Counted<R>,
    output: &mut Counted<W>,
    errors: &mut Counted<E>,
) -> Result<(), RunFault>
    ensures output { IsOutput W.contents (RunsInput R.remaining fuel choices.now input.old input.new) result output.old output.new }
    ensures errors { IsFaultShown E.contents result errors.old errors.new }
    ensures refused { IfErr result (WhenRefused (IsRefusedInput R.remaining input.old input.new)) }
{
    match shown(alloc, fuel, choices, input, output) {
        Ok(()) => Ok(()),
        Err(fault) => Err(after_telling(alloc, fault, errors)),
    }
}
