//! The check of a file.

ghost use Rattle.std.specs.Prelude.{IfErr};
ghost use Rattle.pc_top.specs.Streaming.{IsRefusedStream, WhenRefused};
ghost use Rattle.pc_checked_file.specs.Answers.{IsFaultShown, IsOutput};

use crate::asked::{AnswerKind, Asked};
use crate::telling::explained;
use pc_source::Counted;
use pc_top::{CheckFault, FindingCounts, check_stream, explain_stream, types_stream};
use std::alloc::Global;
use std::io::{Read, Write};

/// Reads bytes to their end and writes the answer that is asked for.
fn shown<R: Read + Drop, W: Write + Drop>(
    alloc: Global,
    asked: Asked,
    input: &mut Counted<R>,
    output: &mut Counted<W>,
) -> Result<FindingCounts, CheckFault>
    ensures output { IsOutput W.contents (R.remaining input.old.device) asked result output.old output.new }
    ensures refused { IfErr result (WhenRefused (IsRefusedStream (R.remaining input.old.device))) }
{
    match asked.answer {
        AnswerKind::Report(format) => check_stream(alloc, input, output, asked.json, format),
        AnswerKind::Details => explain_stream(alloc, input, output, asked.json),
        AnswerKind::Types => types_stream(alloc, input, output, asked.json),
    }
}

/// Writes the answer as `shown` does, and flushes the writer, since an answer that was not flushed may be lost. Fails as
/// `shown` does, and with a fault of writing if the writer cannot be flushed.
fn shown_whole<R: Read + Drop, W: Write + Drop>(
    alloc: Global,
    asked: Asked,
    input: &mut Counted<R>,
    output: &mut Counted<W>,
) -> Result<FindingCounts, CheckFault>
    ensures output { IsOutput W.contents (R.remaining input.old.device) asked result output.old output.new }
    ensures refused { IfErr result (WhenRefused (IsRefusedStream (R.remaining input.old.device))) }
{
    match shown(alloc, asked, input, output) {
        Ok(counts) => match output.flush() {
            Ok(()) => Ok(counts),
            Err(_) => Err(CheckFault::Write),
        },
        Err(fault) => Err(fault),
    }
}

/// Checks the bytes of a reader: writes the report, with or without the details of its findings, or the listing of types
/// to `output`, or the line of a refusal or of a failed allocation to `errors`, and returns the numbers of errors and of
/// dynamic places, or the fault. `status_of` gives the exit status of the program for it. Own rule of the profile.
///
/// # Errors
///
/// As for `pc_top::check_stream`. `OutOfMemory` takes the place of a refusal whose line found no memory. After `Read`
/// and `Write` nothing is written to `errors`.
pub fn check_file<R: Read + Drop, W: Write + Drop, E: Write + Drop>(
    alloc: Global,
    asked: Asked,
    input: &mut Counted<R>,
    output: &mut Counted<W>,
    errors: &mut Counted<E>,
) -> Result<FindingCounts, CheckFault>
    ensures output { IsOutput W.contents (R.remaining input.old.device) asked result output.old output.new }
    ensures errors { IsFaultShown E.contents result errors.old errors.new }
    ensures refused { IfErr result (WhenRefused (IsRefusedStream (R.remaining input.old.device))) }
{
    match shown_whole(alloc, asked, input, output) {
        Ok(counts) => Ok(counts),
        Err(fault) => Err(explained(alloc, fault, errors)),
    }
}
