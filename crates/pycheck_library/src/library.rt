//! The call of the library.

ghost use Rattle.std.specs.Prelude.{◌≡◌, ◌↔◌, ◌≤◌, IfOk, IfErr, IfSome, IfNone, string_bytes};
ghost use Rattle.pc_report.specs.Format.{format_number};
ghost use Rattle.pc_top.specs.Headline.{Headline};
ghost use Rattle.pc_top.specs.Streaming.{report_bytes};
ghost use Rattle.pycheck_library.specs.Answers.{IsReported, IsRefused, NamesFormat, TellsReport};

use crate::answer::{CheckAnswer, of_kind, refusal_answer, reported};
use crate::room::copy_into;
use pc_report::{Format, Report};
use pc_source::{Fault, OutOfMemory};
use pc_top::check;
use std::alloc::Global;

/// The format that a number names, if it names one.
fn format_of(number: u32) -> Option<Format>
    ensures some { IfSome result (λ f. format_number f ≡ number) }
    ensures none { IfNone result (¬ (NamesFormat number)) }
{
    match number {
        1 => Some(Format::One),
        2 => Some(Format::Two),
        _ => None,
    }
}

/// The bytes of a report, as JSON or as text.
fn text_of(
    alloc: Global,
    report: &Report,
    json: bool,
    format: Format,
) -> Result<String, OutOfMemory>
    ensures { IfOk result (λ t. string_bytes t ≡ report_bytes json format report.now) }
{
    if json {
        report.to_json(alloc, format)
    } else {
        report.to_text(alloc, format)
    }
}

/// The answer with a report, which is put into the room.
fn answer_of(
    alloc: Global,
    report: &Report,
    json: bool,
    format: Format,
    room: &mut [u8],
) -> Result<CheckAnswer, OutOfMemory>
    ensures told { IfOk result (TellsReport json format report.now room.old room.new) }
    ensures untouched { IfErr result (λ _. room.new ≡ room.old) }
{
    let text = text_of(alloc, report, json, format)?;
    copy_into(room, text.as_bytes());
    Ok(reported(report, text.len()))
}

/// Checks bytes as `check` does, and puts the report into a room, as JSON or as text, in the format that a number
/// names: 1 or 2. Where the room has less than the `length` of the answer, nothing is put there: call again with more
/// room.
///
/// The answer says by its `kind` what there is. With 0 it is a report: the bytes spell exactly one module, the report
/// lists exactly the findings of its typing, and its promise of runs is that of `check`. With 1 the bytes spell no
/// module, and their refusal is told. With 2 an allocation failed, and with 3 the number names no format. Without a
/// report the room stays as it is.
///
/// Own rule of the profile.
#[unsafe(no_mangle)]
pub extern "C" fn pycheck_check(
    alloc: Global,
    bytes: &[u8],
    json: bool,
    format: u32,
    room: &mut [u8],
) -> CheckAnswer
    ensures reported { result.kind ≡ 0 → IsReported bytes.now json «format» room.old room.new result }
    ensures refused { result.kind ≡ 1 → IsRefused bytes.now result }
    ensures unnamed { result.kind ≡ 3 ↔ ¬ (NamesFormat «format») }
    ensures kinds { result.kind ≤ 3 }
    ensures untouched { ¬ (result.kind ≡ 0) → room.new ≡ room.old }
{
    let Some(format) = format_of(format) else {
        return of_kind(3);
    };
    match check(alloc, bytes) {
        Ok(report) => match answer_of(alloc, &report, json, format, room) {
            Ok(answer) => answer,
            Err(_) => of_kind(2),
        },
        Err(Fault::Refused(refusal)) => refusal_answer(refusal),
        Err(Fault::OutOfMemory) => of_kind(2),
    }
}
