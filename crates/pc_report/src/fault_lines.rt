//! The line on standard error of a program that has no answer.

ghost use Rattle.std.specs.Prelude.{◌≡◌, IfOk, string_bytes};
ghost use Rattle.pc_source.specs.declared.fault.Fault.TheVariants as fault;
ghost use Rattle.pc_report.specs.FaultLines.{refusal_line, memory_line, fault_line, IsTold, IsFaultToldOf};

use pc_source::{Counted, Fault, OutOfMemory, Refusal};
use std::alloc::Global;
use std::io::Write;

/// Returns the line that tells a refusal, `refused CODE at byte N`, with its line feed.
fn refused(alloc: Global, refusal: &Refusal) -> Result<String, OutOfMemory>
    ensures { IfOk result (λ line. string_bytes line ≡ refusal_line refusal.now) }
{
    let code = refusal.code.text();
    let byte = refusal.byte;
    Ok(format!(in alloc; "refused {code} at byte {byte}\n")?)
}

/// Writes a line, or as much of it as the device accepts. If standard error fails, there is no other way to say so.
fn tell<E: Write + Drop>(line: &[u8], errors: &mut Counted<E>)
    ensures { IsTold E.contents line.now errors.old errors.new }
{
    let _ = errors.write_whole(line);
}

/// Returns the line of a failed allocation.
fn memory_text() -> &'static str
    ensures { result.now ≡ memory_line }
{
    "out of memory\n"
}

/// Writes the line of a failed allocation, and returns its fault.
fn tell_memory<E: Write + Drop>(errors: &mut Counted<E>) -> Fault
    ensures told { IsTold E.contents memory_line errors.old errors.new }
    ensures fault { result ≡ fault.OutOfMemory }
{
    tell(memory_text().as_bytes(), errors);
    Fault::OutOfMemory
}

/// Writes the line of a fault, `refused CODE at byte N` or `out of memory`, or as much of it as the device accepts.
/// Returns the fault, or that of a failed allocation where there was no memory for the line of a refusal; the line is
/// that of the fault which is returned. Own rule of the profile.
pub fn tell_fault<E: Write + Drop>(alloc: Global, fault: Fault, errors: &mut Counted<E>) -> Fault
    ensures told { IsTold E.contents (fault_line result) errors.old errors.new }
    ensures fault { IsFaultToldOf fault result }
{
    let Fault::Refused(refusal) = fault else {
        return tell_memory(errors);
    };
    match refused(alloc, &refusal) {
        Ok(line) => {
            tell(line.as_bytes(), errors);
            fault
        }
        Err(_) => tell_memory(errors),
    }
}
