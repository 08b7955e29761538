//! The line on standard error after a run that gives no trace.

ghost use Rattle.std.specs.Prelude.{Err};
ghost use Rattle.pc_traced_file.specs.Answers.{IsFaultShown};
ghost use Rattle.pc_traced_file.specs.Faults.{IsExplainedAs};

use crate::fault::RunFault;
use pc_report::tell_fault;
use pc_source::{Counted, Fault};
use std::alloc::Global;
use std::io::Write;

/// Writes the line of a refusal or of a failed allocation, and returns the fault. After a device failed it writes
/// nothing: the system's reason is the caller's to tell.
pub(crate) fn after_telling<E: Write + Drop>(
    alloc: Global,
    fault: RunFault,
    errors: &mut Counted<E>,
) -> RunFault
    ensures shown { IsFaultShown E.contents (Err result) errors.old errors.new }
    ensures fault { IsExplainedAs fault result }
{
    match fault {
        RunFault::Refused(refusal) => {
            RunFault::from(tell_fault(alloc, Fault::Refused(refusal), errors))
        }
        RunFault::OutOfMemory => RunFault::from(tell_fault(alloc, Fault::OutOfMemory, errors)),
        RunFault::Read => RunFault::Read,
        RunFault::Write => RunFault::Write,
    }
}
