//! The line on standard error after a check that gives no report.

ghost use Rattle.std.specs.Prelude.{Err};
ghost use Rattle.pc_checked_file.specs.Answers.{IsFaultShown, IsExplainedAs};

use pc_report::tell_fault;
use pc_source::{Counted, Fault};
use pc_top::CheckFault;
use std::alloc::Global;
use std::io::Write;

/// Writes the line of a refusal or of a failed allocation, and returns the fault. After a device failed it writes
/// nothing: the system's reason is the caller's to tell.
pub(crate) fn explained<E: Write + Drop>(
    alloc: Global,
    fault: CheckFault,
    errors: &mut Counted<E>,
) -> CheckFault
    ensures shown { IsFaultShown E.contents (Err result) errors.old errors.new }
    ensures fault { IsExplainedAs fault result }
{
    match fault {
        CheckFault::Refused(refusal) => {
            CheckFault::from(tell_fault(alloc, Fault::Refused(refusal), errors))
        }
        CheckFault::OutOfMemory => CheckFault::from(tell_fault(alloc, Fault::OutOfMemory, errors)),
        CheckFault::Read => CheckFault::Read,
        CheckFault::Write => CheckFault::Write,
    }
}
