//! The statuses of runs, by `pc_traced_file`, and the reasons of devices, by `pc_commands`.
use crate::options::fault_text;
use pc_commands::{OptionFault, RemembersError, reason_of};
use pc_source::Counted;
use pc_traced_file::{RunFault, run_file, status_of};
use std::alloc::{AllocError, Global};
use std::io;
use std::io::Write;

/// Returns the number of events of the trace that was written, and its end.
fn trace_summary(alloc: Global, written: &[u8]) -> Result<String, AllocError> {
    let text = str::from_utf8(written).unwrap_or("");
    let (events, end) = text.split_once("end ").unwrap_or((text, ""));
    let count = events.lines().count();
    format!(in alloc; "{count} {}", end.trim_end())
}

/// Returns the status of the run of a module with that fuel and the bytes of that word as choices, and a summary of its
/// trace or the line of its fault.
fn outcome_text(alloc: Global, text: &str, fuel: u64, choices: &str) -> Result<String, AllocError> {
    let mut input = Counted::new(text.as_bytes());
    let mut output = Counted::new(Vec::new(alloc));
    let mut errors = Counted::new(Vec::new(alloc));
    let outcome = run_file(
        alloc,
        fuel,
        choices.as_bytes(),
        &mut input,
        &mut output,
        &mut errors,
    );
    let status = status_of(&outcome);
    if outcome.is_ok() {
        let summary = trace_summary(alloc, output.inner().as_slice())?;
        return format!(in alloc; "{status}: {summary}");
    }
    let line = str::from_utf8(errors.inner().as_slice()).unwrap_or("");
    format!(in alloc; "{status}: {}", line.trim_end())
}

/// Returns the exit status of the run of a module, its number of events and its end, or its fault. The first line of
/// the row is the fuel, and after a space the word for the choices, if there is one; a row without such a line is a run
/// that was out of memory.
pub fn status_text(alloc: Global, row: &str) -> Result<String, AllocError> {
    let (words, text) = row.split_once('\n').unwrap_or(("", ""));
    let (fuel, choices) = words.split_once(' ').unwrap_or((words, ""));
    match fuel.parse() {
        Ok(fuel) => outcome_text(alloc, text, fuel, choices),
        Err(_) => {
            let fault = RunFault::OutOfMemory;
            format!(in alloc; "{}: {fault}", status_of(&Err(fault)))
        }
    }
}

/// A device with space for a number of bytes, which takes two per call.
#[derive(Drop)]
struct Full {
    room: usize,
}

impl Write for Full {
    fn write(&mut self, buf: &[u8]) -> io::Result<usize> {
        if self.room == 0 {
            return Err(io::Error::from(io::ErrorKind::StorageFull));
        }
        let count = buf.len().min(self.room).min(2);
        self.room -= count;
        Ok(count)
    }

    fn flush(&mut self) -> io::Result<()> {
        Ok(())
    }
}

/// Describes three calls of a device with space for three bytes: whether each succeeds, and the reason of the last
/// failure.
fn full_text(alloc: Global) -> Result<String, AllocError> {
    let mut device = RemembersError::new(Full { room: 3 });
    let mut text = String::new(alloc);
    for _ in 0..3 {
        let is_taken = device.write(b"ab").is_ok();
        write!(text, "{is_taken}, ")?;
    }
    if let Some(error) = device.error() {
        text.push_str(reason_of(alloc, &error)?.as_str())?;
    }
    Ok(text)
}

/// Returns the reason that a row names: of a full device, of words for which memory did not suffice, or of the system
/// error with this number.
pub fn reason_text(alloc: Global, row: &str) -> Result<String, AllocError> {
    match row {
        "full device" => full_text(alloc),
        "words" => fault_text(alloc, &OptionFault::OutOfMemory),
        _ => {
            let error = io::Error::from_raw_os_error(row.parse().unwrap_or(0));
            reason_of(alloc, &error)
        }
    }
}
