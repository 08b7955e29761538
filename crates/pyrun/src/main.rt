//! Runs a module: `pyrun --fuel N [--choices WORD] FILE`.
#![tactic(auto)]

use pc_commands::{RemembersError, given_words, reason_of, tell};
pub use pc_commands::{OptionFault, RunOptions as Options, run_options as options};
use pc_source::Counted;
use pc_traced_file::{RunFault, run_file, status_of};
use std::fs::File;
use std::io;
use std::io::{ErrorKind, Write};
use std::process::ExitCode;
use std::rt::{Env, Files};

/// Reads the words of the command line.
fn asked_for<R: Env + AllocGlobal>(rt: &R) -> Result<Options, OptionFault> {
    let given = given_words(rt)?;
    let words: Vec<&str> = given.iter().map(|word| word.as_str()).collect(rt.alloc())?;
    options(rt.alloc(), words.as_slice())
}

/// Prints the system's reason that a device failed; if there is none, the fault.
fn explain<R: Eprint + AllocGlobal>(
    rt: &R,
    fault: &RunFault,
    device: &str,
    error: Option<io::Error>,
) {
    let Some(error) = error else {
        let _ = eprintln!(rt; "{fault}");
        return;
    };
    // If standard error fails too, there is no other way to report it.
    let _ = match reason_of(rt.alloc(), &error) {
        // Opening a file asks for memory too; a failed allocation is no fault of the device.
        Ok(reason) if error.kind() != ErrorKind::OutOfMemory => {
            eprintln!(rt; "pyrun: {device}: {reason}")
        }
        _ => eprintln!(rt; "out of memory"),
    };
}

/// Runs the content of a file and writes the trace to standard output.
fn traced<R: Print + Eprint + Files + AllocGlobal, E: Write + Drop>(
    rt: &R,
    options: &Options,
    file: R::File,
    errors: E,
) -> Result<(), RunFault> {
    let mut input = Counted::new(RemembersError::new(file));
    let mut output = Counted::new(RemembersError::new(io::writer(rt)));
    let mut errors = Counted::new(errors);
    let outcome = run_file(
        rt.alloc(),
        options.fuel,
        options.choices.as_bytes(),
        &mut input,
        &mut output,
        &mut errors,
    );
    match &outcome {
        Err(RunFault::Read) => explain(
            rt,
            &RunFault::Read,
            options.file.as_str(),
            input.inner().error(),
        ),
        Err(RunFault::Write) => explain(
            rt,
            &RunFault::Write,
            "standard output",
            output.inner().error(),
        ),
        _ => {}
    }
    outcome
}

/// Opens the file and runs it.
fn opened<R: Print + Eprint + Files + AllocGlobal, E: Write + Drop>(
    rt: &R,
    options: &Options,
    errors: E,
) -> Result<(), RunFault> {
    match File::open(rt, options.file.as_str()) {
        Ok(file) => traced(rt, options, file, errors),
        Err(error) => {
            explain(rt, &RunFault::Read, options.file.as_str(), Some(error));
            Err(RunFault::Read)
        }
    }
}

/// Runs the program on the words of its command line and returns the exit status.
fn run<R: Print + Eprint + Env + Files + AllocGlobal, E: Write + Drop>(rt: &R, errors: E) -> u8 {
    match asked_for(rt) {
        Ok(options) => status_of(&opened(rt, &options, errors)),
        Err(fault) => tell(rt, &fault),
    }
}

fn main(rt: HostRuntime) -> ExitCode {
    ExitCode::from(run(&rt, rt.stderr()))
}
