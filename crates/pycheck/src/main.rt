//! Checks a module: `pycheck [--json] [--types | --details | --format N] FILE`.
#![tactic(auto)]

use pc_checked_file::{AnswerKind, Asked, CheckFault, FindingCounts, check_file, status_of};
use pc_commands::{RemembersError, given_words, reason_of, tell};
pub use pc_commands::{CheckOptions as Options, OptionFault, check_options as options};
use pc_source::Counted;
use std::fs::File;
use std::io;
use std::io::Write;
use std::process::ExitCode;
use std::rt::{Env, Files};

/// Reads the words of the command line.
fn asked_for<R: Env + AllocGlobal>(rt: &R) -> Result<Options, OptionFault> {
    let given = given_words(rt)?;
    let words: Vec<&str> = given.iter().map(|word| word.as_str()).collect(rt.alloc())?;
    options(rt.alloc(), words.as_slice())
}

/// Prints the system's reason that a device failed; if there is none, or no memory for it, the fault.
fn explain<R: Eprint + AllocGlobal>(
    rt: &R,
    fault: &CheckFault,
    device: &str,
    error: Option<io::Error>,
) {
    if let Some(error) = error
        && let Ok(reason) = reason_of(rt.alloc(), &error)
    {
        let _ = eprintln!(rt; "pycheck: {device}: {reason}");
        return;
    }
    // If standard error fails too, there is no other way to report it.
    let _ = eprintln!(rt; "{fault}");
}

/// Checks the content of a file and writes the report, with details if they are asked for, or the listing of types, to
/// standard output.
fn checked<R: Print + Eprint + Files + AllocGlobal, E: Write + Drop>(
    rt: &R,
    options: &Options,
    file: R::File,
    errors: E,
) -> Result<FindingCounts, CheckFault> {
    let mut input = Counted::new(RemembersError::new(file));
    let mut output = Counted::new(RemembersError::new(io::writer(rt)));
    let mut errors = Counted::new(errors);
    let asked = Asked {
        answer: AnswerKind::asked_by(options.details, options.types, options.format),
        json: options.json,
    };
    let outcome = check_file(rt.alloc(), asked, &mut input, &mut output, &mut errors);
    match &outcome {
        Err(CheckFault::Read) => explain(
            rt,
            &CheckFault::Read,
            options.file.as_str(),
            input.inner().error(),
        ),
        Err(CheckFault::Write) => explain(
            rt,
            &CheckFault::Write,
            "standard output",
            output.inner().error(),
        ),
        _ => {}
    }
    outcome
}

/// Runs the program on the words of its command line and returns the exit status.
fn run<R: Print + Eprint + Env + Files + AllocGlobal, E: Write + Drop>(rt: &R, errors: E) -> u8 {
    let options = match asked_for(rt) {
        Ok(options) => options,
        Err(fault) => return tell(rt, &fault),
    };
    let outcome = match File::open(rt, options.file.as_str()) {
        Ok(file) => checked(rt, &options, file, errors),
        Err(error) => {
            explain(rt, &CheckFault::Read, options.file.as_str(), Some(error));
            Err(CheckFault::Read)
        }
    };
    status_of(&outcome)
}

fn main(rt: HostRuntime) -> ExitCode {
    ExitCode::from(run(&rt, rt.stderr()))
}
