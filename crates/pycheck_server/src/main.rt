//! The language server: reads framed messages from standard input and writes its replies to standard output.
#![tactic(auto)]

use pc_checked_session::{answer, status_of};
use pc_message_loop::ServingEnd;
use pc_source::Counted;
use std::io::{BufReader, BufWriter, ErrorKind};
use std::process::ExitCode;
use std::rt::Env;
use std::{env, io};

/// Text of the help.
const HELP: &str = "Usage: pycheck_server [--stdio] [--clientProcessId=N]\n\n\
    Answers the Language Server Protocol over standard input and output.\n\n\
    Options:\n      --stdio              Use standard input and output, as always\n\
    \x20     --clientProcessId=N  Taken, and not used: the server ends with its input\n\
    \x20 -h, --help               Print help\n  -V, --version            Print version\n";

/// Text of the version.
const VERSION: &str = "pycheck_server 1.0.0\n";

/// Request of the command line.
enum Asked {
    Serve,
    Help,
    Version,
    Mistake,
    /// A word is not UTF-8.
    NoText,
    /// An allocation for the words failed.
    OutOfMemory,
}

/// Returns whether a word names the client's process, as editors pass it; the server does not use it.
fn names_client(word: &str) -> bool {
    match word.strip_prefix("--clientProcessId=") {
        None => false,
        Some(number) => !number.is_empty() && number.bytes().all(|byte| byte.is_ascii_digit()),
    }
}

/// Returns the request of words that are UTF-8.
fn asked_in(given: &[String]) -> Asked {
    match given {
        [] => Asked::Serve,
        [word] => match word.as_str() {
            "--stdio" => Asked::Serve,
            "--help" | "-h" => Asked::Help,
            "--version" | "-V" => Asked::Version,
            word if names_client(word) => Asked::Serve,
            _ => Asked::Mistake,
        },
        [first, second] => {
            let (first, second) = (first.as_str(), second.as_str());
            if first == "--stdio" && names_client(second)
                || names_client(first) && second == "--stdio"
            {
                Asked::Serve
            } else {
                Asked::Mistake
            }
        }
        _ => Asked::Mistake,
    }
}

/// Reads the words of the command line.
fn asked_for<R: Env + AllocGlobal>(rt: &R) -> Asked {
    let words = match env::args(rt) {
        Ok(words) => words,
        Err(error) if error.kind() == ErrorKind::OutOfMemory => return Asked::OutOfMemory,
        Err(_) => return Asked::NoText,
    };
    match words.skip(1).collect::<Vec<String>>(rt.alloc()) {
        Ok(given) => asked_in(&given),
        Err(_) => Asked::OutOfMemory,
    }
}

/// Prints a text and returns the exit status.
fn told<R: Print>(rt: &R, text: &str) -> u8 {
    if print!(rt; "{text}").is_ok() { 0 } else { 3 }
}

/// Reports that an allocation failed and returns the exit status.
fn out_of_memory<R: Eprint>(rt: &R) -> u8 {
    let _ = eprint!(rt; "out of memory\n");
    3
}

/// Reports the reason that the server ended, unless it was asked to.
fn explain<R: Eprint>(rt: &R, end: &ServingEnd) {
    match end {
        ServingEnd::Exited(_) | ServingEnd::Ended => {}
        ServingEnd::Broken(fault) => {
            let _ = eprint!(rt; "pycheck_server: {fault}\n");
        }
        ServingEnd::Failed => {
            let _ = eprint!(rt; "pycheck_server: a device failed\n");
        }
    }
}

/// Answers the messages of standard input on standard output and returns the exit status.
fn served<R: Print + Eprint + Input + AllocGlobal>(rt: &R) -> u8 {
    let Ok(reader) = BufReader::new(rt.alloc(), rt.reader()) else {
        return out_of_memory(rt);
    };
    let Ok(writer) = BufWriter::new(rt.alloc(), io::writer(rt)) else {
        return out_of_memory(rt);
    };
    let mut input = Counted::new(reader);
    let mut output = Counted::new(writer);
    let end = answer(rt.alloc(), &mut input, &mut output);
    explain(rt, &end);
    status_of(&end)
}

/// Runs the program on the words of its command line and returns the exit status.
fn run<R: Print + Eprint + Input + Env + AllocGlobal>(rt: &R) -> u8 {
    match asked_for(rt) {
        Asked::Serve => served(rt),
        Asked::Help => told(rt, HELP),
        Asked::Version => told(rt, VERSION),
        Asked::OutOfMemory => out_of_memory(rt),
        Asked::NoText => {
            let _ = eprint!(rt; "error: a word of the command line is not UTF-8\n");
            3
        }
        Asked::Mistake => {
            let _ = eprint!(rt; "error: unexpected words\n\n{HELP}");
            3
        }
    }
}

fn main(rt: HostRuntime) -> ExitCode {
    ExitCode::from(run(&rt))
}
